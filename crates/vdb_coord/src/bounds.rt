//! Boxes of coordinates.
ghost use Rattle.std.specs.Prelude.{◌≡◌, ◌≤◌, ◌<◌, ◌^◌, ℕ, ◌&&◌, false, IsTrue, IfSome, IfNone};
ghost use Rattle.std.specs.Int.{int_max, int_min};
ghost use Rattle.vdb_coord.specs.Space.{coord, everywhere, is_box, is_inside, is_within, volume};
ghost use Rattle.vdb_coord.specs.Boxes.{box_of, is_bounds, meets, overlap};
ghost use Rattle.vdb_coord.specs.Blocks.{block_around, entries, sub_block, vdb};
ghost use Rattle.vdb_coord.specs.Entries.{AreBits, blocks_meeting, numbers_over, position_of};
ghost use Rattle.vdb_coord.specs.declared.Coord.{Coord};

use crate::axis::{extent, is_between, touches};
use crate::{Bits, Coord, Level};
use std::marker::Model;

/// A box of coordinates, given by its least and its greatest corner, which both belong to it (OpenVDB's `CoordBBox`).
/// A box is never empty.
#[derive(Clone, Copy, Debug, PartialEq, Eq)]
pub struct Bounds {
    min: Coord,
    max: Coord,
}

impl Model for Bounds {
    ghost use Rattle.std.specs.Prelude.{IsTrue};
    ghost use Rattle.vdb_coord.specs.Space.{Box, is_box};

    ghost Value = { Box };

    ghost view = { λ b. record { min = b.min; max = b.max } };

    ghost invariant = { λ b. IsTrue (is_box (record { min = b.min; max = b.max })) };

    ghost inverse = { λ b. record { min = b.min; max = b.max } };
}

impl Coord {
    /// Returns the greater of two coordinates' components along each axis (OpenVDB's `Coord::maxComponent`).
    pub fn greater(self, other: Coord) -> Coord
        ensures { result ≡ coord (int_max self.x other.x) (int_max self.y other.y) (int_max self.z other.z) }
    {
        Coord {
            x: self.x.max(other.x),
            y: self.y.max(other.y),
            z: self.z.max(other.z),
        }
    }

    /// Returns the lesser of two coordinates' components along each axis (OpenVDB's `Coord::minComponent`).
    pub fn lesser(self, other: Coord) -> Coord
        ensures { result ≡ coord (int_min self.x other.x) (int_min self.y other.y) (int_min self.z other.z) }
    {
        Coord {
            x: self.x.min(other.x),
            y: self.y.min(other.y),
            z: self.z.min(other.z),
        }
    }
}

impl Bounds {
    /// Returns the box from the least corner to the greatest. Returns `None` exactly if a component of the least
    /// corner is above the greatest's.
    pub fn new(min: Coord, max: Coord) -> Option<Bounds>
        ensures { result ≡ box_of min max }
    {
        if min.x <= max.x && min.y <= max.y && min.z <= max.z {
            Some(Bounds { min, max })
        } else {
            None
        }
    }

    /// Returns the box of all coordinates.
    pub fn all() -> Bounds
        ensures { result ≡ everywhere }
    {
        let (least, greatest) = (i32::MIN, i32::MAX);
        let min = Coord {
            x: least,
            y: least,
            z: least,
        };
        let max = Coord {
            x: greatest,
            y: greatest,
            z: greatest,
        };
        Bounds::between(min, max)
    }

    /// Returns the box of one coordinate.
    pub fn single(p: Coord) -> Bounds
        ensures { result ≡ record { min = p; max = p } }
    {
        Bounds::between(p, p)
    }

    /// Returns the box between two corners in order.
    pub(crate) fn between(min: Coord, max: Coord) -> Bounds
        requires { IsTrue (is_box (record { min = min; max = max })) }
        ensures { result ≡ record { min = min; max = max } }
    {
        Bounds { min, max }
    }

    /// Returns the least corner.
    pub fn min(self) -> Coord
        ensures corner { result ≡ self.min }
        ensures bounds { IsTrue (is_bounds self) }
    {
        self.min
    }

    /// Returns the greatest corner.
    pub fn max(self) -> Coord
        ensures corner { result ≡ self.max }
        ensures bounds { IsTrue (is_bounds self) }
    {
        self.max
    }

    /// Returns how many coordinates the box holds, at most 2 to the power 96.
    pub fn volume(self) -> u128
        ensures value { result ≡ volume self }
        ensures bound { result ≤ 2 ^ 96 }
    {
        let x = extent(self.min.x, self.max.x);
        let y = extent(self.min.y, self.max.y);
        let z = extent(self.min.z, self.max.z);
        x * y * z
    }

    /// Returns whether the box holds the coordinate.
    pub fn contains(self, p: Coord) -> bool
        ensures { result ≡ is_inside self p }
    {
        let x = is_between(self.min.x, self.max.x, p.x);
        let y = is_between(self.min.y, self.max.y, p.y);
        let z = is_between(self.min.z, self.max.z, p.z);
        x & y & z
    }

    /// Returns whether the box holds every coordinate of the other box.
    pub fn covers(self, other: Bounds) -> bool
        ensures { result ≡ is_within other self }
    {
        self.contains(other.min) & self.contains(other.max)
    }

    /// Returns whether some coordinate is inside both boxes (OpenVDB's `CoordBBox::hasOverlap`).
    pub fn meets(self, other: Bounds) -> bool
        ensures { result ≡ meets self other }
    {
        let x = touches(self.min.x, self.max.x, other.min.x, other.max.x);
        let y = touches(self.min.y, self.max.y, other.min.y, other.max.y);
        let z = touches(self.min.z, self.max.z, other.min.z, other.max.z);
        x & y & z
    }

    /// Returns the box of the coordinates that both boxes hold, and `None` exactly if they share none.
    pub fn intersect(self, other: Bounds) -> Option<Bounds>
        ensures value { result ≡ overlap self other }
        ensures both { IfSome result (λ b. (p : Coord) → is_inside b p ≡ (is_inside self p && is_inside other p)) }
        ensures none { IfNone result ((p : Coord) → (is_inside self p && is_inside other p) ≡ false) }
    {
        let min = self.min.greater(other.min);
        let max = self.max.lesser(other.max);
        Bounds::new(min, max)
    }

    /// Returns the numbers of the level's blocks that have a coordinate in the box: from the number of the least
    /// corner's block to the number of the greatest corner's.
    pub fn block_numbers_in(self, bits: Bits, level: Level) -> Bounds
        requires { AreBits bits }
        ensures numbers { result ≡ numbers_over bits level self }
        ensures bounds { IsTrue (is_bounds self) }
    {
        Bounds::between(
            self.min.block_number_in(bits, level),
            self.max.block_number_in(bits, level),
        )
    }

    /// Returns how many of the level's blocks have a coordinate in the box.
    pub fn blocks_meeting_in(self, bits: Bits, level: Level) -> u128
        requires { AreBits bits }
        ensures { result ≡ blocks_meeting bits level self }
    {
        self.block_numbers_in(bits, level).volume()
    }

    /// Returns `blocks_meeting_in` of a standard VDB tree.
    pub fn blocks_meeting(self, level: Level) -> u128
        ensures { result ≡ blocks_meeting vdb level self }
    {
        self.blocks_meeting_in(Bits::VDB, level)
    }

    /// Returns which entries of the level's node around `p` have a coordinate in the box: a box of their positions in
    /// the node, counted in entries along each axis. Returns `None` if no entry has one.
    pub fn entries_meeting_in(self, bits: Bits, level: Level, p: Coord) -> Option<Bounds>
        requires { AreBits bits }
        ensures some { IfSome result (λ positions. (i : ℕ) → i < entries bits level
            → is_inside positions (position_of bits level i) ≡ meets (sub_block bits level (block_around bits level p) i) self) }
        ensures none { IfNone result ((i : ℕ) → i < entries bits level
            → meets (sub_block bits level (block_around bits level p) i) self ≡ false) }
    {
        let block = p.block_in(bits, level);
        let min = self.min.greater(block.min);
        let max = self.max.lesser(block.max);
        match Bounds::new(min, max) {
            Some(_) => Some(Bounds::between(
                min.position_in(bits, level),
                max.position_in(bits, level),
            )),
            None => None,
        }
    }
}

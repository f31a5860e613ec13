//! The coordinates of a box in block order, from one block to the next.
ghost use Rattle.std.specs.Prelude.{◌≡◌, ◌<◌, ◌&&◌, IfSome, IsTrue};
ghost use Rattle.vdb_coord.specs.Blocks.{block_around};
ghost use Rattle.vdb_coord.specs.Entries.{AreBits};
ghost use Rattle.vdb_coord.specs.Order.{IsFirstInBlock, IsNextCoord, coordinates_past};
ghost use Rattle.vdb_coord.specs.Space.{everywhere, is_inside};
ghost use Rattle.vdb_coord.specs.declared.Coord.{Coord};
ghost use Rattle.vdb_coord.specs.declared.Level.TheVariants.{Leaf, Lower, Upper};

use crate::{Bits, Bounds, Coord, Level};

impl Bounds {
    /// Returns the first coordinate of the box, in block order, past the level's block around `p`, a coordinate of
    /// the box. Returns `None` if no coordinate of the box comes past that block.
    #[inline(always)]
    pub fn next_coord_in(self, bits: Bits, level: Level, p: Coord) -> Option<Coord>
        requires bits { AreBits bits }
        requires inside { IsTrue (is_inside self p) }
        ensures next { IsNextCoord bits level self p result }
        ensures nearer { IfSome result (λ next. coordinates_past bits next < coordinates_past bits p) }
    {
        match level {
            Level::Leaf => self.coord_past_leaf(bits, p),
            Level::Lower => self.coord_past_lower(bits, p),
            Level::Upper => self.coord_past_upper(bits, p),
        }
    }

    /// Returns the next coordinate past a leaf extent. It looks in the lower extent around `p` first.
    #[inline(always)]
    fn coord_past_leaf(self, bits: Bits, p: Coord) -> Option<Coord>
        requires bits { AreBits bits }
        requires inside { IsTrue (is_inside self p) }
        ensures next { IsNextCoord bits Leaf self p result }
        ensures within { IfSome result (λ next. IsTrue (is_inside everywhere next)) }
    {
        let part = self.part_around(bits, Level::Lower, p);
        match part.next_block_in(bits, Level::Leaf, p) {
            Some(next) => Some(self.first_in_block(bits, Level::Leaf, next)),
            None => self.coord_past_lower(bits, p),
        }
    }

    /// Returns the next coordinate past a lower extent. It looks in the upper extent around `p` first.
    fn coord_past_lower(self, bits: Bits, p: Coord) -> Option<Coord>
        requires bits { AreBits bits }
        requires inside { IsTrue (is_inside self p) }
        ensures next { IsNextCoord bits Lower self p result }
        ensures within { IfSome result (λ next. IsTrue (is_inside everywhere next)) }
    {
        let part = self.part_around(bits, Level::Upper, p);
        match part.next_block_in(bits, Level::Lower, p) {
            Some(next) => Some(self.first_in_block(bits, Level::Lower, next)),
            None => self.coord_past_upper(bits, p),
        }
    }

    /// Returns the next coordinate past an upper extent.
    fn coord_past_upper(self, bits: Bits, p: Coord) -> Option<Coord>
        requires bits { AreBits bits }
        requires inside { IsTrue (is_inside self p) }
        ensures next { IsNextCoord bits Upper self p result }
        ensures within { IfSome result (λ next. IsTrue (is_inside everywhere next)) }
    {
        match self.next_block_in(bits, Level::Upper, p) {
            Some(next) => Some(self.first_in_block(bits, Level::Upper, next)),
            None => None,
        }
    }

    /// Returns what the box and the level's block around `p`, a coordinate of the box, have in common.
    fn part_around(self, bits: Bits, level: Level, p: Coord) -> Bounds
        requires bits { AreBits bits }
        requires inside { IsTrue (is_inside self p) }
        ensures { (q : Coord) → is_inside result q ≡ (is_inside self q && is_inside (block_around bits level p) q) }
    {
        match self.intersect(p.block_in(bits, level)) {
            Some(part) => part,
            None => unreachable!(),
        }
    }

    /// Returns the first coordinate, in block order, that the box and the level's block around `p` have in common:
    /// their common box's least corner.
    fn first_in_block(self, bits: Bits, level: Level, p: Coord) -> Coord
        requires bits { AreBits bits }
        requires inside { IsTrue (is_inside self p) }
        ensures first { IsFirstInBlock bits level self p result }
        ensures within { IsTrue (is_inside everywhere result) }
    {
        self.min().greater(p.block_in(bits, level).min())
    }
}

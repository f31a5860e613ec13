//! The aligned blocks that a tree's nodes span.
ghost use Rattle.std.specs.Prelude.{◌≡◌, ◌<◌, ◌≤◌, ℤ, IsTrue};
ghost use Rattle.vdb_coord.specs.Blocks.{block, block_around, block_cmp, block_number, block_numbers, entries, key, offset, sub_block, vdb};
ghost use Rattle.vdb_coord.specs.Components.{first_of, last_of, number_at};
ghost use Rattle.vdb_coord.specs.Entries.{AreBits, position};
ghost use Rattle.vdb_coord.specs.Space.{coord, is_inside};
ghost use Rattle.vdb_coord.specs.declared.Level.TheVariants.{Upper};

use crate::axis::{
    digit, entry_first, entry_last, first_around, first_numbered, last_around, last_numbered,
    number_at, width,
};
use crate::{Bits, Bounds, Coord, Level};
use std::cmp::Ordering;

impl Coord {
    /// Returns the number of the level's block that holds this coordinate, counted in blocks along each axis.
    #[inline(always)]
    pub fn block_number_in(self, bits: Bits, level: Level) -> Coord
        requires { AreBits bits }
        ensures number { result ≡ block_number bits level self }
        ensures within { IsTrue (is_inside (block_numbers bits level) result) }
    {
        let low = bits.block_bits(level);
        let x = number_at(self.x, low);
        let y = number_at(self.y, low);
        let z = number_at(self.z, low);
        Coord { x, y, z }
    }

    /// Returns the key of this coordinate in a root table: the number of its upper extent, counted in upper extents
    /// along each axis (OpenVDB's `RootNode::coordToKey`, which counts voxels).
    #[inline(always)]
    pub fn key_in(self, bits: Bits) -> Coord
        requires { AreBits bits }
        ensures key { result ≡ key bits self }
        ensures within { IsTrue (is_inside (block_numbers bits Upper) result) }
    {
        self.block_number_in(bits, Level::Upper)
    }

    /// Returns the index of the entry that holds this coordinate, in the level's node around it (OpenVDB's
    /// `coordToOffset`).
    #[inline(always)]
    pub fn offset_in(self, bits: Bits, level: Level) -> u16
        requires { AreBits bits }
        ensures value { result ≡ offset bits level self }
        ensures bound { result < entries bits level }
    {
        let low = bits.entry_bits(level);
        let node = bits.node_bits(level);
        let x = digit(self.x, low, node);
        let y = digit(self.y, low, node);
        let z = digit(self.z, low, node);
        ((((x << node) + y) << node) + z) as u16
    }

    /// Returns `block_number_in` of a standard VDB tree.
    pub fn block_number(self, level: Level) -> Coord
        ensures number { result ≡ block_number vdb level self }
        ensures within { IsTrue (is_inside (block_numbers vdb level) result) }
    {
        self.block_number_in(Bits::VDB, level)
    }

    /// Returns `key_in` of a standard VDB tree.
    pub fn key(self) -> Coord
        ensures key { result ≡ key vdb self }
        ensures within { IsTrue (is_inside (block_numbers vdb Upper) result) }
    {
        self.key_in(Bits::VDB)
    }

    /// Returns `offset_in` of a standard VDB tree.
    #[inline(always)]
    pub fn offset(self, level: Level) -> u16
        ensures value { result ≡ offset vdb level self }
        ensures bound { result < entries vdb level }
    {
        self.offset_in(Bits::VDB, level)
    }

    /// Returns the least coordinate of the block around this one that spans `2 ^ bits` voxels along each axis.
    #[inline(always)]
    fn first_in(self, bits: u32) -> Coord
        requires { bits ≤ 15 }
        ensures { let first : ℤ → ℤ = λ x. first_of bits (number_at bits x) in result ≡ coord (first self.x) (first self.y) (first self.z) }
    {
        let x = first_around(self.x, bits);
        let y = first_around(self.y, bits);
        let z = first_around(self.z, bits);
        Coord { x, y, z }
    }

    /// Returns the greatest coordinate of the block around this one that spans `2 ^ bits` voxels along each axis.
    #[inline(always)]
    fn last_in(self, bits: u32) -> Coord
        requires { bits ≤ 15 }
        ensures { let last : ℤ → ℤ = λ x. last_of bits (number_at bits x) in result ≡ coord (last self.x) (last self.y) (last self.z) }
    {
        let x = last_around(self.x, bits);
        let y = last_around(self.y, bits);
        let z = last_around(self.z, bits);
        Coord { x, y, z }
    }

    /// Returns the level's block that holds this coordinate (OpenVDB's `getNodeBoundingBox`).
    #[inline(always)]
    pub fn block_in(self, bits: Bits, level: Level) -> Bounds
        requires { AreBits bits }
        ensures { result ≡ block_around bits level self }
    {
        let low = bits.block_bits(level);
        Bounds::between(self.first_in(low), self.last_in(low))
    }

    /// Returns `block_in` of a standard VDB tree.
    pub fn block(self, level: Level) -> Bounds
        ensures { result ≡ block_around vdb level self }
    {
        self.block_in(Bits::VDB, level)
    }

    /// Returns the level's block with this number, counted in blocks along each axis. The upper extent of a key is
    /// one example.
    pub fn numbered_block_in(self, bits: Bits, level: Level) -> Bounds
        requires configured { AreBits bits }
        requires within { IsTrue (is_inside (block_numbers bits level) self) }
        ensures { result ≡ block bits level self }
    {
        let low = bits.block_bits(level);
        let min = Coord {
            x: first_numbered(self.x, low),
            y: first_numbered(self.y, low),
            z: first_numbered(self.z, low),
        };
        let max = Coord {
            x: last_numbered(self.x, low),
            y: last_numbered(self.y, low),
            z: last_numbered(self.z, low),
        };
        Bounds::between(min, max)
    }

    /// Returns the coordinates of the entry with this index in the level's node around this coordinate.
    pub fn entry_block_in(self, bits: Bits, level: Level, index: u16) -> Bounds
        requires configured { AreBits bits }
        requires within { index < entries bits level }
        ensures { result ≡ sub_block bits level (block_around bits level self) index }
    {
        let low = bits.entry_bits(level);
        let node = bits.node_bits(level);
        let count = width(node);
        let row = u32::from(index) / count;
        let x = row / count;
        let y = row % count;
        let z = u32::from(index) % count;
        let min = Coord {
            x: entry_first(self.x, low, node, x),
            y: entry_first(self.y, low, node, y),
            z: entry_first(self.z, low, node, z),
        };
        let max = Coord {
            x: entry_last(self.x, low, node, x),
            y: entry_last(self.y, low, node, y),
            z: entry_last(self.z, low, node, z),
        };
        Bounds::between(min, max)
    }

    /// Returns the position of the entry that holds this coordinate in the level's node around it, counted in entries
    /// along each axis.
    pub fn position_in(self, bits: Bits, level: Level) -> Coord
        requires { AreBits bits }
        ensures { result ≡ position bits level self }
    {
        let low = bits.entry_bits(level);
        let node = bits.node_bits(level);
        let x = digit(self.x, low, node) as i32;
        let y = digit(self.y, low, node) as i32;
        let z = digit(self.z, low, node) as i32;
        Coord { x, y, z }
    }

    /// Compares two coordinates in block order: by key, and for equal keys by upper, then lower, then leaf offset.
    pub fn block_cmp_in(&self, bits: Bits, other: &Coord) -> Ordering
        requires { AreBits bits }
        ensures { result ≡ block_cmp bits self.now other.now }
    {
        let by = |level: Level| self
            .offset_in(bits, level)
            .cmp(&other.offset_in(bits, level));
        self.key_in(bits)
            .cmp(&other.key_in(bits))
            .then(by(Level::Upper))
            .then(by(Level::Lower))
            .then(by(Level::Leaf))
    }

    /// Returns `block_cmp_in` of a standard VDB tree.
    pub fn block_cmp(&self, other: &Coord) -> Ordering
        ensures { result ≡ block_cmp vdb self.now other.now }
    {
        self.block_cmp_in(Bits::VDB, other)
    }
}

//! The sizes of each level's nodes, entries and blocks, by the bits of a tree.
ghost use Rattle.std.specs.Prelude.{◌≡◌, ◌<◌};
ghost use Rattle.vdb_coord.specs.Blocks.{block_bits, entries, entry_bits, node_bits};
ghost use Rattle.vdb_coord.specs.Entries.{AreBits, position_of};

use crate::axis::width;
use crate::{Bits, Coord, Level};

impl Bits {
    /// Returns how many bits of a component tell the entries of the level's nodes apart: a node has 2 to that power
    /// entries along an axis.
    pub fn node_bits(self, level: Level) -> u32
        ensures { result ≡ node_bits self level }
    {
        match level {
            Level::Leaf => u32::from(self.leaf),
            Level::Lower => u32::from(self.lower),
            Level::Upper => u32::from(self.upper),
        }
    }

    /// Returns how many bits lie below the node bits: an entry of the level's nodes spans 2 to that power voxels
    /// along an axis.
    pub fn entry_bits(self, level: Level) -> u32
        ensures { result ≡ entry_bits self level }
    {
        match level {
            Level::Leaf => 0,
            Level::Lower => u32::from(self.leaf),
            Level::Upper => u32::from(self.leaf) + u32::from(self.lower),
        }
    }

    /// Returns the entry bits and the node bits together: a block of the level spans 2 to that power voxels along an
    /// axis (OpenVDB's `TOTAL`).
    pub fn block_bits(self, level: Level) -> u32
        ensures { result ≡ block_bits self level }
    {
        match level {
            Level::Leaf => u32::from(self.leaf),
            Level::Lower => u32::from(self.leaf) + u32::from(self.lower),
            Level::Upper => u32::from(self.leaf) + u32::from(self.lower) + u32::from(self.upper),
        }
    }

    /// Returns how many entries a node of the level has (OpenVDB's `NUM_VALUES`).
    pub fn entries(self, level: Level) -> u16
        requires { AreBits self }
        ensures { result ≡ entries self level }
    {
        let bits = self.node_bits(level);
        1 << (3 * bits)
    }

    /// Returns the position of the entry with this index in a node of the level, counted in entries along each axis.
    pub fn position_of(self, level: Level, index: u16) -> Coord
        requires configured { AreBits self }
        requires within { index < entries self level }
        ensures { result ≡ position_of self level index }
    {
        let count = width(self.node_bits(level));
        let row = u32::from(index) / count;
        let x = (row / count) as i32;
        let y = (row % count) as i32;
        let z = (u32::from(index) % count) as i32;
        Coord { x, y, z }
    }
}

//! The blocks that meet a box, one after another.
ghost use Rattle.std.specs.Prelude.{◌<◌, IfSome, IsTrue};
ghost use Rattle.vdb_coord.specs.Entries.{AreBits};
ghost use Rattle.vdb_coord.specs.Space.{is_inside};
ghost use Rattle.vdb_coord.specs.Walk.{IsNextBlock, coordinates_after};

use crate::{Bits, Bounds, Coord, Level};

impl Bounds {
    /// Returns a coordinate of the box in the next block of the level that meets the box, after the block around `p`.
    /// Blocks follow one another by x, then by y, then by z, so z changes first. Returns `None` if no further block
    /// meets the box. A walk that begins at the box's least corner visits each block that meets the box once.
    pub fn next_block_in(self, bits: Bits, level: Level, p: Coord) -> Option<Coord>
        requires bits { AreBits bits }
        requires inside { IsTrue (is_inside self p) }
        ensures next { IsNextBlock bits level self p result }
        ensures nearer { IfSome result (λ next. coordinates_after next < coordinates_after p) }
    {
        let last = p.block_in(bits, level).max();
        if last.z < self.max().z {
            return Some(Coord {
                x: p.x,
                y: p.y,
                z: last.z + 1,
            });
        }
        if last.y < self.max().y {
            return Some(Coord {
                x: p.x,
                y: last.y + 1,
                z: self.min().z,
            });
        }
        if last.x < self.max().x {
            return Some(Coord {
                x: last.x + 1,
                y: self.min().y,
                z: self.min().z,
            });
        }
        None
    }
}

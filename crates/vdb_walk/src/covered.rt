//! Finds how far a box holds the coordinates that follow one another in block order.

ghost use Rattle.std.specs.Prelude.{◌≡◌, IfSome, IsTrue};
ghost use Rattle.vdb_coord.specs.Blocks.{block_around};
ghost use Rattle.vdb_coord.specs.Entries.{AreBits};
ghost use Rattle.vdb_coord.specs.Space.{coord, everywhere, is_inside, is_within};
ghost use Rattle.vdb_walk.specs.internal.Covered.{IsCoveredTo, IsCoveredUpTo, node_of};

use vdb_coord::{Bits, Bounds, Coord, Level};

/// Returns a coordinate past the part, such that the box holds everything from the part on and before it. Returns `None` if the
/// walk itself finds what follows the part.
pub(crate) fn past_covered(bits: Bits, around: Bounds, part: Bounds) -> Option<Coord>
    requires { AreBits bits }
    ensures covered { IfSome result (IsCoveredTo bits around part.min) }
    ensures inside { IfSome result (λ next. IsTrue (is_inside everywhere next)) }
{
    if let Some(next) = past_run(bits, around, part, Level::Upper) {
        return Some(next);
    }
    if let Some(next) = past_run(bits, around, part, Level::Lower) {
        return Some(next);
    }
    past_run(bits, around, part, Level::Leaf)
}

/// Returns the first coordinate past a run of the level's blocks that begins around the part and reaches beyond it.
fn past_run(bits: Bits, around: Bounds, part: Bounds, level: Level) -> Option<Coord>
    requires { AreBits bits }
    ensures covered { IfSome result (IsCoveredTo bits around part.min) }
    ensures inside { IfSome result (λ next. IsTrue (is_inside everywhere next)) }
{
    match last_covered(bits, around, part.min(), level) {
        Some(last) => {
            if part.contains(last) {
                None
            } else {
                Bounds::all().next_coord_in(bits, level, last)
            }
        }
        None => None,
    }
}

/// Returns a coordinate of the last block of a run that the box holds. The run begins with the level's block around `p`, and goes
/// on to the end of its layer of the node if the box holds that. Returns `None` if the box doesn't hold the first block.
fn last_covered(bits: Bits, around: Bounds, p: Coord, level: Level) -> Option<Coord>
    requires bits { AreBits bits }
    requires inside { IsTrue (is_inside everywhere p) }
    ensures covered { IfSome result (IsCoveredUpTo bits around level p) }
    ensures inside { IfSome result (λ last. IsTrue (is_inside everywhere last)) }
{
    let block = p.block_in(bits, level);
    let end = block.max();
    if around.covers(block) {
        Some(last_of_layer(bits, around, p, level, end))
    } else {
        None
    }
}

/// Returns the last coordinate of the layer that the level's block around `p` is in, if the box holds the layer, or else the end
/// of that block.
fn last_of_layer(bits: Bits, around: Bounds, p: Coord, level: Level, end: Coord) -> Coord
    requires bits { AreBits bits }
    requires inside { IsTrue (is_inside everywhere p) }
    requires held { IsTrue (is_within (block_around bits level p) around) }
    requires end { end ≡ (block_around bits level p).max }
    requires end_inside { IsTrue (is_inside everywhere end) }
    ensures covered { IsCoveredUpTo bits around level p result }
    ensures inside { IsTrue (is_inside everywhere result) }
{
    let node = node_around(bits, level, p);
    let (least, most) = (node.min(), node.max());
    let first = layer_corner(p, least);
    let last = layer_corner(p, most);
    if holds_both(around, first, last) {
        last
    } else {
        end
    }
}

/// Returns whether the box holds both coordinates.
fn holds_both(around: Bounds, first: Coord, last: Coord) -> bool
    ensures first { IsTrue result → IsTrue (is_inside around first) }
    ensures last { IsTrue result → IsTrue (is_inside around last) }
{
    around.contains(first) && around.contains(last)
}

/// Returns the node of which the level's block around `p` is an entry, or all coordinates for an upper extent.
fn node_around(bits: Bits, level: Level, p: Coord) -> Bounds
    requires { AreBits bits }
    ensures { result ≡ node_of bits level p }
{
    match level {
        Level::Leaf => p.block_in(bits, Level::Lower),
        Level::Lower => p.block_in(bits, Level::Upper),
        Level::Upper => Bounds::all(),
    }
}

/// Returns a node's corner, moved to the layer of `p`.
fn layer_corner(p: Coord, corner: Coord) -> Coord
    ensures { result ≡ coord p.x corner.y corner.z }
{
    Coord {
        x: p.x,
        y: corner.y,
        z: corner.z,
    }
}

//! Whether the combination of two trees has too many upper extents.

ghost use Rattle.std.specs.Prelude.{◌≡◌, ◌≢◌, ◌<◌, ◌≤◌, false, Some, IsTrue};
ghost use Rattle.vdb_coord.specs.Blocks.{vdb};
ghost use Rattle.vdb_tree.specs.ConstantBlocks.{roots};
ghost use Rattle.vdb_tree.specs.Layout.{field_of};
ghost use Rattle.vdb_value.specs.Blends.{blended};
ghost use Rattle.vdb_composite.specs.Mixes.{HasMix, mixed, mixed_value};

use crate::mix::Mix;
use crate::search::{Sought, pair_meets};
use vdb_coord::Coord;
use vdb_node::Stored;
use vdb_pool::Steps;
use vdb_tree::{Pair, Tree};
use vdb_value::Cell;

/// Returns whether more upper extents than the first tree's limit hold a cell other than the background in the
/// combination of two trees, all of whose cells combine. It takes no memory.
pub(crate) fn exceeds<V: Stored<512> + Stored<64> + Stored<8>>(
    tree: &Tree<V>,
    other: &Tree<V>,
    mix: Mix,
    background: V,
    steps: &mut Steps,
) -> bool
    requires background { mixed_value (blended V.greater V.lesser V.sum_of) mix (field_of vdb tree.now).background (field_of vdb other.now).background ≡ Some background }
    requires whole { HasMix (blended V.greater V.lesser V.sum_of) mix (field_of vdb tree.now) (field_of vdb other.now) }
    ensures more { IsTrue result → tree.now.limit < roots V.eq vdb (mixed (blended V.greater V.lesser V.sum_of) mix (field_of vdb tree.now) (field_of vdb other.now)) }
    ensures few { result ≡ false → roots V.eq vdb (mixed (blended V.greater V.lesser V.sum_of) mix (field_of vdb tree.now) (field_of vdb other.now)) ≤ tree.now.limit }
{
    let sought = Sought::OtherThan(Cell {
        value: background,
        on: false,
    });
    let _ = tree.mask_words(); // the proof learns from it that nodes are small
    let (bits, limit) = (tree.bits(), tree.limit());
    let mut walk = tree.pairs(other);
    let mut count: u32 = 0;
    let mut last = None;
    'pairs: while let Some(pair) = tree.next_pair(other, &mut walk, steps) {
        let Pair {
            bounds,
            first,
            second,
        } = pair;
        let key = bounds.min().key_in(bits);
        if !is_other(last, key) {
            continue;
        }
        if !pair_meets(tree, other, bounds, first, second, mix, sought) {
            continue;
        }
        if count >= limit {
            return true;
        }
        count += 1;
        last = Some(key);
    }
    false
}

/// Returns whether a key isn't the last one.
fn is_other(last: Option<Coord>, key: Coord) -> bool
    ensures other { IsTrue result → last ≢ Some key }
    ensures same { result ≡ false → last ≡ Some key }
{
    match last {
        Some(last) => last != key,
        None => true,
    }
}

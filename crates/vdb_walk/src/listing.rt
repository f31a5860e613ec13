//! Lists the active voxels of a box in block order, one after another.

ghost use Rattle.std.specs.Prelude.{◌≡◌, ◌≢◌, ◌↔◌, [], IfNone, IfSome, IsTrue, Some};
ghost use Rattle.std.specs.Option.{option_map};
ghost use Rattle.vdb_tree.specs.Layout.{bits_of, field_of};
ghost use Rattle.vdb_coord.specs.Blocks.{is_past};
ghost use Rattle.std.specs.List.{find};
ghost use Rattle.vdb_walk.specs.internal.Listings.{IsAhead, IsListing};
ghost use Rattle.vdb_walk.specs.Reports.{active, past, Yields, Listed};

use crate::first_active::{begun, first_held, next_active, next_found};
use crate::held::{Held, Run};
use std::marker::Model;
use vdb_coord::{Bounds, Coord};
use vdb_node::{Internal, Leaf, Stored};
use vdb_pool::Steps;
use vdb_tree::{Skip, TreeOf, Walk};

/// The active voxels of a box in block order, each with its value, up to a limit on how many are yielded (OpenVDB's
/// `Tree::cbeginValueOn`, with a tile voxel by voxel). It reads the tree as it goes and allocates nothing.
#[derive(Drop)]
pub struct Listing<
    'a,
    V: Stored<WU> + Stored<WL> + Stored<WF>,
    const U: u32,
    const L: u32,
    const F: u32,
    const WU: usize,
    const WL: usize,
    const WF: usize,
> {
    tree: &'a TreeOf<V, U, L, F, WU, WL, WF>,
    walk: Walk<Internal<V, U, WU>, Internal<V, L, WL>, Leaf<V, F, WF>>,
    part: Option<Held<V>>,
    run: Run<V>,
    last: Option<Coord>,
    left: u32,
}

impl<
    'a,
    V: Stored<WU> + Stored<WL> + Stored<WF>,
    const U: u32,
    const L: u32,
    const F: u32,
    const WU: usize,
    const WL: usize,
    const WF: usize,
> Model for Listing<'a, V, U, L, F, WU, WL, WF> {
    ghost use Rattle.vdb_tree.specs.Layout.{bits_of, field_of};
    ghost use Rattle.vdb_walk.specs.internal.Listings.{IsAhead, IsListing};
    ghost use Rattle.vdb_walk.specs.Reports.{active, past, Listed};

    ghost Value = { Listed V };

    ghost view = { λ l. record {
      rest = past (bits_of U L F) l.last (active (bits_of U L F) (field_of (bits_of U L F) l.tree.now) l.walk.box);
      left = l.left;
    } };

    ghost invariant = { λ l. IsListing (bits_of U L F) l.tree.now l.last l.walk l.part × IsAhead (bits_of U L F) l.tree.now l.last l.part l.run };
}

/// Returns the listing of the box's active voxels in block order. It yields at most `limit` voxels.
pub fn list<
    'a,
    V: Stored<WU> + Stored<WL> + Stored<WF>,
    const U: u32,
    const L: u32,
    const F: u32,
    const WU: usize,
    const WL: usize,
    const WF: usize,
>(
    tree: &'a TreeOf<V, U, L, F, WU, WL, WF>,
    bounds: Bounds,
    limit: u32,
) -> Listing<'a, V, U, L, F, WU, WL, WF>
    ensures { result ≡ record { rest = active (bits_of U L F) (field_of (bits_of U L F) tree.now) bounds; left = limit } }
{
    let _ = tree.mask_words();
    Listing {
        tree,
        walk: tree.parts(bounds, Skip::Inactive),
        part: None,
        run: Run::empty(tree.background()),
        last: None,
        left: limit,
    }
}

/// Returns the listing of the box's active voxels past `last` in block order. It yields at most `limit` voxels.
pub(crate) fn list_past<
    'a,
    V: Stored<WU> + Stored<WL> + Stored<WF>,
    const U: u32,
    const L: u32,
    const F: u32,
    const WU: usize,
    const WL: usize,
    const WF: usize,
>(
    tree: &'a TreeOf<V, U, L, F, WU, WL, WF>,
    last: Option<Coord>,
    bounds: Bounds,
    limit: u32,
    steps: &mut Steps,
) -> Listing<'a, V, U, L, F, WU, WL, WF>
    ensures { result ≡ record { rest = past (bits_of U L F) last (active (bits_of U L F) (field_of (bits_of U L F) tree.now) bounds); left = limit } }
{
    let _ = tree.mask_words();
    Listing {
        tree,
        walk: begun(tree, last, bounds, steps),
        part: None,
        run: Run::empty(tree.background()),
        last,
        left: limit,
    }
}

impl<
    'a,
    V: Stored<WU> + Stored<WL> + Stored<WF>,
    const U: u32,
    const L: u32,
    const F: u32,
    const WU: usize,
    const WL: usize,
    const WF: usize,
> Listing<'a, V, U, L, F, WU, WL, WF> {
    /// Returns the next voxel with its value, or `None` if no voxel is left or the limit is reached.
    pub fn next(&mut self, steps: &mut Steps) -> Option<(Coord, V)>
        ensures { Yields self.old result self.new }
    {
        if self.left == 0 {
            return None;
        }
        let _ = self.tree.mask_words();
        let (walk, part, run) = (&mut self.walk, &mut self.part, &mut self.run);
        match yield_next(self.tree, self.last, walk, part, run, steps) {
            Some(item) => {
                self.last = Some(item.0);
                self.left -= 1;
                Some(item)
            }
            None => None,
        }
    }

    /// Returns whether an active voxel of the box follows the last one that was yielded. Before the first, it returns whether the
    /// box has an active voxel. It ignores the limit.
    pub fn more(&self, steps: &mut Steps) -> bool
        ensures { IsTrue result ↔ (self.now.rest ≢ []) }
    {
        next_active(self.tree, self.last, self.walk.bounds(), steps).is_some()
    }
}

/// Returns the first active voxel past the last one: from the run, or else from the part that the walk yielded last, or else from
/// the rest of the walk. It sets the part to the one that holds the voxel.
fn yield_next<
    V: Stored<WU> + Stored<WL> + Stored<WF>,
    const U: u32,
    const L: u32,
    const F: u32,
    const WU: usize,
    const WL: usize,
    const WF: usize,
>(
    tree: &TreeOf<V, U, L, F, WU, WL, WF>,
    last: Option<Coord>,
    walk: &mut Walk<Internal<V, U, WU>, Internal<V, L, WL>, Leaf<V, F, WF>>,
    part: &mut Option<Held<V>>,
    run: &mut Run<V>,
    steps: &mut Steps,
) -> Option<(Coord, V)>
    requires listing { IsListing (bits_of U L F) tree.now last walk.old part.old }
    requires run { IsAhead (bits_of U L F) tree.now last part.old run.old }
    ensures next { result ≡ find (λ item. is_past (bits_of U L F) last item.0) (active (bits_of U L F) (field_of (bits_of U L F) tree.now) walk.old.box) }
    ensures bounds { walk.new.box ≡ walk.old.box }
    ensures some { IfSome result (λ item. IsListing (bits_of U L F) tree.now (Some item.0) walk.new part.new) }
    ensures none { IfNone result (IsListing (bits_of U L F) tree.now last walk.new part.new) }
    ensures run { IsAhead (bits_of U L F) tree.now (option_map (λ item. item.0) result) part.new run.new }
{
    if run.entry < run.end {
        let p = last?;
        return Some(run.step(p));
    }
    if let Some(held) = *part {
        let found = first_held(tree, last, walk, held, run, steps);
        if found.is_some() {
            return found;
        }
    }
    match next_found(tree, last, walk, steps) {
        Some(found) => {
            *part = Some(found.0);
            Some(found.1)
        }
        None => {
            *part = None;
            None
        }
    }
}

//! States set by a rule, word by word, after `refine` has made the nodes for them.

ghost use Rattle.std.specs.Prelude.{◌≡◌, ◌≢◌, IfSome, IsNone, IsSome, Some, if◌then◌else◌};
ghost use Rattle.vdb_coord.specs.Blocks.{block_number, key};
ghost use Rattle.vdb_coord.specs.Space.{coord_eq};
ghost use Rattle.vdb_coord.specs.declared.Coord.{Coord};
ghost use Rattle.vdb_coord.specs.declared.Level.TheVariants.{Upper};
ghost use Rattle.vdb_node.specs.declared.Entry.TheVariants.{Tile};
ghost use Rattle.vdb_tree.specs.Changes.{Fills, Turns};
ghost use Rattle.vdb_tree.specs.Field.{ruled};
ghost use Rattle.vdb_tree.specs.Layout.{bits_of, field_of, lower_entry, root_at, root_entry, upper_entry};
ghost use Rattle.vdb_tree.specs.Table.{IsNextKey};
ghost use Rattle.vdb_tree.specs.internal.Pairing.{IsRefinedFor, SetsBlock};
ghost use Rattle.vdb_tree.specs.internal.Ruled.{SetsRoot};

use crate::TreeOf;
use crate::pairs::StateRule;
use crate::pairs::upper_states::{is_idle_tile, tile_made};
use vdb_coord::Coord;
use vdb_node::{Entry, Stored};
use vdb_pool::Steps;
use vdb_value::Cell;

impl<
    V: Stored<WU> + Stored<WL> + Stored<WF>,
    const U: u32,
    const L: u32,
    const F: u32,
    const WU: usize,
    const WL: usize,
    const WF: usize,
> TreeOf<V, U, L, F, WU, WL, WF> {
    /// Combines the states of this tree with those of another by a rule. The values stay, and no node is added or removed.
    pub(crate) fn set_refined_states<X: Stored<WU> + Stored<WL> + Stored<WF>>(
        &mut self,
        other: &TreeOf<X, U, L, F, WU, WL, WF>,
        rule: StateRule,
        steps: &mut Steps,
    )
        requires { IsRefinedFor (bits_of U L F) rule self.old other.now }
        ensures field { field_of (bits_of U L F) self.new ≡ ruled rule (field_of (bits_of U L F) self.old) (field_of (bits_of U L F) other.now) }
        ensures limit { self.new.limit ≡ self.old.limit }
    {
        let mut passed = None;
        while let Some(key) = self.set_next_root(passed, other, rule, steps) {
            passed = Some(key);
        }
    }

    /// Combines the states of the first upper extent past a key of the table, or of the first of all, by a rule. Returns its
    /// key.
    fn set_next_root<X: Stored<WU> + Stored<WL> + Stored<WF>>(
        &mut self,
        after: Option<Coord>,
        other: &TreeOf<X, U, L, F, WU, WL, WF>,
        rule: StateRule,
        steps: &mut Steps,
    ) -> Option<Coord>
        requires { IsRefinedFor (bits_of U L F) rule self.old other.now }
        ensures next { IsNextKey self.old.root after result }
        ensures none { IsNone result → self.new ≡ self.old }
        ensures sets { IfSome result (λ k. SetsRoot (bits_of U L F) rule other.now self.old self.new k) }
    {
        let key = self.next_key(after)?;
        let corner = self.key_corner(key);
        let over = other.root_entry(corner);
        self.set_root_block(other, over, corner, rule, steps);
        Some(key)
    }

    /// Combines the states of p's upper extent, which has an entry, with those of the other tree's entry there by a rule.
    fn set_root_block<X: Stored<WU> + Stored<WL> + Stored<WF>>(
        &mut self,
        other: &TreeOf<X, U, L, F, WU, WL, WF>,
        over: Entry<X>,
        p: Coord,
        rule: StateRule,
        steps: &mut Steps,
    )
        requires entered { IsSome (root_at self.old.root (key (bits_of U L F) p)) }
        requires over { root_entry (bits_of U L F) other.now p ≡ over }
        requires refined { IsRefinedFor (bits_of U L F) rule self.old other.now }
        ensures sets { SetsBlock (bits_of U L F) rule other.now Upper self.old self.new p }
        ensures table { (k : Coord) → k ≢ key (bits_of U L F) p → root_at self.new.root k ≡ root_at self.old.root k }
    {
        if is_idle_tile(over, rule) {
            return;
        }
        match self.root_entry(p) {
            Entry::Child(upper) => self.set_upper_states(upper, other, over, p, rule, steps),
            Entry::Tile(tile) => {
                if let Entry::Tile(_) = over {
                    self.exchange_root_tile(p, tile, tile_made(tile, rule));
                }
            }
        }
    }

    /// Replaces `was`, the tile under p's key, by another tile. A caller with two types of values names the tile, because it
    /// would be costly for its proof to find it.
    fn exchange_root_tile(&mut self, p: Coord, was: Cell<V>, cell: Cell<V>)
        requires entered { IsSome (root_at self.old.root (key (bits_of U L F) p)) }
        requires tiled { root_entry (bits_of U L F) self.old p ≡ Tile was }
        ensures fills { Fills (bits_of U L F) Upper self.old self.new p cell }
        ensures table { (k : Coord) → root_at self.new.root k ≡ (if coord_eq (key (bits_of U L F) p) k then Some (Tile cell) else root_at self.old.root k) }
        ensures uppers { Turns (block_number (bits_of U L F) Upper) p (upper_entry (bits_of U L F) self.old) (upper_entry (bits_of U L F) self.new) (Tile cell) }
        ensures lowers { Turns (block_number (bits_of U L F) Upper) p (lower_entry (bits_of U L F) self.old) (lower_entry (bits_of U L F) self.new) (Tile cell) }
    {
        let _ = was;
        self.paint_root_tile(p, cell);
    }
}

//! Two trees of one configuration: their states combined in place, and a walk over their parts together.

ghost use Rattle.std.specs.Prelude.{◌≡◌, ◌≢◌, IfErr, None, OnOk};
ghost use Rattle.vdb_coord.specs.Blocks.{key};
ghost use Rattle.vdb_coord.specs.declared.Coord.{Coord};
ghost use Rattle.vdb_tree.specs.Changes.{Keeps};
ghost use Rattle.vdb_tree.specs.Field.{ruled};
ghost use Rattle.vdb_tree.specs.Layout.{bits_of, field_of, root_at};
ghost use Rattle.vdb_tree.specs.Outcome.{IsOutcome, ObeysLimit};
ghost use Rattle.vdb_tree.specs.declared.pairs.StateRule.TheVariants.{Unite as unites};
ghost use Rattle.vdb_tree.specs.declared.refusal.TreeRefusal.TheVariants.{Memory};
ghost use Rattle.vdb_tree.specs.internal.Pairing.{IsIdleAt};

pub(crate) mod enter;
pub(crate) mod joint;
pub(crate) mod lower_states;
pub(crate) mod refine;
pub(crate) mod states;
pub(crate) mod upper_states;

use crate::{TreeOf, TreeRefusal};
use vdb_node::Stored;
use vdb_pool::Steps;

/// The rule by which the states of two grids combine (OpenVDB's `topologyUnion`, `topologyDifference` and
/// `topologyIntersection`).
#[derive(Clone, Copy, Debug, PartialEq, Eq)]
pub enum StateRule {
    /// Active if either is.
    Unite,
    /// Active if the first is and the second isn't.
    Subtract,
    /// Active if both are.
    Intersect,
}

impl<
    V: Stored<WU> + Stored<WL> + Stored<WF>,
    const U: u32,
    const L: u32,
    const F: u32,
    const WU: usize,
    const WL: usize,
    const WF: usize,
> TreeOf<V, U, L, F, WU, WL, WF> {
    /// Combines the states of this tree with those of `other` by a rule, in place. The values of this tree stay, and so does
    /// `other`. The contract fixes the cells, not the layout: this implementation splits a tile only where `other` has a node,
    /// but no clause says so.
    ///
    /// `RootLimit`: there would be more upper extents with a cell other than the inactive background than the limit; only
    /// `Unite` can cause it. `Memory`: an allocation failed. Both errors leave every cell as it was.
    pub fn combine_states<X: Stored<WU> + Stored<WL> + Stored<WF>>(
        &mut self,
        other: &TreeOf<X, U, L, F, WU, WL, WF>,
        rule: StateRule,
        steps: &mut Steps,
    ) -> Result<(), TreeRefusal>
        ensures outcome { IsOutcome V.eq (bits_of U L F) self.old.limit (field_of (bits_of U L F) self.old)
            (ruled rule (field_of (bits_of U L F) self.old) (field_of (bits_of U L F) other.now)) (field_of (bits_of U L F) self.new) result }
        ensures limit { self.new.limit ≡ self.old.limit }
        ensures memory { rule ≢ unites → IfErr result (λ refusal. refusal ≡ Memory) }
    {
        self.enter_for(other, rule, steps)?;
        self.refine(other, rule, steps)?;
        self.set_refined_states(other, rule, steps);
        Ok(())
    }

    /// Gives an entry to each upper extent in which the rule may activate a voxel. `RootLimit`: the combined states would leave
    /// more upper extents with a cell other than the inactive background than the limit. `Memory`: an allocation failed, and
    /// the limit would hold. Both errors keep every cell.
    fn enter_for<X: Stored<WU> + Stored<WL> + Stored<WF>>(
        &mut self,
        other: &TreeOf<X, U, L, F, WU, WL, WF>,
        rule: StateRule,
        steps: &mut Steps,
    ) -> Result<(), TreeRefusal>
        ensures keeps { Keeps (bits_of U L F) self.old self.new }
        ensures entered { OnOk result (rule ≡ unites → (q : Coord) → root_at self.new.root (key (bits_of U L F) q) ≡ None → IsIdleAt (bits_of U L F) rule self.new other.now q) }
        ensures limit { ObeysLimit V.eq (bits_of U L F) self.old.limit (ruled rule (field_of (bits_of U L F) self.old) (field_of (bits_of U L F) other.now)) result }
        ensures memory { rule ≢ unites → IfErr result (λ refusal. refusal ≡ Memory) }
    {
        let _ = self.limit(); // the proof learns from it that the field keeps to the limit
        match rule {
            StateRule::Unite => self.enter_active(other, steps),
            StateRule::Subtract => Ok(()),
            StateRule::Intersect => Ok(()),
        }
    }
}

//! Operations on a grid of one type of values and one of any type.

ghost use Rattle.std.specs.Prelude.{◌≡◌, IfErr, OnErr};
ghost use Rattle.vdb_coord.specs.Blocks.{vdb};
ghost use Rattle.vdb_tree.specs.Field.{as_field_of};
ghost use Rattle.vdb_tree.specs.Layout.{field_of};
ghost use Rattle.vdb_tree.specs.Outcome.{IsOutcome};
ghost use Rattle.vdb_scene.specs.Grids.{grid_field};
ghost use Rattle.vdb_scene.specs.Scalars.{scalar_eq};
ghost use Rattle.vdb_tree.specs.Field.{ruled};
ghost use Rattle.vdb_scene.specs.TwoGrids.{IsMade, StaysBut, of_sum};
ghost use Rattle.vdb_scene.specs.declared.two_grids.Operation.TheVariants.{Values as values_op};

use crate::any_grid::ACCESSORS;
use crate::scalar::GridValue;
use crate::two_grids::{Composite, Operation};
use crate::{AnyGrid, Refusal};
use vdb_composite::SumRefusal;
use vdb_grid::Grid;
use vdb_pool::Steps;
use vdb_tree::{StateRule, Tree, TreeRefusal};

/// Combines a grid with another one by an operation.
pub fn combine<V: GridValue>(
    grid: &mut Grid<V, ACCESSORS>,
    operation: Operation,
    other: &AnyGrid,
    steps: &mut Steps,
) -> Result<(), Refusal>
    ensures outcome { IsMade operation grid.old.tree.limit (as_field_of V.as_scalar (field_of vdb grid.old.tree)) (grid_field other.now) (as_field_of V.as_scalar (field_of vdb grid.new.tree)) result }
    ensures kept { IfErr result (λ refusal. StaysBut refusal grid.old grid.new) }
    ensures limit { grid.new.tree.limit ≡ grid.old.tree.limit }
    ensures last { grid.new.coords ≡ grid.old.coords }
{
    match operation {
        Operation::States(rule) => Ok(combine_states(grid, rule, other, steps)?),
        Operation::Values(how) => match V::tree_in(other) {
            Some(given) => combine_values(grid, how, given, steps),
            None => Err(Refusal::Kind),
        },
    }
}

/// Combines the states of a grid with those of a grid of any type by a rule.
fn combine_states<V: GridValue>(
    grid: &mut Grid<V, ACCESSORS>,
    rule: StateRule,
    other: &AnyGrid,
    steps: &mut Steps,
) -> Result<(), TreeRefusal>
    ensures outcome { IsOutcome scalar_eq vdb grid.old.tree.limit (as_field_of V.as_scalar (field_of vdb grid.old.tree))
        (ruled rule (as_field_of V.as_scalar (field_of vdb grid.old.tree)) (grid_field other.now)) (as_field_of V.as_scalar (field_of vdb grid.new.tree)) result }
    ensures limit { grid.new.tree.limit ≡ grid.old.tree.limit }
    ensures last { grid.new.coords ≡ grid.old.coords }
{
    match other {
        AnyGrid::Bool(given) => set_states(grid, rule, given.tree(), steps),
        AnyGrid::I32(given) => set_states(grid, rule, given.tree(), steps),
        AnyGrid::I64(given) => set_states(grid, rule, given.tree(), steps),
    }
}

/// Combines the states of a grid with those of a tree by a rule.
fn set_states<V: GridValue, X: GridValue>(
    grid: &mut Grid<V, ACCESSORS>,
    rule: StateRule,
    given: &Tree<X>,
    steps: &mut Steps,
) -> Result<(), TreeRefusal>
    ensures outcome { IsOutcome scalar_eq vdb grid.old.tree.limit (as_field_of V.as_scalar (field_of vdb grid.old.tree))
        (ruled rule (as_field_of V.as_scalar (field_of vdb grid.old.tree)) (as_field_of X.as_scalar (field_of vdb given.now))) (as_field_of V.as_scalar (field_of vdb grid.new.tree)) result }
    ensures limit { grid.new.tree.limit ≡ grid.old.tree.limit }
    ensures last { grid.new.coords ≡ grid.old.coords }
{
    match rule {
        StateRule::Unite => grid.unite(given, steps),
        StateRule::Subtract => grid.subtract(given, steps),
        StateRule::Intersect => grid.intersect(given, steps),
    }
}

/// Combines the values of a grid with those of a tree of the same type.
fn combine_values<V: GridValue>(
    grid: &mut Grid<V, ACCESSORS>,
    how: Composite,
    given: &Tree<V>,
    steps: &mut Steps,
) -> Result<(), Refusal>
    ensures outcome { IsMade (values_op how) grid.old.tree.limit (as_field_of V.as_scalar (field_of vdb grid.old.tree)) (as_field_of V.as_scalar (field_of vdb given.now)) (as_field_of V.as_scalar (field_of vdb grid.new.tree)) result }
    ensures kept { OnErr result (grid.new ≡ grid.old) }
    ensures limit { grid.new.tree.limit ≡ grid.old.tree.limit }
    ensures last { grid.new.coords ≡ grid.old.coords }
{
    match how {
        Composite::Maximum => Ok(grid.maximum(given, steps)?),
        Composite::Minimum => Ok(grid.minimum(given, steps)?),
        Composite::Replace => Ok(grid.replace(given, steps)?),
        Composite::Sum => {
            if !V::SUMS {
                return Err(Refusal::NoSum);
            }
            Ok(grid.sum(given, steps)?)
        }
    }
}

impl From<SumRefusal> for Refusal {
    ghost from_gives = { λ given refusal. refusal ≡ of_sum given };

    fn from(refusal: SumRefusal) -> Refusal {
        match refusal {
            SumRefusal::SumRange => Refusal::SumRange,
            SumRefusal::RootLimit => Refusal::RootLimit,
            SumRefusal::Memory => Refusal::Memory,
        }
    }
}

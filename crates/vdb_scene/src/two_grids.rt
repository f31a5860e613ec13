//! Commands on two grids.

ghost use Rattle.std.specs.Map.{lookup, set_value};
ghost use Rattle.std.specs.Prelude.{◌≡◌, IfErr, IsSome, Some};
ghost use Rattle.vdb_scene.specs.Doing.{CarriesOut, LeavesTrees, answer_of};
ghost use Rattle.vdb_scene.specs.Grids.{grid_coords, grid_field, grid_root_limit, scene_of};
ghost use Rattle.vdb_scene.specs.Scene.{is_named};
ghost use Rattle.vdb_scene.specs.TwoGrids.{IsMade, StaysBut, command_of};
ghost use Rattle.vdb_scene.specs.declared.any_grid.AnyGrid.{AnyGrid};
ghost use Rattle.vdb_scene.specs.declared.grid_entry.GridEntry.{GridEntry};

use crate::{Answer, AnyGrid, GridEntry, Metas, Name, Refusal, Scalar, Scene};
use std::mem;
use vdb_pool::Steps;
use vdb_tree::StateRule;

/// An operation on two grids.
#[derive(Clone, Copy, Debug, PartialEq, Eq)]
pub enum Operation {
    /// Combines the states by a rule, and keeps the values of the first.
    States(StateRule),
    /// Combines values and states of both.
    Values(Composite),
}

/// A way to combine the values of two grids.
#[derive(Clone, Copy, Debug, PartialEq, Eq)]
pub enum Composite {
    /// The greater values, active if either is.
    Maximum,
    /// The lesser values, active if either is.
    Minimum,
    /// The sums of the values, active if either is.
    Sum,
    /// The second's cells that are active, and the first's cells elsewhere.
    Replace,
}

impl Scene {
    /// Carries out a command that combines two grids and changes the first.
    pub(crate) fn combine(
        &mut self,
        operation: Operation,
        name: &Name,
        other: &Name,
        steps: &mut Steps,
    ) -> Result<Answer<'static>, Refusal>
        ensures step { CarriesOut (scene_of self.old) (command_of operation name.now other.now) result (scene_of self.new) }
        ensures trees { LeavesTrees (command_of operation name.now other.now) (answer_of result) self.old self.new }
    {
        if !self.has(name) || !self.has(other) {
            return Err(Refusal::NoGrid);
        }
        if name == other {
            return Err(Refusal::SameGrid);
        }
        self.change_by(operation, name, other, steps)?;
        Ok(Answer::Done)
    }

    /// Changes a grid by another one.
    fn change_by(
        &mut self,
        operation: Operation,
        name: &Name,
        other: &Name,
        steps: &mut Steps,
    ) -> Result<(), Refusal>
        requires there { IsSome (lookup (is_named name.now) self.old.grids.entries) }
        requires other { IsSome (lookup (is_named other.now) self.old.grids.entries) }
        requires apart { name.now ≡ other.now → ⊥ }
        ensures grids { (was : GridEntry) × (given : GridEntry) × (grid : AnyGrid) × (lookup (is_named name.now) self.old.grids.entries ≡ Some was) × (lookup (is_named other.now) self.old.grids.entries ≡ Some given)
            × (self.new.grids.entries ≡ set_value (is_named name.now) self.old.grids.entries (record was { grid = grid }))
            × (grid_root_limit grid ≡ grid_root_limit was.grid) × (grid_coords grid ≡ grid_coords was.grid) × IsMade operation (grid_root_limit was.grid) (grid_field was.grid) (grid_field given.grid) (grid_field grid) result
            × IfErr result (λ refusal. StaysBut refusal was.grid grid) }
    {
        let mut entry = self.lend(name);
        let result = match self.grids.get(other) {
            Some(given) => entry.grid.combine(operation, &given.grid, steps),
            None => unreachable!(),
        };
        self.give_back(name, entry);
        result
    }

    /// Moves the entry of a name out of the scene, and leaves a grid that was never written in its place.
    fn lend(&mut self, name: &Name) -> GridEntry
        requires { IsSome (lookup (is_named name.now) self.old.grids.entries) }
        ensures entry { lookup (is_named name.now) self.old.grids.entries ≡ Some result }
        ensures rest { (left : GridEntry) × (self.new.grids.entries ≡ set_value (is_named name.now) self.old.grids.entries left) }
    {
        let empty = GridEntry {
            grid: AnyGrid::new(self.alloc, Scalar::Bool(false), 1),
            metas: Metas::new(self.alloc),
        };
        match self.grids.get_mut(name) {
            Some(entry) => mem::replace(entry, empty),
            None => unreachable!(),
        }
    }

    /// Replaces the entry of a name by another.
    fn give_back(&mut self, name: &Name, given: GridEntry)
        requires { IsSome (lookup (is_named name.now) self.old.grids.entries) }
        ensures { self.new.grids.entries ≡ set_value (is_named name.now) self.old.grids.entries given }
    {
        match self.grids.get_mut(name) {
            Some(entry) => *entry = given,
            None => unreachable!(),
        }
    }
}

//! The step of a scene by a command.
ghost use Rattle.std.specs.Prelude.{◌≡◌, ◌+◌, ◌≤◌, IfOk, IfErr, Some, ◌∷◌, [], false, true};
ghost use Rattle.std.specs.Borrow.{sem};
ghost use Rattle.std.specs.Io.BufRead.{Rests};
ghost use Rattle.vdb_scene.specs.internal.CommandGroups.{is_on_voxel};
ghost use Rattle.vdb_scene.specs.Doing.{AppliesTo, CarriesOut, IsNearby, LeavesTrees, answer_of};
ghost use Rattle.vdb_scene.specs.Grids.{scene_of};
ghost use Rattle.vdb_scene.specs.contracts.scene.Scene.{the_row};
ghost use Rattle.vdb_scene.specs.Scalars.{has_form, has_value, scalar};
ghost use Rattle.vdb_scene.specs.Refusals.{first_of_all, other_form, out_of_range};
ghost use Rattle.vdb_scene.specs.Step.{passes, write_command};
ghost use Rattle.vdb_tree.specs.Field.{as_write_of};
ghost use Rattle.vdb_scene.specs.declared.command.Command.TheVariants as commands;

use crate::arguments::{
    bounds_of, component_of, flat, is_wide, limit_of, named_accessor, named_coord, root_limit_of,
};
use crate::two_grids::{Composite, Operation};
use crate::{
    Answer, AnyGrid, Area, Command, Corners, GridEntry, Literal, Metas, Name, Num, Point, Refusal,
    Scalar, Scene, Slice, Voxels,
};
use vdb_pool::Steps;
use vdb_tree::{StateRule, Write};
use vdb_value::{Cell, Kind};

/// The maximum number of voxels of the box of one `voxelise`.
const VOXELISE_LIMIT: u128 = 2_097_152;

/// Returns the value of a type that a line writes. Fails with `Kind` if it has another form, and with `ValueRange` if it lies
/// outside the type.
fn scalar_of(kind: Kind, literal: Literal) -> Result<Scalar, Refusal>
    ensures form { IfOk result (λ value. has_form kind literal ≡ true) }
    ensures range { IfOk result (λ value. has_value kind literal ≡ true) }
    ensures value { IfOk result (λ value. value ≡ scalar kind literal) }
    ensures refusal { IfErr result (λ refusal. first_of_all (other_form (has_form kind literal) ∷ out_of_range (has_value kind literal) ∷ []) ≡ Some refusal) }
{
    match literal {
        Literal::Truth(value) => match kind {
            Kind::Bool => Ok(Scalar::Bool(value)),
            _ => Err(Refusal::Kind),
        },
        Literal::Number(value) => match kind {
            Kind::Bool => Err(Refusal::Kind),
            Kind::I32 => match component_of(value) {
                Some(value) => Ok(Scalar::I32(value)),
                None => Err(Refusal::ValueRange),
            },
            Kind::I64 => match value {
                Num::Near(value) => Ok(Scalar::I64(value)),
                Num::Far => Err(Refusal::ValueRange),
            },
        },
    }
}

/// Returns the write that a line asks for, with a value of the type. Fails with `Kind` if the value has another form, and with
/// `ValueRange` if it lies outside the type.
fn write_of(kind: Kind, change: Write<Literal>) -> Result<Write<Scalar>, Refusal>
    ensures form { IfOk result (λ write. passes (has_form kind) change ≡ true) }
    ensures range { IfOk result (λ write. passes (has_value kind) change ≡ true) }
    ensures value { IfOk result (λ write. write ≡ as_write_of (scalar kind) change) }
    ensures refusal { IfErr result (λ refusal. first_of_all (other_form (passes (has_form kind) change) ∷ out_of_range (passes (has_value kind) change) ∷ []) ≡ Some refusal) }
{
    match change {
        Write::On(value) => Ok(Write::On(scalar_of(kind, value)?)),
        Write::Off(value) => Ok(Write::Off(scalar_of(kind, value)?)),
        Write::State(on) => Ok(Write::State(on)),
        Write::Value(value) => Ok(Write::Value(scalar_of(kind, value)?)),
    }
}

impl Scene {
    /// Carries out a command that creates a grid.
    fn make(
        &mut self,
        name: Name,
        kind: Kind,
        background: Literal,
        limit: Option<Num>,
    ) -> Result<Answer<'static>, Refusal>
        ensures step { CarriesOut (scene_of self.old) (commands.Grid name kind background limit) result (scene_of self.new) }
        ensures trees { LeavesTrees (commands.Grid name kind background limit) (answer_of result) self.old self.new }
    {
        if self.has(&name) {
            return Err(Refusal::NameTaken);
        }
        if self.is_full() {
            return Err(Refusal::GridLimit);
        }
        let background = scalar_of(kind, background)?;
        let Some(limit) = root_limit_of(limit) else {
            return Err(Refusal::ValueRange);
        };
        let entry = GridEntry {
            grid: AnyGrid::new(self.alloc, background, limit),
            metas: Metas::new(self.alloc),
        };
        self.put(name, entry)?;
        Ok(Answer::Done)
    }

    /// Carries out a command that removes a grid.
    fn take(&mut self, name: &Name) -> Result<Answer<'static>, Refusal>
        ensures step { CarriesOut (scene_of self.old) (commands.Drop name.now) result (scene_of self.new) }
        ensures trees { LeavesTrees (commands.Drop name.now) (answer_of result) self.old self.new }
    {
        if self.grids.remove(name).is_none() {
            return Err(Refusal::NoGrid);
        }
        Ok(Answer::Done)
    }

    /// Carries out a command that copies a grid.
    fn copy(&mut self, from: &Name, to: Name) -> Result<Answer<'static>, Refusal>
        ensures step { CarriesOut (scene_of self.old) (commands.Copy from.now to) result (scene_of self.new) }
        ensures trees { LeavesTrees (commands.Copy from.now to) (answer_of result) self.old self.new }
    {
        let Some(entry) = self.entry(from) else {
            return Err(Refusal::NoGrid);
        };
        if self.has(&to) {
            return Err(Refusal::NameTaken);
        }
        if self.is_full() {
            return Err(Refusal::GridLimit);
        }
        let copy = entry.try_copy(self.alloc)?;
        self.put(to, copy)?;
        Ok(Answer::Done)
    }

    /// Carries out a command that looks up a voxel.
    fn look_up(
        &mut self,
        name: &Name,
        accessor: Option<Num>,
        at: &Point,
        steps: &mut Steps,
    ) -> Result<Answer<'static>, Refusal>
        ensures step { CarriesOut (scene_of self.old) (commands.Get name.now accessor at.now) result (scene_of self.new) }
        ensures trees { LeavesTrees (commands.Get name.now accessor at.now) (answer_of result) self.old self.new }
        ensures near { IsNearby (commands.Get name.now accessor at.now) self.old → steps.new ≤ steps.old + 1 }
    {
        let Some(entry) = self.grids.get_mut(name) else {
            return Err(Refusal::NoGrid);
        };
        let Some(at) = named_coord(at) else {
            return Err(Refusal::ValueRange);
        };
        let accessor = named_accessor(accessor)?;
        let cell = entry.grid.probe(accessor, at, steps);
        Ok(Answer::Value(cell.value, cell.on))
    }

    /// Carries out a command that writes a voxel.
    fn write(
        &mut self,
        name: &Name,
        accessor: Option<Num>,
        at: &Point,
        change: Write<Literal>,
        steps: &mut Steps,
    ) -> Result<Answer<'static>, Refusal>
        ensures step { CarriesOut (scene_of self.old) (write_command name.now accessor at.now change) result (scene_of self.new) }
        ensures trees { LeavesTrees (write_command name.now accessor at.now change) (answer_of result) self.old self.new }
        ensures near { IsNearby (write_command name.now accessor at.now change) self.old → steps.new ≤ steps.old + 1 }
    {
        let Some(entry) = self.grids.get_mut(name) else {
            return Err(Refusal::NoGrid);
        };
        let change = write_of(entry.grid.kind(), change)?;
        let Some(at) = named_coord(at) else {
            return Err(Refusal::ValueRange);
        };
        let accessor = named_accessor(accessor)?;
        entry.grid.write(accessor, at, change, steps)?;
        Ok(Answer::Done)
    }

    /// Carries out a command that fills a box.
    fn fill(
        &mut self,
        name: &Name,
        corners: &Corners,
        value: Literal,
        on: bool,
        steps: &mut Steps,
    ) -> Result<Answer<'static>, Refusal>
        ensures step { CarriesOut (scene_of self.old) (commands.Fill name.now corners.now value on) result (scene_of self.new) }
        ensures trees { LeavesTrees (commands.Fill name.now corners.now value on) (answer_of result) self.old self.new }
    {
        let Some(entry) = self.grids.get_mut(name) else {
            return Err(Refusal::NoGrid);
        };
        let value = scalar_of(entry.grid.kind(), value)?;
        let bounds = bounds_of(corners)?;
        entry.grid.fill(bounds, Cell { value, on }, steps)?;
        Ok(Answer::Done)
    }

    /// Carries out a command that clears everything outside a box.
    fn clip(
        &mut self,
        name: &Name,
        corners: &Corners,
        steps: &mut Steps,
    ) -> Result<Answer<'static>, Refusal>
        ensures step { CarriesOut (scene_of self.old) (commands.Clip name.now corners.now) result (scene_of self.new) }
        ensures trees { LeavesTrees (commands.Clip name.now corners.now) (answer_of result) self.old self.new }
    {
        let Some(entry) = self.grids.get_mut(name) else {
            return Err(Refusal::NoGrid);
        };
        let bounds = bounds_of(corners)?;
        entry.grid.clip(bounds, steps)?;
        Ok(Answer::Done)
    }

    /// Carries out a command that prunes a grid.
    fn prune(&mut self, name: &Name, steps: &mut Steps) -> Result<Answer<'static>, Refusal>
        ensures step { CarriesOut (scene_of self.old) (commands.Prune name.now) result (scene_of self.new) }
        ensures trees { LeavesTrees (commands.Prune name.now) (answer_of result) self.old self.new }
    {
        let Some(entry) = self.grids.get_mut(name) else {
            return Err(Refusal::NoGrid);
        };
        entry.grid.prune(steps);
        Ok(Answer::Done)
    }

    /// Carries out a command that makes leaves in a box.
    fn voxelise(
        &mut self,
        name: &Name,
        corners: &Corners,
        steps: &mut Steps,
    ) -> Result<Answer<'static>, Refusal>
        ensures step { CarriesOut (scene_of self.old) (commands.Voxelise name.now corners.now) result (scene_of self.new) }
        ensures trees { LeavesTrees (commands.Voxelise name.now corners.now) (answer_of result) self.old self.new }
    {
        let Some(entry) = self.grids.get_mut(name) else {
            return Err(Refusal::NoGrid);
        };
        let bounds = bounds_of(corners)?;
        if bounds.volume() > VOXELISE_LIMIT {
            return Err(Refusal::TooLarge);
        }
        entry.grid.voxelise(bounds, steps)?;
        Ok(Answer::Done)
    }

    /// Carries out a command that lists voxels.
    fn list(&self, name: &Name, corners: &Corners, limit: Num) -> Result<Answer<'_>, Refusal>
        ensures { CarriesOut (scene_of self.now) (commands.List name.now corners.now limit) result (scene_of self.now) }
    {
        let Some(entry) = self.entry(name) else {
            return Err(Refusal::NoGrid);
        };
        let Some(limit) = limit_of(limit) else {
            return Err(Refusal::ValueRange);
        };
        let bounds = bounds_of(corners)?;
        Ok(Answer::List(Voxels::new(&entry.grid, bounds, limit)))
    }

    /// Carries out a command that shows a part of a plane.
    fn slice(&self, name: &Name, z: Num, area: Area) -> Result<Answer<'_>, Refusal>
        ensures { CarriesOut (scene_of self.now) (commands.Slice name.now z area) result (scene_of self.now) }
    {
        let Some(entry) = self.entry(name) else {
            return Err(Refusal::NoGrid);
        };
        let bounds = bounds_of(&flat(z, area))?;
        if is_wide(bounds.min(), bounds.max()) {
            return Err(Refusal::TooLarge);
        }
        Ok(Answer::Slice(Slice::new(&entry.grid, bounds)))
    }

    /// Carries out a command that counts active voxels.
    fn count(
        &self,
        name: &Name,
        corners: &Option<Corners>,
        steps: &mut Steps,
    ) -> Result<Answer<'static>, Refusal>
        ensures { CarriesOut (scene_of self.now) (commands.Count name.now corners.now) result (scene_of self.now) }
    {
        let Some(entry) = self.entry(name) else {
            return Err(Refusal::NoGrid);
        };
        match corners {
            Some(corners) => {
                let bounds = bounds_of(corners)?;
                Ok(Answer::Count(entry.grid.count(Some(bounds), steps)))
            }
            None => Ok(Answer::Count(entry.grid.count(None, steps))),
        }
    }

    /// Carries out a command that asks for the bounding box of the active voxels.
    fn bounds(&self, name: &Name, steps: &mut Steps) -> Result<Answer<'static>, Refusal>
        ensures { CarriesOut (scene_of self.now) (commands.Bounds name.now) result (scene_of self.now) }
    {
        let Some(entry) = self.entry(name) else {
            return Err(Refusal::NoGrid);
        };
        match entry.grid.active_bounds(steps) {
            Some(bounds) => Ok(Answer::Bounds(Some((bounds.min(), bounds.max())))),
            None => Ok(Answer::Bounds(None)),
        }
    }

    /// Carries out a command that asks for the size of the smallest tree.
    fn census(&self, name: &Name, steps: &mut Steps) -> Result<Answer<'static>, Refusal>
        ensures { CarriesOut (scene_of self.now) (commands.Census name.now) result (scene_of self.now) }
    {
        let Some(entry) = self.entry(name) else {
            return Err(Refusal::NoGrid);
        };
        Ok(Answer::Census(entry.grid.census(steps)))
    }

    /// Carries out a command and returns its answer. Errors are tried in a fixed order, and the answer is the first that applies.
    /// An error leaves the scene unchanged, also `Memory`. `Memory` hides no other error, except the `RootLimit` of a dilation.
    pub fn apply(&mut self, command: &Command, steps: &mut Steps) -> Answer<'_>
        ensures* step { sem 𝓛 (Rests the_row self.entry (λ new. AppliesTo self.old command.now result new)) }
    {
        match self.carry_out(command, steps) {
            Ok(answer) => answer,
            Err(refusal) => Answer::Refused(refusal),
        }
    }

    /// Carries out a command. It handles the commands on one voxel itself and leaves the others to a function of its own: most
    /// commands of a script are on one voxel, and a function reserves stack space for everything that it may call.
    fn carry_out(&mut self, command: &Command, steps: &mut Steps) -> Result<Answer<'_>, Refusal>
        ensures* step { sem 𝓛 (Rests the_row self.entry (λ new. CarriesOut (scene_of self.old) command.now result (scene_of new) × LeavesTrees command.now (answer_of result) self.old new)) }
    {
        match command {
            Command::Get { name, accessor, at } => self.look_up(name, *accessor, at, steps),
            Command::Set {
                name,
                accessor,
                at,
                value,
            } => self.write(name, *accessor, at, Write::On(*value), steps),
            Command::Unset {
                name,
                accessor,
                at,
                value,
            } => self.write(name, *accessor, at, Write::Off(*value), steps),
            Command::Only {
                name,
                accessor,
                at,
                value,
            } => self.write(name, *accessor, at, Write::Value(*value), steps),
            Command::State {
                name,
                accessor,
                at,
                on,
            } => self.write(name, *accessor, at, Write::State(*on), steps),
            _ => self.carry_out_on_grids(command, steps),
        }
    }

    /// Carries out a command that is not on one voxel.
    fn carry_out_on_grids(
        &mut self,
        command: &Command,
        steps: &mut Steps,
    ) -> Result<Answer<'_>, Refusal>
        requires { is_on_voxel command.now ≡ false }
        ensures* step { sem 𝓛 (Rests the_row self.entry (λ new. CarriesOut (scene_of self.old) command.now result (scene_of new) × LeavesTrees command.now (answer_of result) self.old new)) }
    {
        match command {
            Command::Get { .. }
            | Command::Set { .. }
            | Command::Unset { .. }
            | Command::Only { .. }
            | Command::State { .. } => unreachable!(),
            Command::Grid {
                name,
                kind,
                background,
                limit,
            } => self.make(*name, *kind, *background, *limit),
            Command::Drop { name } => self.take(name),
            Command::Copy { from, to } => self.copy(from, *to),
            Command::Fill {
                name,
                corners,
                value,
                on,
            } => self.fill(name, corners, *value, *on, steps),
            Command::Clip { name, corners } => self.clip(name, corners, steps),
            Command::Prune { name } => self.prune(name, steps),
            Command::Voxelise { name, corners } => self.voxelise(name, corners, steps),
            Command::List {
                name,
                corners,
                limit,
            } => self.list(name, corners, *limit),
            Command::Slice { name, z, area } => self.slice(name, *z, *area),
            Command::Count { name, corners } => self.count(name, corners, steps),
            Command::Bounds { name } => self.bounds(name, steps),
            Command::Census { name } => self.census(name, steps),
            Command::Union { name, other } => self.combine(
                Operation::States(StateRule::Unite),
                name,
                other,
                steps,
            ),
            Command::Difference { name, other } => {
                self.combine(Operation::States(StateRule::Subtract), name, other, steps)
            }
            Command::Intersect { name, other } => {
                self.combine(Operation::States(StateRule::Intersect), name, other, steps)
            }
            Command::Max { name, other } => self.combine(
                Operation::Values(Composite::Maximum),
                name,
                other,
                steps,
            ),
            Command::Min { name, other } => self.combine(
                Operation::Values(Composite::Minimum),
                name,
                other,
                steps,
            ),
            Command::Sum { name, other } => self.combine(
                Operation::Values(Composite::Sum),
                name,
                other,
                steps,
            ),
            Command::Replace { name, other } => {
                self.combine(Operation::Values(Composite::Replace), name, other, steps)
            }
            Command::Dilate { name, iterations } => self.dilate(name, *iterations, steps),
            Command::Erode { name, iterations } => self.erode(name, *iterations, steps),
            Command::Meta { name, key, text } => self.put_meta(name, *key, *text),
            Command::Unmeta { name, key } => self.take_meta(name, key),
            Command::Metas { name } => self.pairs(name),
        }
    }
}

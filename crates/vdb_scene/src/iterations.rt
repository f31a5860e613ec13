//! Commands that dilate or erode a grid.

ghost use Rattle.std.specs.Prelude.{◌≡◌, ◌≤◌, if◌then◌else◌, IfSome, None, Some};
ghost use Rattle.vdb_scene.specs.Doing.{CarriesOut, LeavesTrees, answer_of};
ghost use Rattle.vdb_scene.specs.Grids.{scene_of};
ghost use Rattle.vdb_scene.specs.Arguments.{count_of, is_iteration_count};
ghost use Rattle.vdb_scene.specs.declared.command.Command.TheVariants as commands;

use crate::{Answer, Name, Num, Refusal, Scene};
use vdb_pool::Steps;

/// The maximum number of iterations of one command.
const ITERATION_LIMIT: i64 = 16;

/// Returns the number of iterations that a line names: `None` outside 1 to `ITERATION_LIMIT`.
fn iterations_of(iterations: Num) -> Option<u32>
    ensures iterations { result ≡ (if is_iteration_count iterations then Some (count_of iterations) else None) }
    ensures some { IfSome result (λ count. 1 ≤ count) }
    ensures few { IfSome result (λ count. count ≤ 16) }
{
    match iterations {
        Num::Near(value) => {
            if 1 <= value && value <= ITERATION_LIMIT {
                Some(value as u32)
            } else {
                None
            }
        }
        Num::Far => None,
    }
}

impl Scene {
    /// Carries out a command that dilates a grid.
    pub(crate) fn dilate(
        &mut self,
        name: &Name,
        iterations: Num,
        steps: &mut Steps,
    ) -> Result<Answer<'static>, Refusal>
        ensures step { CarriesOut (scene_of self.old) (commands.Dilate name.now iterations) result (scene_of self.new) }
        ensures trees { LeavesTrees (commands.Dilate name.now iterations) (answer_of result) self.old self.new }
    {
        let Some(entry) = self.grids.get_mut(name) else {
            return Err(Refusal::NoGrid);
        };
        let Some(count) = iterations_of(iterations) else {
            return Err(Refusal::ValueRange);
        };
        entry.grid.dilate(count, steps)?;
        Ok(Answer::Done)
    }

    /// Carries out a command that erodes a grid.
    pub(crate) fn erode(
        &mut self,
        name: &Name,
        iterations: Num,
        steps: &mut Steps,
    ) -> Result<Answer<'static>, Refusal>
        ensures step { CarriesOut (scene_of self.old) (commands.Erode name.now iterations) result (scene_of self.new) }
        ensures trees { LeavesTrees (commands.Erode name.now iterations) (answer_of result) self.old self.new }
    {
        let Some(entry) = self.grids.get_mut(name) else {
            return Err(Refusal::NoGrid);
        };
        let Some(count) = iterations_of(iterations) else {
            return Err(Refusal::ValueRange);
        };
        entry.grid.erode(count, steps)?;
        Ok(Answer::Done)
    }
}

//! The commands of lines that dilate or erode a grid.

ghost use Rattle.std.specs.Prelude.{◌≡◌, List, ℕ, Some, map, option_map};
ghost use Rattle.std.specs.Option.{ok_or};
ghost use Rattle.vdb_scene.specs.declared.command.Command.{Command};
ghost use Rattle.vdb_scene.specs.declared.command.Command.TheVariants as commands;
ghost use Rattle.vdb_scene.specs.declared.command.Num.{Num};
ghost use Rattle.vdb_script.specs.Grammar.{iterations, whole};

use crate::numbers::number_of;
use crate::parsing::name_of;
use vdb_scene::{Command, Name, Num, Refusal};

/// Returns the parts `NAME ITERATIONS` of a command that dilates or erodes a grid.
fn name_and_iterations(tokens: &[&[u8]]) -> Option<(Name, Num)>
    ensures { (make : List ℕ → Num → Command) → ok_or (option_map (λ parts. Some (make parts.0 parts.1)) result) Refusal.Syntax ≡ whole (iterations make (map (λ t. t.now) tokens.now)) }
{
    match tokens {
        [name, iterations] => Some((name_of(name)?, number_of(iterations)?)),
        _ => None,
    }
}

/// Returns the command `dilate NAME ITERATIONS`, from the tokens after its word.
pub(crate) fn dilate_command(tokens: &[&[u8]]) -> Option<Command>
    ensures { ok_or (option_map Some result) Refusal.Syntax ≡ whole (iterations commands.Dilate (map (λ t. t.now) tokens.now)) }
{
    let (name, iterations) = name_and_iterations(tokens)?;
    Some(Command::Dilate { name, iterations })
}

/// Returns the command `erode NAME ITERATIONS`, from the tokens after its word.
pub(crate) fn erode_command(tokens: &[&[u8]]) -> Option<Command>
    ensures { ok_or (option_map Some result) Refusal.Syntax ≡ whole (iterations commands.Erode (map (λ t. t.now) tokens.now)) }
{
    let (name, iterations) = name_and_iterations(tokens)?;
    Some(Command::Erode { name, iterations })
}

//! The commands of lines on two grids.

ghost use Rattle.std.specs.Prelude.{◌≡◌, List, ℕ, Some, map, option_map};
ghost use Rattle.std.specs.Option.{ok_or};
ghost use Rattle.vdb_scene.specs.declared.command.Command.{Command};
ghost use Rattle.vdb_scene.specs.declared.command.Command.TheVariants as commands;
ghost use Rattle.vdb_script.specs.Grammar.{two_grids, whole};

use crate::parsing::name_of;
use vdb_scene::{Command, Name, Refusal};

/// Returns the parts `NAME OTHER` of a command on two grids.
fn two_names(tokens: &[&[u8]]) -> Option<(Name, Name)>
    ensures { (make : List ℕ → List ℕ → Command) → ok_or (option_map (λ names. Some (make names.0 names.1)) result) Refusal.Syntax ≡ whole (two_grids make (map (λ t. t.now) tokens.now)) }
{
    match tokens {
        [name, other] => Some((name_of(name)?, name_of(other)?)),
        _ => None,
    }
}

/// Returns the command `union NAME OTHER`, from the tokens after its word.
pub(crate) fn union_command(tokens: &[&[u8]]) -> Option<Command>
    ensures { ok_or (option_map Some result) Refusal.Syntax ≡ whole (two_grids commands.Union (map (λ t. t.now) tokens.now)) }
{
    let (name, other) = two_names(tokens)?;
    Some(Command::Union { name, other })
}

/// Returns the command `difference NAME OTHER`, from the tokens after its word.
pub(crate) fn difference_command(tokens: &[&[u8]]) -> Option<Command>
    ensures { ok_or (option_map Some result) Refusal.Syntax ≡ whole (two_grids commands.Difference (map (λ t. t.now) tokens.now)) }
{
    let (name, other) = two_names(tokens)?;
    Some(Command::Difference { name, other })
}

/// Returns the command `intersect NAME OTHER`, from the tokens after its word.
pub(crate) fn intersect_command(tokens: &[&[u8]]) -> Option<Command>
    ensures { ok_or (option_map Some result) Refusal.Syntax ≡ whole (two_grids commands.Intersect (map (λ t. t.now) tokens.now)) }
{
    let (name, other) = two_names(tokens)?;
    Some(Command::Intersect { name, other })
}

/// Returns the command `max NAME OTHER`, from the tokens after its word.
pub(crate) fn max_command(tokens: &[&[u8]]) -> Option<Command>
    ensures { ok_or (option_map Some result) Refusal.Syntax ≡ whole (two_grids commands.Max (map (λ t. t.now) tokens.now)) }
{
    let (name, other) = two_names(tokens)?;
    Some(Command::Max { name, other })
}

/// Returns the command `min NAME OTHER`, from the tokens after its word.
pub(crate) fn min_command(tokens: &[&[u8]]) -> Option<Command>
    ensures { ok_or (option_map Some result) Refusal.Syntax ≡ whole (two_grids commands.Min (map (λ t. t.now) tokens.now)) }
{
    let (name, other) = two_names(tokens)?;
    Some(Command::Min { name, other })
}

/// Returns the command `sum NAME OTHER`, from the tokens after its word.
pub(crate) fn sum_command(tokens: &[&[u8]]) -> Option<Command>
    ensures { ok_or (option_map Some result) Refusal.Syntax ≡ whole (two_grids commands.Sum (map (λ t. t.now) tokens.now)) }
{
    let (name, other) = two_names(tokens)?;
    Some(Command::Sum { name, other })
}

/// Returns the command `replace NAME OTHER`, from the tokens after its word.
pub(crate) fn replace_command(tokens: &[&[u8]]) -> Option<Command>
    ensures { ok_or (option_map Some result) Refusal.Syntax ≡ whole (two_grids commands.Replace (map (λ t. t.now) tokens.now)) }
{
    let (name, other) = two_names(tokens)?;
    Some(Command::Replace { name, other })
}

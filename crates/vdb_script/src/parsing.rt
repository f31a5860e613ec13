//! Lines as commands.
ghost use Rattle.std.specs.Prelude.{◌≡◌, bytes_eq, ℕ, List, [], ◌∷◌, map, MatchOption, Option, Some, None, option_map};
ghost use Rattle.std.specs.Option.{ok_or};
ghost use Rattle.vdb_scene.specs.declared.command.Command.{Command};
ghost use Rattle.vdb_scene.specs.declared.command.Literal.{Literal};
ghost use Rattle.vdb_scene.specs.declared.command.Num.{Num};
ghost use Rattle.vdb_scene.specs.declared.command.Point.{Point};
ghost use Rattle.vdb_script.specs.Grammar.{name_of, kind_named, state_of, literal_of, accessor_of, point, corners, grid, drop, copy, get, voxel_value, set, unset, only, state, fill, clip, prune, voxelise, all_of, count, bounds, census, list, slice, whole, box_forms, grid_forms, operation_forms, command_among, command_of, is_comment, parse};

use crate::iterations::{dilate_command, erode_command};
use crate::metas::{meta_command, metas_command, unmeta_command};
use crate::numbers::number_of;
use crate::tokens::{ARGUMENT_LIMIT, Tokens, first_token};
use crate::two_grids::{
    difference_command, intersect_command, max_command, min_command, replace_command, sum_command,
    union_command,
};
use std::alloc::Global;
use vdb_scene::{Area, Command, Corners, Literal, Name, Num, Point, Refusal};
use vdb_value::Kind;

/// Returns the name that a token has.
pub(crate) fn name_of(token: &[u8]) -> Option<Name>
    ensures { result ≡ name_of token.now }
{
    Name::new(token)
}

/// Returns the type that a token names.
fn kind_named(token: &[u8]) -> Option<Kind>
    ensures { result ≡ kind_named token.now }
{
    match token {
        b"bool" => Some(Kind::Bool),
        b"i32" => Some(Kind::I32),
        b"i64" => Some(Kind::I64),
        _ => None,
    }
}

/// Returns the value that a token writes: `true`, `false` or a number. It is inlined, as `point_of` is: the result of a call is
/// cleared, written and copied.
#[inline(always)]
fn literal_of(token: &[u8]) -> Option<Literal>
    ensures { result ≡ literal_of token.now }
{
    match token {
        b"true" => Some(Literal::Truth(true)),
        b"false" => Some(Literal::Truth(false)),
        _ => Some(Literal::Number(number_of(token)?)),
    }
}

/// Returns the state that a token names.
fn state_of(token: &[u8]) -> Option<bool>
    ensures { result ≡ state_of token.now }
{
    match token {
        b"on" => Some(true),
        b"off" => Some(false),
        _ => None,
    }
}

/// Returns the accessor that a token names: `-` for none, or a number.
fn accessor_of(token: &[u8]) -> Option<Option<Num>>
    ensures { result ≡ accessor_of token.now }
{
    match token {
        b"-" => Some(None),
        _ => Some(Some(number_of(token)?)),
    }
}

/// Returns the coordinate that three tokens write.
#[inline(always)]
fn point_of(x: &[u8], y: &[u8], z: &[u8]) -> Option<Point>
    ensures { MatchOption result (point (x.now ∷ y.now ∷ z.now ∷ []) ≡ None) (λ at. (rest : List (List ℕ)) → point (x.now ∷ y.now ∷ z.now ∷ rest) ≡ Some (at, rest)) }
{
    Some(Point {
        x: number_of(x)?,
        y: number_of(y)?,
        z: number_of(z)?,
    })
}

/// Returns the corners that six tokens write: the minimum, then the maximum.
fn corners_of(x0: &[u8], y0: &[u8], z0: &[u8], x1: &[u8], y1: &[u8], z1: &[u8]) -> Option<Corners>
    ensures { MatchOption result (corners (x0.now ∷ y0.now ∷ z0.now ∷ x1.now ∷ y1.now ∷ z1.now ∷ []) ≡ None)
        (λ c. (rest : List (List ℕ)) → corners (x0.now ∷ y0.now ∷ z0.now ∷ x1.now ∷ y1.now ∷ z1.now ∷ rest) ≡ Some (c, rest)) }
{
    let min = point_of(x0, y0, z0)?;
    let max = point_of(x1, y1, z1)?;
    Some(Corners { min, max })
}

/// Returns the command `grid NAME KIND BACKGROUND` or `grid NAME KIND BACKGROUND LIMIT`, from the tokens after its word.
fn grid_command(tokens: &[&[u8]]) -> Option<Command>
    ensures { ok_or (option_map Some result) Refusal.Syntax ≡ whole (grid (map (λ t. t.now) tokens.now)) }
{
    match tokens {
        [name, kind, background] => Some(Command::Grid {
            name: name_of(name)?,
            kind: kind_named(kind)?,
            background: literal_of(background)?,
            limit: None,
        }),
        [name, kind, background, limit] => Some(Command::Grid {
            name: name_of(name)?,
            kind: kind_named(kind)?,
            background: literal_of(background)?,
            limit: Some(number_of(limit)?),
        }),
        _ => None,
    }
}

/// Returns the command `drop NAME`, from the tokens after its word.
fn drop_command(tokens: &[&[u8]]) -> Option<Command>
    ensures { ok_or (option_map Some result) Refusal.Syntax ≡ whole (drop (map (λ t. t.now) tokens.now)) }
{
    match tokens {
        [name] => Some(Command::Drop {
            name: name_of(name)?,
        }),
        _ => None,
    }
}

/// Returns the command `copy FROM TO`, from the tokens after its word.
fn copy_command(tokens: &[&[u8]]) -> Option<Command>
    ensures { ok_or (option_map Some result) Refusal.Syntax ≡ whole (copy (map (λ t. t.now) tokens.now)) }
{
    match tokens {
        [from, to] => Some(Command::Copy {
            from: name_of(from)?,
            to: name_of(to)?,
        }),
        _ => None,
    }
}

/// Returns the command `get NAME ACCESSOR X Y Z`, from the tokens after its word.
fn get_command(tokens: &[&[u8]]) -> Option<Command>
    ensures { ok_or (option_map Some result) Refusal.Syntax ≡ whole (get (map (λ t. t.now) tokens.now)) }
{
    match tokens {
        [name, accessor, x, y, z] => Some(Command::Get {
            name: name_of(name)?,
            accessor: accessor_of(accessor)?,
            at: point_of(x, y, z)?,
        }),
        _ => None,
    }
}

/// Returns the parts `NAME ACCESSOR X Y Z VALUE` of a command that writes a value to a voxel.
#[inline(always)]
fn voxel_value(tokens: &[&[u8]]) -> Option<(Name, Option<Num>, Point, Literal)>
    ensures { (make : List ℕ → Option Num → Point → Literal → Command)
        → ok_or (option_map (λ parts. Some (make parts.0 parts.1 parts.2 parts.3)) result) Refusal.Syntax ≡ whole (voxel_value make (map (λ t. t.now) tokens.now)) }
{
    match tokens {
        [name, accessor, x, y, z, value] => Some((
            name_of(name)?,
            accessor_of(accessor)?,
            point_of(x, y, z)?,
            literal_of(value)?,
        )),
        _ => None,
    }
}

/// Returns the command `set NAME ACCESSOR X Y Z VALUE`, from the tokens after its word.
fn set_command(tokens: &[&[u8]]) -> Option<Command>
    ensures { ok_or (option_map Some result) Refusal.Syntax ≡ whole (set (map (λ t. t.now) tokens.now)) }
{
    let (name, accessor, at, value) = voxel_value(tokens)?;
    Some(Command::Set {
        name,
        accessor,
        at,
        value,
    })
}

/// Returns the command `unset NAME ACCESSOR X Y Z VALUE`, from the tokens after its word.
fn unset_command(tokens: &[&[u8]]) -> Option<Command>
    ensures { ok_or (option_map Some result) Refusal.Syntax ≡ whole (unset (map (λ t. t.now) tokens.now)) }
{
    let (name, accessor, at, value) = voxel_value(tokens)?;
    Some(Command::Unset {
        name,
        accessor,
        at,
        value,
    })
}

/// Returns the command `only NAME ACCESSOR X Y Z VALUE`, from the tokens after its word.
fn only_command(tokens: &[&[u8]]) -> Option<Command>
    ensures { ok_or (option_map Some result) Refusal.Syntax ≡ whole (only (map (λ t. t.now) tokens.now)) }
{
    let (name, accessor, at, value) = voxel_value(tokens)?;
    Some(Command::Only {
        name,
        accessor,
        at,
        value,
    })
}

/// Returns the command `state NAME ACCESSOR X Y Z STATE`, from the tokens after its word.
fn state_command(tokens: &[&[u8]]) -> Option<Command>
    ensures { ok_or (option_map Some result) Refusal.Syntax ≡ whole (state (map (λ t. t.now) tokens.now)) }
{
    match tokens {
        [name, accessor, x, y, z, on] => Some(Command::State {
            name: name_of(name)?,
            accessor: accessor_of(accessor)?,
            at: point_of(x, y, z)?,
            on: state_of(on)?,
        }),
        _ => None,
    }
}

/// Returns the command `fill NAME X0 Y0 Z0 X1 Y1 Z1 VALUE STATE`, from the tokens after its word.
fn fill_command(tokens: &[&[u8]]) -> Option<Command>
    ensures { ok_or (option_map Some result) Refusal.Syntax ≡ whole (fill (map (λ t. t.now) tokens.now)) }
{
    match tokens {
        [name, x0, y0, z0, x1, y1, z1, value, on] => Some(Command::Fill {
            name: name_of(name)?,
            corners: corners_of(x0, y0, z0, x1, y1, z1)?,
            value: literal_of(value)?,
            on: state_of(on)?,
        }),
        _ => None,
    }
}

/// Returns the command `clip NAME X0 Y0 Z0 X1 Y1 Z1`, from the tokens after its word.
fn clip_command(tokens: &[&[u8]]) -> Option<Command>
    ensures { ok_or (option_map Some result) Refusal.Syntax ≡ whole (clip (map (λ t. t.now) tokens.now)) }
{
    match tokens {
        [name, x0, y0, z0, x1, y1, z1] => Some(Command::Clip {
            name: name_of(name)?,
            corners: corners_of(x0, y0, z0, x1, y1, z1)?,
        }),
        _ => None,
    }
}

/// Returns the command `prune NAME`, from the tokens after its word.
fn prune_command(tokens: &[&[u8]]) -> Option<Command>
    ensures { ok_or (option_map Some result) Refusal.Syntax ≡ whole (prune (map (λ t. t.now) tokens.now)) }
{
    match tokens {
        [name] => Some(Command::Prune {
            name: name_of(name)?,
        }),
        _ => None,
    }
}

/// Returns the command `voxelise NAME X0 Y0 Z0 X1 Y1 Z1`, from the tokens after its word.
fn voxelise_command(tokens: &[&[u8]]) -> Option<Command>
    ensures { ok_or (option_map Some result) Refusal.Syntax ≡ whole (voxelise (map (λ t. t.now) tokens.now)) }
{
    match tokens {
        [name, x0, y0, z0, x1, y1, z1] => Some(Command::Voxelise {
            name: name_of(name)?,
            corners: corners_of(x0, y0, z0, x1, y1, z1)?,
        }),
        _ => None,
    }
}

/// Returns the command `list NAME X0 Y0 Z0 X1 Y1 Z1 LIMIT`, from the tokens after its word.
fn list_command(tokens: &[&[u8]]) -> Option<Command>
    ensures { ok_or (option_map Some result) Refusal.Syntax ≡ whole (list (map (λ t. t.now) tokens.now)) }
{
    match tokens {
        [name, x0, y0, z0, x1, y1, z1, limit] => Some(Command::List {
            name: name_of(name)?,
            corners: corners_of(x0, y0, z0, x1, y1, z1)?,
            limit: number_of(limit)?,
        }),
        _ => None,
    }
}

/// Returns the command `slice NAME Z X0 Y0 X1 Y1`, from the tokens after its word.
fn slice_command(tokens: &[&[u8]]) -> Option<Command>
    ensures { ok_or (option_map Some result) Refusal.Syntax ≡ whole (slice (map (λ t. t.now) tokens.now)) }
{
    match tokens {
        [name, z, x0, y0, x1, y1] => Some(Command::Slice {
            name: name_of(name)?,
            z: number_of(z)?,
            area: Area {
                min_x: number_of(x0)?,
                min_y: number_of(y0)?,
                max_x: number_of(x1)?,
                max_y: number_of(y1)?,
            },
        }),
        _ => None,
    }
}

/// Returns `Some(None)`, for no box, if a token is the word for all coordinates.
fn all_of(token: &[u8]) -> Option<Option<Corners>>
    ensures { result ≡ all_of token.now }
{
    match token {
        b"all" => Some(None),
        _ => None,
    }
}

/// Returns the command `count NAME X0 Y0 Z0 X1 Y1 Z1` or `count NAME all`, from the tokens after its word.
fn count_command(tokens: &[&[u8]]) -> Option<Command>
    ensures { ok_or (option_map Some result) Refusal.Syntax ≡ whole (count (map (λ t. t.now) tokens.now)) }
{
    match tokens {
        [name, all] => Some(Command::Count {
            name: name_of(name)?,
            corners: all_of(all)?,
        }),
        [name, x0, y0, z0, x1, y1, z1] => Some(Command::Count {
            name: name_of(name)?,
            corners: Some(corners_of(x0, y0, z0, x1, y1, z1)?),
        }),
        _ => None,
    }
}

/// Returns the command `bounds NAME`, from the tokens after its word.
fn bounds_command(tokens: &[&[u8]]) -> Option<Command>
    ensures { ok_or (option_map Some result) Refusal.Syntax ≡ whole (bounds (map (λ t. t.now) tokens.now)) }
{
    match tokens {
        [name] => Some(Command::Bounds {
            name: name_of(name)?,
        }),
        _ => None,
    }
}

/// Returns the command `census NAME`, from the tokens after its word.
fn census_command(tokens: &[&[u8]]) -> Option<Command>
    ensures { ok_or (option_map Some result) Refusal.Syntax ≡ whole (census (map (λ t. t.now) tokens.now)) }
{
    match tokens {
        [name] => Some(Command::Census {
            name: name_of(name)?,
        }),
        _ => None,
    }
}

/// Returns whether a token is this word.
fn is_word(token: &[u8], word: &[u8]) -> bool
    ensures { result ≡ bytes_eq token.now word.now }
{
    token == word
}

/// Returns the command of a word and the tokens after it. Commands on voxels come first, and the others have a function of their
/// own: most lines have a command on a voxel, and a function clears stack space for everything that is inlined into it.
fn command_of(word: &[u8], tokens: &[&[u8]]) -> Option<Command>
    ensures { ok_or (option_map Some result) Refusal.Syntax ≡ command_of word.now (map (λ t. t.now) tokens.now) }
{
    if is_word(word, b"get") {
        get_command(tokens)
    } else if is_word(word, b"set") {
        set_command(tokens)
    } else if is_word(word, b"unset") {
        unset_command(tokens)
    } else if is_word(word, b"only") {
        only_command(tokens)
    } else if is_word(word, b"state") {
        state_command(tokens)
    } else {
        box_command_of(word, tokens)
    }
}

/// Returns the command of a word that is not of a command on a voxel.
#[inline(never)]
fn box_command_of(word: &[u8], tokens: &[&[u8]]) -> Option<Command>
    ensures { ok_or (option_map Some result) Refusal.Syntax ≡ command_among box_forms word.now (map (λ t. t.now) tokens.now) }
{
    if is_word(word, b"fill") {
        fill_command(tokens)
    } else if is_word(word, b"clip") {
        clip_command(tokens)
    } else if is_word(word, b"voxelise") {
        voxelise_command(tokens)
    } else if is_word(word, b"count") {
        count_command(tokens)
    } else if is_word(word, b"list") {
        list_command(tokens)
    } else if is_word(word, b"slice") {
        slice_command(tokens)
    } else {
        grid_command_of(word, tokens)
    }
}

/// Returns the command of a word that is neither of a command on a voxel nor on a box.
fn grid_command_of(word: &[u8], tokens: &[&[u8]]) -> Option<Command>
    ensures { ok_or (option_map Some result) Refusal.Syntax ≡ command_among grid_forms word.now (map (λ t. t.now) tokens.now) }
{
    if is_word(word, b"grid") {
        grid_command(tokens)
    } else if is_word(word, b"drop") {
        drop_command(tokens)
    } else if is_word(word, b"copy") {
        copy_command(tokens)
    } else if is_word(word, b"prune") {
        prune_command(tokens)
    } else if is_word(word, b"bounds") {
        bounds_command(tokens)
    } else if is_word(word, b"census") {
        census_command(tokens)
    } else if is_word(word, b"meta") {
        meta_command(tokens)
    } else if is_word(word, b"unmeta") {
        unmeta_command(tokens)
    } else if is_word(word, b"metas") {
        metas_command(tokens)
    } else {
        operation_of(word, tokens)
    }
}

/// Returns the command of a word, if it is one on two grids or of dilation or erosion.
fn operation_of(word: &[u8], tokens: &[&[u8]]) -> Option<Command>
    ensures { ok_or (option_map Some result) Refusal.Syntax ≡ command_among operation_forms word.now (map (λ t. t.now) tokens.now) }
{
    if is_word(word, b"union") {
        union_command(tokens)
    } else if is_word(word, b"difference") {
        difference_command(tokens)
    } else if is_word(word, b"intersect") {
        intersect_command(tokens)
    } else if is_word(word, b"max") {
        max_command(tokens)
    } else if is_word(word, b"min") {
        min_command(tokens)
    } else if is_word(word, b"sum") {
        sum_command(tokens)
    } else if is_word(word, b"replace") {
        replace_command(tokens)
    } else if is_word(word, b"dilate") {
        dilate_command(tokens)
    } else if is_word(word, b"erode") {
        erode_command(tokens)
    } else {
        None
    }
}

/// Returns whether a token begins a comment, which ends at the end of the line.
fn is_comment(token: &[u8]) -> bool
    ensures { result ≡ is_comment token.now }
{
    matches!(token, [b'#', ..])
}

/// Returns the command of a line, given without its newline, or `None` for a blank line or a comment. The line may have any
/// length; nothing is allocated.
///
/// Fails with `Refusal::Syntax` if the line is not a command: an unknown word, too few tokens or too many, or a token of the
/// wrong form. A number outside its range and a missing grid are errors of the command when it is carried out.
pub fn parse(alloc: Global, line: &[u8]) -> Result<Option<Command>, Refusal>
    ensures { result ≡ parse line.now }
{
    let Some((word, rest)) = first_token(line) else {
        return Ok(None);
    };
    if is_comment(word) {
        return Ok(None);
    }
    // filled here, since a list that another function returns is moved byte by byte
    let mut tokens = Tokens::new(alloc);
    let mut left = rest;
    while let Some((token, behind)) = first_token(left) {
        if tokens.len() == ARGUMENT_LIMIT {
            return Err(Refusal::Syntax);
        }
        tokens.push_reserved(token);
        left = behind;
    }
    match command_of(word, tokens.as_slice()) {
        Some(command) => Ok(Some(command)),
        None => Err(Refusal::Syntax),
    }
}

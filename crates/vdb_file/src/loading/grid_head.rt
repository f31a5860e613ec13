//! Reads the part of a grid between its background and its root blocks.

ghost use Rattle.std.specs.Prelude.{◌↔◌, Err, IfErr, IsTrue};
ghost use Rattle.std.specs.Int.{w32, to_be_bytes};
ghost use Rattle.vdb_file.specs.internal.FieldFaults.{IsInner};
ghost use Rattle.vdb_file.specs.internal.Parts.{IsHead, IsLimit, head_code, head_view};
ghost use Rattle.vdb_file.specs.internal.Reading.{EndsWith, Moves, Reads, ahead};

use crate::fault::LoadFault;
use crate::loading::fields::take_u32;
use crate::loading::input::Input;
use crate::loading::metas::take_pairs;
use crate::loading::source::Source;
use crate::loading::versions::Version;
use std::alloc::Global;
use vdb_scene::{MOST_ROOT_LIMIT, Metas, ROOT_LIMIT};

/// A grid's root limit and its metadata pairs.
#[derive(Drop)]
pub(crate) struct Head {
    pub(crate) limit: u32,
    pub(crate) metas: Metas,
}

/// Returns whether a grid may have this root limit.
fn is_limit(limit: u32) -> bool
    ensures { IsTrue result ↔ IsLimit limit }
{
    0 < limit && limit <= MOST_ROOT_LIMIT
}

/// Reads a root limit: four bytes.
fn take_limit<S: Source>(input: &mut Input, reader: &mut S) -> Result<u32, LoadFault>
    requires ends { EndsWith input.old (S.state reader.old) }
    ensures moves { Moves input.old (S.state reader.old) input.new (S.state reader.new) result }
    ensures reads { Reads (λ limit. limit) IsLimit (to_be_bytes w32) result
        (ahead input.old (S.state reader.old)) (ahead input.new (S.state reader.new)) }
    ensures inner { IfErr result IsInner }
{
    let limit = take_u32(input, reader)?;
    if !is_limit(limit) {
        return Err(LoadFault::Limit);
    }
    Ok(limit)
}

/// Reads the root limit and the pairs of a grid in version 2.
fn take_new_head<S: Source>(
    alloc: Global,
    input: &mut Input,
    reader: &mut S,
) -> Result<Head, LoadFault>
    requires ends { EndsWith input.old (S.state reader.old) }
    ensures moves { Moves input.old (S.state reader.old) input.new (S.state reader.new) result }
    ensures reads { Reads head_view (IsHead Version.Two) (head_code Version.Two) result
        (ahead input.old (S.state reader.old)) (ahead input.new (S.state reader.new)) }
    ensures inner { IfErr result IsInner }
{
    let limit = take_limit(input, reader)?;
    let metas = take_pairs(alloc, input, reader)?;
    Ok(Head { limit, metas })
}

/// Reads the root limit and the pairs of a grid in this version. Version 1 has no bytes for them: all its grids have one limit
/// and no pairs.
pub(crate) fn take_head<S: Source>(
    alloc: Global,
    input: &mut Input,
    reader: &mut S,
    version: Version,
) -> Result<Head, LoadFault>
    requires ends { EndsWith input.old (S.state reader.old) }
    ensures moves { Moves input.old (S.state reader.old) input.new (S.state reader.new) result }
    ensures reads { Reads head_view (IsHead version) (head_code version) result
        (ahead input.old (S.state reader.old)) (ahead input.new (S.state reader.new)) }
    ensures inner { IfErr result IsInner }
{
    match version {
        Version::One => Ok(Head {
            limit: ROOT_LIMIT,
            metas: Metas::new(alloc),
        }),
        Version::Two => take_new_head(alloc, input, reader),
    }
}

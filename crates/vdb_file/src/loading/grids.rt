//! Reads the grids of a file.

ghost use Rattle.std.specs.Prelude.{Err, IfErr, IfOk};
ghost use Rattle.vdb_coord.specs.Blocks.{vdb};
ghost use Rattle.vdb_scene.specs.Grids.{grid_with};
ghost use Rattle.vdb_scene.specs.Accessors.{HasUnusedAccessors};
ghost use Rattle.vdb_file.specs.internal.FieldFaults.{IsInner};
ghost use Rattle.vdb_file.specs.internal.Parts.{IsBody, IsItem, IsLoadedGrid, IsNamed, body_bytes, loaded, loaded_bytes, name_of, named_bytes, named_view};
ghost use Rattle.vdb_file.specs.internal.Reading.{EndsWith, Moves, Reads, ahead};

use crate::fault::LoadFault;
use crate::loading::fields::{take_u8, take_value};
use crate::loading::grid_head::take_head;
use crate::loading::input::Input;
use crate::loading::names::take_name;
use crate::loading::roots::take_roots;
use crate::loading::source::Source;
use crate::loading::versions::Version;
use std::alloc::Global;
use vdb_grid::Grid;
use vdb_pool::Steps;
use vdb_scene::{AnyGrid, GridValue, Metas, Name};
use vdb_tree::Tree;

/// Reads the rest of a grid after the number of its type: a tree and its metadata pairs.
fn take_tree<V: GridValue, S: Source>(
    alloc: Global,
    input: &mut Input,
    reader: &mut S,
    version: Version,
    steps: &mut Steps,
) -> Result<(Tree<V>, Metas), LoadFault>
    requires ends { EndsWith input.old (S.state reader.old) }
    ensures moves { Moves input.old (S.state reader.old) input.new (S.state reader.new) result }
    ensures reads { Reads (λ r. loaded r.0 r.1) (IsLoadedGrid V.is_value V.eq V.bytes_of version) (loaded_bytes V.is_value V.eq V.bytes_of version) result
        (ahead input.old (S.state reader.old)) (ahead input.new (S.state reader.new)) }
    ensures inner { IfErr result IsInner }
{
    let background = take_value::<V, S>(input, reader)?;
    let head = take_head(alloc, input, reader, version)?;
    let mut tree = Tree::new(alloc, background, head.limit);
    take_roots(&mut tree, input, reader, steps)?;
    Ok((tree, head.metas))
}

/// Reads a grid after its name.
fn take_grid<S: Source>(
    alloc: Global,
    input: &mut Input,
    reader: &mut S,
    version: Version,
    steps: &mut Steps,
) -> Result<(AnyGrid, Metas), LoadFault>
    requires ends { EndsWith input.old (S.state reader.old) }
    ensures moves { Moves input.old (S.state reader.old) input.new (S.state reader.new) result }
    ensures reads { Reads (λ r. grid_with r.0 r.1) (IsBody version) (body_bytes version) result
        (ahead input.old (S.state reader.old)) (ahead input.new (S.state reader.new)) }
    ensures unused { IfOk result (λ r. HasUnusedAccessors r.0) }
    ensures inner { IfErr result IsInner }
{
    let kind = take_u8(input, reader)?;
    match kind {
        0 => {
            let truths = take_tree::<bool, S>(alloc, input, reader, version, steps)?;
            Ok((AnyGrid::Bool(Grid::from_tree(truths.0)), truths.1))
        }
        1 => {
            let numbers = take_tree::<i32, S>(alloc, input, reader, version, steps)?;
            Ok((AnyGrid::I32(Grid::from_tree(numbers.0)), numbers.1))
        }
        2 => {
            let longs = take_tree::<i64, S>(alloc, input, reader, version, steps)?;
            Ok((AnyGrid::I64(Grid::from_tree(longs.0)), longs.1))
        }
        _ => Err(LoadFault::Kind),
    }
}

/// A grid with its name and its metadata pairs.
#[derive(Drop)]
pub(crate) struct Named {
    pub(crate) name: Name,
    pub(crate) grid: AnyGrid,
    pub(crate) metas: Metas,
}

/// Reads a name, which must be greater than `before`, and then its grid.
pub(crate) fn take_named<S: Source>(
    alloc: Global,
    input: &mut Input,
    reader: &mut S,
    version: Version,
    before: Option<Name>,
    steps: &mut Steps,
) -> Result<Named, LoadFault>
    requires ends { EndsWith input.old (S.state reader.old) }
    ensures moves { Moves input.old (S.state reader.old) input.new (S.state reader.new) result }
    ensures reads { Reads named_view (IsItem (IsNamed version) name_of before) (named_bytes version) result
        (ahead input.old (S.state reader.old)) (ahead input.new (S.state reader.new)) }
    ensures unused { IfOk result (λ named. HasUnusedAccessors named.grid) }
    ensures inner { IfErr result IsInner }
{
    let name = take_name(input, reader, before, LoadFault::Name)?;
    let read = take_grid(alloc, input, reader, version, steps)?;
    Ok(Named {
        name,
        grid: read.0,
        metas: read.1,
    })
}

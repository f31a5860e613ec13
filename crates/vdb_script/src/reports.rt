//! Reports on a grid as text.
ghost use Rattle.std.specs.Prelude.{◌≡◌, ◌≤◌, ◌||◌, is_err, length, Some, option_map};
ghost use Rattle.std.specs.Fmt.{signed_decimal};
ghost use Rattle.vdb_scene.specs.Shown.{box_of_corners};
ghost use Rattle.vdb_scene.specs.Replies as replies;
ghost use Rattle.vdb_scene.specs.Watched.{has_failed, source};
ghost use Rattle.vdb_script.specs.Text.{text};
ghost use Rattle.vdb_script.specs.Writing.{Writes};

use crate::output::{WriteFault, write_bytes};
use crate::printing::{ANSWER_LIMIT, compose};
use arrayvec::ArrayVec;
use itoa::Buffer;
use std::io::Write;
use vdb_coord::Coord;
use vdb_scene::Watched;
use vdb_walk::Census;

/// Writes the line of a count.
pub(crate) fn print_count<W: Write>(active: u128, writer: &mut Watched<W>) -> Result<(), WriteFault>
    ensures writes { Writes (W.contents (source writer.old)) (W.contents (source writer.new)) result (text (replies.Count active)) }
    ensures failed { has_failed writer.new ≡ (has_failed writer.old || is_err result) }
{
    let mut buffer = Buffer::new();
    let line = compose([b"count".as_slice(), buffer.format(active).as_bytes()].as_slice());
    write_bytes(writer, line.as_slice())
}

/// Writes the line of the bounding box of the active voxels, if any.
pub(crate) fn print_bounds<W: Write>(
    corners: Option<(Coord, Coord)>,
    writer: &mut Watched<W>,
) -> Result<(), WriteFault>
    ensures writes { Writes (W.contents (source writer.old)) (W.contents (source writer.new)) result (text (replies.Bounds (option_map box_of_corners corners))) }
    ensures failed { has_failed writer.new ≡ (has_failed writer.old || is_err result) }
{
    write_bytes(writer, bounds_line(corners).as_slice())
}

/// Writes the line of a census.
pub(crate) fn print_census<W: Write>(
    counts: Census,
    writer: &mut Watched<W>,
) -> Result<(), WriteFault>
    ensures writes { Writes (W.contents (source writer.old)) (W.contents (source writer.new)) result (text (replies.Census counts)) }
    ensures failed { has_failed writer.new ≡ (has_failed writer.old || is_err result) }
{
    write_bytes(writer, census_line(counts).as_slice())
}

/// Returns the line of the bounding box of the active voxels, if any.
fn bounds_line(corners: Option<(Coord, Coord)>) -> ArrayVec<u8, ANSWER_LIMIT>
    ensures { result.items ≡ text (replies.Bounds (option_map box_of_corners corners)) }
{
    match corners {
        Some((min, max)) => corners_line(min, max),
        None => compose([b"bounds".as_slice(), b"none".as_slice()].as_slice()),
    }
}

/// Returns the line of a box, given by its corners.
fn corners_line(min: Coord, max: Coord) -> ArrayVec<u8, ANSWER_LIMIT>
    ensures { result.items ≡ text (replies.Bounds (Some (record { min = min; max = max }))) }
{
    let (mut x0, mut y0, mut z0) = (Buffer::new(), Buffer::new(), Buffer::new());
    let (mut x1, mut y1, mut z1) = (Buffer::new(), Buffer::new(), Buffer::new());
    let parts = [
        b"bounds".as_slice(),
        component_text(min.x, &mut x0),
        component_text(min.y, &mut y0),
        component_text(min.z, &mut z0),
        component_text(max.x, &mut x1),
        component_text(max.y, &mut y1),
        component_text(max.z, &mut z1),
    ];
    compose(parts.as_slice())
}

/// Returns the line of a census.
fn census_line(counts: Census) -> ArrayVec<u8, ANSWER_LIMIT>
    ensures { result.items ≡ text (replies.Census counts) }
{
    let (mut roots, mut upper) = (Buffer::new(), Buffer::new());
    let (mut lower, mut leaf) = (Buffer::new(), Buffer::new());
    let parts = [
        b"census".as_slice(),
        roots.format(counts.roots).as_bytes(),
        upper.format(counts.upper).as_bytes(),
        lower.format(counts.lower).as_bytes(),
        leaf.format(counts.leaf).as_bytes(),
    ];
    compose(parts.as_slice())
}

/// Returns the text of a component.
pub(crate) fn component_text<'b>(component: i32, buffer: &'b mut Buffer) -> &'b [u8]
    ensures text { result.now ≡ signed_decimal component }
    ensures short { length result.now ≤ 11 }
{
    buffer.format(component).as_bytes()
}

//! Lists of voxels as text.
ghost use Rattle.std.specs.Prelude.{◌≡◌, ◌≤◌, ◌||◌, ◌++◌, drop, flat_map, IfOk, OnOk, is_err, length, take};
ghost use Rattle.vdb_scene.specs.Listings.{listed_of, voxels_of};
ghost use Rattle.vdb_scene.specs.Replies.{listing as listing_reply};
ghost use Rattle.vdb_scene.specs.Watched.{has_failed, source};
ghost use Rattle.vdb_script.specs.Text.{last_line, more_word, text, voxel_line};
ghost use Rattle.vdb_script.specs.Writing.{Adds, Writes};

use crate::output::{Page, WriteFault, add, write_bytes};
use crate::printing::{ANSWER_LIMIT, compose, value_text};
use crate::reports::component_text;
use arrayvec::ArrayVec;
use itoa::Buffer;
use std::io::Write;
use vdb_coord::Coord;
use vdb_pool::Steps;
use vdb_scene::{AnyListing, Scalar, Voxels, Watched};

/// Writes the first voxels, a line each, and the last line.
pub(crate) fn print_list<W: Write>(
    voxels: Voxels,
    writer: &mut Watched<W>,
    steps: &mut Steps,
) -> Result<(), WriteFault>
    ensures writes { Writes (W.contents (source writer.old)) (W.contents (source writer.new)) result (text (listing_reply voxels.entry.limit (voxels_of voxels.entry))) }
    ensures failed { has_failed writer.new ≡ (has_failed writer.old || is_err result) }
{
    let mut listing = voxels.listing();
    let mut page = Page::new();
    let count = add_voxels(&mut listing, voxels.limit(), &mut page, writer, steps)?;
    let more = listing.more(steps);
    add(&mut page, list_end_line(more, count).as_slice(), writer)?;
    write_bytes(writer, page.as_slice())
}

/// Adds the lines of a listing's first voxels, and returns their number.
fn add_voxels<W: Write>(
    listing: &mut AnyListing,
    limit: u32,
    page: &mut Page,
    writer: &mut Watched<W>,
    steps: &mut Steps,
) -> Result<u32, WriteFault>
    requires { (listed_of listing.old).left ≡ limit }
    ensures adds { Adds (W.contents (source writer.old)) (W.contents (source writer.new)) result page.old.items (flat_map voxel_line (take limit (listed_of listing.old).rest)) page.new.items }
    ensures failed { has_failed writer.new ≡ (has_failed writer.old || is_err result) }
    ensures count { IfOk result (λ count. count ≡ length (take limit (listed_of listing.old).rest)) }
    ensures rest { OnOk result ((listed_of listing.new).rest ≡ drop limit (listed_of listing.old).rest) }
{
    let mut count = 0;
    while let Some(voxel) = listing.next(steps) {
        add(page, voxel_text(voxel.0, voxel.1).as_slice(), writer)?;
        count += 1;
    }
    Ok(count)
}

/// Returns the line of a voxel: its coordinate and its value.
fn voxel_text(at: Coord, value: Scalar) -> ArrayVec<u8, ANSWER_LIMIT>
    ensures { result.items ≡ voxel_line (at, value) }
{
    let (mut x, mut y, mut z) = (Buffer::new(), Buffer::new(), Buffer::new());
    let mut buffer = Buffer::new();
    let parts = [
        component_text(at.x, &mut x),
        component_text(at.y, &mut y),
        component_text(at.z, &mut z),
        value_text(value, &mut buffer),
    ];
    compose(parts.as_slice())
}

/// Returns the last line of a list: whether more voxels follow, and the number of the listed ones.
fn list_end_line(more: bool, count: u32) -> ArrayVec<u8, ANSWER_LIMIT>
    ensures { result.items ≡ last_line (more_word more) count }
{
    let mut buffer = Buffer::new();
    compose([more_word_text(more), buffer.format(count).as_bytes()].as_slice())
}

/// Returns the word that says whether more voxels follow.
fn more_word_text(more: bool) -> &'static [u8]
    ensures text { result.now ≡ more_word more }
    ensures short { length result.now ≤ 4 }
{
    match more {
        true => b"more",
        false => b"end",
    }
}

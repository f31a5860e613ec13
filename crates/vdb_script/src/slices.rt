//! Slices as text, row by row.
ghost use Rattle.std.specs.Prelude.{◌≡◌, ◌≤◌, ◌||◌, [], ◌∷◌, ◌++◌, flat_map, codes, is_err, length};
ghost use Rattle.std.specs.Fmt.{signed_decimal};
ghost use Rattle.vdb_scene.specs.Slices.{cells_left, rows_left};
ghost use Rattle.vdb_scene.specs.Replies as replies;
ghost use Rattle.vdb_scene.specs.Watched.{has_failed, source};
ghost use Rattle.vdb_script.specs.Text.{cell_text, row_line, text};
ghost use Rattle.vdb_script.specs.Writing.{Adds, Writes};

use crate::output::{Page, WriteFault, add, write_bytes};
use crate::printing::{ANSWER_LIMIT, compose, end_line, value_text};
use arrayvec::ArrayVec;
use itoa::Buffer;
use std::io::Write;
use vdb_pool::Steps;
use vdb_scene::{Scalar, Slice, SliceRow, Watched};
use vdb_value::Cell;

/// The maximum number of bytes of a cell in a slice: a space, and a value in brackets.
const CELL_LIMIT: usize = 24;

/// Writes the rows of a slice, a line each, and the last line.
pub(crate) fn print_slice<W: Write>(
    slice: Slice,
    writer: &mut Watched<W>,
    steps: &mut Steps,
) -> Result<(), WriteFault>
    ensures writes { Writes (W.contents (source writer.old)) (W.contents (source writer.new)) result (text (replies.Slice (rows_left slice.entry))) }
    ensures failed { has_failed writer.new ≡ (has_failed writer.old || is_err result) }
{
    let count = slice.len();
    let mut page = Page::new();
    add_rows(slice, &mut page, writer, steps)?;
    add(&mut page, end_line(count).as_slice(), writer)?;
    write_bytes(writer, page.as_slice())
}

/// Adds the lines of a slice's rows.
fn add_rows<W: Write>(
    slice: Slice,
    page: &mut Page,
    writer: &mut Watched<W>,
    steps: &mut Steps,
) -> Result<(), WriteFault>
    ensures adds { Adds (W.contents (source writer.old)) (W.contents (source writer.new)) result page.old.items (flat_map row_line (rows_left slice.entry)) page.new.items }
    ensures failed { has_failed writer.new ≡ (has_failed writer.old || is_err result) }
{
    let mut slice = slice;
    while let Some(row) = slice.next() {
        add_row(row, page, writer, steps)?;
    }
    Ok(())
}

/// Adds the line of a row.
fn add_row<W: Write>(
    row: SliceRow,
    page: &mut Page,
    writer: &mut Watched<W>,
    steps: &mut Steps,
) -> Result<(), WriteFault>
    ensures adds { Adds (W.contents (source writer.old)) (W.contents (source writer.new)) result page.old.items (row_line (record { y = row.entry.y; cells = cells_left row.entry })) page.new.items }
    ensures failed { has_failed writer.new ≡ (has_failed writer.old || is_err result) }
{
    add(page, row_head(&row).as_slice(), writer)?;
    add_cells(row, page, writer, steps)?;
    add(page, b"\n", writer)
}

/// Adds the cells of a row, each after a space.
fn add_cells<W: Write>(
    row: SliceRow,
    page: &mut Page,
    writer: &mut Watched<W>,
    steps: &mut Steps,
) -> Result<(), WriteFault>
    ensures adds { Adds (W.contents (source writer.old)) (W.contents (source writer.new)) result page.old.items (flat_map (λ c. 32 ∷ cell_text c) (cells_left row.entry)) page.new.items }
    ensures failed { has_failed writer.new ≡ (has_failed writer.old || is_err result) }
{
    let mut row = row;
    while let Some(cell) = row.next(steps) {
        add(page, spaced_cell(cell).as_slice(), writer)?;
    }
    Ok(())
}

/// Returns the begin of a row's line: its word and its y.
fn row_head(row: &SliceRow) -> ArrayVec<u8, ANSWER_LIMIT>
    ensures { result.items ≡ codes "row" ++ 32 ∷ signed_decimal row.now.y }
{
    let mut buffer = Buffer::new();
    let mut head = compose([
        b"row".as_slice(),
        value_text(Scalar::I32(row.y()), &mut buffer),
    ]
    .as_slice());
    let _ = head.pop();
    head
}

/// Returns a space and a cell: its value, in brackets if it is inactive.
fn spaced_cell(cell: Cell<Scalar>) -> ArrayVec<u8, CELL_LIMIT>
    ensures { result.items ≡ 32 ∷ cell_text cell }
{
    let mut buffer = Buffer::new();
    let text = value_text(cell.value, &mut buffer);
    let mut spaced = ArrayVec::new();
    spaced.push(b' ');
    if cell.on {
        spaced.try_extend_from_slice(text).unwrap();
    } else {
        spaced.push(b'(');
        spaced.try_extend_from_slice(text).unwrap();
        spaced.push(b')');
    }
    spaced
}

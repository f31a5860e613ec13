//! Answers as text.

ghost use Rattle.std.specs.Prelude.{◌≡◌, ◌≤◌, ◌||◌, [], ◌∷◌, ◌++◌, codes, if◌then◌else◌, is_err, length, map};
ghost use Rattle.vdb_scene.specs.Scalars.{scalar_text};
ghost use Rattle.vdb_scene.specs.Shown.{Shows};
ghost use Rattle.vdb_scene.specs.Replies.{Reply};
ghost use Rattle.vdb_scene.specs.Replies as replies;
ghost use Rattle.vdb_scene.specs.Watched.{has_failed, source};
ghost use Rattle.vdb_script.specs.Text.{last_line, line, state_text, text, word};
ghost use Rattle.vdb_script.specs.Writing.{Writes};

use crate::lists::print_list;
use crate::output::{WriteFault, write_bytes};
use crate::pairs::print_pairs;
use crate::reports::{print_bounds, print_census, print_count};
use crate::slices::print_slice;
use arrayvec::ArrayVec;
use itoa::Buffer;
use std::io::Write;
use vdb_pool::Steps;
use vdb_scene::{Answer, Refusal, Scalar, Watched};

/// The maximum number of bytes of an answer's line, with its newline.
pub(crate) const ANSWER_LIMIT: usize = 96;

/// Returns the word of an error.
fn refusal_word(refusal: Refusal) -> &'static [u8]
    ensures text { result.now ≡ word refusal }
    ensures short { length result.now ≤ 20 }
{
    match refusal {
        Refusal::LineTooLong => b"line-too-long",
        Refusal::Syntax => b"syntax",
        Refusal::NoGrid => b"no-grid",
        Refusal::NameTaken => b"name-taken",
        Refusal::SameGrid => b"same-grid",
        Refusal::GridLimit => b"grid-limit",
        Refusal::Kind => b"kind",
        Refusal::ValueRange => b"value-range",
        Refusal::NoAccessor => b"no-accessor",
        Refusal::Box => b"box",
        Refusal::TooLarge => b"too-large",
        Refusal::NoSum => b"no-sum",
        Refusal::SumRange => b"sum-range",
        Refusal::RootLimit => b"root-limit",
        Refusal::MetaLimit => b"meta-limit",
        Refusal::Memory => b"memory",
    }
}

/// Returns the text of a value: `true`, `false` or a decimal number.
pub(crate) fn value_text<'b>(value: Scalar, buffer: &'b mut Buffer) -> &'b [u8]
    ensures text { result.now ≡ scalar_text value }
    ensures short { length result.now ≤ 20 }
{
    match value {
        Scalar::Bool(true) => b"true",
        Scalar::Bool(false) => b"false",
        Scalar::I32(number) => buffer.format(number).as_bytes(),
        Scalar::I64(number) => buffer.format(number).as_bytes(),
    }
}

/// Returns the word of a state.
fn state_word(on: bool) -> &'static [u8]
    ensures text { result.now ≡ state_text on }
    ensures short { length result.now ≤ 3 }
{
    match on {
        true => b"on",
        false => b"off",
    }
}

/// Appends a part to a line, after a space unless it is the first.
fn add_part(composed: &mut ArrayVec<u8, ANSWER_LIMIT>, is_first: bool, part: &[u8])
    requires capacity { length ((if is_first then composed.old.items else composed.old.items ++ 32 ∷ [])
        ++ part.now) ≤ ANSWER_LIMIT }
    ensures { composed.new.items ≡
        (if is_first then composed.old.items else composed.old.items ++ 32 ∷ []) ++ part.now }
{
    if !is_first {
        composed.push(b' ');
    }
    composed.try_extend_from_slice(part).unwrap();
}

/// Returns a line: its parts with a space between each two, and a newline.
pub(crate) fn compose(parts: &[&[u8]]) -> ArrayVec<u8, ANSWER_LIMIT>
    requires capacity { length (line (map (λ part. part.now) parts.now)) ≤ ANSWER_LIMIT }
    ensures { result.items ≡ line (map (λ part. part.now) parts.now) }
{
    let mut composed = ArrayVec::new();
    for (i, part) in parts.iter().enumerate() {
        add_part(&mut composed, i == 0, part);
    }
    composed.push(b'\n');
    composed
}

/// Returns the last line of an answer: the number of the lines before it.
pub(crate) fn end_line(count: u64) -> ArrayVec<u8, ANSWER_LIMIT>
    ensures { result.items ≡ last_line (codes "end") count }
{
    let mut buffer = Buffer::new();
    compose([b"end".as_slice(), buffer.format(count).as_bytes()].as_slice())
}

/// Returns the line of a cell.
fn value_line(value: Scalar, on: bool) -> ArrayVec<u8, ANSWER_LIMIT>
    ensures { result.items ≡ text (replies.Value (record { value = value; on = on })) }
{
    let mut buffer = Buffer::new();
    let parts = [
        b"value".as_slice(),
        value_text(value, &mut buffer),
        state_word(on),
    ];
    compose(parts.as_slice())
}

/// Writes the line of an error.
fn print_refusal<W: Write>(refusal: Refusal, writer: &mut Watched<W>) -> Result<(), WriteFault>
    ensures writes { Writes (W.contents (source writer.old)) (W.contents (source writer.new)) result (text (replies.Refused refusal)) }
    ensures failed { has_failed writer.new ≡ (has_failed writer.old || is_err result) }
{
    let line = compose([b"error".as_slice(), refusal_word(refusal)].as_slice());
    write_bytes(writer, line.as_slice())
}

/// Writes the line of a cell.
fn print_value<W: Write>(value: Scalar, on: bool, writer: &mut Watched<W>) -> Result<(), WriteFault>
    ensures writes { Writes (W.contents (source writer.old)) (W.contents (source writer.new)) result (text (replies.Value (record { value = value; on = on }))) }
    ensures failed { has_failed writer.new ≡ (has_failed writer.old || is_err result) }
{
    write_bytes(writer, value_line(value, on).as_slice())
}

/// Writes the text of an answer. Each answer but `ok` has a function of its own, since a call reserves stack space for every line
/// that its function may compose.
///
/// The text is collected first, up to 4,096 bytes at once, and written in one call; only a writer that takes a part of them is
/// called again, with the rest. An answer of several lines is read from the scene while it is written. Fails with `WriteFault` if
/// a call of the writer fails or takes no byte of some. A prefix of the text may have been written then, and the writer isn't
/// called again.
pub fn print<W: Write>(
    answer: Answer,
    writer: &mut Watched<W>,
    steps: &mut Steps,
) -> Result<(), WriteFault>
    ensures writes { (reply : Reply) → Shows answer.entry reply →
        Writes (W.contents (source writer.old)) (W.contents (source writer.new)) result (text reply) }
    ensures failed { has_failed writer.new ≡ (has_failed writer.old || is_err result) }
{
    match answer {
        Answer::Done => write_bytes(writer, b"ok\n"),
        Answer::Refused(refusal) => print_refusal(refusal, writer),
        Answer::Value(value, on) => print_value(value, on, writer),
        Answer::List(voxels) => print_list(voxels, writer, steps),
        Answer::Slice(slice) => print_slice(slice, writer, steps),
        Answer::Count(active) => print_count(active, writer),
        Answer::Bounds(corners) => print_bounds(corners, writer),
        Answer::Census(counts) => print_census(counts, writer),
        Answer::Pairs(metas) => print_pairs(metas, writer),
    }
}

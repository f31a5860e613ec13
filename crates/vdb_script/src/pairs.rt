//! Metadata pairs as text.
ghost use Rattle.std.specs.Prelude.{◌≡◌, ◌||◌, flat_map, is_err};
ghost use Rattle.vdb_scene.specs.Replies as replies;
ghost use Rattle.vdb_scene.specs.Watched.{has_failed, source};
ghost use Rattle.vdb_script.specs.Text as texts;
ghost use Rattle.vdb_script.specs.Text.{text as text_of};
ghost use Rattle.vdb_script.specs.Writing.{Adds, Writes};

use crate::output::{Page, WriteFault, add, write_bytes};
use crate::printing::{ANSWER_LIMIT, compose, end_line};
use arrayvec::ArrayVec;
use std::io::Write;
use vdb_scene::{MetaText, Metas, Name, Watched};

/// Writes the pairs, a line each, and the last line.
pub(crate) fn print_pairs<W: Write>(
    metas: &Metas,
    writer: &mut Watched<W>,
) -> Result<(), WriteFault>
    ensures writes { Writes (W.contents (source writer.old)) (W.contents (source writer.new)) result (text_of (replies.Pairs metas.now)) }
    ensures failed { has_failed writer.new ≡ (has_failed writer.old || is_err result) }
{
    let mut page = Page::new();
    add_pairs(metas, &mut page, writer)?;
    add(&mut page, end_line(metas.len() as u64).as_slice(), writer)?;
    write_bytes(writer, page.as_slice())
}

/// Adds the lines of the pairs.
fn add_pairs<W: Write>(
    metas: &Metas,
    page: &mut Page,
    writer: &mut Watched<W>,
) -> Result<(), WriteFault>
    ensures adds { Adds (W.contents (source writer.old)) (W.contents (source writer.new)) result page.old.items (flat_map texts.pair_line metas.now) page.new.items }
    ensures failed { has_failed writer.new ≡ (has_failed writer.old || is_err result) }
{
    for i in 0..metas.len() {
        let (key, text) = metas.pair(i);
        add(page, pair_line(key, text).as_slice(), writer)?;
    }
    Ok(())
}

/// Returns the line of a pair: its key and its text.
fn pair_line(key: &Name, text: &MetaText) -> ArrayVec<u8, ANSWER_LIMIT>
    ensures { result.items ≡ texts.pair_line (key.now, text.now) }
{
    compose([key.bytes(), text.bytes()].as_slice())
}

//! Writing of bytes, and a page that collects them first.

ghost use Rattle.std.specs.Prelude.{◌≡◌, ◌≤◌, ◌||◌, is_err, length};
ghost use Rattle.vdb_scene.specs.Watched.{has_failed, source};
ghost use Rattle.vdb_script.specs.Writing.{Adds, Writes};

use arrayvec::ArrayVec;
use std::io::Write;
use thiserror::Error;
use vdb_scene::Watched;

/// The maximum number of bytes that a page collects before they are written.
pub(crate) const PAGE_LIMIT: usize = 4096;

/// Bytes that are collected and not written yet.
pub(crate) type Page = ArrayVec<u8, PAGE_LIMIT>;

/// A fault of the writer: it failed, or took no byte of some.
#[derive(Clone, Copy, Debug, PartialEq, Eq, Error)]
#[error("write")]
pub struct WriteFault;

/// Writes all of the bytes, in one call if the writer takes them all at once. If the writer fails or takes no byte of some, it is
/// not called again.
pub(crate) fn write_bytes<W: Write>(writer: &mut Watched<W>, bytes: &[u8]) -> Result<(), WriteFault>
    ensures writes { Writes (W.contents (source writer.old)) (W.contents (source writer.new)) result bytes.now }
    ensures failed { has_failed writer.new ≡ (has_failed writer.old || is_err result) }
{
    let mut at = 0;
    while at < bytes.len() {
        match writer.write(&bytes[at..]) {
            Ok(0) => return Err(WriteFault),
            Ok(taken) => at += taken,
            Err(_) => return Err(WriteFault),
        }
    }
    Ok(())
}

/// Appends a part of at most a page to the page. If the page has no capacity left, it is written first.
pub(crate) fn add<W: Write>(
    page: &mut Page,
    part: &[u8],
    writer: &mut Watched<W>,
) -> Result<(), WriteFault>
    requires short { length part.now ≤ PAGE_LIMIT }
    ensures adds { Adds (W.contents (source writer.old)) (W.contents (source writer.new)) result page.old.items part.now page.new.items }
    ensures failed { has_failed writer.new ≡ (has_failed writer.old || is_err result) }
{
    if page.len() + part.len() > PAGE_LIMIT {
        write_bytes(writer, page.as_slice())?;
        page.clear();
    }
    page.try_extend_from_slice(part).unwrap();
    Ok(())
}

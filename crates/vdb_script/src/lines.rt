//! The lines of a script.

ghost use Rattle.std.specs.Prelude.{◌≡◌, ◌≢◌, ℕ, ◌+◌, ◌<◌, ◌≤◌, ◌||◌, true, false, List, [], ◌++◌, length, IfOk, IfSome, None, Ok, Err};
ghost use Rattle.vdb_scene.specs.Watched.{bytes_given, empty_reads, has_failed, source};
ghost use Rattle.vdb_script.specs.Reading.{EndsWith, YieldsEnd, YieldsLine, YieldsPart, YieldsTooMuch, YieldsUpTo, KeepsText, ahead, budget, end_count, ending_of, excess, is_read_fault};

use crate::line_text::LineText;
use crate::source::{ScriptFault, Source};
use memchr::memchr;
use std::io::Read;
use std::marker::Model;
use vdb_scene::Watched;

/// The result of reading a line of a script.
#[derive(Clone, Copy, Debug, PartialEq, Eq)]
pub enum Line {
    /// A line, which `Lines::text` returns.
    Text,
    /// A line of more than `LINE_LIMIT` bytes.
    TooLong,
    /// The end of the script.
    End,
}

/// The lines of a script, read piece by piece.
#[derive(Drop)]
pub struct Lines {
    source: Source,
    text: LineText,
    ending: Option<Result<Line, ScriptFault>>,
}

impl Model for Lines {
    ghost use Rattle.vdb_script.specs.Reading.{Position};

    ghost Value = { Position };

    ghost view = { λ l. record { source = l.source; text = l.text; ending = l.ending } };
}

impl Lines {
    /// Creates lines of which none has been read.
    pub fn new() -> Self
        ensures { result ≡ record {
          source = record { unread = []; left = 16777216; ended = false };
          text = [];
          ending = None;
        } }
    {
        Lines {
            source: Source::new(),
            text: LineText::new(),
            ending: None,
        }
    }

    /// Returns the last line read, without its newline: empty after `TooLong`, `End` or a fault.
    pub fn text(&self) -> &[u8]
        ensures { result.now ≡ self.now.text }
    {
        self.text.as_slice()
    }
}

/// The way in which reading a line ended.
#[derive(Clone, Copy, Debug, PartialEq, Eq)]
struct Found {
    /// Whether the text has the whole line.
    fits: bool,
    /// Whether the script ended before a newline.
    at_end: bool,
}

/// Reads bytes up to a newline or the script's end, and keeps them in `text` as long as they fit.
fn read_text<R: Read>(
    stock: &mut Source,
    text: &mut LineText,
    reader: &mut Watched<R>,
) -> Result<Found, ScriptFault>
    requires empty { text.old ≡ [] }
    requires ends { EndsWith stock.old (R.remaining (source reader.old)) }
    ensures ends { EndsWith stock.new (R.remaining (source reader.new)) }
    ensures quiet { stock.old.ended ≡ true → reader.new ≡ reader.old }
    ensures stays { stock.old.ended ≡ true → stock.new.ended ≡ true }
    ensures found { IfOk result (λ found. (line : List ℕ)
        × YieldsUpTo (ahead stock.old (R.remaining (source reader.old)))
        (ahead stock.new (R.remaining (source reader.new)))
        stock.old stock.new found.at_end line
        × KeepsText found.fits text.new line) }
    ensures overflow { result ≡ Err ScriptFault.TooLong →
        YieldsTooMuch (ahead stock.old (R.remaining (source reader.old)))
        (R.remaining (source reader.new)) stock.old }
    ensures read { result ≡ Err ScriptFault.Read →
        YieldsPart (ahead stock.old (R.remaining (source reader.old)))
        (R.remaining (source reader.new)) stock.old }
    ensures failed { has_failed reader.new ≡ (has_failed reader.old || is_read_fault result) }
    ensures given { bytes_given reader.new + stock.new.left ≤ bytes_given reader.old + stock.old.left + excess result }
    ensures empty { empty_reads reader.new + end_count stock.old ≤ empty_reads reader.old + end_count stock.new }
{
    let mut fits = true;
    loop {
        stock.fill(reader)?;
        let unread = stock.unread();
        if unread.is_empty() {
            return Ok(Found { fits, at_end: true });
        }
        match memchr(b'\n', unread) {
            Some(at) => {
                let fits = keep(text, fits, &unread[..at]);
                stock.skip(at + 1);
                return Ok(Found {
                    fits,
                    at_end: false,
                });
            }
            None => {
                let count = unread.len();
                fits = keep(text, fits, unread);
                stock.skip(count);
            }
        }
    }
}

/// Appends bytes to the text of a line if everything before them fits, and returns whether they fit too.
fn keep(text: &mut LineText, fits: bool, bytes: &[u8]) -> bool
    ensures { (line : List ℕ) → KeepsText fits text.old line → KeepsText result text.new (line ++ bytes.now) }
{
    fits && text.extend(bytes)
}

/// Reads the next line of a script that has neither ended nor failed.
fn next_line<R: Read>(
    stock: &mut Source,
    text: &mut LineText,
    reader: &mut Watched<R>,
) -> Result<Line, ScriptFault>
    requires empty { text.old ≡ [] }
    requires ends { EndsWith stock.old (R.remaining (source reader.old)) }
    ensures ends { EndsWith stock.new (R.remaining (source reader.new)) }
    ensures quiet { stock.old.ended ≡ true → reader.new ≡ reader.old }
    ensures stays { stock.old.ended ≡ true → stock.new.ended ≡ true }
    ensures text { result ≡ Ok Line.Text →
        YieldsLine (ahead stock.old (R.remaining (source reader.old)))
        (ahead stock.new (R.remaining (source reader.new)))
        stock.old stock.new text.new
        × (length text.new ≤ 256) }
    ensures too_long { result ≡ Ok Line.TooLong → (line : List ℕ)
        × YieldsLine (ahead stock.old (R.remaining (source reader.old)))
        (ahead stock.new (R.remaining (source reader.new)))
        stock.old stock.new line
        × (256 < length line) }
    ensures end { result ≡ Ok Line.End →
        YieldsEnd (ahead stock.old (R.remaining (source reader.old)))
        (ahead stock.new (R.remaining (source reader.new))) stock.new }
    ensures overflow { result ≡ Err ScriptFault.TooLong →
        YieldsTooMuch (ahead stock.old (R.remaining (source reader.old)))
        (R.remaining (source reader.new)) stock.old }
    ensures read { result ≡ Err ScriptFault.Read →
        YieldsPart (ahead stock.old (R.remaining (source reader.old)))
        (R.remaining (source reader.new)) stock.old }
    ensures failed { has_failed reader.new ≡ (has_failed reader.old || is_read_fault result) }
    ensures given { bytes_given reader.new + stock.new.left ≤ bytes_given reader.old + stock.old.left + excess result }
    ensures empty { empty_reads reader.new + end_count stock.old ≤ empty_reads reader.old + end_count stock.new }
    ensures no_text { result ≢ Ok Line.Text → text.new ≡ [] }
    ensures progress { ending_of result ≡ None → budget stock.new < budget stock.old }
{
    let found = match read_text(stock, text, reader) {
        Ok(found) => found,
        Err(fault) => {
            text.clear();
            return Err(fault);
        }
    };
    if !found.fits {
        text.clear();
        return Ok(Line::TooLong);
    }
    if found.at_end && text.as_slice().is_empty() {
        return Ok(Line::End);
    }
    Ok(Line::Text)
}

/// Reads the next line: the bytes up to the next newline, or up to the script's end if any are left.
///
/// A line that has arrived whole needs no further call of the reader, and a reader that has reported its end isn't called again.
/// After `Text`, `Lines::text` returns the line; a line of more than `LINE_LIMIT` bytes is read to its end and forgotten
/// (`TooLong`). Fails with `ScriptFault::Read` if a call of the reader fails, and with `ScriptFault::TooLong` if the reader gives
/// a byte past the script's limit; the line of that byte is lost. After the end or a fault each call returns the same result
/// again and reads nothing.
pub fn read_line<R: Read>(lines: &mut Lines, reader: &mut Watched<R>) -> Result<Line, ScriptFault>
    requires ends { EndsWith lines.old.source (R.remaining (source reader.old)) }
    ensures ends { EndsWith lines.new.source (R.remaining (source reader.new)) }
    ensures text { lines.old.ending ≡ None → result ≡ Ok Line.Text →
        YieldsLine (ahead lines.old.source (R.remaining (source reader.old)))
        (ahead lines.new.source (R.remaining (source reader.new)))
        lines.old.source lines.new.source lines.new.text
        × (length lines.new.text ≤ 256) }
    ensures too_long { lines.old.ending ≡ None → result ≡ Ok Line.TooLong → (line : List ℕ)
        × YieldsLine (ahead lines.old.source (R.remaining (source reader.old)))
        (ahead lines.new.source (R.remaining (source reader.new)))
        lines.old.source lines.new.source line
        × (256 < length line) }
    ensures end { lines.old.ending ≡ None → result ≡ Ok Line.End →
        YieldsEnd (ahead lines.old.source (R.remaining (source reader.old)))
        (ahead lines.new.source (R.remaining (source reader.new))) lines.new.source }
    ensures overflow { lines.old.ending ≡ None → result ≡ Err ScriptFault.TooLong →
        YieldsTooMuch (ahead lines.old.source (R.remaining (source reader.old)))
        (R.remaining (source reader.new)) lines.old.source }
    ensures read { lines.old.ending ≡ None → result ≡ Err ScriptFault.Read →
        YieldsPart (ahead lines.old.source (R.remaining (source reader.old)))
        (R.remaining (source reader.new)) lines.old.source }
    ensures failed { lines.old.ending ≡ None →
        has_failed reader.new ≡ (has_failed reader.old || is_read_fault result) }
    // The bytes that the reader gives count against the script's limit, but for one byte past it.
    ensures given { bytes_given reader.new + lines.new.source.left ≤ bytes_given reader.old + lines.old.source.left + excess result }
    // Only the read that reports the end gives no byte.
    ensures empty { empty_reads reader.new + end_count lines.old.source ≤ empty_reads reader.old + end_count lines.new.source }
    ensures ending { lines.old.ending ≡ None → lines.new.ending ≡ ending_of result }
    ensures progress { lines.old.ending ≡ None → ending_of result ≡ None →
        budget lines.new.source < budget lines.old.source }
    ensures quiet { lines.old.source.ended ≡ true → reader.new ≡ reader.old }
    ensures stays { lines.old.source.ended ≡ true → lines.new.source.ended ≡ true }
    ensures no_text { result ≢ Ok Line.Text → lines.new.text ≡ [] }
    ensures again { IfSome lines.old.ending (λ outcome.
        (result ≡ outcome) × (reader.new ≡ reader.old)
        × (lines.new.ending ≡ lines.old.ending) × (lines.new.source ≡ lines.old.source)) }
{
    lines.text.clear();
    if let Some(outcome) = lines.ending {
        return outcome;
    }
    let outcome = next_line(&mut lines.source, &mut lines.text, reader);
    lines.ending = match outcome {
        Ok(Line::Text) => None,
        Ok(Line::TooLong) => None,
        _ => Some(outcome),
    };
    outcome
}

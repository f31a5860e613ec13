//! The tokens of a line.
ghost use Rattle.std.specs.Prelude.{◌≡◌, ◌<◌, [], ◌∷◌, length, IfSome, IfNone, not};
ghost use Rattle.std.specs.List.{take_while};
ghost use Rattle.vdb_script.specs.Lines.{is_separator, tokens};

use smallvec::SmallVec;

/// The maximum number of tokens after the word of a command.
pub const ARGUMENT_LIMIT: usize = 9;

/// Tokens of a line, kept in place, so that they need no allocation.
pub type Tokens<'a> = SmallVec<&'a [u8], 12>;

/// Returns whether a byte separates tokens: a space, a tab or a carriage return.
fn is_separator_byte(byte: u8) -> bool
    ensures { result ≡ is_separator byte }
{
    byte == b' ' || byte == b'\t' || byte == b'\r'
}

/// Returns the number of separators at the begin of a line.
fn separators_before(line: &[u8]) -> usize
    ensures { result ≡ length (take_while is_separator line.now) }
{
    line.iter()
        .take_while(|byte| is_separator_byte(**byte))
        .count()
}

/// Returns the number of bytes before the first separator, or before the end.
fn bytes_before_separator(text: &[u8]) -> usize
    ensures { result ≡ length (take_while (λ b. not (is_separator b)) text.now) }
{
    text.iter()
        .take_while(|byte| !is_separator_byte(**byte))
        .count()
}

/// Returns the first token of a line and the bytes after it: `None` if the line has no token.
pub fn first_token(line: &[u8]) -> Option<(&[u8], &[u8])>
    ensures some { IfSome result (λ found. tokens line.entry.now ≡ found.0.now ∷ tokens found.1.now) }
    ensures shorter { IfSome result (λ found. length found.1.now < length line.entry.now) }
    ensures none { IfNone result (tokens line.entry.now ≡ []) }
{
    let text = &line[separators_before(line)..];
    if text.is_empty() {
        return None;
    }
    Some(text.split_at(bytes_before_separator(text)))
}

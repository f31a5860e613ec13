//! The commands of lines on a grid's metadata.

ghost use Rattle.std.specs.Prelude.{◌≡◌, Some, map, option_map};
ghost use Rattle.std.specs.Option.{ok_or};
ghost use Rattle.vdb_script.specs.Grammar.{meta, metas, text_of, unmeta, whole};

use crate::parsing::name_of;
use vdb_scene::{Command, MetaText, Refusal};

/// Returns the text of a metadata pair that a token has.
fn text_of(token: &[u8]) -> Option<MetaText>
    ensures { result ≡ text_of token.now }
{
    MetaText::new(token)
}

/// Returns the command `meta NAME KEY TEXT`, from the tokens after its word.
pub(crate) fn meta_command(tokens: &[&[u8]]) -> Option<Command>
    ensures { ok_or (option_map Some result) Refusal.Syntax ≡ whole (meta (map (λ t. t.now) tokens.now)) }
{
    match tokens {
        [name, key, text] => Some(Command::Meta {
            name: name_of(name)?,
            key: name_of(key)?,
            text: text_of(text)?,
        }),
        _ => None,
    }
}

/// Returns the command `unmeta NAME KEY`, from the tokens after its word.
pub(crate) fn unmeta_command(tokens: &[&[u8]]) -> Option<Command>
    ensures { ok_or (option_map Some result) Refusal.Syntax ≡ whole (unmeta (map (λ t. t.now) tokens.now)) }
{
    match tokens {
        [name, key] => Some(Command::Unmeta {
            name: name_of(name)?,
            key: name_of(key)?,
        }),
        _ => None,
    }
}

/// Returns the command `metas NAME`, from the tokens after its word.
pub(crate) fn metas_command(tokens: &[&[u8]]) -> Option<Command>
    ensures { ok_or (option_map Some result) Refusal.Syntax ≡ whole (metas (map (λ t. t.now) tokens.now)) }
{
    match tokens {
        [name] => Some(Command::Metas {
            name: name_of(name)?,
        }),
        _ => None,
    }
}

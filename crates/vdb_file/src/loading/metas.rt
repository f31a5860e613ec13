//! Reads the metadata pairs of a file.

ghost use Rattle.std.specs.Prelude.{◌≡◌, true, Err, IfErr, OnOk, Some};
ghost use Rattle.std.specs.List.{flat_map};
ghost use Rattle.vdb_scene.specs.Metas.{is_text, with_pair};
ghost use Rattle.vdb_file.specs.internal.FieldFaults.{IsInner};
ghost use Rattle.vdb_scene.specs.ValidScenes.{ArePairs, IsPair};
ghost use Rattle.vdb_file.specs.Spelling.{counted, pairs_bytes};
ghost use Rattle.vdb_file.specs.internal.Parts.{AreItems, IsItem, name_of, pair_bytes};
ghost use Rattle.vdb_file.specs.internal.Reading.{EndsWith, Moves, Reads, ahead};

use crate::fault::LoadFault;
use crate::loading::fields::{take_field, take_u8};
use crate::loading::input::Input;
use crate::loading::names::take_name;
use crate::loading::source::Source;
use std::alloc::Global;
use vdb_scene::{META_LIMIT, MetaText, Metas, Name, TEXT_LIMIT};

/// Reads the text of a pair.
fn take_text<S: Source>(input: &mut Input, reader: &mut S) -> Result<MetaText, LoadFault>
    requires ends { EndsWith input.old (S.state reader.old) }
    ensures moves { Moves input.old (S.state reader.old) input.new (S.state reader.new) result }
    ensures reads { Reads (λ text. text) (λ text. is_text text ≡ true) counted result
        (ahead input.old (S.state reader.old)) (ahead input.new (S.state reader.new)) }
    ensures inner { IfErr result IsInner }
{
    let len = take_u8(input, reader)?;
    let len = len as usize;
    if len > TEXT_LIMIT {
        return Err(LoadFault::Meta);
    }
    let mut bytes = [0; TEXT_LIMIT];
    let field = &mut bytes[..len];
    take_field(input, reader, field)?;
    match MetaText::new(field) {
        Some(text) => Ok(text),
        None => Err(LoadFault::Meta),
    }
}

/// Reads a key, which must be greater than `before`, and then its text.
fn take_pair<S: Source>(
    input: &mut Input,
    reader: &mut S,
    before: Option<Name>,
) -> Result<(Name, MetaText), LoadFault>
    requires ends { EndsWith input.old (S.state reader.old) }
    ensures moves { Moves input.old (S.state reader.old) input.new (S.state reader.new) result }
    ensures reads { Reads (λ pair. pair) (IsItem IsPair name_of before) pair_bytes result
        (ahead input.old (S.state reader.old)) (ahead input.new (S.state reader.new)) }
    ensures inner { IfErr result IsInner }
{
    let key = take_name(input, reader, before, LoadFault::Meta)?;
    let text = take_text(input, reader)?;
    Ok((key, text))
}

/// Reads this many pairs.
fn take_each_pair<S: Source>(
    alloc: Global,
    input: &mut Input,
    reader: &mut S,
    count: u8,
) -> Result<Metas, LoadFault>
    requires ends { EndsWith input.old (S.state reader.old) }
    ensures moves { Moves input.old (S.state reader.old) input.new (S.state reader.new) result }
    ensures reads { Reads (λ metas. metas) (AreItems IsPair name_of count) (flat_map pair_bytes) result
        (ahead input.old (S.state reader.old)) (ahead input.new (S.state reader.new)) }
    ensures inner { IfErr result IsInner }
{
    let mut metas = Metas::new(alloc);
    let mut before = None;
    for _ in 0..count {
        let pair = take_pair(input, reader, before)?;
        before = Some(pair.0);
        put(&mut metas, pair.0, pair.1)?;
    }
    Ok(metas)
}

/// Adds a text under a key. The key is greater than all others, and the pairs have room for it.
fn put(metas: &mut Metas, key: Name, text: MetaText) -> Result<(), LoadFault>
    ensures ok { OnOk result (metas.new ≡ with_pair metas.old key text) }
    ensures err { IfErr result (λ fault. fault ≡ LoadFault.Memory) }
{
    match metas.set(key, text) {
        Ok(()) => Ok(()),
        Err(_) => Err(LoadFault::Memory),
    }
}

/// Reads the count of the pairs, and then the pairs.
pub(crate) fn take_pairs<S: Source>(
    alloc: Global,
    input: &mut Input,
    reader: &mut S,
) -> Result<Metas, LoadFault>
    requires ends { EndsWith input.old (S.state reader.old) }
    ensures moves { Moves input.old (S.state reader.old) input.new (S.state reader.new) result }
    ensures reads { Reads (λ metas. metas) ArePairs pairs_bytes result
        (ahead input.old (S.state reader.old)) (ahead input.new (S.state reader.new)) }
    ensures inner { IfErr result IsInner }
{
    let count = take_u8(input, reader)?;
    if count as usize > META_LIMIT {
        return Err(LoadFault::Meta);
    }
    let metas = take_each_pair(alloc, input, reader, count)?;
    Ok(metas)
}

//! Reads names and keys, which a file has in rising order.

ghost use Rattle.std.specs.Prelude.{◌↔◌, true, Err, IfErr, IsTrue, Some};
ghost use Rattle.std.specs.Ordering.{nat_cmp};
ghost use Rattle.std.specs.Cmp.Lexicographic.{slice_cmp};
ghost use Rattle.vdb_file.specs.internal.FieldFaults.{IsInner, IsOfForm};
ghost use Rattle.vdb_file.specs.Spelling.{counted};
ghost use Rattle.vdb_file.specs.internal.Following.{Follows};
ghost use Rattle.vdb_file.specs.internal.Parts.{IsNext};
ghost use Rattle.vdb_file.specs.internal.Reading.{EndsWith, Moves, Reads, ahead};

use crate::fault::LoadFault;
use crate::loading::fields::{take_field, take_u8};
use crate::loading::input::Input;
use crate::loading::source::Source;
use vdb_scene::{NAME_LIMIT, Name};

/// Reads a name, which must be greater than `before`. Returns `fault` if it has another form or isn't greater.
pub(crate) fn take_name<S: Source>(
    input: &mut Input,
    reader: &mut S,
    before: Option<Name>,
    fault: LoadFault,
) -> Result<Name, LoadFault>
    requires ends { EndsWith input.old (S.state reader.old) }
    requires fault { IsOfForm fault }
    ensures moves { Moves input.old (S.state reader.old) input.new (S.state reader.new) result }
    ensures reads { Reads (λ name. name) (IsNext before) counted result
        (ahead input.old (S.state reader.old)) (ahead input.new (S.state reader.new)) }
    ensures inner { IfErr result IsInner }
{
    let len = take_u8(input, reader)?;
    let len = len as usize;
    if len > NAME_LIMIT {
        return Err(fault);
    }
    let mut bytes = [0; NAME_LIMIT];
    let field = &mut bytes[..len];
    take_field(input, reader, field)?;
    match Name::new(field) {
        Some(name) => {
            if !follows(before, &name) {
                return Err(fault);
            }
            Ok(name)
        }
        None => Err(fault),
    }
}

/// Returns whether a name may come after `before`.
fn follows(before: Option<Name>, name: &Name) -> bool
    ensures { IsTrue result ↔ Follows (slice_cmp nat_cmp) before name.now }
{
    match before {
        Some(last) => last < *name,
        None => true,
    }
}

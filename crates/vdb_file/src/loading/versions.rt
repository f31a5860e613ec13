//! Reads the beginning of a file.

ghost use Rattle.std.specs.Prelude.{◌≡◌, ◌<◌, ◌≤◌, ◌∷◌, [], codes, length, Err, IfErr, IfSome, ⊤};
ghost use Rattle.std.specs.Int.{w16, to_be_bytes};
ghost use Rattle.vdb_file.specs.Faults.{HasOtherMagic, StartsWithOther};
ghost use Rattle.vdb_file.specs.internal.FieldFaults.{IsMagicFault, IsVersionFault};
ghost use Rattle.vdb_file.specs.internal.Parts.{version_number};
ghost use Rattle.vdb_file.specs.internal.Reading.{EndsWith, Moves, Reads, ahead};

use crate::fault::LoadFault;
use crate::loading::fields::{take_field, take_u16};
use crate::loading::input::Input;
use crate::loading::source::Source;

/// A version of the file format.
#[derive(Clone, Copy, Drop)]
pub(crate) enum Version {
    /// Version 1, without root limits and metadata.
    One,
    /// Version 2, with both.
    Two,
}

/// Reads the four bytes `VDBS` at the start of a file.
pub(crate) fn take_magic<S: Source>(input: &mut Input, reader: &mut S) -> Result<(), LoadFault>
    requires ends { EndsWith input.old (S.state reader.old) }
    ensures moves { Moves input.old (S.state reader.old) input.new (S.state reader.new) result }
    ensures reads { Reads (λ u. u) (λ u. ⊤) (λ u. codes "VDBS") result
        (ahead input.old (S.state reader.old)) (ahead input.new (S.state reader.new)) }
    ensures fault { IfErr result IsMagicFault }
    ensures magic { result ≡ Err LoadFault.Magic → IfSome (ahead input.old (S.state reader.old)).known HasOtherMagic }
    ensures short { result ≡ Err LoadFault.Truncated → 4 ≤ input.old.capacity → IfSome (ahead input.old (S.state reader.old)).known (λ bytes. length bytes < 4) }
{
    let mut field = [0; 4];
    take_field(input, reader, &mut field)?;
    if field.as_slice() != b"VDBS".as_slice() {
        return Err(LoadFault::Magic);
    }
    Ok(())
}

/// Reads the number of the version: two bytes.
pub(crate) fn take_version<S: Source>(
    input: &mut Input,
    reader: &mut S,
) -> Result<Version, LoadFault>
    requires ends { EndsWith input.old (S.state reader.old) }
    ensures moves { Moves input.old (S.state reader.old) input.new (S.state reader.new) result }
    ensures reads { Reads (λ version. version) (λ version. ⊤) (λ version. to_be_bytes w16 (version_number version)) result
        (ahead input.old (S.state reader.old)) (ahead input.new (S.state reader.new)) }
    ensures fault { IfErr result IsVersionFault }
    ensures version { result ≡ Err LoadFault.Version → IfSome (ahead input.old (S.state reader.old)).known StartsWithOther }
    ensures short { result ≡ Err LoadFault.Truncated → 2 ≤ input.old.capacity → IfSome (ahead input.old (S.state reader.old)).known (λ bytes. StartsWithOther bytes → ⊥) }
{
    let number = take_u16(input, reader)?;
    match number {
        1 => Ok(Version::One),
        2 => Ok(Version::Two),
        _ => Err(LoadFault::Version),
    }
}

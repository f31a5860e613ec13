//! Reads the fields of a file.

ghost use Rattle.std.specs.Prelude.{◌≡◌, ◌<◌, ◌^◌, ◌∷◌, [], length, Err, IfErr, ⊤, Some};
ghost use Rattle.std.specs.Int.{w16, w32, to_be_bytes};
ghost use Rattle.vdb_file.specs.internal.FieldFaults.{IsInner};
ghost use Rattle.vdb_file.specs.internal.Reading.{EndsWith, Moves, Reads, ahead};

use crate::fault::LoadFault;
use crate::loading::input::Input;
use crate::loading::source::Source;
use vdb_value::{Kind, Voxel};

/// Reads a field with as many bytes as the array.
pub(crate) fn take_field<S: Source>(
    input: &mut Input,
    reader: &mut S,
    field: &mut [u8],
) -> Result<(), LoadFault>
    requires ends { EndsWith input.old (S.state reader.old) }
    ensures moves { Moves input.old (S.state reader.old) input.new (S.state reader.new) result }
    ensures length { length field.new ≡ length field.old }
    ensures reads { Reads (λ _. field.new) (λ bytes. length bytes ≡ length field.old) (λ bytes. bytes) result
        (ahead input.old (S.state reader.old)) (ahead input.new (S.state reader.new)) }
    ensures inner { IfErr result IsInner }
{
    if field.len() > input.capacity() {
        return Err(LoadFault::TooLong);
    }
    let mut at = 0;
    while at < field.len() {
        let more = input.fill(reader)?;
        if !more {
            return Err(LoadFault::Truncated);
        }
        at += input.run(field, at);
    }
    Ok(())
}

/// Reads a field with as many bytes as the array, in one step if that many are unread.
pub(crate) fn take_bytes<S: Source, const N: usize>(
    input: &mut Input,
    reader: &mut S,
) -> Result<[u8; N], LoadFault>
    requires ends { EndsWith input.old (S.state reader.old) }
    ensures moves { Moves input.old (S.state reader.old) input.new (S.state reader.new) result }
    ensures reads { Reads (λ bytes. bytes) (λ bytes. length bytes ≡ N) (λ bytes. bytes) result
        (ahead input.old (S.state reader.old)) (ahead input.new (S.state reader.new)) }
    ensures inner { IfErr result IsInner }
{
    let mut bytes = [0; N];
    match input.peek(N) {
        Some(unread) => {
            bytes.copy_from_slice(unread);
            input.skip(N);
        }
        None => take_field(input, reader, &mut bytes)?,
    }
    Ok(bytes)
}

/// Reads a number of one byte.
pub(crate) fn take_u8<S: Source>(input: &mut Input, reader: &mut S) -> Result<u8, LoadFault>
    requires ends { EndsWith input.old (S.state reader.old) }
    ensures moves { Moves input.old (S.state reader.old) input.new (S.state reader.new) result }
    ensures reads { Reads (λ n. n) (λ n. ⊤) (λ n. n ∷ []) result
        (ahead input.old (S.state reader.old)) (ahead input.new (S.state reader.new)) }
    ensures inner { IfErr result IsInner }
{
    let [byte] = take_bytes::<S, 1>(input, reader)?;
    Ok(byte)
}

/// Reads a number of two bytes, big-endian.
pub(crate) fn take_u16<S: Source>(input: &mut Input, reader: &mut S) -> Result<u16, LoadFault>
    requires ends { EndsWith input.old (S.state reader.old) }
    ensures moves { Moves input.old (S.state reader.old) input.new (S.state reader.new) result }
    ensures reads { Reads (λ n. n) (λ n. n < 2 ^ 16) (to_be_bytes w16) result
        (ahead input.old (S.state reader.old)) (ahead input.new (S.state reader.new)) }
    ensures inner { IfErr result IsInner }
{
    let bytes = take_bytes::<S, 2>(input, reader)?;
    Ok(u16::from_be_bytes(bytes))
}

/// Reads a number of four bytes, big-endian.
pub(crate) fn take_u32<S: Source>(input: &mut Input, reader: &mut S) -> Result<u32, LoadFault>
    requires ends { EndsWith input.old (S.state reader.old) }
    ensures moves { Moves input.old (S.state reader.old) input.new (S.state reader.new) result }
    ensures reads { Reads (λ n. n) (λ n. n < 2 ^ 32) (to_be_bytes w32) result
        (ahead input.old (S.state reader.old)) (ahead input.new (S.state reader.new)) }
    ensures inner { IfErr result IsInner }
{
    let bytes = take_bytes::<S, 4>(input, reader)?;
    Ok(u32::from_be_bytes(bytes))
}

/// Reads a value of a grid's type.
pub(crate) fn take_value<V: Voxel, S: Source>(
    input: &mut Input,
    reader: &mut S,
) -> Result<V, LoadFault>
    requires ends { EndsWith input.old (S.state reader.old) }
    ensures moves { Moves input.old (S.state reader.old) input.new (S.state reader.new) result }
    ensures reads { Reads (λ x. x) V.is_value V.bytes_of result
        (ahead input.old (S.state reader.old)) (ahead input.new (S.state reader.new)) }
    ensures inner { IfErr result IsInner }
{
    let read = match V::KIND {
        Kind::Bool => V::from_bytes(&take_bytes::<S, 1>(input, reader)?),
        Kind::I32 => V::from_bytes(&take_bytes::<S, 4>(input, reader)?),
        Kind::I64 => V::from_bytes(&take_bytes::<S, 8>(input, reader)?),
    };
    match read {
        Some(value) => Ok(value),
        None => Err(LoadFault::Value),
    }
}

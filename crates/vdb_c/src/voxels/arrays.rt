//! Elements of arrays of C, each of which may be empty.
ghost use Rattle.std.specs.Prelude.{◌≡◌, slice_get, slice_set};

/// Sets an element, if the array has it.
pub(crate) fn store<T: Copy>(out: &mut [T], index: usize, value: T)
    ensures { out.new ≡ slice_set out.old index value }
{
    if index < out.len() {
        out[index] = value;
    }
}

/// Returns an element, if the array has it.
#[inline(always)]
pub(crate) fn element<T: Copy>(array: &[T], index: usize) -> Option<T>
    ensures { result ≡ slice_get array.now index }
{
    array.get(index).copied()
}

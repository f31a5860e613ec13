//! The states beside the voxels of a leaf of 3 bits, a word at a time. A word has the states of one
//! x: a byte for each y, a bit for each z.

ghost use Rattle.std.specs.Prelude.{◌≡◌, ◌<◌, ℕ};
ghost use Rattle.vdb_mask.specs.Mask.{has_bit};
ghost use Rattle.vdb_node.specs.Beside.{bit_after, bit_before};

/// Returns, at each bit of a word, the bit before it along y. The other word is that of the block before.
#[inline]
pub fn before_y(own: u64, other: u64) -> u64
    ensures { (j : ℕ) → j < 64 → has_bit result j ≡ bit_before 8 (has_bit own) (has_bit other) j }
{
    own << 8 | other >> 56
}

/// Returns, at each bit of a word, the bit after it along y. The other word is that of the block after.
#[inline]
pub fn after_y(own: u64, other: u64) -> u64
    ensures { (j : ℕ) → j < 64 → has_bit result j ≡ bit_after 8 (has_bit own) (has_bit other) j }
{
    own >> 8 | other << 56
}

/// Returns, at each bit of a word, the bit before it along z. The other word is that of the block before.
#[inline]
pub fn before_z(own: u64, other: u64) -> u64
    ensures { (j : ℕ) → j < 64 → has_bit result j ≡ bit_before 1 (has_bit own) (has_bit other) j }
{
    own << 1 & 0xfefe_fefe_fefe_fefe | other >> 7 & 0x0101_0101_0101_0101
}

/// Returns, at each bit of a word, the bit after it along z. The other word is that of the block after.
#[inline]
pub fn after_z(own: u64, other: u64) -> u64
    ensures { (j : ℕ) → j < 64 → has_bit result j ≡ bit_after 1 (has_bit own) (has_bit other) j }
{
    own >> 1 & 0x7f7f_7f7f_7f7f_7f7f | other << 7 & 0x8080_8080_8080_8080
}

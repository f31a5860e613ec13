//! The slots of children as values of the integer types.

ghost use Rattle.std.specs.Prelude.{◌≡◌};
ghost use Rattle.vdb_node.specs.Slots.{slot_of_i32, slot_of_i64};

/// Returns the value of 32 bits that stands for a slot.
pub(crate) fn i32_of_slot(slot: u32) -> i32
    ensures { slot_of_i32 result ≡ slot }
{
    (i64::from(slot) - 2_147_483_648) as i32
}

/// Returns the slot that a value of 32 bits stands for.
pub(crate) fn slot_of_i32(value: i32) -> u32
    ensures { result ≡ slot_of_i32 value }
{
    (i64::from(value) + 2_147_483_648) as u32
}

/// Returns the value of 64 bits that stands for a slot.
pub(crate) fn i64_of_slot(slot: u32) -> i64
    ensures { slot_of_i64 result ≡ slot }
{
    i64::from(slot)
}

/// Returns the slot that a value of 64 bits stands for.
pub(crate) fn slot_of_i64(value: i64) -> u32
    ensures { result ≡ slot_of_i64 value }
{
    value.rem_euclid(4_294_967_296) as u32
}

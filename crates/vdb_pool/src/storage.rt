//! The memory of the slots: the one module with raw pointers.
//!
//! Who owns which memory is ghost data: a `Storage` owns the places of its list, and a `Block` the right to give a block of
//! them back. An `Address` is a pointer that owns nothing.
ghost use Rattle.std.specs.Prelude.{◌≡◌, ℕ, ◌+◌, ◌*◌, ◌<◌, ◌≤◌, List, [], ◌∷◌, ◌++◌, length, take, drop, get_or, IfOk, slice_index_or, ⊤};
ghost use Rattle.std.specs.Borrow.{sem};
ghost use Rattle.std.specs.Mem.{type_size};
ghost use prog.Memory.{capped};
ghost use denote.RawPtr.{Ptr, null_ptr, ◌+ₚ◌};
ghost use Rattle.std.specs.Vec.Ownership.{FitsInBlock};
ghost use Rattle.vdb_pool.specs.internal.Ownership.{storage_owns, storage_lends, block_owns, block_says};
ghost use Rattle.vdb_pool.specs.internal.Rows.{row_from, IsLastAt};

use std::alloc::{AllocError, Allocator};
use std::marker::{Model, PhantomData};
use std::mem::{align_of, size_of};

/// The address of a value, or of the first of a row of values. It owns nothing.
pub struct Address<T> {
    pointer: *mut T,
}

impl<T> Clone for Address<T> {
    ghost is_clone = { λ x y. y ≡ x };

    ghost is_infallible = { λ _. ⊤ };

    fn clone(&self) -> Result<Address<T>, AllocError> {
        Ok(*self)
    }
}

impl<T> Copy for Address<T> {}

// SAFETY: an address owns nothing, and only an owner reads through it.
unsafe impl<T> Send for Address<T> {}

unsafe impl<T> Sync for Address<T> {}

/// The right to give the block of `len` places at `at`, each of `stride` bytes, back to `alloc`. It takes no space.
pub struct Block<T, A: Allocator> {
    mark: PhantomData<*const (T, A)>,
    ghost at: { Ptr },
    ghost len: { ℕ },
    ghost stride: { ℕ },
    ghost alloc: { A },
}

impl<T, A: Allocator> Model for Block<T, A> {
    ghost also_owns = { λ b. block_owns T.row (A.dealloc_token b.alloc) b.at b.len b.stride };

    ghost also_shares = { λ b _ _. block_says T.row b.at b.len b.stride };
}

// SAFETY: a block is the right to give memory back, which its allocator takes from any thread. A `&` to it says only numbers.
unsafe impl<T: Send, A: Allocator + Send> Send for Block<T, A> {}

unsafe impl<T: Sync, A: Allocator + Sync> Sync for Block<T, A> {}

/// The owner of the memory at `places`: the first places hold the `items` and the others are free. It takes no space.
pub struct Storage<T> {
    mark: PhantomData<*const T>,
    ghost places: { List Ptr },
    ghost items: { List T },
}

impl<T> Model for Storage<T> {
    ghost also_owns = { λ s. storage_owns T.row s.places s.items };

    ghost also_shares = { λ s _ κ. storage_lends T.row s.places s.items κ };
}

// SAFETY: a storage owns its items and their memory, as a `Vec` does. A `&` to it gives a `&` to each item.
unsafe impl<T: Send> Send for Storage<T> {}

unsafe impl<T: Sync> Sync for Storage<T> {}

/// Returns the bytes of a place.
pub(crate) fn place_bytes<T>() -> usize
    ensures { result ≡ capped (type_size T.row) }
{
    size_of::<T>()
}

/// Allocates a block of `len` free places, beginning at the address that it returns.
pub(crate) fn allocate<T, A: Allocator>(
    alloc: &A,
    len: usize,
) -> Result<(Address<T>, Storage<T>, Block<T, A>), AllocError>
    requires { FitsInBlock T.row len }
    ensures { IfOk result (λ r. (r.1.places ≡ row_from r.2.stride r.0.pointer len) × (r.1.items ≡ []) × (r.2.at ≡ r.0.pointer) × (r.2.len ≡ len) × (r.2.alloc ≡ alloc.now)) }
{
    match alloc.allocate(len * size_of::<T>(), align_of::<T>()) {
        Ok(bytes) => {
            let base = Address {
                pointer: bytes as *mut T,
            };
            Ok((
                base,
                Storage { mark: PhantomData },
                Block { mark: PhantomData },
            ))
        }
        Err(error) => Err(error),
    }
}

/// Gives back a block whose places are all free.
pub(crate) fn deallocate<T, A: Allocator>(
    alloc: &A,
    base: Address<T>,
    len: usize,
    storage: Storage<T>,
    block: Block<T, A>,
)
    requires { (storage.places ≡ row_from block.stride base.pointer len) × (storage.items ≡ []) × (block.at ≡ base.pointer) × (block.len ≡ len) × (block.alloc ≡ alloc.now) }
{
    let Storage { mark: _ } = storage;
    let Block { mark: _ } = block;
    unsafe {
        alloc.deallocate(
            base.pointer as *mut u8,
            len * size_of::<T>(),
            align_of::<T>(),
        );
    }
}

impl<T, A: Allocator> Block<T, A> {
    /// Returns the address of the place at `index` of the block, which begins at `base`.
    pub(crate) fn place(&self, base: Address<T>, index: usize) -> Address<T>
        requires { (base.pointer ≡ self.now.at) × (index < self.now.len) }
        ensures { result.pointer ≡ base.pointer +ₚ index * self.now.stride }
    {
        let pointer = base.pointer;
        let pointer = unsafe { pointer.add(index) };
        Address { pointer }
    }
}

impl<T> Storage<T> {
    ghost use Rattle.vdb_pool.specs.internal.Lends.{lends_item};

    /// Returns a storage without memory.
    pub(crate) fn new() -> Storage<T>
        ensures { (result.places ≡ []) × (result.items ≡ []) }
    {
        let mark = PhantomData;
        Storage { mark }
    }

    /// Takes over the places of `other`, all of them free.
    pub(crate) fn append(&mut self, other: Storage<T>)
        requires { other.items ≡ [] }
        ensures { (self.new.places ≡ self.old.places ++ other.places) × (self.new.items ≡ self.old.items) }
    {
        let Storage { mark: _ } = other;
    }

    /// Gives up the places from the one at `from` on, which are all free.
    pub(crate) fn split_off(&mut self, from: usize) -> Storage<T>
        requires { self.old.items ≡ [] }
        ensures rest { (self.new.places ≡ take from self.old.places) × (self.new.items ≡ []) }
        ensures tail { (result.places ≡ drop from self.old.places) × (result.items ≡ []) }
    {
        let mark = PhantomData;
        Storage { mark }
    }

    /// Ends a storage without memory.
    pub(crate) fn end(self)
        requires { self.places ≡ [] }
    {
        let Storage { mark: _ } = self;
    }

    /// Returns the item at `index`, whose address is `at`.
    #[inline(always)]
    pub(crate) fn get(&self, at: Address<T>, index: u32) -> &T
        requires { (at.pointer ≡ get_or self.now.places index null_ptr) × (index < length self.now.items) }
        ensures { result.now ≡ slice_index_or self.now.items index result.now }
    {
        let pointer = at.pointer;
        unsafe { &*pointer }
    }

    /// Returns the item at `index`, whose address is `at`, for writing.
    #[inline(always)]
    pub(crate) fn get_mut(&mut self, at: Address<T>, index: u32) -> &mut T
        requires { (at.pointer ≡ get_or self.old.places index null_ptr) × (index < length self.old.items) }
        ensures* writes_back { sem 𝓛 (lends_item T.row self.entry index result) }
        ensures value { result.now ≡ slice_index_or self.old.items index result.now }
    {
        let pointer = at.pointer;
        unsafe { &mut *pointer }
    }

    /// Moves an item into the first free place, whose address is `at`.
    pub(crate) fn push(&mut self, at: Address<T>, item: T)
        requires { (at.pointer ≡ get_or self.old.places (length self.old.items) null_ptr) × (length self.old.items < length self.old.places) }
        ensures { (self.new.places ≡ self.old.places) × (self.new.items ≡ self.old.items ++ item ∷ []) }
    {
        let pointer = at.pointer;
        unsafe { pointer.write(item) }
    }

    /// Moves the last item out of its place, whose address is `at`.
    pub(crate) fn pop(&mut self, at: Address<T>) -> T
        requires { IsLastAt self.old.places self.old.items at.pointer }
        ensures { (self.new.places ≡ self.old.places) × (self.old.items ≡ self.new.items ++ result ∷ []) }
    {
        let pointer = at.pointer;
        unsafe { pointer.read() }
    }
}

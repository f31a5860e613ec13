//! The pool.
ghost use Rattle.std.specs.Prelude.{◌≡◌, ◌+◌, ◌*◌, ◌^◌, ◌-◌, ◌<◌, ◌≤◌, ℕ, [], ◌∷◌, ◌++◌, length, get_or, min, Some, None, IsSome, MatchOption, IsOk, IsErr, IfOk, OnOk};
ghost use Rattle.std.specs.Borrow.{sem};
ghost use denote.RawPtr.{null_ptr};
ghost use Rattle.vdb_pool.specs.Contents.{node_at, count_of, spare_of, next_slot, with_inserted, without_node, Grows, IsFalling, IsOrderly};

use crate::chunk::{Chunk, address_in, slots_of};
use crate::copying::TryCopy;
use crate::place::Place;
use crate::refusal::Memory;
use crate::slot::Slot;
use crate::steps::Steps;
use crate::storage::{Address, Storage, allocate, deallocate, place_bytes};
use std::alloc::{AllocError, Global};
use std::marker::Model;
use std::mem;
use std_alloc::room::may_hold;

/// Slots for nodes, at addresses that never change.
///
/// Slots are numbered from 0, and a pool has at most 4,294,967,295. They come in chunks of 1 to 255, as many as fit
/// 24 KiB, which are given back when the pool is dropped, so a pool never gets smaller. A slot takes at most 8 bytes
/// beside its node, if the node has at least 4 bytes and is aligned to at most 8. Making an empty pool allocates nothing.
///
/// Vacant slots are linked through themselves and used again last in, first out, as in Rust's crate `slab`.
///
/// In contracts a pool is its `Contents`: the content of each slot that was ever held, the vacant ones among them,
/// and the address of each slot.
pub struct Pool<T> {
    alloc: Global,
    chunks: Vec<Chunk<T>>,
    storage: Storage<Slot<T>>,
    // How many slots a chunk has.
    len: u32,
    // How many chunks it may have.
    most: u32,
    // How many slots were ever held. They are the first ones.
    used: u32,
    // How many slots the pool has.
    total: u32,
    // How many slots are held.
    held: u32,
    // The vacant slot that was vacated last.
    top: Option<u32>,
}

impl<T> Model for Pool<T> {
    ghost use Rattle.std.specs.Prelude.{map, ◌-◌};
    ghost use Rattle.vdb_pool.specs.Contents.{Contents, contents_code};

    ghost Value = { Contents T };

    ghost coded = { contents_code T.code };

    ghost use Rattle.vdb_pool.specs.internal.Slot.{node_of};
    ghost use Rattle.vdb_pool.specs.internal.Stack.{linked};
    ghost use Rattle.vdb_pool.specs.internal.Pool.{IsSound};

    ghost view = { λ p. record {
      nodes = map node_of p.storage.items;
      vacant = linked (p.used - p.held) p.top p.storage.items;
      places = p.storage.places;
    } };

    ghost invariant = { λ p. IsSound p.len p.most p.chunks.items p.storage.places p.storage.items p.used p.total p.held p.top };
}

impl<T> Pool<T> {
    ghost use Rattle.vdb_pool.specs.Live.{IsLive, KeepsLive, KeepsOthers, KeepsOthersLive, place_slot};
    ghost use Rattle.vdb_pool.specs.LendsNode.{lends_node};

    /// Returns a pool without slots. It allocates nothing.
    pub fn new(alloc: Global) -> Pool<T>
        ensures { result ≡ record { nodes = []; vacant = []; places = [] } }
    {
        let len = slots_of(place_bytes::<Slot<T>>());
        Pool {
            alloc,
            chunks: Vec::new(alloc),
            storage: Storage::new(),
            len,
            most: u32::MAX / len,
            used: 0,
            total: 0,
            held: 0,
            top: None,
        }
    }

    /// Returns how many slots are held, which is the number of nodes.
    pub fn len(&self) -> u64
        ensures count { result ≡ count_of self.now }
        ensures orderly { IsOrderly self.now }
    {
        self.held as u64
    }

    /// Returns how many inserts are sure to succeed: the number of slots that are not held.
    pub fn spare(&self) -> u64
        ensures value { result ≡ spare_of self.now }
        ensures all { result + count_of self.now ≡ length self.now.places }
    {
        (self.total - self.held) as u64
    }

    fn address(&self, slot: u32) -> Address<Slot<T>>
        requires { slot < length self.now.places }
        ensures { result.pointer ≡ get_or self.now.places slot null_ptr }
    {
        address_in(self.chunks.as_slice(), self.len, self.most, slot)
    }

    /// Returns the place of a slot that is held, and `None` for any other number. It counts no visit.
    #[inline(always)]
    pub fn place(&self, slot: u32) -> Option<Place<T>>
        ensures { MatchOption result (node_at self.now slot ≡ None) (λ p. (place_slot p ≡ slot) × IsLive self.now p) }
    {
        if slot >= self.used {
            return None;
        }
        let address = self.address(slot);
        match self.storage.get(address, slot) {
            Slot::Held(_) => Some(Place { slot, address }),
            Slot::Vacant(_) => None,
        }
    }

    /// Returns the node at a live place, by one visit. The visit counts after the slot is tested, so that the compiler drops this test
    /// behind that of `place`.
    #[inline(always)]
    pub fn at(&self, place: Place<T>, steps: &mut Steps) -> &T
        requires { IsLive self.now place }
        ensures node { node_at self.now (place_slot place) ≡ Some result.now }
        ensures step { steps.new ≡ min (steps.old + 1) (2 ^ 64 - 1) }
    {
        let node = self.storage.get(place.address, place.slot).node();
        steps.step(); // a node is read
        node
    }

    /// Returns the node at a live place for writing, by one visit. Places stay live, and nothing else changes.
    #[inline(always)]
    pub fn at_mut(&mut self, place: Place<T>, steps: &mut Steps) -> &mut T
        requires { IsLive self.old place }
        ensures* writes_back { sem 𝓛 (lends_node T.row self.entry (place_slot place) result) }
        ensures node { node_at self.old (place_slot place) ≡ Some result.now }
        ensures step { steps.new ≡ min (steps.old + 1) (2 ^ 64 - 1) }
    {
        let node = self.storage.get_mut(place.address, place.slot).node_mut();
        steps.step(); // a node is borrowed
        node
    }

    /// Makes sure of capacity for `n` inserts, by as many chunks as that takes.
    ///
    /// If the capacity suffices already, nothing changes and the result is `Ok`. The error comes if the allocator has
    /// no memory, or if the pool would have more than 4,294,967,295 slots. Nodes, vacant slots and live places stay
    /// as they were, also with an error, which may leave more capacity than before.
    pub fn reserve(&mut self, n: u64) -> Result<(), Memory>
        ensures capacity { OnOk result (n ≤ spare_of self.new) }
        ensures had_capacity { n ≤ spare_of self.old → IsOk result × (self.new ≡ self.old) }
        ensures too_many { 2 ^ 32 - 1 < n + count_of self.old → IsErr result × (self.new ≡ self.old) }
        ensures grows { Grows self.old self.new }
        ensures live { KeepsLive self.old self.new }
    {
        if n > (u32::MAX - self.held) as u64 {
            return Err(Memory);
        }
        while self.spare() < n {
            self.grow()?;
        }
        Ok(())
    }

    /// Adds one more chunk.
    fn grow(&mut self) -> Result<(), Memory>
        requires { length self.old.places < 2 ^ 32 - 1 }
        ensures capacity { OnOk result (spare_of self.old < spare_of self.new) }
        ensures grows { Grows self.old self.new }
        ensures live { KeepsLive self.old self.new }
    {
        let len = self.len as usize;
        if !may_hold::<Slot<T>>(len) {
            return Err(Memory);
        }
        self.chunks.reserve(1)?;
        let (base, storage, block) = allocate(&self.alloc, len)?;
        self.storage.append(storage);
        self.chunks.push_reserved(Chunk { base, block });
        self.total += self.len;
        Ok(())
    }

    /// Inserts a node into the slot that was vacated last, or else into the lowest one that was never held, and
    /// returns its place. The pool must have capacity, which `reserve` makes. Other places stay live.
    pub fn insert(&mut self, node: T) -> Place<T>
        requires { 0 < spare_of self.old }
        ensures slot { place_slot result ≡ next_slot self.old }
        ensures after { self.new ≡ with_inserted self.old node }
        ensures live { IsLive self.new result }
        ensures was_vacant { node_at self.old (place_slot result) ≡ None }
        ensures others { KeepsOthers self.old self.new (place_slot result) }
        ensures others_live { KeepsLive self.old self.new }
        ensures spare { spare_of self.new + 1 ≡ spare_of self.old }
    {
        match self.top {
            Some(slot) => {
                let address = self.address(slot);
                let vacant = self.storage.get_mut(address, slot);
                match mem::replace(vacant, Slot::Held(node)) {
                    Slot::Vacant(next) => self.top = next,
                    Slot::Held(_) => unreachable!(),
                }
                self.held += 1;
                Place { slot, address }
            }
            None => {
                let slot = self.used;
                let address = self.address(slot);
                self.storage.push(address, Slot::Held(node));
                self.used += 1;
                self.held += 1;
                Place { slot, address }
            }
        }
    }

    /// Removes the node at a live place and returns it, by one visit. The slot is then vacant, and the next insert
    /// uses it. Places of other slots stay live, and those of this slot do not.
    pub fn take(&mut self, place: Place<T>, steps: &mut Steps) -> T
        requires { IsLive self.old place }
        ensures node { node_at self.old (place_slot place) ≡ Some result }
        ensures after { self.new ≡ without_node self.old (place_slot place) }
        ensures others { KeepsOthers self.old self.new (place_slot place) }
        ensures others_live { KeepsOthersLive self.old self.new (place_slot place) }
        ensures spare { spare_of self.new ≡ spare_of self.old + 1 }
        ensures step { steps.new ≡ min (steps.old + 1) (2 ^ 64 - 1) }
    {
        steps.step(); // a node is taken
        let vacant = Slot::Vacant(self.top);
        let held = self.storage.get_mut(place.address, place.slot);
        match mem::replace(held, vacant) {
            Slot::Held(node) => {
                self.top = Some(place.slot);
                self.held -= 1;
                node
            }
            Slot::Vacant(_) => unreachable!(),
        }
    }

    /// Returns how many slots were ever held.
    fn used(&self) -> u32
        ensures { result ≡ length self.now.nodes }
    {
        self.used
    }

    /// Inserts a node into the lowest slot that was never held, even if other slots are vacant.
    fn append_held(&mut self, node: T)
        requires { length self.old.nodes < length self.old.places }
        ensures nodes { self.new.nodes ≡ self.old.nodes ++ Some node ∷ [] }
        ensures vacant { self.new.vacant ≡ self.old.vacant }
        ensures places { self.new.places ≡ self.old.places }
    {
        let address = self.address(self.used);
        self.storage.push(address, Slot::Held(node));
        self.used += 1;
        self.held += 1;
    }

    /// Makes the lowest slot that was never held a vacant one, as if a node was just removed from it.
    fn append_vacant(&mut self)
        requires { length self.old.nodes < length self.old.places }
        ensures nodes { self.new.nodes ≡ self.old.nodes ++ None ∷ [] }
        ensures vacant { self.new.vacant ≡ length self.old.nodes ∷ self.old.vacant }
        ensures places { self.new.places ≡ self.old.places }
    {
        let slot = self.used;
        let address = self.address(slot);
        self.storage.push(address, Slot::Vacant(self.top));
        self.used += 1;
        self.top = Some(slot);
    }
}

impl<T: TryCopy> Pool<T> {
    /// Returns a pool with the same slots: each that was ever held here has a copy of its node there, or is vacant as
    /// it is here. It counts no visit.
    ///
    /// The copy uses its vacant slots from the highest number down, in whatever order they were vacated here. Places
    /// of one pool are not places of the other: `place` gives them by number. The error comes if the allocator has no
    /// memory, and the partial copy is then dropped. If no slot was ever held, the copy allocates nothing.
    pub fn try_copy(&self) -> Result<Pool<T>, Memory>
        ensures nodes { IfOk result (λ copy. copy.nodes ≡ self.now.nodes) }
        ensures order { IfOk result (λ copy. IsFalling copy.vacant) }
        ensures empty { self.now.nodes ≡ [] → IsOk result }
    {
        let used = self.used();
        let mut copy = Pool::new(self.alloc);
        copy.reserve(used as u64)?;
        for slot in 0..used {
            match self.copied_node(slot)? {
                Some(node) => copy.append_held(node),
                None => copy.append_vacant(),
            }
        }
        Ok(copy)
    }

    /// Returns a copy of the node in a slot, and `None` for a vacant slot.
    fn copied_node(&self, slot: u32) -> Result<Option<T>, AllocError>
        requires { slot < length self.now.nodes }
        ensures { IfOk result (λ node. node ≡ node_at self.now slot) }
    {
        match self.storage.get(self.address(slot), slot) {
            Slot::Held(node) => Ok(Some(node.try_copy(self.alloc)?)),
            Slot::Vacant(_) => Ok(None),
        }
    }
}

/// Drops the nodes and gives the chunks back.
impl<T: Drop> Drop for Pool<T> {
    fn drop(self) {
        let Pool {
            alloc,
            mut chunks,
            mut storage,
            len,
            most,
            used,
            total: _,
            held: _,
            top: _,
        } = self;
        let mut slot = used;
        while slot > 0 {
            slot -= 1;
            drop(storage.pop(address_in(chunks.as_slice(), len, most, slot)));
        }
        let size = len as usize;
        while let Some(chunk) = chunks.pop() {
            let Chunk { base, block } = chunk;
            let freed = storage.split_off(chunks.len() * size);
            deallocate(&alloc, base, size, freed, block);
        }
        storage.end();
        chunks.destroy_empty();
    }
}

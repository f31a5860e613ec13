//! The keys of the root table, in their order.

ghost use Rattle.std.specs.Prelude.{◌≡◌, IfNone, IfSome, IsSome, IsTrue, None, false};
ghost use Rattle.std.specs.declared.cmp.Ordering.TheVariants.{Less};
ghost use Rattle.vdb_coord.specs.Blocks.{block_number, block_numbers};
ghost use Rattle.vdb_coord.specs.Order.{ComesBefore};
ghost use Rattle.vdb_coord.specs.Space.{coord_cmp, everywhere, is_inside};
ghost use Rattle.vdb_coord.specs.declared.Coord.{Coord};
ghost use Rattle.vdb_coord.specs.declared.Level.TheVariants.{Upper};
ghost use Rattle.vdb_tree.specs.Layout.{bits_of, root_at};
ghost use Rattle.vdb_tree.specs.Capacity.{IsNextMetEntry, SkipsTo};
ghost use Rattle.vdb_tree.specs.Table.{IsNextKey};

use crate::TreeOf;
use vdb_coord::{Bounds, Coord, Level};
use vdb_node::{Entry, Stored};

impl<
    V: Stored<WU> + Stored<WL> + Stored<WF>,
    const U: u32,
    const L: u32,
    const F: u32,
    const WU: usize,
    const WL: usize,
    const WF: usize,
> TreeOf<V, U, L, F, WU, WL, WF> {
    /// Returns the least key of the root table past `after`, or the least of all without `after`; `None` if no key is left.
    /// Keys are the numbers of upper extents, counted in upper extents along each axis and ordered by x, then y, then z. It
    /// visits no node and takes no memory (OpenVDB's `RootNode` iterates over its table in this order).
    pub fn next_key(&self, after: Option<Coord>) -> Option<Coord>
        ensures least { IsNextKey self.now.root after result }
        ensures inside { (k : Coord) → IsSome (root_at self.now.root k) → IsTrue (is_inside (block_numbers (bits_of U L F) Upper) k) }
    {
        match self.root.next_entry(after) {
            Some((key, _)) => Some(key),
            None => None,
        }
    }

    /// Returns the first coordinate of the upper extent with a key of the table.
    pub(crate) fn key_corner(&self, key: Coord) -> Coord
        requires { IsSome (root_at self.now.root key) }
        ensures number { block_number (bits_of U L F) Upper result ≡ key }
        ensures inside { IsTrue (is_inside everywhere result) }
    {
        let _ = &self.root;
        key.numbered_block_in(self.bits(), Level::Upper).min()
    }

    /// Returns a coordinate of the box in the upper extent of a key, if the two meet.
    pub(crate) fn within_root(&self, bounds: Bounds, key: Coord) -> Option<Coord>
        requires { IsSome (root_at self.now.root key) }
        ensures inside { IfSome result (λ p. IsTrue (is_inside bounds p)) }
        ensures number { IfSome result (λ p. block_number (bits_of U L F) Upper p ≡ key) }
        ensures entered { IfSome result (λ p. IsSome (root_at self.now.root (block_number (bits_of U L F) Upper p))) }
        ensures none { IfNone result ((q : Coord) → IsTrue (is_inside bounds q) → block_number (bits_of U L F) Upper q ≡ key → ⊥) }
    {
        self.first_within_root(bounds, key)
    }

    /// Returns the first coordinate, in block order, that the box has in the upper extent of a key, if the two meet.
    pub(crate) fn first_within_root(&self, bounds: Bounds, key: Coord) -> Option<Coord>
        requires { IsSome (root_at self.now.root key) }
        ensures inside { IfSome result (λ p. IsTrue (is_inside bounds p)) }
        ensures number { IfSome result (λ p. block_number (bits_of U L F) Upper p ≡ key) }
        ensures entered { IfSome result (λ p. IsSome (root_at self.now.root (block_number (bits_of U L F) Upper p))) }
        ensures first { IfSome result (λ p. (q : Coord) → IsTrue (is_inside bounds q) → block_number (bits_of U L F) Upper q ≡ key → ComesBefore (bits_of U L F) q p → ⊥) }
        ensures none { IfNone result ((q : Coord) → IsTrue (is_inside bounds q) → block_number (bits_of U L F) Upper q ≡ key → ⊥) }
    {
        let block = self.key_corner(key).block_in(self.bits(), Level::Upper);
        match bounds.intersect(block) {
            Some(part) => Some(part.min()),
            None => None,
        }
    }

    /// Returns the entry of the next key of the table past `after`, or of the first without `after`, whose upper extent may meet
    /// the box, behind its key; `None` if no other does.
    ///
    /// It alternates between the keys of the table and those of the box. Past a key of the table that doesn't meet the box it
    /// looks for the next of the box. Past a key of the box without an entry it looks for the next of the table. So it takes no
    /// more iterations than the table has keys, and no more than the number of upper extents that meet the box: a small box in
    /// a large table is as cheap as a large box over a small table.
    pub(crate) fn next_entry_in(
        &self,
        bounds: Bounds,
        after: Option<Coord>,
    ) -> Option<(Coord, Entry<V>)>
        ensures { IsNextMetEntry (bits_of U L F) bounds self.now.root after result }
    {
        match after {
            Some(passed) => self.entry_met(bounds, passed),
            None => self.first_entry_in(bounds),
        }
    }

    /// Returns the entry of the first key of the table whose upper extent may meet the box, behind that key.
    fn first_entry_in(&self, bounds: Bounds) -> Option<(Coord, Entry<V>)>
        ensures { IsNextMetEntry (bits_of U L F) bounds self.now.root None result }
    {
        let first = self.key(bounds.min());
        if let Some(entry) = self.root.get(first) {
            return Some((first, entry));
        }
        self.entry_met(bounds, first)
    }

    /// Returns the entry of the next key of the table past this one whose upper extent may meet the box, behind that key. Past
    /// the box's last key it searches nothing.
    fn entry_met(&self, bounds: Bounds, after: Coord) -> Option<(Coord, Entry<V>)>
        ensures { IsNextMetEntry (bits_of U L F) bounds self.now.root (Some after) result }
    {
        let keys = bounds.block_numbers_in(self.bits(), Level::Upper);
        if after == keys.max() {
            return None;
        }
        let mut passed = after;
        while let Some((key, entry)) = self.root.next_entry(Some(passed)) {
            if keys.contains(key) {
                return Some((key, entry));
            }
            let Some(next) = skip_to(keys, key) else {
                return None;
            };
            if let Some(entry) = self.root.get(next) {
                return Some((next, entry));
            }
            passed = next;
        }
        None
    }
}

/// Returns the place past `key`, which isn't in the box of keys, where the next key of the box may be; `None` if none is left.
fn skip_to(keys: Bounds, key: Coord) -> Option<Coord>
    requires { is_inside keys key ≡ false }
    ensures { SkipsTo keys key result }
{
    let low = keys.min();
    let high = keys.max();
    if key.y < low.y {
        return Some(Coord {
            x: key.x,
            y: low.y,
            z: low.z,
        });
    }
    if high.y < key.y {
        return skip_slab(keys, key);
    }
    if key.z < low.z {
        return Some(Coord {
            x: key.x,
            y: key.y,
            z: low.z,
        });
    }
    if key.y < high.y {
        return Some(Coord {
            x: key.x,
            y: key.y + 1,
            z: low.z,
        });
    }
    skip_slab(keys, key)
}

/// Returns the place past `key` where the next key of a box of keys may be, if the box has no key of the same x past it.
fn skip_slab(keys: Bounds, key: Coord) -> Option<Coord>
    requires { (k : Coord) → IsTrue (is_inside keys k) → k.x ≡ key.x → coord_cmp key k ≡ Less → ⊥ }
    ensures { SkipsTo keys key result }
{
    let low = keys.min();
    let high = keys.max();
    if key.x < high.x {
        return Some(Coord {
            x: key.x + 1,
            y: low.y,
            z: low.z,
        });
    }
    None
}

//! Yields the pieces of a tree in block order, one after another.

ghost use Rattle.std.specs.Prelude.{◌≡◌, ◌+◌, ◌≤◌, IfSome, IsSome, IsTrue};
ghost use Rattle.std.specs.Option.{option_map, option_or};
ghost use Rattle.vdb_coord.specs.Blocks.{key};
ghost use Rattle.vdb_coord.specs.Entries.{AreBits};
ghost use Rattle.vdb_coord.specs.Space.{everywhere, is_inside};
ghost use Rattle.vdb_tree.specs.Layout.{bits_of, root_at};
ghost use Rattle.vdb_walk.specs.internal.Firsts.{EndsPiece, IsEntered, IsEnteredPast, IsFirst};
ghost use Rattle.vdb_walk.specs.Passing.{IsNextPiece, Passage};

use crate::order::first_past;
use std::marker::Model;
use vdb_coord::{Coord, Level};
use vdb_node::Stored;
use vdb_pool::Steps;
use vdb_tree::{Piece, TreeOf};

/// The pieces under the entries of a tree's root table in block order: its tiles, active or not, and the voxels of its leaves
/// (OpenVDB's `Tree::cbeginValueAll`). It reads the tree as it goes and allocates nothing.
#[derive(Drop)]
pub struct Pieces<
    'a,
    V: Stored<WU> + Stored<WL> + Stored<WF>,
    const U: u32,
    const L: u32,
    const F: u32,
    const WU: usize,
    const WL: usize,
    const WF: usize,
> {
    tree: &'a TreeOf<V, U, L, F, WU, WL, WF>,
    last: Option<Coord>,
}

impl<
    'a,
    V: Stored<WU> + Stored<WL> + Stored<WF>,
    const U: u32,
    const L: u32,
    const F: u32,
    const WU: usize,
    const WL: usize,
    const WF: usize,
> Model for Pieces<'a, V, U, L, F, WU, WL, WF> {
    ghost use Rattle.std.specs.Prelude.{IfSome};
    ghost use Rattle.vdb_tree.specs.Layout.{bits_of};
    ghost use Rattle.vdb_walk.specs.internal.Firsts.{EndsPiece};
    ghost use Rattle.vdb_walk.specs.Passing.{Passage};

    ghost Value = { Passage V };

    ghost view = { λ p. record { tree = p.tree.now; last = p.last } };

    ghost invariant = { λ p. IfSome p.last (EndsPiece (bits_of U L F) p.tree.now) };
}

impl<
    'a,
    V: Stored<WU> + Stored<WL> + Stored<WF>,
    const U: u32,
    const L: u32,
    const F: u32,
    const WU: usize,
    const WL: usize,
    const WF: usize,
> Pieces<'a, V, U, L, F, WU, WL, WF> {
    /// Returns an iterator over all pieces under the entries of the tree's root table.
    pub fn new(tree: &'a TreeOf<V, U, L, F, WU, WL, WF>) -> Self
        ensures { result ≡ record { tree = tree.now; last = None } }
    {
        Pieces { tree, last: None }
    }

    /// Returns the next piece, by at most three visits, or `None` if no piece is left.
    pub fn next(&mut self, steps: &mut Steps) -> Option<Piece<V>>
        ensures piece { IsNextPiece (bits_of U L F) self.old result }
        ensures tree { self.new.tree ≡ self.old.tree }
        ensures last { self.new.last ≡ option_or (option_map (λ piece. piece.bounds.max) result) self.old.last }
        ensures steps { steps.new ≤ steps.old + 3 }
    {
        match first_ahead(self.tree, self.last) {
            Some(p) => {
                let piece = self.tree.piece(p, steps);
                self.last = Some(piece.bounds.max());
                Some(piece)
            }
            None => None,
        }
    }
}

/// Returns the first coordinate past the last one in the root blocks that have an entry, or the first of all if there is no last
/// one.
fn first_ahead<
    V: Stored<WU> + Stored<WL> + Stored<WF>,
    const U: u32,
    const L: u32,
    const F: u32,
    const WU: usize,
    const WL: usize,
    const WF: usize,
>(tree: &TreeOf<V, U, L, F, WU, WL, WF>, last: Option<Coord>) -> Option<Coord>
    requires { IfSome last (EndsPiece (bits_of U L F) tree.now) }
    ensures first { IsFirst (bits_of U L F) (IsEnteredPast (bits_of U L F) tree.now last) everywhere result }
    ensures configured { AreBits (bits_of U L F) }
{
    match last {
        Some(last) => first_past_piece(tree, last),
        None => first_of_key(tree, None),
    }
}

/// Returns the first coordinate past the last one in the root blocks that have an entry. The last one's own root block has an
/// entry.
fn first_past_piece<
    V: Stored<WU> + Stored<WL> + Stored<WF>,
    const U: u32,
    const L: u32,
    const F: u32,
    const WU: usize,
    const WL: usize,
    const WF: usize,
>(tree: &TreeOf<V, U, L, F, WU, WL, WF>, last: Coord) -> Option<Coord>
    requires inside { IsTrue (is_inside everywhere last) }
    requires entry { IsSome (root_at tree.now.root (key (bits_of U L F) last)) }
    ensures first { IsFirst (bits_of U L F) (IsEnteredPast (bits_of U L F) tree.now (Some last)) everywhere result }
    ensures configured { AreBits (bits_of U L F) }
{
    let bits = tree.bits();
    match first_past(bits, Some(last), last.block_in(bits, Level::Upper)) {
        Some(p) => Some(p),
        None => first_of_key(tree, Some(last.key_in(bits))),
    }
}

/// Returns the first coordinate of the root blocks that have an entry and a key past the given one, or of all of them without a
/// key.
fn first_of_key<
    V: Stored<WU> + Stored<WL> + Stored<WF>,
    const U: u32,
    const L: u32,
    const F: u32,
    const WU: usize,
    const WL: usize,
    const WF: usize,
>(tree: &TreeOf<V, U, L, F, WU, WL, WF>, after: Option<Coord>) -> Option<Coord>
    ensures first { IsFirst (bits_of U L F) (IsEntered (bits_of U L F) tree.now after) everywhere result }
    ensures configured { AreBits (bits_of U L F) }
{
    let bits = tree.bits();
    match tree.next_key(after) {
        Some(key) => Some(key.numbered_block_in(bits, Level::Upper).min()),
        None => None,
    }
}

//! The tree of a sparse grid. A tree stands for a field, which gives each coordinate a cell.
//!
//! Contracts of this crate speak of fields. The layout of a tree (a root table, tiles and nodes) shows only where it matters:
//! in paths of nodes, in the number of node visits and in the size of the tree.
//!
//! A leaf extent, a lower extent and an upper extent are the aligned cubes that a leaf, a lower node and an upper node cover:
//! 8, 128 and 4,096 voxels along each axis in `Tree`. Identifiers call them leaf block, lower block and root block. The
//! inactive background is the cell of a voxel that was never written.
//!
//! The modules (several call each other, so the list shows subjects, not layers):
//! - `refusal`, `path`, `node_counts`: errors and results of calls.
//! - `root`, `tree`, `nodes`, `keys`: the root table and the type with its pools of nodes.
//! - `queries`: descents, leaves, paths, walks over the parts of a tree, tests for blocks of one cell.
//! - `edits`: splits of tiles into nodes, writes of a voxel or a whole leaf, leaves in place of active tiles.
//! - `boxes`: splits of a tree along the edge of a box, and painting of the box with one cell.
//! - `pairs`: two trees of one configuration: their states combined in place, and a walk over their parts together.
//! - `sweeps`: collapses of nodes whose blocks have one cell, and removal of background entries from the root table.
#![tactic(auto)]

ghost use Rattle.std.specs.Prelude.{◌≡◌};
ghost use Rattle.vdb_tree.specs.Field.{written};

mod boxes;
mod edits;
mod keys;
mod node_counts;
mod nodes;
mod pairs;
mod path;
mod queries;
mod refusal;
mod root;
mod sweeps;
mod tree;

pub use node_counts::NodeCounts;
pub use pairs::StateRule;
pub use pairs::joint::{Pair, PairWalk};
pub use path::{Path, PathOf};
pub use queries::parts::{Content, Part, Skip, Walk};
pub use queries::pieces::Piece;
pub use refusal::TreeRefusal;
pub use tree::{Tree, Tree433, TreeOf};
use vdb_value::Cell;

/// What a write gives a voxel: a value and a state, or one of them (OpenVDB's `setValueOn`, `setValueOff`, `setActiveState` and
/// `setValueOnly`).
#[derive(Clone, Copy, Debug, PartialEq, Eq)]
pub enum Write<V> {
    /// Sets the value and makes the voxel active.
    On(V),
    /// Sets the value and makes the voxel inactive.
    Off(V),
    /// Sets the state and keeps the value.
    State(bool),
    /// Sets the value and keeps the state.
    Value(V),
}

impl<V: Copy> Write<V> {
    /// Returns what the write makes of a cell.
    #[inline(always)]
    pub fn applied(self, cell: Cell<V>) -> Cell<V>
        ensures { result ≡ written self cell }
    {
        let (value, on) = match self {
            Write::On(value) => (value, true),
            Write::Off(value) => (value, false),
            Write::State(on) => (cell.value, on),
            Write::Value(value) => (value, cell.on),
        };
        Cell { value, on }
    }
}

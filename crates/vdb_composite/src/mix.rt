//! How two cells combine.

ghost use Rattle.std.specs.Prelude.{◌≡◌};
ghost use Rattle.vdb_value.specs.Blends.{blended};
ghost use Rattle.vdb_composite.specs.Mixes.{mixed_cell};

use vdb_value::{Blend, Cell, Voxel};

/// How two trees combine.
#[derive(Clone, Copy)]
pub(crate) enum Mix {
    /// Their values combine, active if either is.
    Values(Blend),
    /// The second's cells where they are active, and the first's elsewhere.
    Replace,
}

impl Mix {
    /// Combines two cells. Returns `None` exactly if their values have no sum.
    pub(crate) fn of<V: Voxel>(self, first: Cell<V>, second: Cell<V>) -> Option<Cell<V>>
        ensures { result ≡ mixed_cell (blended V.greater V.lesser V.sum_of) self first second }
    {
        match self {
            Mix::Values(how) => {
                let on = first.on || second.on;
                match how.of(first.value, second.value) {
                    Some(value) => Some(Cell { value, on }),
                    None => None,
                }
            }
            Mix::Replace => Some(if second.on { second } else { first }),
        }
    }
}

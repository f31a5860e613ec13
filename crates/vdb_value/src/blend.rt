//! How two values combine.
ghost use Rattle.std.specs.Prelude.{◌≡◌};
ghost use Rattle.vdb_value.specs.Blends.{blended};

use crate::Voxel;

/// How two values combine (OpenVDB's `tools::compMax`, `tools::compMin` and `tools::compSum`, `tools/Composite.h`).
#[derive(Clone, Copy, Debug, PartialEq, Eq)]
pub enum Blend {
    /// The greater of the two: `or` for booleans.
    Greatest,
    /// The lesser of the two: `and` for booleans.
    Least,
    /// Their sum, which booleans don't have.
    Sum,
}

impl Blend {
    /// Combines two values. Returns `None` exactly if they have no sum: for numbers whose sum lies outside the type,
    /// and always for booleans.
    pub fn of<V: Voxel>(self, first: V, second: V) -> Option<V>
        ensures { result ≡ blended V.greater V.lesser V.sum_of self first second }
    {
        match self {
            Blend::Greatest => Some(first.greatest(second)),
            Blend::Least => Some(first.least(second)),
            Blend::Sum => first.plus(second),
        }
    }
}

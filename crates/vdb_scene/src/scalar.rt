//! Values of any type.

ghost use Rattle.std.specs.Option.{option_map};
ghost use Rattle.std.specs.Prelude.{◌≡◌, refl, false, IfNone, IfSome};
ghost use Rattle.vdb_coord.specs.Blocks.{vdb};
ghost use Rattle.vdb_tree.specs.Field.{as_field_of};
ghost use Rattle.vdb_tree.specs.Layout.{field_of};
ghost use Rattle.vdb_scene.specs.Grids.{grid_field};
ghost use Rattle.vdb_scene.specs.Scalars.{kind_eq, kind_of, scalar_bytes, scalar_eq, scalar_greater, scalar_lesser, scalar_sum};
ghost use Rattle.vdb_scene.specs.declared.scalar.Scalar.{Scalar};
ghost use Rattle.vdb_scene.specs.declared.scalar.Scalar.TheVariants as scalars;

use crate::AnyGrid;
use vdb_node::Stored;
use vdb_tree::Tree;

/// A value of one of the three types.
#[derive(Clone, Copy, Debug, PartialEq, Eq)]
pub enum Scalar {
    Bool(bool),
    I32(i32),
    I64(i64),
}

/// A type of values that a grid may have.
pub trait GridValue: Stored<512> + Stored<64> + Stored<8> {
    /// A value as one of any type.
    ghost as_scalar: { Self → Scalar };

    /// Returns the value as one of any type.
    fn scalar(self) -> Scalar
        ensures { result ≡ as_scalar self };

    /// Returns the value inside a value of any type, whose kind must be `KIND`.
    fn from_scalar(scalar: Scalar) -> Self
        requires { kind_of scalar ≡ Self.KIND }
        ensures { as_scalar result ≡ scalar };

    /// Returns the tree of a grid of this type: `None` for a grid of another type.
    fn tree_in(grid: &AnyGrid) -> Option<&Tree<Self>>
        ensures some { IfSome result (λ tree. grid_field grid.now ≡ as_field_of as_scalar (field_of vdb tree.now)) }
        ensures none { IfNone result (kind_eq Self.KIND (kind_of (grid_field grid.now).background) ≡ false) };

    /// All values of the type have its kind.
    ghost same_kind: { (x : Self) → kind_of (as_scalar x) ≡ Self.KIND };

    /// Values are equal if they are equal as values of any type.
    ghost same_eq: { (x y : Self) → scalar_eq (as_scalar x) (as_scalar y) ≡ Self.eq x y };

    /// The lesser, the greater, the sum and the bytes are those of values of any type.
    ghost same_lesser: { (x y : Self) → scalar_lesser (as_scalar x) (as_scalar y) ≡ as_scalar (Self.lesser x y) };

    ghost same_greater: { (x y : Self) → scalar_greater (as_scalar x) (as_scalar y) ≡ as_scalar (Self.greater x y) };

    ghost same_sum: { (x y : Self) → scalar_sum (as_scalar x) (as_scalar y) ≡ option_map as_scalar (Self.sum_of x y) };

    ghost same_bytes: { (x : Self) → scalar_bytes (as_scalar x) ≡ Self.bytes_of x };
}

impl GridValue for bool {
    ghost as_scalar = { scalars.Bool };

    fn scalar(self) -> Scalar {
        Scalar::Bool(self)
    }

    fn from_scalar(scalar: Scalar) -> bool {
        match scalar {
            Scalar::Bool(value) => value,
            _ => unreachable!(),
        }
    }

    fn tree_in(grid: &AnyGrid) -> Option<&Tree<bool>> {
        match grid {
            AnyGrid::Bool(held) => Some(held.tree()),
            _ => None,
        }
    }

    ghost same_kind = { λ x. refl };

    ghost same_eq = { λ x y. refl };

    ghost same_lesser = { λ x y. refl };

    ghost same_greater = { λ x y. refl };

    ghost same_sum = { λ x y. refl };

    ghost same_bytes = { λ x. refl };
}

impl GridValue for i32 {
    ghost as_scalar = { scalars.I32 };

    fn scalar(self) -> Scalar {
        Scalar::I32(self)
    }

    fn from_scalar(scalar: Scalar) -> i32 {
        match scalar {
            Scalar::I32(value) => value,
            _ => unreachable!(),
        }
    }

    fn tree_in(grid: &AnyGrid) -> Option<&Tree<i32>> {
        match grid {
            AnyGrid::I32(held) => Some(held.tree()),
            _ => None,
        }
    }

    ghost same_kind = { λ x. refl };

    ghost same_eq = { λ x y. refl };

    ghost same_lesser = { λ x y. refl };

    ghost same_greater = { λ x y. refl };

    ghost same_sum = { λ x y. refl };

    ghost same_bytes = { λ x. refl };
}

impl GridValue for i64 {
    ghost as_scalar = { scalars.I64 };

    fn scalar(self) -> Scalar {
        Scalar::I64(self)
    }

    fn from_scalar(scalar: Scalar) -> i64 {
        match scalar {
            Scalar::I64(value) => value,
            _ => unreachable!(),
        }
    }

    fn tree_in(grid: &AnyGrid) -> Option<&Tree<i64>> {
        match grid {
            AnyGrid::I64(held) => Some(held.tree()),
            _ => None,
        }
    }

    ghost same_kind = { λ x. refl };

    ghost same_eq = { λ x y. refl };

    ghost same_lesser = { λ x y. refl };

    ghost same_greater = { λ x y. refl };

    ghost same_sum = { λ x y. refl };

    ghost same_bytes = { λ x. refl };
}

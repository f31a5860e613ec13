//! Defines why a scene isn't loaded or saved.

ghost use Rattle.std.specs.Prelude.{◌≡◌};
ghost use Rattle.vdb_file.specs.declared.fault.LoadFault.TheVariants.{Memory};

use std::alloc::AllocFailed;
use thiserror::Error;

/// Why bytes aren't loaded as a scene.
#[derive(Clone, Copy, Debug, PartialEq, Eq, Error)]
pub enum LoadFault {
    /// The file doesn't begin with `VDBS`.
    #[error("magic")]
    Magic,
    /// The version number is neither 1 nor 2.
    #[error("version")]
    Version,
    /// The reader ends before a field or inside it.
    #[error("truncated")]
    Truncated,
    /// The file has more than 64 grids, or a name has another form or doesn't come after the one before it.
    #[error("name")]
    Name,
    /// The number of a grid's type (its KIND) is above 2.
    #[error("kind")]
    Kind,
    /// The byte of a boolean is above 1.
    #[error("value")]
    Value,
    /// The root limit is 0 or above 65,536.
    #[error("limit")]
    Limit,
    /// A grid has more than 16 metadata pairs, or a key has another form than a name or doesn't come after the one before it; or
    /// a text isn't 1 to 64 printable characters.
    #[error("meta")]
    Meta,
    /// A key is no root block's, or doesn't come after the one before it.
    #[error("key")]
    Key,
    /// A grid has more root blocks than its root limit.
    #[error("root-limit")]
    RootLimit,
    /// No block or voxel may have the tag.
    #[error("tag")]
    Tag,
    /// The count of entries is 0 or too large, or the number of an entry is too large or doesn't come after the one before it.
    #[error("index")]
    Index,
    /// The file lists an inactive cell of the background.
    #[error("background")]
    Background,
    /// All entries of a node have the same cell.
    #[error("constant-node")]
    ConstantNode,
    /// A byte follows the last field.
    #[error("trailing")]
    Trailing,
    /// A field ends past the most bytes that a file may have.
    #[error("too-long")]
    TooLong,
    /// An allocation failed.
    #[error("memory")]
    Memory,
    /// A call of the reader failed.
    #[error("read")]
    Read,
}

impl<T: Drop> From<AllocFailed<T>> for LoadFault {
    ghost from_gives = { λ _ e. e ≡ Memory };

    fn from(_e: AllocFailed<T>) -> LoadFault {
        LoadFault::Memory
    }
}

/// Why a scene isn't saved.
#[derive(Clone, Copy, Debug, PartialEq, Eq, Error)]
pub enum SaveFault {
    /// The encoding has more bytes than a file may have.
    #[error("too-long")]
    TooLong,
    /// A call of the writer failed, or it took no byte.
    #[error("write")]
    Write,
}

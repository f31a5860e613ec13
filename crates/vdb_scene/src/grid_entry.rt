//! A grid of a scene with its metadata.

ghost use Rattle.std.specs.Prelude.{◌≡◌, IfErr, IfOk};
ghost use Rattle.vdb_scene.specs.Grids.{IsCopyOf, grid_of};

use crate::{AnyGrid, Metas, Refusal};
use std::alloc::Global;

/// A grid and its metadata pairs, as a scene holds them under a name.
#[derive(Drop)]
pub struct GridEntry {
    pub(crate) grid: AnyGrid,
    pub(crate) metas: Metas,
}

impl GridEntry {
    /// Returns a grid with the same cells, tiles, nodes, background and limit, and with the same pairs. Fails with `Memory` if an
    /// allocation fails.
    pub(crate) fn try_copy(&self, alloc: Global) -> Result<GridEntry, Refusal>
        ensures grid { IfOk result (λ copy. IsCopyOf self.now.grid copy.grid) }
        ensures same { IfOk result (λ copy. grid_of copy ≡ grid_of self.now) }
        ensures memory { IfErr result (λ refusal. refusal ≡ Refusal.Memory) }
    {
        let grid = self.grid.try_copy()?;
        match self.metas.try_copy(alloc) {
            Ok(metas) => Ok(GridEntry { grid, metas }),
            Err(_) => Err(Refusal::Memory),
        }
    }
}

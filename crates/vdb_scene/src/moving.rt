//! Grids moved into a scene and out of it, for callers that keep a grid beside a scene.
ghost use Rattle.std.specs.Map.{lookup};
ghost use Rattle.std.specs.Option.{option_map};
ghost use Rattle.std.specs.Prelude.{◌≡◌, [], IfErr, OnErr, OnOk, length};
ghost use Rattle.vdb_scene.specs.Doing.{AddsGrid, KeepsGrids, RemovesGrid, SwapsGrid};
ghost use Rattle.vdb_scene.specs.Grids.{grid_alone, scene_of};
ghost use Rattle.vdb_scene.specs.Scene.{is_named, without_grid};
ghost use Rattle.vdb_scene.specs.Step.{Inserts, refusal_alone};

use crate::{AnyGrid, GridEntry, Metas, Name, Refusal, Scene};
use std::mem;

impl Scene {
    /// Returns the number of grids, at most `GRID_LIMIT`.
    pub fn len(&self) -> usize
        ensures { result ≡ length (scene_of self.now) }
    {
        self.grids.len()
    }

    /// Inserts a grid without metadata under a name, with the errors of `insert`. An error returns the grid, and leaves the scene
    /// unchanged.
    pub fn move_in(&mut self, name: Name, grid: AnyGrid) -> Result<(), (Refusal, AnyGrid)>
        ensures scene { Inserts (scene_of self.old) name (grid_alone grid) (refusal_alone result) (scene_of self.new) }
        ensures added { OnOk result (AddsGrid self.old name (record { grid = grid; metas = [] }) self.new) }
        ensures kept { OnErr result (KeepsGrids self.old self.new) }
        ensures returned { IfErr result (λ error. error.1 ≡ grid) }
    {
        if self.has(&name) {
            return Err((Refusal::NameTaken, grid));
        }
        if self.is_full() {
            return Err((Refusal::GridLimit, grid));
        }
        let metas = Metas::new(self.alloc);
        match self.grids.insert(name, GridEntry { grid, metas }) {
            Ok(_) => Ok(()),
            Err(failed) => {
                let (_, entry) = failed.value;
                let GridEntry { grid, metas: _ } = entry;
                Err((Refusal::Memory, grid))
            }
        }
    }

    /// Removes the grid of a name and returns it: `None` if no grid has the name. Its metadata are dropped. Allocates nothing.
    pub fn move_out(&mut self, name: &Name) -> Option<AnyGrid>
        ensures grid { result ≡ option_map (λ e. e.grid) (lookup (is_named name.now) self.old.grids.entries) }
        ensures removed { RemovesGrid self.old name.now self.new }
        ensures scene { scene_of self.new ≡ without_grid (scene_of self.old) name.now }
    {
        match self.grids.remove(name) {
            Some(entry) => {
                let GridEntry { grid, metas: _ } = entry;
                Some(grid)
            }
            None => None,
        }
    }
    /// Exchanges the grid of a name with another grid, which may have another type, background and limit. The metadata stay with the
    /// name, and the accessors with their grids. Returns whether a grid has the name; if not, nothing changes. Allocates nothing.
    pub fn swap(&mut self, name: &Name, grid: &mut AnyGrid) -> bool
        ensures { SwapsGrid (lookup (is_named name.now) self.old.grids.entries) self.old name.now self.new grid.old grid.new result }
    {
        match self.grids.get_mut(name) {
            Some(entry) => {
                mem::swap(&mut entry.grid, grid);
                true
            }
            None => false,
        }
    }
}

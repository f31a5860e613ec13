//! Scenes: grids under names.
ghost use Rattle.std.specs.Prelude.{◌≡◌, ◌++◌, ◌∷◌, [], IfErr, OnErr, OnOk, map, length, is_some, nat_le};
ghost use Rattle.std.specs.Cmp.Lexicographic.{slice_cmp};
ghost use Rattle.std.specs.List.Sorted.{IsStrictlySortedBy};
ghost use Rattle.std.specs.Map.{lookup};
ghost use Rattle.std.specs.Option.{option_map};
ghost use Rattle.std.specs.Ordering.{nat_cmp};
ghost use Rattle.vdb_scene.specs.Accessors.{HaveUnusedAccessors};
ghost use Rattle.vdb_scene.specs.Doing.{AddsGrid, KeepsGrids};
ghost use Rattle.vdb_scene.specs.Grids.{grid_alone, grid_field, grid_root_limit, grid_of, grid_with, scene_of};
ghost use Rattle.vdb_scene.specs.Scene.{grid_at, is_named, with_grid};
ghost use Rattle.vdb_scene.specs.Step.{Inserts};

use crate::{AnyGrid, GridEntry, Metas, Name, Refusal};
use std::alloc::Global;
use std::collections::BTreeMap;
use std::collections::btree_map::Keys;

/// The maximum number of grids of a scene.
pub const GRID_LIMIT: usize = 64;

/// The root limit of a grid whose command names none: the maximum number of root blocks with a cell other than the inactive
/// background.
pub const ROOT_LIMIT: u32 = 4096;

/// The greatest root limit that a command may name.
pub const MOST_ROOT_LIMIT: u32 = 65536;

/// Grids under names, at most `GRID_LIMIT`.
#[derive(Drop)]
pub struct Scene {
    pub(crate) alloc: Global,
    pub(crate) grids: BTreeMap<Name, GridEntry>,
}

impl Scene {
    /// Creates an empty scene. Allocates nothing.
    pub fn new(alloc: Global) -> Scene
        ensures empty { scene_of result ≡ [] }
        ensures unused { HaveUnusedAccessors result }
    {
        Scene {
            alloc,
            grids: BTreeMap::new(alloc),
        }
    }

    /// Returns the grid of a name: `None` if no grid has it.
    pub fn get(&self, name: &Name) -> Option<&AnyGrid>
        ensures grid { option_map (λ grid. grid.now) result ≡ option_map (λ e. e.grid) (lookup (is_named name.now) self.now.grids.entries) }
        ensures field { option_map (λ grid. grid_field grid.now) result ≡ option_map (λ g. g.field) (grid_at (scene_of self.now) name.now) }
        ensures limit { option_map (λ grid. grid_root_limit grid.now) result ≡ option_map (λ g. g.limit) (grid_at (scene_of self.now) name.now) }
    {
        match self.entry(name) {
            Some(entry) => Some(&entry.grid),
            None => None,
        }
    }

    /// Returns the entry of a name: `None` if no grid has it.
    pub(crate) fn entry(&self, name: &Name) -> Option<&GridEntry>
        ensures field { option_map (λ entry. grid_of entry.now) result ≡ grid_at (scene_of self.now) name.now }
        ensures entry { option_map (λ entry. entry.now) result ≡ lookup (is_named name.now) self.now.grids.entries }
    {
        self.grids.get(name)
    }

    /// Returns the names of the grids, by rising bytes and each once.
    pub fn names(&self) -> Keys<'_, Name, GridEntry>
        ensures names { result ≡ map (λ e. e.0) (scene_of self.now) }
        ensures rising { IsStrictlySortedBy (slice_cmp nat_cmp) result }
    {
        self.grids.keys()
    }

    /// Inserts a grid without metadata under a name.
    ///
    /// Fails, in this order, with `NameTaken` if the name is taken, with `GridLimit` if the scene has `GRID_LIMIT` grids, and with
    /// `Memory` if an allocation fails. An error drops the grid and leaves the scene unchanged.
    pub fn insert(&mut self, name: Name, grid: AnyGrid) -> Result<(), Refusal>
        ensures scene { Inserts (scene_of self.old) name (grid_alone grid) result (scene_of self.new) }
        ensures added { OnOk result (AddsGrid self.old name (record { grid = grid; metas = [] }) self.new) }
        ensures kept { OnErr result (KeepsGrids self.old self.new) }
    {
        let metas = Metas::new(self.alloc);
        self.insert_with(name, grid, metas)
    }

    /// Inserts a grid with its metadata under a name.
    ///
    /// Fails, in this order, with `NameTaken` if the name is taken, with `GridLimit` if the scene has `GRID_LIMIT` grids, and with
    /// `Memory` if an allocation fails. An error drops the grid and leaves the scene unchanged.
    pub fn insert_with(&mut self, name: Name, grid: AnyGrid, metas: Metas) -> Result<(), Refusal>
        ensures scene { Inserts (scene_of self.old) name (grid_with grid metas) result (scene_of self.new) }
        ensures added { OnOk result (AddsGrid self.old name (record { grid = grid; metas = metas }) self.new) }
        ensures kept { OnErr result (KeepsGrids self.old self.new) }
    {
        if self.has(&name) {
            return Err(Refusal::NameTaken);
        }
        if self.is_full() {
            return Err(Refusal::GridLimit);
        }
        self.put(name, GridEntry { grid, metas })
    }

    /// Returns whether a grid has the name.
    pub(crate) fn has(&self, name: &Name) -> bool
        ensures { result ≡ is_some (grid_at (scene_of self.now) name.now) }
    {
        self.grids.contains_key(name)
    }

    /// Returns whether the scene has the maximum number of grids.
    pub(crate) fn is_full(&self) -> bool
        ensures { result ≡ nat_le 64 (length (scene_of self.now)) }
    {
        self.grids.len() >= GRID_LIMIT
    }

    /// Inserts an entry under a name that isn't taken. Fails with `Memory` if an allocation fails, and leaves the scene unchanged.
    pub(crate) fn put(&mut self, name: Name, entry: GridEntry) -> Result<(), Refusal>
        ensures ok { OnOk result (scene_of self.new ≡ with_grid (scene_of self.old) name (grid_of entry)) }
        ensures err { OnErr result (scene_of self.new ≡ scene_of self.old) }
        ensures memory { IfErr result (λ refusal. refusal ≡ Refusal.Memory) }
        ensures added { OnOk result (AddsGrid self.old name entry self.new) }
        ensures kept { OnErr result (KeepsGrids self.old self.new) }
    {
        match self.grids.insert(name, entry) {
            Ok(_) => Ok(()),
            Err(_) => Err(Refusal::Memory),
        }
    }
}

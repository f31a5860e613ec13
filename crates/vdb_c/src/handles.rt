//! The handles that C passes: a grid or a scene, and the count of the nodes that its calls visited.

pub(crate) mod held_grid;
pub(crate) mod held_scene;
pub(crate) mod held_view;
pub(crate) mod kept;
pub(crate) mod view;

use crate::handles::held_grid::HeldGrid;
use crate::handles::held_scene::HeldScene;
use vdb_pool::Steps;

/// A handle of a grid. Zeroed memory is an empty one.
#[repr(C)]
pub struct GridHandle {
    pub(crate) grid: HeldGrid,
    pub(crate) steps: Steps,
}

/// A handle of a scene. Zeroed memory is an empty one.
#[repr(C)]
pub struct SceneHandle {
    pub(crate) scene: HeldScene,
    pub(crate) steps: Steps,
}

//! A grid that several threads read.

use std::sync::Arc;
use vdb_scene::AnyGrid;

/// One of the owners of a grid that nobody changes, or none.
#[derive(Drop)]
pub struct View {
    pub(crate) grid: Option<Arc<Box<AnyGrid>>>,
}

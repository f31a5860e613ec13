//! Commands as a line has them: numbers may lie outside every range, and grids may not exist.

use crate::{MetaText, Name};
use vdb_value::Kind;

/// A number of a line.
#[derive(Clone, Copy, Debug, PartialEq, Eq)]
pub enum Num {
    /// A number of 64 bits.
    Near(i64),
    /// A number outside 64 bits, and so outside every range.
    Far,
}

/// A value of a line.
#[derive(Clone, Copy, Debug, PartialEq, Eq)]
pub enum Literal {
    Number(Num),
    Truth(bool),
}

/// The three components of a coordinate of a line.
#[derive(Clone, Copy, Debug, PartialEq, Eq)]
pub struct Point {
    pub x: Num,
    pub y: Num,
    pub z: Num,
}

/// The two corners of a box of a line: the minimum, then the maximum.
#[derive(Clone, Copy, Debug, PartialEq, Eq)]
pub struct Corners {
    pub min: Point,
    pub max: Point,
}

/// The part of a plane in a line: the least x and y, then the greatest.
#[derive(Clone, Copy, Debug, PartialEq, Eq)]
pub struct Area {
    pub min_x: Num,
    pub min_y: Num,
    pub max_x: Num,
    pub max_y: Num,
}

/// A command of a line.
#[derive(Clone, Copy, PartialEq, Eq)]
pub enum Command {
    /// Creates a grid that holds its background everywhere, with this root limit, or 4,096 if the line has none.
    Grid {
        name: Name,
        kind: Kind,
        background: Literal,
        limit: Option<Num>,
    },
    /// Removes a grid.
    Drop {
        name: Name,
    },
    /// Copies an existing grid under a new name: its type, background, root limit, metadata and cells.
    Copy {
        from: Name,
        to: Name,
    },
    /// Answers the cell of a voxel.
    Get {
        name: Name,
        accessor: Option<Num>,
        at: Point,
    },
    /// Sets the value of a voxel, and makes it active.
    Set {
        name: Name,
        accessor: Option<Num>,
        at: Point,
        value: Literal,
    },
    /// Sets the value of a voxel, and makes it inactive.
    Unset {
        name: Name,
        accessor: Option<Num>,
        at: Point,
        value: Literal,
    },
    /// Sets the value of a voxel, and keeps its state.
    Only {
        name: Name,
        accessor: Option<Num>,
        at: Point,
        value: Literal,
    },
    /// Activates or deactivates a voxel, and keeps its value.
    State {
        name: Name,
        accessor: Option<Num>,
        at: Point,
        on: bool,
    },
    /// Sets each voxel of a box to one value and one state.
    Fill {
        name: Name,
        corners: Corners,
        value: Literal,
        on: bool,
    },
    /// Sets each voxel outside a box to the background, inactive.
    Clip {
        name: Name,
        corners: Corners,
    },
    /// Makes the tree of a grid as small as its cells allow. No cell changes.
    Prune {
        name: Name,
    },
    /// Puts each active voxel of a box into a leaf of the grid's tree. No cell changes.
    Voxelise {
        name: Name,
        corners: Corners,
    },
    /// Answers the first active voxels of a box in block order, up to a limit, and whether more follow.
    List {
        name: Name,
        corners: Corners,
        limit: Num,
    },
    /// Answers the cells of a part of a plane of one z, row by row.
    Slice {
        name: Name,
        z: Num,
        area: Area,
    },
    /// Answers the number of active voxels of a box, or of the whole grid if the line has no box.
    Count {
        name: Name,
        corners: Option<Corners>,
    },
    /// Answers the bounding box of the active voxels.
    Bounds {
        name: Name,
    },
    /// Answers the size of the smallest tree of the grid's cells.
    Census {
        name: Name,
    },
    /// Activates in a grid every voxel that is active in another. No value changes.
    Union {
        name: Name,
        other: Name,
    },
    /// Deactivates in a grid every voxel that is active in another. No value changes.
    Difference {
        name: Name,
        other: Name,
    },
    /// Deactivates in a grid every voxel that is inactive in another. No value changes.
    Intersect {
        name: Name,
        other: Name,
    },
    /// Sets each voxel of a grid to the greater of its value and another grid's, active if either is.
    Max {
        name: Name,
        other: Name,
    },
    /// Sets each voxel of a grid to the lesser of its value and another grid's, active if either is.
    Min {
        name: Name,
        other: Name,
    },
    /// Sets each voxel of a grid to the sum of its value and another grid's, active if either is.
    Sum {
        name: Name,
        other: Name,
    },
    /// Copies the active cells of another grid into a grid.
    Replace {
        name: Name,
        other: Name,
    },
    /// Activates, in each iteration, every voxel that has an active face neighbour. No value changes.
    Dilate {
        name: Name,
        iterations: Num,
    },
    /// Deactivates, in each iteration, every voxel that has an inactive face neighbour. No value changes.
    Erode {
        name: Name,
        iterations: Num,
    },
    /// Sets the text of a key of a grid's metadata. An existing text is replaced.
    Meta {
        name: Name,
        key: Name,
        text: MetaText,
    },
    /// Removes the metadata pair of a key, if it exists.
    Unmeta {
        name: Name,
        key: Name,
    },
    /// Answers the metadata pairs of a grid.
    Metas {
        name: Name,
    },
}

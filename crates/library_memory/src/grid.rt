//! Calls methods that allocate on a grid whose accessors have coordinates.

ghost use Rattle.std.specs.Prelude.{◌<◌};

use crate::{tell, tell_done, tell_refused};
use vdb_coord::{Bounds, Coord};
use vdb_grid::Grid;
use vdb_pool::Steps;
use vdb_tree::Write;
use vdb_value::Cell;

/// The number of the grid's accessors.
const ACCESSORS: usize = 8;

/// The grid's root limit.
const LIMIT: u32 = 16;

/// The accessor that writes the voxel `WRITTEN`.
const WRITER: usize = 3;

const WRITTEN: Coord = Coord { x: 129, y: 1, z: 1 };

/// The cells at an accessor's last coordinate and beside it; `None` if the accessor has no coordinate.
type Seen = Option<(Cell<i32>, Cell<i32>)>;

/// The calls, in order.
const CALLS: [Call; 7] = [
    Call::Write,
    Call::Fill,
    Call::Copy,
    Call::Sum,
    Call::Clip,
    Call::Unite,
    Call::Dilate,
];

#[derive(Clone, Copy)]
enum Call {
    Write,
    Fill,
    Copy,
    Sum,
    Clip,
    Unite,
    Dilate,
}

impl Call {
    fn name(self) -> &'static str {
        match self {
            Call::Write => "grid write",
            Call::Fill => "grid fill",
            Call::Copy => "grid copy",
            Call::Sum => "grid sum",
            Call::Clip => "grid clip",
            Call::Unite => "grid unite",
            Call::Dilate => "grid dilate",
        }
    }

    /// Returns a voxel that the call changes (for a copy, one that is copied), and its cell after the call.
    fn outcome(self) -> (Coord, Cell<i32>) {
        match self {
            Call::Write => (WRITTEN, on(7)),
            Call::Fill => (at(130, 7, 7), on(3)),
            Call::Copy => (WRITTEN, on(3)),
            Call::Sum => (at(1, 2, 3), on(6)),
            Call::Clip => (WRITTEN, off(0)),
            Call::Unite => (WRITTEN, on(0)),
            Call::Dilate => (at(131, 1, 1), on(0)),
        }
    }
}

fn at(x: i32, y: i32, z: i32) -> Coord {
    Coord { x, y, z }
}

fn on(value: i32) -> Cell<i32> {
    Cell { value, on: true }
}

fn off(value: i32) -> Cell<i32> {
    Cell { value, on: false }
}

/// Returns the voxel whose x differs in the last bit: it lies in the same leaf extent.
fn beside(p: Coord) -> Coord {
    at(p.x ^ 1, p.y, p.z)
}

/// Returns the box from the origin to a coordinate, or the box of that coordinate alone if the corners are out of order.
fn up_to(p: Coord) -> Bounds {
    Bounds::new(at(0, 0, 0), p).unwrap_or(Bounds::single(p))
}

/// Returns the cell of a voxel, looked up from the root.
fn look_up(grid: &Grid<i32, ACCESSORS>, p: Coord, steps: &mut Steps) -> Cell<i32> {
    grid.tree().get(p, steps)
}

/// The grid, its copy if one exists, and the count of node visits.
#[derive(Drop)]
struct Watched {
    grid: Grid<i32, ACCESSORS>,
    copy: Option<Grid<i32, ACCESSORS>>,
    steps: Steps,
}

impl Watched {
    /// Returns the cell of a voxel, read through an accessor; `None` if the read visits more than one node.
    fn look(&mut self, k: usize, p: Coord) -> Option<Cell<i32>>
        requires { k < ACCESSORS }
    {
        let before = self.steps.count();
        let cell = self.grid.probe(k, p, &mut self.steps);
        if self.steps.count().saturating_sub(before) > 1 {
            return None;
        }
        Some(cell)
    }

    /// Returns the coordinate of an accessor, if it has one.
    fn coord_of(&self, k: usize) -> Option<Coord>
        requires { k < ACCESSORS }
    {
        self.grid.cached(k)
    }

    /// Returns what an accessor sees in the leaf extent of its last coordinate; `None` if a read visits more than one node.
    fn near(&mut self, k: usize) -> Seen
        requires { k < ACCESSORS }
    {
        let p = self.coord_of(k)?;
        let other = self.look(k, beside(p))?;
        let cell = self.look(k, p)?;
        Some((cell, other))
    }

    /// Returns what an accessor should see, found by look-ups from the root.
    fn wanted(&mut self, k: usize) -> Seen
        requires { k < ACCESSORS }
    {
        let p = self.coord_of(k)?;
        let cell = look_up(&self.grid, p, &mut self.steps);
        let other = look_up(&self.grid, beside(p), &mut self.steps);
        Some((cell, other))
    }

    /// Returns what all accessors should see.
    fn all_wanted(&mut self) -> [Seen; ACCESSORS] {
        let mut all = [None; ACCESSORS];
        for k in 0..ACCESSORS {
            all[k] = self.wanted(k);
        }
        all
    }

    /// Returns whether each accessor sees the wanted cells.
    fn sees(&mut self, wanted: &[Seen; ACCESSORS]) -> bool {
        for k in 0..ACCESSORS {
            if self.near(k) != wanted[k] {
                return false;
            }
        }
        true
    }

    /// Makes a call. Returns whether it succeeded.
    fn make(&mut self, call: Call) -> bool {
        let steps = &mut self.steps;
        match call {
            Call::Write => {
                let written = self.grid.write_by(WRITER, WRITTEN, Write::On(7), steps);
                written.is_ok()
            }
            Call::Fill => self.grid.fill(up_to(at(130, 7, 7)), on(3), steps).is_ok(),
            Call::Copy => self.make_copy(),
            Call::Clip => self.grid.clip(up_to(at(70, 7, 7)), steps).is_ok(),
            Call::Dilate => self.grid.dilate(1, steps).is_ok(),
            Call::Sum | Call::Unite => self.make_with_copy(call),
        }
    }

    fn make_copy(&mut self) -> bool {
        match self.grid.try_copy() {
            Ok(copy) => {
                self.copy = Some(copy);
                true
            }
            Err(_) => false,
        }
    }

    /// Makes a call that reads the copy. Returns whether it succeeded.
    fn make_with_copy(&mut self, call: Call) -> bool {
        let Some(copy) = &self.copy else {
            return false;
        };
        match call {
            Call::Sum => self.grid.sum(copy.tree(), &mut self.steps).is_ok(),
            _ => self.grid.unite(copy.tree(), &mut self.steps).is_ok(),
        }
    }

    /// Returns whether the voxel of the call's outcome has the right cell: in the copy for a copy, else in the grid.
    fn has_made(&mut self, call: Call) -> bool {
        let (p, cell) = call.outcome();
        if let (Call::Copy, Some(copy)) = (call, &self.copy) {
            return look_up(copy, p, &mut self.steps) == cell;
        }
        look_up(&self.grid, p, &mut self.steps) == cell
    }

    /// Makes a call, and if it fails, makes it once more.
    fn attempt(&mut self, rt: &HostRuntime, call: Call) {
        let before = self.all_wanted();
        if !self.make(call) {
            tell_refused(rt, call.name(), self.sees(&before));
            if !self.make(call) {
                return tell(rt, call.name(), "refused again");
            }
        }
        let after = self.all_wanted();
        tell_done(rt, call.name(), self.has_made(call) && self.sees(&after));
    }
}

/// Creates a grid, gives coordinates to three of its accessors, and makes the calls. The writer's coordinate lies in a leaf that
/// the calls create and change, one lies in tiles, and one lies outside both.
pub fn grid(rt: &HostRuntime) {
    let mut watched = Watched {
        grid: Grid::new(rt.alloc(), 0, LIMIT),
        copy: None,
        steps: Steps::new(rt),
    };
    let _ = watched.look(0, at(1, 2, 3));
    let _ = watched.look(WRITER, WRITTEN);
    let _ = watched.look(7, at(5000, 0, 0));
    for call in CALLS {
        watched.attempt(rt, call);
    }
}

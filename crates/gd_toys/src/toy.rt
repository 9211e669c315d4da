// A task of two roots and one coordinate.
ghost use Rattle.std.specs.Prelude.{◌≡◌, ◌≤◌};
ghost use Rattle.gd_toys.specs.Toys.{ends, evidence_of, feasible_of, inside_all, toy};
ghost use Rattle.gd_toys.specs.ToyLaws.{toy_laws};

use gd_cells::{Cell, Evidence, Task, Witness, split_cell, witness_of};

/// What sees each cell whose bounding begins. A test of threads learns by it which cells are bounded side by side.
pub trait Watch: Sync {
    fn see(&self, cell: &Cell);
}

/// Nothing sees the cells.
impl Watch for () {
    fn see(&self, _cell: &Cell) {}
}

/// Where it shows, every assignment is feasible, and centres hold from the level `least` on. Else none is, and cells
/// are refuted from `depth` on, and those of the first root from level 1 on. `points` is advice for threads.
#[derive(Drop)]
pub struct Toy<'a, W: Watch> {
    pub shows: bool,
    pub depth: u32,
    pub least: i64,
    pub finest: u32,
    pub points: usize,
    pub watch: &'a W,
    ghost few: { finest ≤ 60 },
}

// Whether a depth refutes a cell.
fn ends(depth: u32, cell: &Cell) -> bool
    ensures { result ≡ ends depth cell.now }
{
    depth <= cell.level || (cell.root == 1 && cell.level == 1)
}

impl<'a, W: Watch> Task for Toy<'a, W> {
    ghost questions = { λ t. toy t.shows t.depth t.least t.finest };

    ghost feasible = { λ t. feasible_of t.shows };

    ghost inside = { λ t. inside_all };

    ghost assignment = { λ t w. w.at };

    fn roots(&self) -> u32 {
        2
    }

    fn dims(&self) -> u32 {
        1
    }

    fn numbers(&self) -> u32 {
        2
    }

    fn finest_level(&self) -> u32 {
        self.finest
    }

    fn points(&self) -> usize {
        self.points
    }

    fn split(&self, cell: &Cell) -> (Cell, Cell) {
        split_cell(cell, 0)
    }

    fn refutes(&self, cell: &Cell) -> Option<Evidence> {
        self.watch.see(cell);
        if !self.shows && ends(self.depth, cell) {
            Some(Evidence {
                condition: 1,
                a: cell.root,
                b: 0,
            })
        } else {
            None
        }
    }

    fn refutes_at(&self, cell: &Cell, _evidence: &Evidence) -> bool {
        !self.shows && ends(self.depth, cell)
    }

    fn centre(&self, cell: &Cell) -> Witness {
        witness_of(cell.root, &[i64::from(cell.level)])
    }

    fn in_range(&self, _witness: &Witness) -> bool {
        true
    }

    fn holds(&self, witness: &Witness) -> bool {
        self.shows && self.least <= witness.at[0]
    }

    ghost laws = { λ t. toy_laws t.shows t.depth t.least t.finest t.few };
}

// What a search and a checker ask of a task, and the laws that its answers keep.
ghost use Rattle.std.specs.Prelude.{◌≡◌, ◌<◌, true, List, ℤ};
ghost use Rattle.gd_cells.specs.Grid.{IsCell};
ghost use Rattle.gd_cells.specs.Halves.{halves};
ghost use Rattle.gd_cells.specs.Laws.{Laws};
ghost use Rattle.gd_cells.specs.Meaning.{Questions};
ghost use Rattle.gd_cells.specs.declared.cell.Cell.{Cell};
ghost use Rattle.gd_cells.specs.declared.cell.Witness.{Witness};

use crate::cell::{Cell, Evidence, Witness};

/// A requirement over the cells of a grid. Assignments are its candidates: each task says which are feasible, which lie
/// inside a cell, and which one a witness stands for. Meanings that are widened or narrowed by level join as further
/// ghost members with their laws, and change none of these.
pub trait Task: Sync {
    ghost questions: { Self → Questions };

    ghost feasible: { Self → List ℤ → Type 0 };

    ghost inside: { Self → List ℤ → Cell → Type 0 };

    ghost assignment: { Self → Witness → List ℤ };

    /// How many roots there are, 1 to 4. They are numbered from 1.
    fn roots(&self) -> u32
        ensures { result ≡ (questions self.now).grid.roots };

    /// How many coordinates the grid has, 1 to 12.
    fn dims(&self) -> u32
        ensures { result ≡ (questions self.now).grid.dims };

    /// How many numbers a witness has, from the number of coordinates to 12.
    fn numbers(&self) -> u32
        ensures { result ≡ (questions self.now).grid.numbers };

    /// The finest level of the grid, at most 1,000: its cells aren't halved.
    fn finest_level(&self) -> u32
        ensures { result ≡ (questions self.now).grid.finest };

    /// How many points the bounding of a cell looks at. A search decides by it whether a level is worth threads, and no
    /// answer depends on it.
    fn points(&self) -> usize;

    /// The two halves of a cell above the finest level, along the coordinate of its level's step: the lower one first.
    fn split(&self, cell: &Cell) -> (Cell, Cell)
        requires cell { IsCell (questions self.now).grid cell.now }
        requires above { cell.now.level < (questions self.now).grid.finest }
        ensures { result ≡ halves (questions self.now).grid cell.now };

    /// The first evidence that refutes a cell: no feasible assignment lies inside it.
    fn refutes(&self, cell: &Cell) -> Option<Evidence>
        requires { IsCell (questions self.now).grid cell.now }
        ensures { result ≡ (questions self.now).tests.first cell.now };

    /// Whether this evidence refutes a cell. False where it names no condition or point of the task.
    fn refutes_at(&self, cell: &Cell, evidence: &Evidence) -> bool
        requires { IsCell (questions self.now).grid cell.now }
        ensures { result ≡ (questions self.now).tests.refuted cell.now evidence.now };

    /// The centre of a cell.
    fn centre(&self, cell: &Cell) -> Witness
        requires { IsCell (questions self.now).grid cell.now }
        ensures { result ≡ (questions self.now).tests.centre cell.now };

    /// Whether a witness names a root and lies in its box.
    fn in_range(&self, witness: &Witness) -> bool
        ensures { result ≡ (questions self.now).tests.in_range witness.now };

    /// Whether a witness in range meets the requirement, by the task's written test.
    fn holds(&self, witness: &Witness) -> bool
        requires { (questions self.now).tests.in_range witness.now ≡ true }
        ensures { result ≡ (questions self.now).tests.holds witness.now };

    ghost laws: { (t : Self) → Laws (questions t) (feasible t) (inside t) (assignment t) };
}

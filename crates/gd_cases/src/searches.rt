// Outcomes of a small task, and the threads of its levels.
use gd_base::Reason;
use gd_cells::{Cell, MOST_DIMS, Node};
use gd_search::{Outcome, search};
use gd_toys::{Toy, Watch};
use gd_verdict::leaves;
use std::alloc::{AllocError, Global};
use std::sync::atomic::{AtomicBool, Ordering};
use std::test::Fail;

// Two cells of a level. Each sets its flag, and looks whether the other's is set while it is bounded.
#[derive(Drop)]
struct Meeting {
    cells: [Cell; 2],
    here: [AtomicBool; 2],
    met: [AtomicBool; 2],
}

impl Meeting {
    fn new(cells: [Cell; 2]) -> Meeting {
        Meeting {
            cells,
            here: [AtomicBool::new(false), AtomicBool::new(false)],
            met: [AtomicBool::new(false), AtomicBool::new(false)],
        }
    }
}

impl Watch for Meeting {
    fn see(&self, cell: &Cell) {
        let (own, other) = if *cell == self.cells[0] {
            (0, 1)
        } else if *cell == self.cells[1] {
            (1, 0)
        } else {
            return;
        };
        self.here[own].store(true, Ordering::SeqCst);
        for _ in 0..100_000_000 {
            if self.here[other].load(Ordering::SeqCst) {
                self.met[own].store(true, Ordering::SeqCst);
                break;
            }
        }
    }
}

// A letter a line: `s`, `r` or `o`.
fn spelled(alloc: Global, tree: &[Node]) -> Result<String, AllocError> {
    let mut text = String::new(alloc);
    for node in tree {
        match node {
            Node::Split => text.push('s')?,
            Node::Refuted(_) => text.push('r')?,
            Node::Left => text.push('o')?,
        }
    }
    Ok(text)
}

// An outcome in words, with its numbers and its tree.
fn told(alloc: Global, outcome: &Outcome) -> Result<String, AllocError> {
    match outcome {
        Outcome::Accept { witness, level } => {
            format!(in alloc; "accept {level} root {} at {}", witness.root, witness.at[0])
        }
        Outcome::Reject { tree } => {
            let lines = spelled(alloc, tree)?;
            format!(in alloc; "reject {} {lines}", leaves(tree))
        }
        Outcome::StillOpen { tree, counts } => {
            let lines = spelled(alloc, tree)?;
            let why = match counts.reason {
                Reason::Budget => "budget",
                Reason::Floor => "floor",
            };
            format!(in alloc;
                "open {why} {} {} {} {lines}",
                counts.level, counts.undecided, counts.spent
            )
        }
    }
}

#[test]
fn outcomes(rt: HostRuntime) -> Result<(), Fail> {
    let alloc = rt.alloc();
    let cases = [
        ("refuted", false, 2, 100, "reject 6 srrssrrsrr"),
        ("a split too many", false, 2, 3, "open budget 1 2 2 srrsoo"),
        ("the last split", false, 2, 4, "reject 6 srrssrrsrr"),
        ("no budget", false, 2, 0, "open budget 0 2 0 oo"),
        (
            "the grid ends",
            false,
            9,
            100,
            "open floor 3 8 8 srrsssoosoossoosoo",
        ),
        ("the first root holds", true, 1, 100, "accept 1 root 1 at 1"),
    ];
    for (name, shows, number, budget, want) in cases {
        let toy = Toy {
            shows,
            depth: number,
            least: i64::from(number),
            finest: 3,
            points: 1,
            watch: &(),
        };
        let outcome = search(&rt, alloc, &toy, budget)?;
        let got = told(alloc, &outcome)?;
        assert_eq!(rt; got.as_str(), want, "{name}");
    }
    Ok(())
}

// The cell of a root and an index at a level.
fn cell(root: u32, level: u32, first: u64) -> Cell {
    let mut index = [0; MOST_DIMS];
    index[0] = first;
    Cell { root, level, index }
}

#[test]
fn halves_meet(rt: HostRuntime) -> Result<(), Fail> {
    let cases = [
        (
            "the roots, of one point",
            0,
            1,
            cell(1, 0, 0),
            cell(2, 0, 0),
        ),
        (
            "256 cells, of 4,000 points",
            8,
            4_000,
            cell(2, 8, 0),
            cell(2, 8, 255),
        ),
    ];
    for (name, depth, points, first, last) in cases {
        let meeting = Meeting::new([first, last]);
        let toy = Toy {
            shows: false,
            depth,
            least: 0,
            finest: 8,
            points,
            watch: &meeting,
        };
        let outcome = search(&rt, rt.alloc(), &toy, 1_000)?;
        assert!(rt; matches!(outcome, Outcome::Reject { .. }), "{name}");
        for met in &meeting.met {
            assert!(rt;
                met.load(Ordering::SeqCst),
                "{name}: each cell saw the other"
            );
        }
    }
    Ok(())
}

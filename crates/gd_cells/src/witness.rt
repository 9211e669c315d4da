// Witnesses by their numbers.
ghost use Rattle.std.specs.Prelude.{◌≡◌, ◌≤◌, length};
ghost use Rattle.gd_cells.specs.Witnesses.{witness_of, zeros_behind};

use crate::cell::{MOST_DIMS, Witness};

/// The witness of a root and some numbers. 0 stands after them.
pub fn witness_of(root: u32, numbers: &[i64]) -> Witness
    requires { length numbers.now ≤ MOST_DIMS }
    ensures { result ≡ witness_of root numbers.now }
{
    let mut at = [0; MOST_DIMS];
    at[..numbers.len()].copy_from_slice(numbers);
    Witness { root, at }
}

/// Whether 0 stands after the first so many numbers of a witness.
pub fn zeros_behind(witness: &Witness, numbers: usize) -> bool
    requires { numbers ≤ MOST_DIMS }
    ensures { result ≡ zeros_behind numbers witness.now }
{
    let zeros = [0; MOST_DIMS];
    let (_, rest) = witness.at.split_at(numbers);
    let (_, none) = zeros.split_at(numbers);
    rest == none
}

// The grid of a form: its sizes, and its places.
ghost use Rattle.std.specs.Prelude.{◌≡◌, ◌≤◌};
ghost use Rattle.gd_base.specs.Limits.{LARGE_SHIFT};
ghost use Rattle.gd_cells.specs.Grid.{IsCell};
ghost use Rattle.gd_dir.specs.FormPlaces.{dims_of, four_coordinates};
ghost use Rattle.gd_dir.specs.Forms.{cells_of, coordinates_of, roots_of};
ghost use Rattle.gd_grid.specs.Cells.{centre_of, is_in_range};

use crate::shape::FormShape;
use gd_cells::{Cell, Witness};
use gd_grid::{Coordinate, about};

/// How many roots the grid of a form has.
pub fn form_roots(shape: FormShape) -> u32
    ensures { result ≡ roots_of shape }
{
    match shape {
        FormShape::Flat | FormShape::Line | FormShape::Cylinder => 3,
        FormShape::Circle => 1,
    }
}

/// How many coordinates the grid of a form has.
pub fn form_dims(shape: FormShape) -> u32
    ensures value { result ≡ dims_of shape }
    ensures few { result ≤ 4 }
{
    match shape {
        FormShape::Flat | FormShape::Circle => 2,
        FormShape::Line | FormShape::Cylinder => 4,
    }
}

/// The finest level of the grid of a form: its cells aren't halved.
pub fn form_finest_level(shape: FormShape, shift: u32) -> u32
    requires { shift ≤ LARGE_SHIFT }
    ensures { result ≡ (cells_of shape shift).finest }
{
    let all = four_coordinates(shape, shift);
    gd_grid::finest_level(&all[..form_dims(shape) as usize])
}

/// Whether a witness names a root of a form and its numbers are in range: two ratios, in 2^-30, and two offsets, in
/// fine
/// units of 2^-16.
pub fn is_form_in_range(shape: FormShape, shift: u32, w: &Witness) -> bool
    requires { shift ≤ LARGE_SHIFT }
    ensures { result ≡ is_in_range (roots_of shape) (coordinates_of shape shift) w.now }
{
    let all = four_coordinates(shape, shift);
    gd_grid::is_in_range(form_roots(shape), &all[..form_dims(shape) as usize], w)
}

/// The centre of a cell of a form: the middles of its boxes under its root.
pub fn form_centre(shape: FormShape, shift: u32, c: &Cell) -> Witness
    requires shift { shift ≤ LARGE_SHIFT }
    requires cell { IsCell (cells_of shape shift) c.now }
    ensures { result ≡ centre_of (cells_of shape shift) (coordinates_of shape shift) c.now }
{
    let all = four_coordinates(shape, shift);
    gd_grid::centre_of(&all[..form_dims(shape) as usize], c)
}

// Four coordinates, of which the form's are the first.
fn four_coordinates(shape: FormShape, shift: u32) -> [Coordinate; 4]
    requires { shift ≤ LARGE_SHIFT }
    ensures { result ≡ four_coordinates shape shift }
{
    let ratio = about(0, 30);
    let offset = about(0, shift + 16);
    match shape {
        FormShape::Flat | FormShape::Line | FormShape::Cylinder => [ratio, ratio, offset, offset],
        FormShape::Circle => [offset, offset, ratio, ratio],
    }
}

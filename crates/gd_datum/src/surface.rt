// Nominal surfaces, and demands on the groups of a feature.
ghost use Rattle.std.specs.Prelude.{◌≡◌};
ghost use Rattle.gd_datum.specs.Kinds.{nominal_surface, surface_of};

use gd_frames::{FeatureDef, Shape};
use gd_zone::Surface;

/// The nominal surface of a feature, by its shape: its plane, its axis, or the centre of a sphere. The point is in
/// units; a direction has no unit.
pub fn nominal_surface(def: &FeatureDef) -> Surface
    ensures { result ≡ nominal_surface def.now }
{
    let direction = def.direction;
    let point = def.point;
    match def.shape {
        Shape::Plane => Surface::Plane { direction, point },
        Shape::Hole | Shape::Pin | Shape::Axis => Surface::Axis { direction, point },
        Shape::Sphere => Surface::Ball { point },
    }
}

// What a position or an orientation demands of a feature.
ghost use Rattle.std.specs.Prelude.{◌≡◌, ◌<◌, length, pos, Some};
ghost use Rattle.gd_place.specs.Kinds.{demand, less_tolerance, with_tolerance};
ghost use Rattle.gd_place.specs.Listed.{demand_of};
ghost use Rattle.gd_tables.specs.Kinds.{file_of};
ghost use Rattle.gd_tables.specs.declared.file.FeatureDef.{FeatureDef};
ghost use Rattle.gd_tables.specs.declared.kind.Material.TheVariants as material;

use gd_datum::{at_least, at_most};
use gd_frames::{FeatureDef, FrameFile, Material, Shape};
use gd_zone::Demand;

/// What a frame demands of one of its features at tolerance `t`, in units: the row of the table (docs/KINDS.md,
/// "Position" and "Orientation"). The frame and the feature are named by their places in the file.
pub fn place_demand(file: &FrameFile, frame: u32, feature: u32, t: u32) -> Demand
    requires frame { frame < length file.now.frames.items }
    requires feature { feature < length file.now.features.items }
    ensures { demand_of (file_of file.now) frame feature t ≡ Some result }
{
    demand(
        file.frames[frame as usize].material,
        &file.features[feature as usize],
        t,
    )
}

/// The row of the table for a material condition and a feature, at tolerance `t` in units.
pub(crate) fn demand(material: Material, def: &FeatureDef, t: u32) -> Demand
    ensures { result ≡ demand material def.now.shape def.now t }
{
    match material {
        Material::Rfs => at_any_size(def.shape, t),
        Material::Mmc => at_mmc(def, t),
        Material::Lmc => at_lmc(def, t),
    }
}

// Regardless of feature size: an axis, or a plane that is oriented.
fn at_any_size(shape: Shape, t: u32) -> Demand
    ensures { (def : FeatureDef) → result ≡ demand material.Rfs shape def t }
{
    match shape {
        Shape::Plane => Demand::Spread {
            t: 2 * i64::from(t),
        },
        _ => at_most(Some(i64::from(t))),
    }
}

// At maximum material: a hole stays outside of its boundary, a pin inside.
fn at_mmc(def: &FeatureDef, t: u32) -> Demand
    ensures { result ≡ demand material.Mmc def.now.shape def.now t }
{
    match def.shape {
        Shape::Hole => at_least(less_tolerance(def.mmc, t)),
        _ => at_most(with_tolerance(def.mmc, t)),
    }
}

// At least material: a hole stays inside of its boundary, a pin outside.
fn at_lmc(def: &FeatureDef, t: u32) -> Demand
    ensures { result ≡ demand material.Lmc def.now.shape def.now t }
{
    match def.shape {
        Shape::Hole => at_most(with_tolerance(def.lmc, t)),
        _ => at_least(less_tolerance(def.lmc, t)),
    }
}

fn with_tolerance(diameter: Option<u32>, t: u32) -> Option<i64>
    ensures { result ≡ with_tolerance t diameter }
{
    match diameter {
        Some(d) => Some(i64::from(d) + i64::from(t)),
        None => None,
    }
}

fn less_tolerance(diameter: Option<u32>, t: u32) -> Option<i64>
    ensures { result ≡ less_tolerance t diameter }
{
    match diameter {
        Some(d) => Some(i64::from(d) - i64::from(t)),
        None => None,
    }
}

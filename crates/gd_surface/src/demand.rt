// What a profile or a runout demands of a feature.
ghost use Rattle.std.specs.Prelude.{◌≡◌, ◌<◌, ◌≤◌, length, pos, Some, unsigned_abs, ◌^◌};
ghost use Rattle.std.specs.Option.{IfSome};
ghost use Rattle.gd_surface.specs.Kinds.{above, below, demand, profile_plane, profile_round, runout};
ghost use Rattle.gd_surface.specs.Listed.{demand_of};
ghost use Rattle.gd_tables.specs.Kinds.{file_of};

use gd_frames::{FeatureDef, FrameFile, Kind, Shape};
use gd_zone::Demand;

/// What a frame demands of one of its features at tolerance `t`, in units: the row of the table (docs/KINDS.md,
/// "Profile" and "Runout"). The frame and the feature are named by their places in the file.
pub fn surface_demand(file: &FrameFile, frame: u32, feature: u32, t: u32) -> Demand
    requires frame { frame < length file.now.frames.items }
    requires feature { feature < length file.now.features.items }
    ensures { demand_of (file_of file.now) frame feature t ≡ Some result }
{
    let frame = &file.frames[frame as usize];
    demand(frame.kind, &file.features[feature as usize], t, frame.above)
}

/// The row of the table for a kind and a feature, at tolerance `t`, of which `u` lies above where it is stated, in
/// units.
pub(crate) fn demand(kind: Kind, def: &FeatureDef, t: u32, u: Option<u32>) -> Demand
    ensures { result ≡ demand kind def.now.shape def.now t u }
{
    match (kind, def.shape) {
        (Kind::Profile, Shape::Plane) => profile_plane(t, u),
        (Kind::Profile, _) => profile_round(def.radius, t, u),
        _ => runout(t),
    }
}

fn profile_plane(t: u32, u: Option<u32>) -> Demand
    ensures { result ≡ profile_plane t u }
{
    Demand::Within {
        lo: Some(-below(t, u)),
        hi: Some(above(t, u)),
    }
}

fn profile_round(radius: Option<u32>, t: u32, u: Option<u32>) -> Demand
    ensures { result ≡ profile_round radius t u }
{
    match radius {
        Some(r) => Demand::Within {
            lo: Some(2 * i64::from(r) - below(t, u)),
            hi: Some(2 * i64::from(r) + above(t, u)),
        },
        None => Demand::Within { lo: None, hi: None },
    }
}

/// The distances of no two points differ by more than `t` units.
pub(crate) fn runout(t: u32) -> Demand
    ensures { result ≡ runout t }
{
    Demand::Spread {
        t: 2 * i64::from(t),
    }
}

// How far a zone reaches to the side of the greater distances, in half units.
fn above(t: u32, u: Option<u32>) -> i64
    ensures value { result ≡ above t u }
    ensures small { unsigned_abs result ≤ 2 ^ 34 }
{
    match u {
        Some(u) => 2 * i64::from(u),
        None => i64::from(t),
    }
}

// How far a zone reaches to the other side, in half units.
fn below(t: u32, u: Option<u32>) -> i64
    ensures value { result ≡ below t u }
    ensures small { unsigned_abs result ≤ 2 ^ 34 }
{
    match u {
        Some(u) => 2 * i64::from(t) - 2 * i64::from(u),
        None => i64::from(t),
    }
}

// One demand of each group of a feature by itself.
ghost use Rattle.std.specs.Prelude.{◌≡◌, ◌++◌, map, OnOk};
ghost use Rattle.gd_datum.specs.Kinds.{on_group};

use gd_base::Memory;
use gd_zone::{Condition, Demand, Surface};

/// A demand on the points of one group of a feature, on distances from a surface.
pub fn on_group(surface: Surface, demand: Demand, feature: u32, group: u32) -> Condition
    ensures { result ≡ on_group surface demand feature group }
{
    Condition {
        surface,
        demand,
        feature,
        group: Some(group),
        offset: 0,
    }
}

/// Appends the same demand of each of some groups of a feature, in their order. On `Memory` some of them are appended.
pub fn append_each(
    surface: Surface,
    demand: Demand,
    feature: u32,
    groups: &[u32],
    into: &mut Vec<Condition>,
) -> Result<(), Memory>
    ensures { OnOk result (into.new.items ≡ into.old.items ++ map (on_group surface demand feature) groups.now) }
{
    for at in 0..groups.len() {
        into.push(on_group(surface, demand, feature, groups[at]))?;
    }
    Ok(())
}

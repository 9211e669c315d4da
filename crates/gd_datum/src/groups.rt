// The groups that the points of a feature have.
ghost use Rattle.std.specs.Prelude.{◌≡◌, ◌≤◌, IfOk};
ghost use Rattle.gd_frames.specs.Groups.{groups_from};

use gd_base::Memory;
use gd_points::PointIndex;
use std::alloc::Global;

/// The groups from `first` on that the points of a feature have, in ascending order: all of them from 0, the contact
/// groups from 1 (docs/FORMATS.md, "The frame file"). `first` is at most 1,000. Each group is looked up once.
pub fn groups_of(
    alloc: Global,
    index: &PointIndex<'_>,
    first: u32,
    feature: u32,
) -> Result<Vec<u32>, Memory>
    requires first { first ≤ 1000 }
    ensures { IfOk result (λ v. v.items ≡ groups_from first index.now.table.now.rows feature) }
{
    let mut groups = Vec::new(alloc);
    let mut from = first;
    while let Some(group) = index.next_group(feature, from) {
        groups.push(group)?;
        from = group + 1;
    }
    Ok(groups)
}

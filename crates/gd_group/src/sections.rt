// The sections of a feature, which are the group numbers of its points.
ghost use Rattle.std.specs.Prelude.{◌≡◌, ◌≤◌, ◌++◌, ◌∷◌, [], ℕ, List, IfOk, OnOk, false, length, replicate};
ghost use Rattle.std.specs.Prelude.{slice_get};
ghost use Rattle.gd_base.specs.Limits.{GROUP};
ghost use Rattle.gd_group.specs.Met.{HasMet, group_in};
ghost use Rattle.gd_group.specs.Requirements.{sections};

use gd_base::Memory;
use gd_base::limits::GROUP;
use gd_frames::FeatureDef;
use gd_points::{PointIndex, PointTable};
use std::alloc::Global;

// How many numbers a group may have.
const GROUPS: u32 = GROUP + 1;

// The groups that points had so far.
#[derive(Drop)]
struct Met {
    // Whether each group was met, by its number.
    flags: Vec<bool>,
    // Those that were met, in the order of their first points.
    sections: Vec<u32>,
}

// A flag for each group, not set.
fn no_flags(alloc: Global) -> Result<Vec<bool>, Memory>
    ensures { IfOk result (λ v. v.items ≡ replicate 1000 false) }
{
    let mut flags = Vec::new(alloc);
    for _ in 0..GROUPS {
        flags.push(false)?;
    }
    Ok(flags)
}

impl Met {
    // No group was met.
    fn none(alloc: Global) -> Result<Met, Memory>
        ensures { IfOk result (HasMet []) }
    {
        let flags = no_flags(alloc)?;
        let sections = Vec::new(alloc);
        Ok(Met { flags, sections })
    }

    // Notes the group of one more point.
    fn note(&mut self, group: u32) -> Result<(), Memory>
        requires group { group ≤ GROUP }
        requires room { length self.old.flags.items ≡ 1000 }
        ensures { OnOk result ((groups : List ℕ) → HasMet groups self.old → HasMet (groups ++ group ∷ []) self.new) }
    {
        if self.flags[group as usize] {
            return Ok(());
        }
        self.sections.push(group)?;
        self.flags[group as usize] = true;
        Ok(())
    }
}

// The group of a point by its number.
fn group_at(table: &PointTable, number: u32) -> u32
    ensures value { result ≡ group_in (slice_get table.now.rows number) }
    ensures size { result ≤ GROUP }
{
    match table.row(number as usize) {
        Some(row) => row.group,
        None => 0,
    }
}

/// The sections of a feature, in the order of their first points.
pub fn sections_of(
    alloc: Global,
    index: &PointIndex<'_>,
    def: &FeatureDef,
) -> Result<Vec<u32>, Memory>
    ensures { IfOk result (λ v. v.items ≡ sections index.now.table.now.rows def.now) }
{
    let numbers = index.rows_of(def.feature);
    let mut met = Met::none(alloc)?;
    for number in numbers {
        met.note(group_at(index.table(), *number))?;
    }
    Ok(met.sections)
}

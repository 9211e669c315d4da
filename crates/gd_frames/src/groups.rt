// How many groups the points of each feature have.
ghost use Rattle.std.specs.Prelude.{◌≡◌, ◌<◌, ◌≤◌, ◌+◌, ◌*◌, length, take, get_or, replicate, [], vec_len, slice_get, nat_eq, Some, OnOk, IfOk, if◌then◌else◌};
ghost use Rattle.gd_frames.specs.Groups.{AreCounts, contact_groups, groups};
ghost use Rattle.gd_frames.specs.Tallies.{IsTally, bumped};

use gd_base::Memory;
use gd_points::{PointTable, Row};
use indexmap::IndexSet;
use std::alloc::Global;

/// How many groups each feature of a table of points has: all of them, and those but 0.
#[derive(Drop)]
pub(crate) struct GroupCounts<'a> {
    pub points: &'a PointTable,
    pub sections: Vec<u32>,
    pub contacts: Vec<u32>,
    ghost are_sections: { AreCounts 0 points.now.rows sections.items },
    ghost are_contacts: { AreCounts 1 points.now.rows contacts.items },
}

// The groups that were met so far, and how many they are.
#[derive(Drop)]
struct Tally {
    met: IndexSet<u64>,
    sections: Vec<u32>,
    contacts: Vec<u32>,
}

/// The counts of a table.
pub(crate) fn count_groups(alloc: Global, points: &PointTable) -> Result<GroupCounts<'_>, Memory>
    ensures { IfOk result (λ counts. counts.points.now ≡ points.now) }
{
    let mut tally = no_groups(alloc, points.features())?;
    for at in 0..points.len() {
        tally.add(points, at)?;
    }
    Ok(GroupCounts {
        points,
        sections: tally.sections,
        contacts: tally.contacts,
    })
}

fn no_groups(alloc: Global, features: u32) -> Result<Tally, Memory>
    ensures sections { IfOk result (λ tally. tally.sections.items ≡ replicate features 0) }
    ensures contacts { IfOk result (λ tally. tally.contacts.items ≡ replicate features 0) }
    ensures met { IfOk result (λ tally. tally.met.keys ≡ []) }
{
    Ok(Tally {
        met: IndexSet::new(alloc),
        sections: zeros(alloc, features)?,
        contacts: zeros(alloc, features)?,
    })
}

fn zeros(alloc: Global, count: u32) -> Result<Vec<u32>, Memory>
    ensures { IfOk result (λ v. v.items ≡ replicate count 0) }
{
    let mut zeros = Vec::new(alloc);
    for _ in 0..count {
        zeros.push(0)?;
    }
    Ok(zeros)
}

// The number of a feature's group.
fn group_key(row: &Row) -> u64
    ensures { result ≡ row.now.feature * 1000 + row.now.group }
{
    u64::from(row.feature) * 1_000 + u64::from(row.group)
}

// A point by its place.
fn row_at(points: &PointTable, at: usize) -> Row
    requires { at < length points.now.rows }
    ensures row { slice_get points.now.rows at ≡ Some result }
    ensures feature { result.feature < length points.now.names }
    ensures group { result.group ≤ 999 }
{
    points.row(at).unwrap()
}

impl Tally {
    // Counts the group of one point more.
    fn add(&mut self, points: &PointTable, at: usize) -> Result<(), Memory>
        requires at { at < length points.now.rows }
        requires tally { IsTally (length points.now.names) (take at points.now.rows) self.old }
        ensures { OnOk result (IsTally (length points.now.names) (take (at + 1) points.now.rows) self.new) }
    {
        let row = row_at(points, at);
        if self.met.insert(group_key(&row))? {
            self.count(&row);
        }
        Ok(())
    }

    // Counts a group that is new.
    fn count(&mut self, row: &Row)
        requires sections { row.now.feature < vec_len self.old.sections }
        requires contacts { row.now.feature < vec_len self.old.contacts }
        requires few_sections { get_or self.old.sections.items row.now.feature 0 ≤ 1000 }
        requires few_contacts { get_or self.old.contacts.items row.now.feature 0 ≤ 1000 }
        ensures sections { self.new.sections.items ≡ bumped self.old.sections.items row.now.feature }
        ensures contacts { self.new.contacts.items ≡ (if nat_eq row.now.group 0 then self.old.contacts.items else bumped self.old.contacts.items row.now.feature) }
        ensures met { self.new.met.keys ≡ self.old.met.keys }
    {
        count_one(&mut self.sections, row.feature);
        if row.group != 0 {
            count_one(&mut self.contacts, row.feature);
        }
    }
}

fn count_one(counts: &mut Vec<u32>, feature: u32)
    requires feature { feature < vec_len counts.old }
    requires few { get_or counts.old.items feature 0 ≤ 1000 }
    ensures { counts.new.items ≡ bumped counts.old.items feature }
{
    counts[feature as usize] += 1;
}

impl GroupCounts<'_> {
    /// How many groups a feature of the table of points has.
    pub(crate) fn sections_of(&self, feature: u32) -> u32
        ensures { result ≡ length (groups self.now.points.now.rows feature) }
    {
        count_at(self.sections.as_slice(), feature)
    }

    /// How many groups but 0 it has.
    pub(crate) fn contacts_of(&self, feature: u32) -> u32
        ensures { result ≡ length (contact_groups self.now.points.now.rows feature) }
    {
        count_at(self.contacts.as_slice(), feature)
    }
}

fn count_at(counts: &[u32], feature: u32) -> u32
    ensures { result ≡ get_or counts.now feature 0 }
{
    match counts.get(feature as usize) {
        Some(count) => *count,
        None => 0,
    }
}

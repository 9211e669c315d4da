// The table of points.
ghost use Rattle.std.specs.Prelude.{◌≡◌, ◌<◌, ◌≤◌, ◌^◌, length, OnOk, OnErr, slice_get, Some, IfOk, IfSome, position};
ghost use Rattle.std.specs.Prelude.{map, nat_eq, true, ◌==◌};
ghost use Rattle.indexmap.specs.IndexSet.{insert_key};
ghost use Rattle.gd_points.specs.Named.{IsNamed, name_in};
ghost use Rattle.gd_points.specs.Table.{AreNames, HasRows};
ghost use Rattle.gd_base.specs.Names.{is_name};
ghost use Rattle.std.specs.Cmp.Lexicographic.{pointwise};
ghost use Rattle.std.specs.List.{All, Any, IsDistinct, position_or_len};
ghost use Rattle.gd_base.specs.Limits.{COORDINATE, GROUP, POINTS};
ghost use Rattle.gd_points.specs.Columns.{AreColumns, label_of};
ghost use Rattle.gd_vec.specs.Vector.{IsWithin};

use crate::columns::{ColumnLists, Columns};
use gd_base::{Memory, Name};
use gd_vec::V3;
use indexmap::IndexSet;
use std::alloc::Global;
use std::marker::Model;

/// A point of a feature.
#[derive(Clone, Copy, Debug, PartialEq, Eq)]
pub struct Row {
    /// The number of the feature in its table, from 0.
    pub feature: u32,
    /// The number of its group, 0 to 999.
    pub group: u32,
    /// Its coordinates, in units of 0.1 micrometre.
    pub at: V3,
}

/// Which feature a point is of.
#[derive(Drop)]
pub enum Named {
    /// One that has points, by its number.
    Again(u32),
    /// The one with this name, whether it has points or not.
    Other(Name),
}

/// The feature and the group of a point, by their numbers.
#[derive(Clone, Copy)]
pub(crate) struct Label {
    pub feature: u32,
    pub group: u32,
}

/// The points of a part, in order, and the names of their features in the order of their first points.
/// A table has at most 200,000 points. Contracts see it as a `Table` of `specs/Table.antt`.
#[derive(Drop)]
pub struct PointTable {
    labels: Vec<Label>,
    columns: ColumnLists,
    names: IndexSet<Name>,
}

impl Model for PointTable {
    ghost use Rattle.gd_points.specs.Columns.{HasColumns, rows_of};
    ghost use Rattle.gd_points.specs.Table.{Table};

    ghost Value = { Table };

    ghost view = { λ t. record {
      rows = rows_of t.labels.items t.columns.x.items t.columns.y.items t.columns.z.items;
      names = t.names.keys;
    } };

    ghost invariant = { λ t. HasColumns (record {
      rows = rows_of t.labels.items t.columns.x.items t.columns.y.items t.columns.z.items;
      names = t.names.keys;
    }) t.labels.items t.columns.x.items t.columns.y.items t.columns.z.items };
}

// The number of a feature. A name that is new gets the next one.
fn number_for(names: &mut IndexSet<Name>, named: Named) -> Result<u32, Memory>
    requires few { length names.old.keys < POINTS }
    requires spelled { AreNames names.old.keys }
    requires distinct { IsDistinct (pointwise nat_eq) names.old.keys }
    requires named { IsNamed names.old.keys named }
    ensures number { IfOk result (λ n.
        n ≡ position_or_len (pointwise nat_eq (name_in names.old.keys named)) names.old.keys) }
    ensures names { OnOk result
        (names.new.keys ≡ insert_key (pointwise nat_eq) names.old.keys (name_in names.old.keys named)) }
    ensures distinct { OnOk result (IsDistinct (pointwise nat_eq) names.new.keys) }
    ensures name { OnOk result (is_name (name_in names.old.keys named) ≡ true) }
    ensures err { OnErr result (names.new.keys ≡ names.old.keys) }
{
    match named {
        Named::Again(feature) => Ok(feature),
        Named::Other(name) => {
            let (feature, _) = names.insert_full(name)?;
            Ok(feature as u32)
        }
    }
}

impl PointTable {
    ghost use Rattle.gd_points.specs.Table.{Table, empty_table, with_point};

    /// A table with no points.
    pub fn new(alloc: Global) -> PointTable
        ensures { result ≡ empty_table }
    {
        PointTable {
            labels: Vec::new(alloc),
            columns: ColumnLists::new(alloc),
            names: IndexSet::new(alloc),
        }
    }

    /// Adds a point after the others. `named` says its feature: by the number of one that has points, or by a name.
    /// A name that is new gets the next feature number. `group` is at most 999, the coordinates are in units of 0.1
    /// micrometre and within 8,000,000, and there are fewer than 200,000 points. On `Memory` the table is as it was.
    pub fn push(&mut self, named: Named, group: u32, at: V3) -> Result<(), Memory>
        requires room { length self.old.rows < POINTS }
        requires named { IsNamed self.old.names named }
        requires group { group ≤ GROUP }
        requires within { IsWithin COORDINATE at }
        ensures ok { OnOk result (self.new ≡ with_point self.old (name_in self.old.names named) group at) }
        ensures err { OnErr result (self.new ≡ self.old) }
    {
        self.labels.reserve(1)?;
        self.columns.reserve()?;
        let feature = number_for(&mut self.names, named)?;
        self.labels.push_reserved(Label { feature, group });
        self.columns.push_reserved(&at);
        Ok(())
    }

    /// The feature of the last point, if its name has these bytes.
    pub(crate) fn last_named(&self, name: &[u8]) -> Option<u32>
        ensures known { IfSome result (λ feature. slice_get self.now.names feature ≡ Some name.now) }
        ensures name { IfSome result (λ _. is_name name.now ≡ true) }
    {
        let label = self.labels.last()?;
        let known = self.name(label.feature);
        if known.bytes() == name {
            Some(label.feature)
        } else {
            None
        }
    }

    /// How many points there are.
    #[inline]
    pub fn len(&self) -> usize
        ensures count { result ≡ length self.now.rows }
        ensures few { result ≤ POINTS }
    {
        self.labels.len()
    }

    /// Whether there are no points.
    pub fn is_empty(&self) -> bool
        ensures { result ≡ length self.now.rows == 0 }
    {
        self.labels.is_empty()
    }

    /// A point by its place, from 0, with the range of each of its numbers. `None` where there is none.
    pub fn row(&self, at: usize) -> Option<Row>
        ensures row { result ≡ slice_get self.now.rows at }
        ensures features { All (λ row. row.feature < length self.now.names) self.now.rows }
        ensures groups { All (λ row. row.group ≤ GROUP) self.now.rows }
        ensures within { All (λ row. IsWithin COORDINATE row.at) self.now.rows }
    {
        let label = self.labels.get(at)?;
        Some(Row {
            feature: label.feature,
            group: label.group,
            at: self.columns.at(at),
        })
    }

    /// The features and the groups of the points in order.
    pub(crate) fn labels(&self) -> &[Label]
        ensures labels { result.now ≡ map label_of self.now.rows }
        ensures few { length result.now ≤ POINTS }
        ensures groups { All (λ row. row.group ≤ GROUP) self.now.rows }
        ensures within { All (λ row. IsWithin COORDINATE row.at) self.now.rows }
    {
        self.labels.as_slice()
    }

    /// The coordinates of the points in order.
    pub fn columns(&self) -> Columns<'_>
        ensures columns { AreColumns result.x.now result.y.now result.z.now self.now.rows }
        ensures few { length self.now.rows ≤ POINTS }
        ensures within { All (λ row. IsWithin COORDINATE row.at) self.now.rows }
    {
        Columns {
            x: self.columns.x.as_slice(),
            y: self.columns.y.as_slice(),
            z: self.columns.z.as_slice(),
        }
    }

    /// How many features have points. Their numbers are those below it.
    pub fn features(&self) -> u32
        ensures count { result ≡ length self.now.names }
        ensures used { HasRows self.now.rows (length self.now.names) }
    {
        self.names.len() as u32
    }

    /// The name of a feature.
    pub fn name(&self, feature: u32) -> &Name
        requires { feature < length self.now.names }
        ensures { slice_get self.now.names feature ≡ Some result.now }
    {
        &self.names[feature as usize]
    }

    /// The number of the feature with this name. `None` where no point has it.
    pub fn find(&self, name: &Name) -> Option<u32>
        ensures place { result ≡ position (pointwise nat_eq name.now) self.now.names }
        ensures used { IfSome result (λ feature. Any (λ row. row.feature ≡ feature) self.now.rows) }
    {
        let place = self.names.get_index_of(name)?;
        Some(place as u32)
    }
}

// The points of a feature, found without a look at the whole table.
ghost use Rattle.std.specs.Prelude.{◌≡◌, ◌<◌, ◌≤◌, ◌-◌, ◌==◌, ℕ, [], true, false, None, IfOk, IfSome, drop, length, map};
ghost use Rattle.std.specs.Prelude.{filter, get_or, pos, take};
ghost use Rattle.std.specs.List.{All, Any, range_with_len};
ghost use Rattle.gd_base.specs.Limits.{COORDINATE, GROUP, POINTS};
ghost use Rattle.gd_points.specs.Columns.{AreColumns, label_of};
ghost use Rattle.gd_points.specs.Index.{IsInOrder, IsOrdered, has_group, is_of, is_of_group, key_at, key_of};
ghost use Rattle.gd_points.specs.Index.{numbers_where, row_at};
ghost use Rattle.gd_points.specs.declared.index.OrderBy.TheVariants as by;
ghost use Rattle.gd_vec.specs.Vector.{IsWithin};

use crate::PointTable;
use crate::columns::{ColumnLists, Columns, PointList};
use crate::table::Label;
use gd_base::Memory;
use std::alloc::{AllocError, Global};

/// What the numbers of points are ordered by.
#[derive(Clone, Copy)]
pub enum OrderBy {
    /// The feature.
    Feature,
    /// The feature, and then the group.
    Group,
}

// The points of a table in an order: their numbers, and beside them their coordinates.
#[derive(Drop)]
struct InOrder {
    numbers: Vec<u32>,
    columns: ColumnLists,
}

// Places in a list, from one to before another.
#[derive(Clone, Copy)]
struct Span {
    from: usize,
    end: usize,
}

/// The points of each feature of a table, and of each group of it: their numbers, which are the places of their rows,
/// from 0, and their coordinates. It is made once, and a look-up takes no memory.
#[derive(Drop)]
pub struct PointIndex<'a> {
    table: &'a PointTable,
    by_feature: InOrder,
    by_group: InOrder,
    ghost features: { IsInOrder by.Feature table.now.rows by_feature.numbers.items by_feature.columns.x.items
        by_feature.columns.y.items by_feature.columns.z.items },
    ghost groups: { IsInOrder by.Group table.now.rows by_group.numbers.items by_group.columns.x.items
        by_group.columns.y.items by_group.columns.z.items },
}

// The numbers below a count, ascending.
fn numbers_below(alloc: Global, count: u32) -> Result<Vec<u32>, AllocError>
    ensures { IfOk result (λ v. v.items ≡ range_with_len 0 count) }
{
    let mut numbers = Vec::with_capacity(alloc, count as usize)?;
    for number in 0..count {
        numbers.push(number)?;
    }
    Ok(numbers)
}

fn key_of(order: OrderBy, label: &Label) -> u64
    ensures { result ≡ key_of order label.now }
{
    let feature = u64::from(label.feature);
    match order {
        OrderBy::Feature => feature,
        OrderBy::Group => (feature << 32) + u64::from(label.group),
    }
}

// The key of a point by its number, and 0 where there is none.
fn key_at(order: OrderBy, labels: &[Label], number: u32) -> u64
    ensures { result ≡ key_at order labels.now number }
{
    match labels.get(number as usize) {
        None => 0,
        Some(label) => key_of(order, label),
    }
}

// The numbers of all points, ordered by their keys.
fn ordered(alloc: Global, order: OrderBy, labels: &[Label]) -> Result<Vec<u32>, AllocError>
    requires { length labels.now ≤ POINTS }
    ensures ordered { IfOk result (λ v. IsOrdered order labels.now v.items) }
    ensures below { IfOk result (λ v. All (λ number. number < length labels.now) v.items) }
{
    let mut numbers = numbers_below(alloc, labels.len() as u32)?;
    numbers.sort_by_key(|number| key_at(order, labels, *number))?;
    Ok(numbers)
}

// The values at some places, in the order of these.
fn values_at(alloc: Global, values: &[i32], places: &[u32]) -> Result<Vec<i32>, AllocError>
    requires { All (λ place. place < length values.now) places.now }
    ensures { IfOk result (λ v. v.items ≡ map (λ place. get_or values.now place (pos 0)) places.now) }
{
    let mut found = Vec::with_capacity(alloc, places.len())?;
    for place in places {
        found.push(values[*place as usize])?;
    }
    Ok(found)
}

// The coordinates of the points with these numbers, in the order of these.
fn columns_at(alloc: Global, table: &PointTable, numbers: &[u32]) -> Result<ColumnLists, AllocError>
    requires { All (λ number. number < length table.now.rows) numbers.now }
    ensures { IfOk result (λ lists. AreColumns lists.x.items lists.y.items lists.z.items
        (map (row_at table.now.rows) numbers.now)) }
{
    let columns = table.columns();
    let x = values_at(alloc, columns.x, numbers)?;
    let y = values_at(alloc, columns.y, numbers)?;
    let z = values_at(alloc, columns.z, numbers)?;
    Ok(ColumnLists { x, y, z })
}

// The feature and the group of the first point in an order whose key is at least this one, if there is one.
fn first_from(order: OrderBy, labels: &[Label], numbers: &[u32], key: u64) -> Option<Label>
    requires ordered { IsOrdered order labels.now numbers.now }
    requires below { All (λ number. number < length labels.now) numbers.now }
    ensures at { IfSome result (λ label. Any (λ l. l ≡ label) labels.now) }
    ensures from { IfSome result (λ label. key ≤ key_of order label) }
    ensures first { IfSome result (λ label. (k : ℕ) → key ≤ k → k < key_of order label
        → filter (λ i. key_at order labels.now i == k) numbers.now ≡ []) }
    ensures none { result ≡ None → (k : ℕ) → key ≤ k
        → filter (λ i. key_at order labels.now i == k) numbers.now ≡ [] }
{
    let at = numbers.partition_point(|number| key_at(order, labels, *number) < key);
    let number = numbers.get(at)?;
    Some(labels[*number as usize])
}

// Where the points with a key stand, among those of all points.
fn places_of(order: OrderBy, labels: &[Label], numbers: &[u32], key: u64) -> Span
    requires { IsOrdered order labels.now numbers.now }
    ensures up { result.from ≤ result.end }
    ensures end { result.end ≤ length numbers.now }
    ensures all { take (result.end - result.from) (drop result.from numbers.now)
        ≡ filter (λ i. key_at order labels.now i == key) (range_with_len 0 (length labels.now)) }
{
    let from = numbers.partition_point(|number| key_at(order, labels, *number) < key);
    let rest = &numbers[from..];
    let count = rest.partition_point(|number| key_at(order, labels, *number) <= key);
    Span {
        from,
        end: from + count,
    }
}

impl InOrder {
    // The points of a table in an order.
    fn of(alloc: Global, order: OrderBy, table: &PointTable) -> Result<InOrder, AllocError>
        ensures { IfOk result (λ points. IsInOrder order table.now.rows points.numbers.items points.columns.x.items
            points.columns.y.items points.columns.z.items) }
    {
        let numbers = ordered(alloc, order, table.labels())?;
        let columns = columns_at(alloc, table, numbers.as_slice())?;
        Ok(InOrder { numbers, columns })
    }

    // The points with a key.
    fn with_key(&self, order: OrderBy, table: &PointTable, key: u64) -> PointList<'_>
        requires { IsInOrder order table.now.rows self.now.numbers.items self.now.columns.x.items
            self.now.columns.y.items self.now.columns.z.items }
        ensures numbers { result.numbers.now ≡ filter (λ i. key_at order (map label_of table.now.rows) i == key)
            (range_with_len 0 (length (map label_of table.now.rows))) }
        ensures columns { AreColumns result.columns.x.now result.columns.y.now result.columns.z.now
            (map (row_at table.now.rows) result.numbers.now) }
        ensures groups { All (λ row. row.group ≤ GROUP) table.now.rows }
        ensures within { All (λ row. IsWithin COORDINATE row.at) table.now.rows }
    {
        let numbers = self.numbers.as_slice();
        let Span { from, end } = places_of(order, table.labels(), numbers, key);
        PointList {
            numbers: &numbers[from..end],
            columns: Columns {
                x: &self.columns.x[from..end],
                y: &self.columns.y[from..end],
                z: &self.columns.z[from..end],
            },
        }
    }
}

impl<'a> PointIndex<'a> {
    /// The index of a table. It takes 32 bytes a point, and as long as it takes to sort them twice.
    pub fn of(alloc: Global, table: &'a PointTable) -> Result<PointIndex<'a>, Memory>
        ensures { IfOk result (λ index. index.table.now ≡ table.now) }
    {
        let by_feature = InOrder::of(alloc, OrderBy::Feature, table)?;
        let by_group = InOrder::of(alloc, OrderBy::Group, table)?;
        Ok(PointIndex {
            table,
            by_feature,
            by_group,
        })
    }

    /// The table that it is of.
    pub fn table(&self) -> &'a PointTable
        ensures { result.now ≡ self.now.table.now }
    {
        self.table
    }

    /// The points of a feature: their numbers, ascending, and their coordinates in that order, in units of 0.1
    /// micrometre. There are none where the table has no such feature.
    pub fn points_of(&self, feature: u32) -> PointList<'_>
        ensures all { result.numbers.now ≡ numbers_where (is_of feature) self.now.table.now.rows }
        ensures below { All (λ number. number < length self.now.table.now.rows) result.numbers.now }
        ensures columns { AreColumns result.columns.x.now result.columns.y.now result.columns.z.now
            (filter (is_of feature) self.now.table.now.rows) }
        ensures few { length result.numbers.now ≤ POINTS }
        ensures within { All (λ row. IsWithin COORDINATE row.at) (filter (is_of feature) self.now.table.now.rows) }
    {
        self.by_feature
            .with_key(OrderBy::Feature, self.table, u64::from(feature))
    }

    /// The points of a group of a feature, in the same form.
    pub fn points_of_group(&self, feature: u32, group: u32) -> PointList<'_>
        ensures all { result.numbers.now ≡ numbers_where (is_of_group feature group) self.now.table.now.rows }
        ensures below { All (λ number. number < length self.now.table.now.rows) result.numbers.now }
        ensures columns { AreColumns result.columns.x.now result.columns.y.now result.columns.z.now
            (filter (is_of_group feature group) self.now.table.now.rows) }
        ensures few { length result.numbers.now ≤ POINTS }
        ensures within { All (λ row. IsWithin COORDINATE row.at)
            (filter (is_of_group feature group) self.now.table.now.rows) }
    {
        let key = key_of(OrderBy::Group, &Label { feature, group });
        self.by_group.with_key(OrderBy::Group, self.table, key)
    }

    /// The least group from a number on that the points of a feature have, found by halving. `None` where they have
    /// none from there on.
    pub fn next_group(&self, feature: u32, from: u32) -> Option<u32>
        ensures from { IfSome result (λ next. from ≤ next) }
        ensures within { IfSome result (λ next. next ≤ GROUP) }
        ensures has { IfSome result (λ next. has_group self.now.table.now.rows feature next ≡ true) }
        ensures least { IfSome result (λ next. (group : ℕ) → from ≤ group → group < next
            → has_group self.now.table.now.rows feature group ≡ false) }
        ensures none { result ≡ None → (group : ℕ) → from ≤ group
            → has_group self.now.table.now.rows feature group ≡ false }
    {
        let numbers = self.by_group.numbers.as_slice();
        let key = key_of(
            OrderBy::Group,
            &Label {
                feature,
                group: from,
            },
        );
        let next = first_from(OrderBy::Group, self.table.labels(), numbers, key)?;
        if next.feature == feature {
            Some(next.group)
        } else {
            None
        }
    }

    /// The numbers of the points of a feature, ascending. There are none where the table has no such feature.
    pub fn rows_of(&self, feature: u32) -> &[u32]
        ensures all { result.now ≡ numbers_where (is_of feature) self.now.table.now.rows }
        ensures below { All (λ number. number < length self.now.table.now.rows) result.now }
    {
        self.points_of(feature).numbers
    }

    /// The numbers of the points of a group of a feature, ascending.
    pub fn rows_of_group(&self, feature: u32, group: u32) -> &[u32]
        ensures all { result.now ≡ numbers_where (is_of_group feature group) self.now.table.now.rows }
        ensures below { All (λ number. number < length self.now.table.now.rows) result.now }
    {
        self.points_of_group(feature, group).numbers
    }
}

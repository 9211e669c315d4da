// A feature table.
ghost use Rattle.std.specs.Prelude.{◌≡◌, ◌<◌, ◌≤◌, codes, length, false, IfOk, IfSome};
ghost use Rattle.toml.specs.Data.{get_member};
ghost use Rattle.toml.specs.View.{table_view, view};
ghost use Rattle.gd_tables.specs.Grammar.{direction, feature_in, is_zero, new_name, without_direction};
ghost use Rattle.gd_tables.specs.Listed.{place_of};
ghost use Rattle.gd_tables.specs.Words.{shape_of};
ghost use Rattle.gd_keys.specs.Contents.{three, word};
ghost use Rattle.gd_keys.specs.Keys.{is_among, needed, value_or};
ghost use Rattle.gd_base.specs.Causes.{Gives};
ghost use Rattle.gd_keys.specs.Rules.{key_cause, or_broken};
ghost use Rattle.gd_keys.specs.declared.rule.Rule.TheVariants as rule;
ghost use Rattle.gd_vec.specs.Vector.{IsWithin};

use crate::file::FeatureDef;
use crate::kind::{Shape, shape_of};
use crate::listed::Listed;
use crate::ranges::Ranges;
use gd_base::{Name, limits};
use gd_keys::{
    KeyFault, Rule, name_in, needed, only_keys, optional_number, text_in, three_in, value_at,
};
use gd_points::PointTable;
use gd_vec::V3;
use std::alloc::Global;
use toml::{Table, Value};

/// A feature table, whose name none of the earlier ones has: its name, and what it states.
#[tactic(auto, unfolding(crate::specs::Grammar::feature_in))]
pub fn read_feature(
    alloc: Global,
    points: &PointTable,
    ranges: &Ranges,
    earlier: &Listed<FeatureDef>,
    table: &Table,
) -> Result<(Name, FeatureDef), KeyFault>
    ensures feature { Gives key_cause (λ f. (f.0, f.1)) result (feature_in points.now ranges.now earlier.now.names.keys (table_view table.now)) }
    ensures new { IfOk result (λ f. is_among earlier.now.names.keys f.0 ≡ false) }
{
    only_keys(
        table,
        &[
            "name",
            "shape",
            "direction",
            "point",
            "radius",
            "mmc",
            "lmc",
        ],
    )?;
    let name = new_name(alloc, earlier, table)?;
    let feature = number_of(points, &name)?;
    let shape = read_shape(table)?;
    let direction = read_direction(alloc, shape, table)?;
    let point = read_point(alloc, table, ranges.place)?;
    let radius = optional_number(table, "radius", ranges.radius)?;
    let mmc = optional_number(table, "mmc", ranges.diameter)?;
    let lmc = optional_number(table, "lmc", ranges.diameter)?;
    let stated = FeatureDef {
        feature,
        shape,
        direction,
        point,
        radius,
        mmc,
        lmc,
    };
    Ok((name, stated))
}

/// The name of a table, which none of the earlier ones has.
pub fn new_name<T: Drop>(
    alloc: Global,
    earlier: &Listed<T>,
    table: &Table,
) -> Result<Name, KeyFault>
    ensures name { Gives key_cause (λ n. n) result (needed (codes "name") (new_name earlier.now.names.keys) (table_view table.now)) }
    ensures new { IfOk result (λ n. is_among earlier.now.names.keys n ≡ false) }
{
    let name = name_in(alloc, needed(table, "name")?)?;
    if earlier.has(&name) {
        Err(KeyFault::Rule(Rule::Once))
    } else {
        Ok(name)
    }
}

// The number of a feature of the points file.
fn number_of(points: &PointTable, name: &Name) -> Result<u32, KeyFault>
    ensures { Gives key_cause (λ n. n) result (or_broken (place_of points.now.names name.now) rule.Feature) }
{
    match points.find(name) {
        Some(feature) => Ok(feature),
        None => Err(KeyFault::Rule(Rule::Feature)),
    }
}

fn read_shape(table: &Table) -> Result<Shape, KeyFault>
    ensures { Gives key_cause (λ s. s) result (needed (codes "shape") (word shape_of) (table_view table.now)) }
{
    let word = text_in(needed(table, "shape")?)?;
    match shape_of(word) {
        Some(shape) => Ok(shape),
        None => Err(KeyFault::Rule(Rule::Range)),
    }
}

fn read_direction(alloc: Global, shape: Shape, table: &Table) -> Result<V3, KeyFault>
    ensures { Gives key_cause (λ v. v) result (value_or (without_direction shape) direction (get_member (codes "direction") (table_view table.now))) }
{
    match value_at(table, "direction") {
        Some(value) => direction_in(alloc, value),
        None => without_direction(shape),
    }
}

fn direction_in(alloc: Global, value: &Value) -> Result<V3, KeyFault>
    ensures { Gives key_cause (λ v. v) result (direction (view value.now)) }
{
    let direction = three_in(alloc, value, limits::ENTRY)?;
    if is_zero(&direction) {
        Err(KeyFault::Rule(Rule::Direction))
    } else {
        Ok(direction)
    }
}

fn is_zero(v: &V3) -> bool
    ensures { result ≡ is_zero v.now }
{
    v.x == 0 && v.y == 0 && v.z == 0
}

fn without_direction(shape: Shape) -> Result<V3, KeyFault>
    ensures { Gives key_cause (λ v. v) result (without_direction shape) }
{
    match shape {
        Shape::Sphere => Ok(V3 { x: 0, y: 0, z: 1 }),
        _ => Err(KeyFault::Rule(Rule::Needed)),
    }
}

fn read_point(alloc: Global, table: &Table, limit: u32) -> Result<V3, KeyFault>
    ensures { Gives key_cause (λ v. v) result (needed (codes "point") (three limit) (table_view table.now)) }
{
    three_in(alloc, needed(table, "point")?, limit)
}

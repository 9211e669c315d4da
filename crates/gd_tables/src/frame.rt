// A frame table.
ghost use Rattle.std.specs.Prelude.{◌≡◌, ◌<◌, ◌≤◌, ℕ, List, [], codes, length, false, IfOk, IfSome};
ghost use Rattle.toml.specs.View.{table_view, view};
ghost use Rattle.gd_tables.specs.Grammar.{features_in, frame_in, stated_in, words_in};
ghost use Rattle.gd_tables.specs.Kinds.{frame_of};
ghost use Rattle.gd_tables.specs.Seen.{seen_frame};
ghost use Rattle.gd_tables.specs.Words.{kind_of, material_of};
ghost use Rattle.gd_tables.specs.declared.kind.Kind.{Kind};
ghost use Rattle.gd_tables.specs.declared.kind.Material.TheVariants as material;
ghost use Rattle.gd_keys.specs.Contents.{number, truth, word};
ghost use Rattle.gd_keys.specs.Keys.{default_to, is_among, needed};
ghost use Rattle.gd_base.specs.Causes.{Gives};
ghost use Rattle.gd_base.specs.Limits.{DATUMS, FEATURES, TOLERANCE};
ghost use Rattle.gd_keys.specs.Rules.{key_cause};

use crate::feature::new_name;
use crate::file::{DatumDef, DatumRef, FeatureDef, FrameDef};
use crate::kind::{Kind, Material, kind_of, material_of};
use crate::listed::Listed;
use crate::word::{features_in, words_in};
use gd_base::{Name, limits};
use gd_keys::{
    KeyFault, Rule, needed, number_in, only_keys, optional_number, text_in, truth_in, value_at,
};
use std::alloc::Global;
use toml::{Table, Value};

// What a frame table states behind its features.
#[derive(Drop)]
struct Stated {
    tolerance: u32,
    datums: Vec<DatumRef>,
    material: Material,
    above: Option<u32>,
    lower: Option<u32>,
    lower_datums: Vec<DatumRef>,
    separate: bool,
}

/// A frame table, whose name none of the earlier ones has.
#[tactic(auto, unfolding(crate::specs::Grammar::frame_in))]
pub fn read_frame(
    alloc: Global,
    features: &Listed<FeatureDef>,
    datums: &Listed<DatumDef>,
    earlier: &Listed<FrameDef>,
    table: &Table,
) -> Result<FrameDef, KeyFault>
    requires features { length features.now.names.keys ≤ FEATURES }
    requires datums { length datums.now.names.keys ≤ DATUMS }
    ensures frame { Gives key_cause frame_of result (frame_in features.now.names.keys datums.now.names.keys
        earlier.now.names.keys (table_view table.now)) }
    ensures new { IfOk result (λ f. is_among earlier.now.names.keys f.name ≡ false) }
{
    only_keys(
        table,
        &[
            "name",
            "kind",
            "features",
            "tolerance",
            "datums",
            "material",
            "above",
            "lower",
            "lower_datums",
            "separate",
        ],
    )?;
    let name = new_name(alloc, earlier, table)?;
    let kind = read_kind(table)?;
    let places = read_features(alloc, table, kind, features)?;
    let stated = read_stated(alloc, table, datums)?;
    Ok(whole_frame(name, kind, places, stated))
}

// The frame of what its table states.
fn whole_frame(name: Name, kind: Kind, places: Vec<u32>, stated: Stated) -> FrameDef
    ensures frame { frame_of result ≡ seen_frame name kind places.items stated }
    ensures name { result.name ≡ name }
{
    FrameDef {
        name,
        kind,
        features: places,
        tolerance: stated.tolerance,
        datums: stated.datums,
        material: stated.material,
        above: stated.above,
        lower: stated.lower,
        lower_datums: stated.lower_datums,
        separate: stated.separate,
    }
}

// What stands behind the features, whatever is before it.
#[tactic(auto, unfolding(crate::specs::Grammar::stated_in))]
fn read_stated(alloc: Global, table: &Table, datums: &Listed<DatumDef>) -> Result<Stated, KeyFault>
    requires { length datums.now.names.keys ≤ DATUMS }
    ensures { (n : List ℕ) (k : Kind) (ps : List ℕ) → Gives key_cause (seen_frame n k ps) result
        (stated_in datums.now.names.keys n k ps (table_view table.now)) }
{
    let tolerance = read_tolerance(table)?;
    let words = read_words(alloc, table, "datums", datums)?;
    let material = read_material(table)?;
    let above = optional_number(table, "above", tolerance)?;
    let lower = optional_number(table, "lower", tolerance)?;
    let lower_datums = read_words(alloc, table, "lower_datums", datums)?;
    let separate = read_separate(table)?;
    Ok(Stated {
        tolerance,
        datums: words,
        material,
        above,
        lower,
        lower_datums,
        separate,
    })
}

fn read_kind(table: &Table) -> Result<Kind, KeyFault>
    ensures { Gives key_cause (λ k. k) result (needed (codes "kind") (word kind_of) (table_view table.now)) }
{
    let word = text_in(needed(table, "kind")?)?;
    match kind_of(word) {
        Some(kind) => Ok(kind),
        None => Err(KeyFault::Rule(Rule::Range)),
    }
}

fn read_features(
    alloc: Global,
    table: &Table,
    kind: Kind,
    features: &Listed<FeatureDef>,
) -> Result<Vec<u32>, KeyFault>
    requires { length features.now.names.keys ≤ FEATURES }
    ensures { Gives key_cause (λ v. v.items) result (needed (codes "features")
        (features_in features.now.names.keys kind) (table_view table.now)) }
{
    features_in(alloc, needed(table, "features")?, kind, features)
}

fn read_tolerance(table: &Table) -> Result<u32, KeyFault>
    ensures { Gives key_cause (λ n. n) result (needed (codes "tolerance") (number TOLERANCE) (table_view table.now)) }
{
    number_in(needed(table, "tolerance")?, limits::TOLERANCE)
}

fn read_words(
    alloc: Global,
    table: &Table,
    key: &str,
    datums: &Listed<DatumDef>,
) -> Result<Vec<DatumRef>, KeyFault>
    requires { length datums.now.names.keys ≤ DATUMS }
    ensures { Gives key_cause (λ v. v.items) result (default_to [] key.now (words_in datums.now.names.keys)
        (table_view table.now)) }
{
    match value_at(table, key) {
        Some(value) => words_in(alloc, value, datums),
        None => Ok(Vec::new(alloc)),
    }
}

fn read_material(table: &Table) -> Result<Material, KeyFault>
    ensures { Gives key_cause (λ m. m) result (default_to material.Rfs (codes "material") (word material_of)
        (table_view table.now)) }
{
    match value_at(table, "material") {
        Some(value) => material_in(value),
        None => Ok(Material::Rfs),
    }
}

fn material_in(value: &Value) -> Result<Material, KeyFault>
    ensures { Gives key_cause (λ m. m) result (word material_of (view value.now)) }
{
    match material_of(text_in(value)?) {
        Some(material) => Ok(material),
        None => Err(KeyFault::Rule(Rule::Range)),
    }
}

fn read_separate(table: &Table) -> Result<bool, KeyFault>
    ensures { Gives key_cause (λ b. b) result (default_to false (codes "separate") truth (table_view table.now)) }
{
    match value_at(table, "separate") {
        Some(value) => truth_in(value),
        None => Ok(false),
    }
}

// The conditions of datum words.
ghost use Rattle.std.specs.Prelude.{◌≡◌, ◌++◌, ◌∷◌, [], ◌*◌, length, pos, None, Some, OnOk, OnErr, IfOk, option_map, slice_get};
ghost use Rattle.std.specs.List.{All};
ghost use Rattle.gd_datum.specs.Facts.{HasPoints};
ghost use Rattle.gd_datum.specs.Kinds.{hole, nominal_surface, on_all, on_each, on_group, pin, plane, row};
ghost use Rattle.gd_datum.specs.Listed.{listed_at, of_datum, of_word, of_words};
ghost use Rattle.gd_frames.specs.Counts.{words_conditions};
ghost use Rattle.gd_frames.specs.Facts.{IsFile};
ghost use Rattle.gd_frames.specs.Groups.{contact_groups};
ghost use Rattle.gd_points.specs.Table.{HasRows};
ghost use Rattle.gd_tables.specs.Kinds.{file_of};
ghost use Rattle.gd_zone.specs.Conditions.{IsCondition};
ghost use Rattle.gd_zone.specs.declared.condition.Demand.TheVariants.{Contact, HugInner, HugOuter, Within};

use crate::demand::{at_least, at_most};
use crate::each::append_each;
use crate::groups::groups_of;
use crate::surface::nominal_surface;
use gd_base::Memory;
use gd_frames::{DatumDef, DatumRef, FeatureDef, FrameFile, Shape};
use gd_points::PointIndex;
use gd_zone::{Condition, Demand};
use std::alloc::Global;

/// Appends the conditions of datum words, in their order: when a placement is a candidate datum reference frame
/// (docs/KINDS.md, "Datum words"). The file was read beside the table of the index. A word is one of the file; one that
/// names no datum stands for nothing. On `Memory` the list is as it was.
pub fn datum_conditions(
    alloc: Global,
    file: &FrameFile,
    index: &PointIndex<'_>,
    words: &[DatumRef],
    into: &mut Vec<Condition>,
) -> Result<(), Memory>
    requires file { IsFile index.now.table.now (file_of file.now) }
    ensures appended { OnOk result (into.new.items ≡ into.old.items
        ++ of_words file.now.features.items file.now.datums.items index.now.table.now.rows words.now) }
    ensures memory { OnErr result (into.new.items ≡ into.old.items) }
    ensures count { OnOk result
        (length (of_words file.now.features.items file.now.datums.items index.now.table.now.rows words.now)
        ≡ words_conditions file.now.features.items file.now.datums.items index.now.table.now.rows words.now) }
    ensures conditions { OnOk result
        (All IsCondition (of_words file.now.features.items file.now.datums.items index.now.table.now.rows words.now)) }
    ensures points { OnOk result (HasRows index.now.table.now.rows (length index.now.table.now.names)
        → All (HasPoints index.now.table.now.rows)
        (of_words file.now.features.items file.now.datums.items index.now.table.now.rows words.now)) }
{
    let conditions = of_words(alloc, file, index, words)?;
    into.extend_from_slice(conditions.as_slice())?;
    Ok(())
}

// The conditions of words in a list of their own.
fn of_words(
    alloc: Global,
    file: &FrameFile,
    index: &PointIndex<'_>,
    words: &[DatumRef],
) -> Result<Vec<Condition>, Memory>
    ensures { IfOk result (λ v. v.items
        ≡ of_words file.now.features.items file.now.datums.items index.now.table.now.rows words.now) }
{
    let mut conditions = Vec::new(alloc);
    for at in 0..words.len() {
        append_word(alloc, file, index, &words[at], &mut conditions)?;
    }
    Ok(conditions)
}

fn append_word(
    alloc: Global,
    file: &FrameFile,
    index: &PointIndex<'_>,
    word: &DatumRef,
    into: &mut Vec<Condition>,
) -> Result<(), Memory>
    ensures { OnOk result (into.new.items ≡ into.old.items
        ++ of_word file.now.features.items file.now.datums.items index.now.table.now.rows word.now) }
{
    match file.datums.get(word.datum as usize) {
        Some(datum) => append_datum(alloc, file, index, datum, word.at_mmb, into),
        None => Ok(()),
    }
}

fn append_datum(
    alloc: Global,
    file: &FrameFile,
    index: &PointIndex<'_>,
    datum: &DatumDef,
    at_mmb: bool,
    into: &mut Vec<Condition>,
) -> Result<(), Memory>
    ensures { OnOk result (into.new.items ≡ into.old.items
        ++ of_datum file.now.features.items index.now.table.now.rows at_mmb datum.now) }
{
    match file.features.get(datum.feature as usize) {
        Some(def) => {
            let contacts = groups_of(alloc, index, 1, def.feature)?;
            append_row(def, datum, at_mmb, contacts.as_slice(), into)
        }
        None => Ok(()),
    }
}

// The row of the table for a shape, with `(M)` or without.
fn append_row(
    def: &FeatureDef,
    datum: &DatumDef,
    at_mmb: bool,
    contacts: &[u32],
    into: &mut Vec<Condition>,
) -> Result<(), Memory>
    ensures { OnOk result (into.new.items ≡ into.old.items ++ row def.now.shape at_mmb contacts.now def.now datum.now) }
{
    let slack = slack_of(datum);
    let boundary = boundary_of(datum);
    match (def.shape, at_mmb) {
        (Shape::Plane, _) => append_plane(def, slack, contacts, into),
        (Shape::Hole, false) => append_contacts(def, Demand::HugInner { slack }, contacts, into),
        (Shape::Hole, true) => append_all(def, at_least(boundary), into),
        (Shape::Pin, false) => append_contacts(def, Demand::HugOuter { slack }, contacts, into),
        (Shape::Pin, true) => append_all(def, at_most(boundary), into),
        (Shape::Axis | Shape::Sphere, _) => Ok(()),
    }
}

// A datum plane: the points lie above it, and each contact group touches it. `hi` is the slack in half units.
fn append_plane(
    def: &FeatureDef,
    hi: i64,
    contacts: &[u32],
    into: &mut Vec<Condition>,
) -> Result<(), Memory>
    ensures { OnOk result (into.new.items ≡ into.old.items
        ++ on_all def.now (Within (Some (pos 0)) None) ∷ on_each def.now (Contact hi) contacts.now) }
{
    append_all(def, at_least(Some(0)), into)?;
    append_contacts(def, Demand::Contact { hi }, contacts, into)
}

// A demand on all points of a feature.
fn append_all(def: &FeatureDef, demand: Demand, into: &mut Vec<Condition>) -> Result<(), Memory>
    ensures { OnOk result (into.new.items ≡ into.old.items ++ on_all def.now demand ∷ []) }
{
    into.push(Condition {
        surface: nominal_surface(def),
        demand,
        feature: def.feature,
        group: None,
        offset: 0,
    })?;
    Ok(())
}

// A demand on each contact group by itself.
fn append_contacts(
    def: &FeatureDef,
    demand: Demand,
    contacts: &[u32],
    into: &mut Vec<Condition>,
) -> Result<(), Memory>
    ensures { OnOk result (into.new.items ≡ into.old.items ++ on_each def.now demand contacts.now) }
{
    append_each(nominal_surface(def), demand, def.feature, contacts, into)
}

// A datum's slack in half units.
fn slack_of(datum: &DatumDef) -> i64
    ensures { result ≡ pos (2 * datum.now.slack) }
{
    2 * i64::from(datum.slack)
}

// The radius of a boundary in half units: its diameter in units.
fn boundary_of(datum: &DatumDef) -> Option<i64>
    ensures { result ≡ option_map pos datum.now.boundary }
{
    match datum.boundary {
        Some(diameter) => Some(i64::from(diameter)),
        None => None,
    }
}

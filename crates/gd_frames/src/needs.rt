// What a frame needs of its features and its datums.
ghost use Rattle.std.specs.Prelude.{◌≡◌, ◌&&◌, length, nat_le, slice_get};
ghost use Rattle.std.specs.List.{list_all};
ghost use Rattle.gd_frames.specs.Combinations.{feature_of, passes};
ghost use Rattle.gd_frames.specs.Groups.{contact_groups};
ghost use Rattle.gd_frames.specs.Needs.{has_boundary, has_diameter, has_numbers, has_radius, have_contacts, is_round, judged, least_contacts};
ghost use Rattle.gd_base.specs.Causes.{Gives};
ghost use Rattle.gd_keys.specs.Rules.{key_cause};
ghost use Rattle.gd_tables.specs.Kinds.{frame_of};

use crate::combination::{feature_of, is_allowed};
use crate::groups::GroupCounts;
use gd_keys::{KeyFault, Rule};
use gd_tables::{DatumDef, DatumRef, FeatureDef, FrameDef, Kind, Material, Shape};

/// Nothing where a frame may state what it states, has the numbers that it needs and touches its datums.
/// Else the rule that is broken: `Combination`, `Needed` or `Contacts`.
pub(crate) fn judge(
    features: &[FeatureDef],
    datums: &[DatumDef],
    counts: &GroupCounts<'_>,
    frame: &FrameDef,
) -> Result<(), KeyFault>
    ensures { Gives key_cause (λ _. frame_of frame.now) result (judged features.now datums.now counts.now.points.now.rows (frame_of frame.now)) }
{
    if !is_allowed(features, datums, frame) {
        return Err(KeyFault::Rule(Rule::Combination));
    }
    if !has_numbers(features, datums, frame) {
        return Err(KeyFault::Rule(Rule::Needed));
    }
    if !have_contacts(features, datums, counts, frame.datums.as_slice()) {
        return Err(KeyFault::Rule(Rule::Contacts));
    }
    Ok(())
}

fn has_numbers(features: &[FeatureDef], datums: &[DatumDef], frame: &FrameDef) -> bool
    ensures { result ≡ has_numbers features.now datums.now (frame_of frame.now) }
{
    have_boundaries(datums, frame.datums.as_slice()) && have_sizes(features, frame)
}

fn has_boundary(datums: &[DatumDef], word: &DatumRef) -> bool
    ensures { result ≡ has_boundary datums.now word.now }
{
    if !word.at_mmb {
        return true;
    }
    match datums.get(word.datum as usize) {
        Some(datum) => datum.boundary.is_some(),
        None => false,
    }
}

fn have_boundaries(datums: &[DatumDef], words: &[DatumRef]) -> bool
    ensures { result ≡ list_all (has_boundary datums.now) words.now }
{
    for word in words {
        if !has_boundary(datums, word) {
            return false;
        }
    }
    true
}

fn has_diameter(material: Material, def: &FeatureDef) -> bool
    ensures { result ≡ has_diameter material def.now }
{
    match material {
        Material::Rfs => true,
        Material::Mmc => def.mmc.is_some(),
        Material::Lmc => def.lmc.is_some(),
    }
}

fn is_round(shape: Shape) -> bool
    ensures { result ≡ is_round shape }
{
    matches!(shape, Shape::Hole | Shape::Pin | Shape::Sphere)
}

fn has_radius(kind: Kind, def: &FeatureDef) -> bool
    ensures { result ≡ has_radius kind def.now }
{
    match kind {
        Kind::Profile => !is_round(def.shape) || def.radius.is_some(),
        _ => true,
    }
}

fn has_sizes(features: &[FeatureDef], kind: Kind, material: Material, place: u32) -> bool
    ensures { result ≡ passes (λ def. has_diameter material def && has_radius kind def) (slice_get features.now place) }
{
    match features.get(place as usize) {
        Some(def) => has_diameter(material, def) && has_radius(kind, def),
        None => false,
    }
}

fn have_sizes(features: &[FeatureDef], frame: &FrameDef) -> bool
    ensures { result ≡ list_all (λ place. passes (λ def. has_diameter frame.now.material def && has_radius frame.now.kind def) (slice_get features.now place)) frame.now.features.items }
{
    for place in &frame.features {
        if !has_sizes(features, frame.kind, frame.material, *place) {
            return false;
        }
    }
    true
}

/// How many contact groups a datum needs as the word of this place, from 0 to 2.
fn least_contacts(place: usize, shape: Shape, at_mmb: bool) -> usize
    ensures { result ≡ least_contacts place shape at_mmb }
{
    match shape {
        Shape::Plane => 3usize.saturating_sub(place),
        Shape::Hole | Shape::Pin => { if at_mmb { 0 } else { 3 } }
        Shape::Axis | Shape::Sphere => 0,
    }
}

fn has_contacts(
    features: &[FeatureDef],
    datums: &[DatumDef],
    counts: &GroupCounts<'_>,
    place: usize,
    word: &DatumRef,
) -> bool
    ensures { result ≡ passes (λ def. nat_le (least_contacts place def.shape word.now.at_mmb) (length (contact_groups counts.now.points.now.rows def.feature))) (feature_of features.now datums.now word.now) }
{
    match feature_of(features, datums, word) {
        Some(def) => {
            least_contacts(place, def.shape, word.at_mmb)
                <= counts.contacts_of(def.feature) as usize
        }
        None => false,
    }
}

fn have_contacts(
    features: &[FeatureDef],
    datums: &[DatumDef],
    counts: &GroupCounts<'_>,
    words: &[DatumRef],
) -> bool
    ensures { result ≡ have_contacts features.now datums.now counts.now.points.now.rows 0 words.now }
{
    for (place, word) in words.iter().enumerate() {
        if !has_contacts(features, datums, counts, place, word) {
            return false;
        }
    }
    true
}

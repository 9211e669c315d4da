// What a frame may state together.
ghost use Rattle.std.specs.Prelude.{◌≡◌, not, option_map, slice_get};
ghost use Rattle.std.specs.List.{list_all};
ghost use Rattle.gd_frames.specs.Combinations.{begin, feature_of, fits_count, fits_features, fits_lower, fits_words, has_axis, is_allowed, may_be_axis, may_be_datum, may_have_above, may_have_lower, passes, same_word, takes};
ghost use Rattle.gd_tables.specs.Kinds.{frame_of};

use gd_tables::{DatumDef, DatumRef, FeatureDef, FrameDef, Kind, Material, Shape};

/// Whether a frame states nothing that may not be stated together.
pub(crate) fn is_allowed(features: &[FeatureDef], datums: &[DatumDef], frame: &FrameDef) -> bool
    ensures { result ≡ is_allowed features.now datums.now (frame_of frame.now) }
{
    fits_features(features, frame)
        && fits_words(features, datums, frame.datums.as_slice())
        && fits_count(features, datums, frame.kind, frame.datums.as_slice())
        && (may_have_above(frame.kind) || frame.above.is_none())
        && fits_lower(frame)
}

/// Whether a kind and a material condition go with features of a shape.
fn takes(kind: Kind, material: Material, shape: Shape) -> bool
    ensures { result ≡ takes kind material shape }
{
    match (kind, material) {
        (Kind::Flatness, Material::Rfs) => matches!(shape, Shape::Plane),
        (Kind::Straightness, Material::Rfs) => matches!(shape, Shape::Axis),
        (Kind::Circularity | Kind::Cylindricity, Material::Rfs) => is_cylinder(shape),
        (Kind::Orientation, Material::Rfs) => matches!(shape, Shape::Plane | Shape::Axis),
        (Kind::Position, Material::Rfs) => matches!(shape, Shape::Axis),
        (Kind::Orientation | Kind::Position, Material::Mmc | Material::Lmc) => is_cylinder(shape),
        (Kind::Profile, Material::Rfs) => !matches!(shape, Shape::Axis),
        (Kind::CircularRunout | Kind::TotalRunout, Material::Rfs) => {
            matches!(shape, Shape::Plane | Shape::Hole | Shape::Pin)
        }
        _ => false,
    }
}

fn is_cylinder(shape: Shape) -> bool
    ensures { result ≡ may_be_axis shape }
{
    matches!(shape, Shape::Hole | Shape::Pin)
}

/// Whether a datum word may name a feature of this shape, with `(M)` or without.
fn may_be_datum(shape: Shape, at_mmb: bool) -> bool
    ensures { result ≡ may_be_datum shape at_mmb }
{
    match shape {
        Shape::Plane => !at_mmb,
        Shape::Hole | Shape::Pin => true,
        Shape::Axis | Shape::Sphere => false,
    }
}

fn may_have_above(kind: Kind) -> bool
    ensures { result ≡ may_have_above kind }
{
    matches!(kind, Kind::Profile)
}

fn may_have_lower(kind: Kind) -> bool
    ensures { result ≡ may_have_lower kind }
{
    matches!(kind, Kind::Position)
}

/// The feature of the datum that a word names.
pub(crate) fn feature_of<'a>(
    features: &'a [FeatureDef],
    datums: &[DatumDef],
    word: &DatumRef,
) -> Option<&'a FeatureDef>
    ensures { option_map (λ f. f.now) result ≡ feature_of features.now datums.now word.now }
{
    match datums.get(word.datum as usize) {
        Some(datum) => features.get(datum.feature as usize),
        None => None,
    }
}

fn fits_feature(features: &[FeatureDef], kind: Kind, material: Material, place: u32) -> bool
    ensures { result ≡ passes (λ def. takes kind material def.shape) (slice_get features.now place) }
{
    match features.get(place as usize) {
        Some(def) => takes(kind, material, def.shape),
        None => false,
    }
}

fn fits_features(features: &[FeatureDef], frame: &FrameDef) -> bool
    ensures { result ≡ fits_features features.now (frame_of frame.now) }
{
    for place in &frame.features {
        if !fits_feature(features, frame.kind, frame.material, *place) {
            return false;
        }
    }
    true
}

fn fits_word(features: &[FeatureDef], datums: &[DatumDef], word: &DatumRef) -> bool
    ensures { result ≡ passes (λ def. may_be_datum def.shape word.now.at_mmb) (feature_of features.now datums.now word.now) }
{
    match feature_of(features, datums, word) {
        Some(def) => may_be_datum(def.shape, word.at_mmb),
        None => false,
    }
}

fn fits_words(features: &[FeatureDef], datums: &[DatumDef], words: &[DatumRef]) -> bool
    ensures { result ≡ fits_words features.now datums.now words.now }
{
    for word in words {
        if !fits_word(features, datums, word) {
            return false;
        }
    }
    true
}

fn fits_count(features: &[FeatureDef], datums: &[DatumDef], kind: Kind, words: &[DatumRef]) -> bool
    ensures { result ≡ fits_count features.now datums.now kind words.now }
{
    match kind {
        Kind::Flatness | Kind::Straightness | Kind::Circularity | Kind::Cylindricity => {
            words.is_empty()
        }
        Kind::Orientation => !words.is_empty(),
        Kind::Position | Kind::Profile => true,
        Kind::CircularRunout | Kind::TotalRunout => has_axis(features, datums, words),
    }
}

/// Whether there are words without `(M)`, the first of which names a hole or a pin.
fn has_axis(features: &[FeatureDef], datums: &[DatumDef], words: &[DatumRef]) -> bool
    ensures { result ≡ has_axis features.now datums.now words.now }
{
    match words {
        [] => false,
        [first, ..] => is_axis(features, datums, first) && are_rfs(words),
    }
}

fn is_axis(features: &[FeatureDef], datums: &[DatumDef], word: &DatumRef) -> bool
    ensures { result ≡ passes (λ def. may_be_axis def.shape) (feature_of features.now datums.now word.now) }
{
    match feature_of(features, datums, word) {
        Some(def) => is_cylinder(def.shape),
        None => false,
    }
}

fn are_rfs(words: &[DatumRef]) -> bool
    ensures { result ≡ list_all (λ w. not w.at_mmb) words.now }
{
    words.iter().all(|word| !word.at_mmb)
}

fn same_word(v: &DatumRef, w: &DatumRef) -> bool
    ensures { result ≡ same_word v.now w.now }
{
    v.datum == w.datum && v.at_mmb == w.at_mmb
}

/// Whether some words are the first ones of others.
pub(crate) fn begin(first: &[DatumRef], words: &[DatumRef]) -> bool
    ensures { result ≡ begin first.now words.now }
{
    match first {
        [] => true,
        [v, more @ ..] => match words {
            [] => false,
            [w, rest @ ..] => same_word(v, w) && begin(more, rest),
        },
    }
}

fn fits_lower(frame: &FrameDef) -> bool
    ensures { result ≡ fits_lower (frame_of frame.now) }
{
    (may_have_lower(frame.kind) || (frame.lower.is_none() && frame.lower_datums.is_empty()))
        && (frame.lower.is_some() || frame.lower_datums.is_empty())
        && begin(frame.lower_datums.as_slice(), frame.datums.as_slice())
}

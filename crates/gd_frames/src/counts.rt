// How many conditions and local offsets the group of a frame has, as far as they matter: a number past the limit is
// kept as one past it.
ghost use Rattle.std.specs.Prelude.{◌≡◌, ◌+◌, min, map, length, slice_get, if◌then◌else◌};
ghost use Rattle.std.specs.List.{sum_by};
ghost use Rattle.gd_frames.specs.Combinations.{feature_of};
ghost use Rattle.gd_frames.specs.Counts.{by_shape, count_at, datum_conditions, feature_conditions, feature_offsets};
ghost use Rattle.gd_frames.specs.Counts.{frame_conditions, frame_offsets, group_conditions, is_joined, is_located};
ghost use Rattle.gd_frames.specs.Counts.{joins, limits, lower_conditions, words_conditions};
ghost use Rattle.gd_base.specs.Causes.{Gives};
ghost use Rattle.gd_keys.specs.Rules.{key_cause};
ghost use Rattle.gd_tables.specs.Kinds.{frame_of};

use crate::combination::{begin, feature_of};
use crate::groups::GroupCounts;
use gd_base::limits::{CONDITIONS, OFFSETS};
use gd_keys::{KeyFault, Rule};
use gd_tables::{DatumDef, DatumRef, FeatureDef, FrameDef, Kind, Shape};

/// One condition more than a group may have.
const TOO_MANY: u32 = CONDITIONS + 1;

/// Nothing where the groups of a frame are within the limits, with the earlier frames of its group.
/// Else the rule that is broken: `Offsets` or `Conditions`.
pub(crate) fn limits(
    features: &[FeatureDef],
    datums: &[DatumDef],
    counts: &GroupCounts<'_>,
    earlier: &[FrameDef],
    frame: &FrameDef,
) -> Result<(), KeyFault>
    ensures { Gives key_cause (λ _. tt) result (limits features.now datums.now counts.now.points.now.rows
        (map frame_of earlier.now) (frame_of frame.now)) }
{
    if frame_offsets(features, frame) > OFFSETS {
        return Err(KeyFault::Rule(Rule::Offsets));
    }
    if group_conditions(features, datums, counts, earlier, frame) > CONDITIONS
        || lower_conditions(features, datums, counts, frame) > CONDITIONS
    {
        return Err(KeyFault::Rule(Rule::Conditions));
    }
    Ok(())
}

fn plus(a: u32, b: u32) -> u32
    ensures { result ≡ min 4097 (a + b) }
{
    a.saturating_add(b).min(TOO_MANY)
}

fn by_shape(shape: Shape, at_mmb: bool, contacts: u32) -> u32
    ensures { min 4097 result ≡ min 4097 (by_shape shape at_mmb contacts) }
{
    match shape {
        Shape::Plane => plus(1, contacts),
        Shape::Hole | Shape::Pin => { if at_mmb { 1 } else { contacts } }
        Shape::Axis | Shape::Sphere => 0,
    }
}

fn word_conditions(
    features: &[FeatureDef],
    datums: &[DatumDef],
    counts: &GroupCounts<'_>,
    word: &DatumRef,
) -> u32
    ensures { min 4097 result ≡ min 4097 (count_at (datum_conditions counts.now.points.now.rows word.now.at_mmb)
        (feature_of features.now datums.now word.now)) }
{
    match feature_of(features, datums, word) {
        Some(def) => by_shape(def.shape, word.at_mmb, counts.contacts_of(def.feature)),
        None => 0,
    }
}

fn words_conditions(
    features: &[FeatureDef],
    datums: &[DatumDef],
    counts: &GroupCounts<'_>,
    words: &[DatumRef],
) -> u32
    ensures { result ≡ min 4097 (words_conditions features.now datums.now counts.now.points.now.rows words.now) }
{
    let mut total = 0;
    for word in words {
        total = plus(total, word_conditions(features, datums, counts, word));
    }
    total
}

fn feature_conditions(counts: &GroupCounts<'_>, kind: Kind, def: &FeatureDef) -> u32
    ensures { result ≡ feature_conditions counts.now.points.now.rows kind def.now }
{
    match kind {
        Kind::CircularRunout => counts.sections_of(def.feature),
        _ => 1,
    }
}

fn conditions_at(features: &[FeatureDef], counts: &GroupCounts<'_>, kind: Kind, place: u32) -> u32
    ensures { result ≡ count_at (feature_conditions counts.now.points.now.rows kind) (slice_get features.now place) }
{
    match features.get(place as usize) {
        Some(def) => feature_conditions(counts, kind, def),
        None => 0,
    }
}

fn frame_conditions(features: &[FeatureDef], counts: &GroupCounts<'_>, frame: &FrameDef) -> u32
    ensures { result ≡ min 4097 (frame_conditions features.now counts.now.points.now.rows (frame_of frame.now)) }
{
    let mut total = 0;
    for place in &frame.features {
        total = plus(total, conditions_at(features, counts, frame.kind, *place));
    }
    total
}

fn feature_offsets(kind: Kind, shape: Shape) -> u32
    ensures { result ≡ feature_offsets kind shape }
{
    match (kind, shape) {
        (Kind::Orientation, Shape::Plane) => 0,
        (Kind::Orientation, _) => 1,
        _ => 0,
    }
}

fn offsets_at(features: &[FeatureDef], kind: Kind, place: u32) -> u32
    ensures { result ≡ count_at (λ def. feature_offsets kind def.shape) (slice_get features.now place) }
{
    match features.get(place as usize) {
        Some(def) => feature_offsets(kind, def.shape),
        None => 0,
    }
}

fn frame_offsets(features: &[FeatureDef], frame: &FrameDef) -> u32
    ensures { result ≡ min 4097 (frame_offsets features.now (frame_of frame.now)) }
{
    let mut total = 0;
    for place in &frame.features {
        total = plus(total, offsets_at(features, frame.kind, *place));
    }
    total
}

/// Whether a frame may be judged with others: a position or a profile that has datum words and isn't separate.
pub fn is_joined(frame: &FrameDef) -> bool
    ensures { result ≡ is_joined (frame_of frame.now) }
{
    matches!(frame.kind, Kind::Position | Kind::Profile)
        && !frame.datums.is_empty()
        && !frame.separate
}

/// Whether two frames are judged together: both may be, and they have the same datum words, with their `(M)`, in the
/// same order (docs/KINDS.md, "What is this project's own").
pub fn joins(f: &FrameDef, g: &FrameDef) -> bool
    ensures { result ≡ joins (frame_of f.now) (frame_of g.now) }
{
    is_joined(f)
        && is_joined(g)
        && f.datums.len() == g.datums.len()
        && begin(f.datums.as_slice(), g.datums.as_slice())
}

fn joined_conditions(
    features: &[FeatureDef],
    counts: &GroupCounts<'_>,
    earlier: &[FrameDef],
    frame: &FrameDef,
) -> u32
    ensures { result ≡ min 4097 (sum_by (λ g. if joins (frame_of frame.now) g then frame_conditions features.now
        counts.now.points.now.rows g else 0) (map frame_of earlier.now)) }
{
    let mut total = 0;
    for other in earlier {
        if joins(frame, other) {
            total = plus(total, frame_conditions(features, counts, other));
        }
    }
    total
}

fn group_conditions(
    features: &[FeatureDef],
    datums: &[DatumDef],
    counts: &GroupCounts<'_>,
    earlier: &[FrameDef],
    frame: &FrameDef,
) -> u32
    ensures { result ≡ min 4097 (group_conditions features.now datums.now counts.now.points.now.rows
        (map frame_of earlier.now) (frame_of frame.now)) }
{
    let words = words_conditions(features, datums, counts, frame.datums.as_slice());
    let others = joined_conditions(features, counts, earlier, frame);
    plus(
        words,
        plus(others, frame_conditions(features, counts, frame)),
    )
}

fn lower_conditions(
    features: &[FeatureDef],
    datums: &[DatumDef],
    counts: &GroupCounts<'_>,
    frame: &FrameDef,
) -> u32
    ensures { result ≡ min 4097 (lower_conditions features.now datums.now counts.now.points.now.rows
        (frame_of frame.now)) }
{
    if frame.lower.is_none() {
        return 0;
    }
    let words = words_conditions(features, datums, counts, frame.lower_datums.as_slice());
    plus(words, feature_count(frame))
}

fn feature_count(frame: &FrameDef) -> u32
    ensures { min 4097 result ≡ min 4097 (length frame.now.features.items) }
{
    frame.features.len().min(TOO_MANY as usize) as u32
}

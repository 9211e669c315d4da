// Whether evidence refutes a condition over a box of placements.
ghost use Rattle.std.specs.Prelude.{◌≡◌, ◌<◌, ◌≤◌, ◌^◌, ◌&&◌, ◌==◌, ◌-◌, Option, true, length, map, unsigned_abs};
ghost use Rattle.std.specs.List.{All, list_all};
ghost use Rattle.std.specs.Option.{IfSome};
ghost use Rattle.gd_base.specs.Limits.{COORDINATE};
ghost use Rattle.gd_bound.specs.Evidence.{named_row, names, passes_by_more, refuted_at, refutes_by, value_outside};
ghost use Rattle.gd_bound.specs.Laws.{IsUnmet};
ghost use Rattle.gd_quat.specs.Formulas.{ends};
ghost use Rattle.gd_vec.specs.Vector.{IsWithin};
ghost use Rattle.gd_zone.specs.Boxes.{IsPlaced, placed_ends};
ghost use Rattle.gd_zone.specs.Conditions.{IsBound, IsCondition, IsPair, IsSurface, belongs, is_of_feature};
ghost use Rattle.gd_zone.specs.Conditions.{is_of_group, length2_of};
ghost use Rattle.gd_zone.specs.Refutations.{is_more};
ghost use Rattle.gd_zone.specs.Seen.{points_in, rows_in, value_in};
ghost use Rattle.gd_zone.specs.Values.{IsSized};
ghost use Rattle.gd_zone.specs.declared.condition.Demand.TheVariants.{Contact, HugInner, HugOuter, Spread, Within};

use crate::outside::is_outside;
use gd_cells::Evidence;
use gd_interval::Iv;
use gd_points::Row;
use gd_vec::V3;
use gd_zone::{
    Condition, Demand, Placed, Subject, Surface, View, at_narrowest, extremes_of, is_at_most,
    length2,
};

/// Whether one value passes another by more than `t` half units at every placement of the box, by the lower end of the
/// one and the upper end of the other.
pub fn passes_by_more(surface: &Surface, a: Iv, b: Iv, t: i64) -> bool
    requires surface { IsSurface surface.now }
    requires a { IsSized surface.now a }
    requires b { IsSized surface.now b }
    requires t { IsBound t }
    ensures { result ≡ passes_by_more surface.now t (ends a) (ends b) }
{
    !is_at_most(at_narrowest(surface, a.lo, b.hi), t, length2(surface))
}

// The row of a point by its number, from 1.
fn named_row(view: &View<'_>, number: u32) -> Option<Row>
    ensures row { result ≡ named_row (rows_in view.now) number }
    ensures counts { IfSome result (λ _. 1 ≤ number) }
    ensures inside { IfSome result (λ _. number - 1 < length (rows_in view.now)) }
{
    if number == 0 {
        None
    } else {
        view.subject.index.table().row(number as usize - 1)
    }
}

// Whether a point is of a condition's group, where it has one.
fn is_of_group(condition: &Condition, row: &Row) -> bool
    ensures { result ≡ is_of_group condition.now.group row.now }
{
    match condition.group {
        None => true,
        Some(group) => row.group == group,
    }
}

// Whether a number from 1 names one of the condition's points.
fn names_point(view: &View<'_>, number: u32) -> bool
    ensures named { result ≡ names (belongs view.now.subject.now.condition) (rows_in view.now) number }
    ensures counts { result ≡ true → 1 ≤ number }
    ensures inside { result ≡ true → number - 1 < length (rows_in view.now) }
{
    match named_row(view, number) {
        None => false,
        Some(row) => row.feature == view.subject.condition.feature
            && is_of_group(&view.subject.condition, &row),
    }
}

// Whether a number from 1 names a point of the condition's feature.
fn names_feature(view: &View<'_>, number: u32) -> bool
    ensures named { result ≡ names (is_of_feature view.now.subject.now.condition) (rows_in view.now) number }
    ensures counts { result ≡ true → 1 ≤ number }
    ensures inside { result ≡ true → number - 1 < length (rows_in view.now) }
{
    match named_row(view, number) {
        None => false,
        Some(row) => row.feature == view.subject.condition.feature,
    }
}

// Whether a number names one of the condition's points, and the other names none.
fn is_one_point(view: &View<'_>, number: u32, other: u32) -> bool
    ensures named { result ≡ names (belongs view.now.subject.now.condition) (rows_in view.now) number && (other == 0) }
    ensures counts { result ≡ true → 1 ≤ number }
    ensures inside { result ≡ true → number - 1 < length (rows_in view.now) }
{
    names_point(view, number) && other == 0
}

// Whether a number names a point of the condition's feature, and the other names none.
fn is_one_of_feature(view: &View<'_>, number: u32, other: u32) -> bool
    ensures named { result ≡ names (is_of_feature view.now.subject.now.condition) (rows_in view.now) number
        && (other == 0) }
    ensures counts { result ≡ true → 1 ≤ number }
    ensures inside { result ≡ true → number - 1 < length (rows_in view.now) }
{
    names_feature(view, number) && other == 0
}

// Whether both numbers name points of the condition.
fn are_points(view: &View<'_>, a: u32, b: u32) -> bool
    ensures named { result ≡ names (belongs view.now.subject.now.condition) (rows_in view.now) a
        && names (belongs view.now.subject.now.condition) (rows_in view.now) b }
    ensures a_counts { result ≡ true → 1 ≤ a }
    ensures a_inside { result ≡ true → a - 1 < length (rows_in view.now) }
    ensures b_counts { result ≡ true → 1 ≤ b }
    ensures b_inside { result ≡ true → b - 1 < length (rows_in view.now) }
{
    names_point(view, a) && names_point(view, b)
}

// Whether both numbers name none.
fn are_none(a: u32, b: u32) -> bool
    ensures { result ≡ (a == 0) && (b == 0) }
{
    a == 0 && b == 0
}

// Whether a point lies outside two bounds.
fn outside_at(view: &View<'_>, lo: Option<i64>, hi: Option<i64>, a: u32) -> bool
    requires condition { IsCondition view.now.subject.now.condition }
    requires lo { IfSome lo IsBound }
    requires hi { IfSome hi IsBound }
    requires counts { 1 ≤ a }
    requires inside { a - 1 < length (rows_in view.now) }
    ensures { result ≡ value_outside view.now.subject.now.condition.surface lo hi (value_in view.now (a - 1)) }
{
    is_outside(&view.subject.condition.surface, lo, hi, view.value(a - 1))
}

// Whether one point passes another by more than `t`.
fn apart_at(view: &View<'_>, t: i64, a: u32, b: u32) -> bool
    requires condition { IsCondition view.now.subject.now.condition }
    requires t { IsBound t }
    requires a_counts { 1 ≤ a }
    requires a_inside { a - 1 < length (rows_in view.now) }
    requires b_counts { 1 ≤ b }
    requires b_inside { b - 1 < length (rows_in view.now) }
    ensures { result ≡ passes_by_more view.now.subject.now.condition.surface t (value_in view.now (a - 1))
        (value_in view.now (b - 1)) }
{
    passes_by_more(
        &view.subject.condition.surface,
        view.value(a - 1),
        view.value(b - 1),
        t,
    )
}

// Whether a value along a direction lies above a bound at every placement of the box.
#[inline]
fn lies_above(surface: &Surface, hi: i64, value: Iv) -> bool
    requires surface { IsSurface surface.now }
    requires hi { IsBound hi }
    requires pair { IsPair surface.now (Contact hi) }
    requires value { IsSized surface.now value }
    ensures { result ≡ is_more value.lo hi (length2_of surface.now) }
{
    !is_at_most(value.lo, hi, length2(surface))
}

/// Whether all points of the condition lie above a bound. The first that doesn't ends the loop.
pub fn all_above(view: &View<'_>, hi: i64) -> bool
    requires condition { IsCondition view.now.subject.now.condition }
    requires hi { IsBound hi }
    requires pair { IsPair view.now.subject.now.condition.surface (Contact hi) }
    ensures { result ≡ list_all (λ v. is_more v.lo hi (length2_of view.now.subject.now.condition.surface))
        (map (value_in view.now) (points_in view.now)) }
{
    let group = view.subject.points();
    for at in 0..group.len() {
        let value = view.value(group[at]);
        if !lies_above(&view.subject.condition.surface, hi, value) {
            return false;
        }
    }
    true
}

/// Whether all points of the condition pass a value by more than `slack`.
pub fn group_exceeds(view: &View<'_>, slack: i64, value: Iv) -> bool
    requires condition { IsCondition view.now.subject.now.condition }
    requires slack { IsBound slack }
    requires value { IsSized view.now.subject.now.condition.surface value }
    ensures { result ≡ list_all (λ v. passes_by_more view.now.subject.now.condition.surface slack v (ends value))
        (map (value_in view.now) (points_in view.now)) }
{
    match extremes_of(view, view.subject.points()) {
        None => true,
        Some(x) => passes_by_more(&view.subject.condition.surface, x.least, value, slack),
    }
}

/// Whether a value passes all points of the condition by more than `slack`.
pub fn exceeds_group(view: &View<'_>, slack: i64, value: Iv) -> bool
    requires condition { IsCondition view.now.subject.now.condition }
    requires slack { IsBound slack }
    requires value { IsSized view.now.subject.now.condition.surface value }
    ensures { result ≡ list_all (λ v. passes_by_more view.now.subject.now.condition.surface slack (ends value) v)
        (map (value_in view.now) (points_in view.now)) }
{
    match extremes_of(view, view.subject.points()) {
        None => true,
        Some(x) => passes_by_more(&view.subject.condition.surface, value, x.greatest, slack),
    }
}

// Whether all points of the condition pass a point by more than `slack`.
fn all_pass(view: &View<'_>, slack: i64, b: u32) -> bool
    requires condition { IsCondition view.now.subject.now.condition }
    requires slack { IsBound slack }
    requires counts { 1 ≤ b }
    requires inside { b - 1 < length (rows_in view.now) }
    ensures { result ≡ list_all (λ v. passes_by_more view.now.subject.now.condition.surface slack v
        (value_in view.now (b - 1)))
        (map (value_in view.now) (points_in view.now)) }
{
    group_exceeds(view, slack, view.value(b - 1))
}

// Whether a point passes all points of the condition by more than `slack`.
fn passes_all(view: &View<'_>, slack: i64, a: u32) -> bool
    requires condition { IsCondition view.now.subject.now.condition }
    requires slack { IsBound slack }
    requires counts { 1 ≤ a }
    requires inside { a - 1 < length (rows_in view.now) }
    ensures { result ≡ list_all (λ v. passes_by_more view.now.subject.now.condition.surface slack
        (value_in view.now (a - 1)) v)
        (map (value_in view.now) (points_in view.now)) }
{
    exceeds_group(view, slack, view.value(a - 1))
}

// Whether a pair of points refutes a condition of a demand.
#[tactic(auto, unfolding(crate::specs::Evidence::refutes_by))]
fn pair_refutes(view: &View<'_>, a: u32, b: u32) -> bool
    requires condition { IsCondition view.now.subject.now.condition }
    ensures { result ≡ refutes_by view.now.subject.now.condition (rows_in view.now)
        view.now.subject.now.condition.demand (value_in view.now)
        (map (value_in view.now) (points_in view.now)) a b }
{
    match view.subject.condition.demand {
        Demand::Within { lo, hi } => is_one_point(view, a, b) && outside_at(view, lo, hi, a),
        Demand::Spread { t } => are_points(view, a, b) && apart_at(view, t, a, b),
        Demand::Contact { hi } => are_none(a, b) && all_above(view, hi),
        Demand::HugInner { slack } => is_one_of_feature(view, b, a) && all_pass(view, slack, b),
        Demand::HugOuter { slack } => is_one_of_feature(view, a, b) && passes_all(view, slack, a),
    }
}

/// Whether evidence refutes a condition over a box of placements. Then no placement of the box meets it. The number of
/// the condition that the evidence names isn't read: whoever has a list of conditions compares it. `base` is the part's
/// first point, in units.
pub fn bound_at(subject: &Subject<'_>, base: &V3, placed: &Placed, evidence: &Evidence) -> bool
    requires condition { IsCondition subject.now.condition }
    requires base { IsWithin COORDINATE base.now }
    requires placed { IsPlaced placed.now }
    ensures test { result ≡ refuted_at (placed_ends placed.now) base.now subject.now.index.now.table.now.rows
        subject.now.condition evidence.now }
    ensures unmet { result ≡ true
        → IsUnmet placed.now base.now subject.now.index.now.table.now.rows subject.now.condition }
{
    let view = View::of(subject, base, placed);
    pair_refutes(&view, evidence.a, evidence.b)
}

// When a condition holds over a box of placements, by its written test.
ghost use Rattle.std.specs.Prelude.{◌≡◌, ◌<◌, ◌≤◌, ◌^◌, ◌≤ℤ◌, ◌&&◌, ◌||◌, int_le, pos, true, map, unsigned_abs};
ghost use Rattle.std.specs.List.{All, list_all};
ghost use Rattle.std.specs.Option.{IfSome};
ghost use Rattle.gd_base.specs.Limits.{COORDINATE};
ghost use Rattle.gd_quat.specs.Formulas.{ends};
ghost use Rattle.gd_quat.specs.Placements.{IsOnGrid, IsPlacement, Placement, placement_of};
ghost use Rattle.gd_vec.specs.Vector.{IsWithin};
ghost use Rattle.gd_zone.specs.Boxes.{HoldsPlacement, IsPlaced, grid_placed, placed_ends};
ghost use Rattle.gd_zone.specs.Conditions.{IsBound, IsCondition, IsPair, IsSurface, Meets, length2_of};
ghost use Rattle.gd_zone.specs.Extremes.{at_widest, value_within};
ghost use Rattle.gd_zone.specs.Seen.{SubjectMet, feature_in, points_in, subject_holds, value_in};
ghost use Rattle.gd_zone.specs.Tests.{condition_holds, distance_within, is_at_least, is_at_most, passes, plane_within};
ghost use Rattle.gd_zone.specs.Tests.{square_bound, surface_holds};
ghost use Rattle.gd_zone.specs.Values.{IsSized, IsSizedEnd};
ghost use Rattle.gd_zone.specs.declared.condition.Demand.TheVariants.{Contact, HugInner, HugOuter, Spread, Within};

use crate::compare::{at_widest, is_at_least, is_at_most, length2, square_bound};
use crate::condition::{Demand, Surface};
use crate::extent::extremes_of;
use crate::placed::{Placed, placed_at};
use crate::subject::Subject;
use crate::view::View;
use gd_interval::Iv;
use gd_quat::Assignment;
use gd_vec::V3;

// Whether a value isn't above a bound, where there is one.
#[inline(always)]
fn is_below(s: i128, hi: Option<i64>, n2: i128) -> bool
    requires s { unsigned_abs s ≤ 2 ^ 60 }
    requires hi { IfSome hi IsBound }
    requires not_negative { pos 0 ≤ℤ n2 }
    requires n2 { unsigned_abs n2 ≤ 2 ^ 22 }
    ensures { result ≡ passes (λ h. is_at_most s h n2) hi }
{
    match hi {
        None => true,
        Some(h) => is_at_most(s, h, n2),
    }
}

// Whether a value isn't below a bound, where there is one.
#[inline(always)]
fn is_above(s: i128, lo: Option<i64>, n2: i128) -> bool
    requires s { unsigned_abs s ≤ 2 ^ 60 }
    requires lo { IfSome lo IsBound }
    requires not_negative { pos 0 ≤ℤ n2 }
    requires n2 { unsigned_abs n2 ≤ 2 ^ 22 }
    ensures { result ≡ passes (λ l. is_at_least s l n2) lo }
{
    match lo {
        None => true,
        Some(l) => is_at_least(s, l, n2),
    }
}

// Whether a distance isn't above a bound, where there is one: the squares are compared.
#[inline(always)]
fn is_near(c: i128, hi: Option<i64>, n2: i128) -> bool
    requires hi { IfSome hi IsBound }
    requires n2 { unsigned_abs n2 ≤ 2 ^ 22 }
    ensures { result ≡ passes (λ h. int_le (pos 0) h && int_le c (square_bound h n2)) hi }
{
    match hi {
        None => true,
        Some(h) => 0 <= h && c <= square_bound(h, n2),
    }
}

// Whether a distance isn't below a bound, where there is one: the squares are compared.
#[inline(always)]
fn is_far(c: i128, lo: Option<i64>, n2: i128) -> bool
    requires lo { IfSome lo IsBound }
    requires n2 { unsigned_abs n2 ≤ 2 ^ 22 }
    ensures { result ≡ passes (λ l. int_le l (pos 0) || int_le (square_bound l n2) c) lo }
{
    match lo {
        None => true,
        Some(l) => l <= 0 || square_bound(l, n2) <= c,
    }
}

// Whether a value along a direction lies within two bounds.
#[inline(always)]
fn is_plane_within(lo: Option<i64>, hi: Option<i64>, n2: i128, value: Iv) -> bool
    requires lo { IfSome lo IsBound }
    requires hi { IfSome hi IsBound }
    requires not_negative { pos 0 ≤ℤ n2 }
    requires n2 { unsigned_abs n2 ≤ 2 ^ 22 }
    requires low_end { unsigned_abs value.lo ≤ 2 ^ 60 }
    requires high_end { unsigned_abs value.hi ≤ 2 ^ 60 }
    ensures { result ≡ plane_within lo hi n2 (ends value) }
{
    is_below(value.hi, hi, n2) && is_above(value.lo, lo, n2)
}

// Whether a distance lies within two bounds.
#[inline(always)]
fn is_distance_within(lo: Option<i64>, hi: Option<i64>, n2: i128, value: Iv) -> bool
    requires lo { IfSome lo IsBound }
    requires hi { IfSome hi IsBound }
    requires n2 { unsigned_abs n2 ≤ 2 ^ 22 }
    ensures { result ≡ distance_within lo hi n2 (ends value) }
{
    is_near(value.hi, hi, n2) && is_far(value.lo, lo, n2)
}

// Whether a value lies within two bounds at every placement of the box.
#[inline(always)]
fn is_within(surface: &Surface, lo: Option<i64>, hi: Option<i64>, value: Iv) -> bool
    requires surface { IsSurface surface.now }
    requires lo { IfSome lo IsBound }
    requires hi { IfSome hi IsBound }
    requires value { IsSized surface.now value }
    ensures { result ≡ value_within surface.now lo hi (ends value) }
{
    let n2 = length2(surface);
    match surface {
        Surface::Plane { .. } => is_plane_within(lo, hi, n2, value),
        Surface::Axis { .. } => is_distance_within(lo, hi, n2, value),
        Surface::Ball { .. } => is_distance_within(lo, hi, n2, value),
    }
}

// Whether one value passes another by `t` half units at most, by the upper end of the one and the lower of the other.
fn passes_at_most(surface: &Surface, hi: i128, lo: i128, t: i64) -> bool
    requires surface { IsSurface surface.now }
    requires hi { IsSizedEnd surface.now hi }
    requires lo { IsSizedEnd surface.now lo }
    requires t { IsBound t }
    ensures { result ≡ is_at_most (at_widest surface.now hi lo) t (length2_of surface.now) }
{
    is_at_most(at_widest(surface, hi, lo), t, length2(surface))
}

// Whether all points lie within two bounds. The first that doesn't ends the loop.
fn all_within(view: &View<'_>, lo: Option<i64>, hi: Option<i64>) -> bool
    requires condition { IsCondition view.now.subject.now.condition }
    requires lo { IfSome lo IsBound }
    requires hi { IfSome hi IsBound }
    ensures { result ≡ surface_holds view.now.subject.now.condition.surface (Within lo hi)
        (map (value_in view.now) (points_in view.now))
        (map (value_in view.now) (feature_in view.now)) }
{
    let numbers = view.subject.points();
    for at in 0..numbers.len() {
        let value = view.value(numbers[at]);
        if !is_within(&view.subject.condition.surface, lo, hi, value) {
            return false;
        }
    }
    true
}

// Whether the greatest value passes the least by `t` at most.
fn spread_holds(view: &View<'_>, t: i64) -> bool
    requires condition { IsCondition view.now.subject.now.condition }
    requires t { IsBound t }
    ensures { result ≡ surface_holds view.now.subject.now.condition.surface (Spread t)
        (map (value_in view.now) (points_in view.now))
        (map (value_in view.now) (feature_in view.now)) }
{
    match extremes_of(view, view.subject.points()) {
        None => true,
        Some(x) => passes_at_most(
            &view.subject.condition.surface,
            x.greatest.hi,
            x.least.lo,
            t,
        ),
    }
}

// Whether a value along a direction isn't above a bound at any placement of the box.
#[inline]
fn touches(surface: &Surface, hi: i64, value: Iv) -> bool
    requires surface { IsSurface surface.now }
    requires hi { IsBound hi }
    requires pair { IsPair surface.now (Contact hi) }
    requires value { IsSized surface.now value }
    ensures { result ≡ is_at_most value.hi hi (length2_of surface.now) }
{
    is_at_most(value.hi, hi, length2(surface))
}

// Whether some value of the group isn't above a bound. The first that isn't ends the loop.
fn contact_holds(view: &View<'_>, hi: i64) -> bool
    requires condition { IsCondition view.now.subject.now.condition }
    requires hi { IsBound hi }
    requires pair { IsPair view.now.subject.now.condition.surface (Contact hi) }
    ensures { result ≡ surface_holds view.now.subject.now.condition.surface (Contact hi)
        (map (value_in view.now) (points_in view.now))
        (map (value_in view.now) (feature_in view.now)) }
{
    let group = view.subject.points();
    for at in 0..group.len() {
        let value = view.value(group[at]);
        if touches(&view.subject.condition.surface, hi, value) {
            return true;
        }
    }
    false
}

// Whether the least distance of the group passes that of the feature by `slack` at most.
fn inner_holds(view: &View<'_>, slack: i64) -> bool
    requires condition { IsCondition view.now.subject.now.condition }
    requires slack { IsBound slack }
    requires pair { IsPair view.now.subject.now.condition.surface (HugInner slack) }
    ensures { result ≡ surface_holds view.now.subject.now.condition.surface (HugInner slack)
        (map (value_in view.now) (points_in view.now))
        (map (value_in view.now) (feature_in view.now)) }
{
    let surface = &view.subject.condition.surface;
    match (
        extremes_of(view, view.subject.points()),
        extremes_of(view, view.subject.feature()),
    ) {
        (None, _) => false,
        (Some(_), None) => true,
        (Some(group), Some(all)) => passes_at_most(surface, group.least.hi, all.least.lo, slack),
    }
}

// Whether the greatest distance of the feature passes that of the group by `slack` at most.
fn outer_holds(view: &View<'_>, slack: i64) -> bool
    requires condition { IsCondition view.now.subject.now.condition }
    requires slack { IsBound slack }
    requires pair { IsPair view.now.subject.now.condition.surface (HugOuter slack) }
    ensures { result ≡ surface_holds view.now.subject.now.condition.surface (HugOuter slack)
        (map (value_in view.now) (points_in view.now))
        (map (value_in view.now) (feature_in view.now)) }
{
    let surface = &view.subject.condition.surface;
    match (
        extremes_of(view, view.subject.points()),
        extremes_of(view, view.subject.feature()),
    ) {
        (None, _) => false,
        (Some(_), None) => true,
        (Some(group), Some(all)) => passes_at_most(
            surface,
            all.greatest.hi,
            group.greatest.lo,
            slack,
        ),
    }
}

// The test of a condition's own demand.
fn demand_holds(view: &View<'_>) -> bool
    requires condition { IsCondition view.now.subject.now.condition }
    ensures { result ≡ surface_holds view.now.subject.now.condition.surface view.now.subject.now.condition.demand
        (map (value_in view.now) (points_in view.now))
        (map (value_in view.now) (feature_in view.now)) }
{
    match view.subject.condition.demand {
        Demand::Within { lo, hi } => all_within(view, lo, hi),
        Demand::Spread { t } => spread_holds(view, t),
        Demand::Contact { hi } => contact_holds(view, hi),
        Demand::HugInner { slack } => inner_holds(view, slack),
        Demand::HugOuter { slack } => outer_holds(view, slack),
    }
}

/// Whether a condition holds over a box of placements by its written test. Then it is met at every placement that the
/// box holds. `base` is the part's first point, in units.
pub fn condition_holds(subject: &Subject<'_>, base: &V3, placed: &Placed) -> bool
    requires condition { IsCondition subject.now.condition }
    requires base { IsWithin COORDINATE base.now }
    requires placed { IsPlaced placed.now }
    ensures test { result ≡ condition_holds (placed_ends placed.now) base.now
        subject.now.index.now.table.now.rows subject.now.condition }
    ensures met { result ≡ true → (p : Placement) → IsPlacement p → HoldsPlacement placed.now p
        → Meets p base.now subject.now.index.now.table.now.rows subject.now.condition }
{
    demand_holds(&View::of(subject, base, placed))
}

// Whether all conditions hold over a box of placements. The first that doesn't ends the loop.
fn all_hold(subjects: &[Subject<'_>], base: &V3, placed: &Placed) -> bool
    requires conditions { All (λ s. IsCondition s.condition) subjects.now }
    requires base { IsWithin COORDINATE base.now }
    requires placed { IsPlaced placed.now }
    ensures { result ≡ list_all (subject_holds (placed_ends placed.now) base.now) subjects.now }
{
    for at in 0..subjects.len() {
        if !condition_holds(&subjects[at], base, placed) {
            return false;
        }
    }
    true
}

/// Whether all conditions hold at a placement of the grid by their written tests. Then it meets all of them, exactly.
/// `base` is the part's first point, in units.
pub fn holds(subjects: &[Subject<'_>], base: &V3, a: &Assignment) -> bool
    requires conditions { All (λ s. IsCondition s.condition) subjects.now }
    requires base { IsWithin COORDINATE base.now }
    requires grid { IsOnGrid a.now }
    requires shift { IsWithin (2 ^ 45) a.now.shift }
    requires first { IsWithin (2 ^ 45) a.now.first }
    requires second { IsWithin (2 ^ 45) a.now.second }
    ensures test { result ≡ list_all (subject_holds (grid_placed a.now) base.now) subjects.now }
    ensures met { result ≡ true → All (SubjectMet (placement_of a.now) base.now) subjects.now }
{
    all_hold(subjects, base, &placed_at(a))
}

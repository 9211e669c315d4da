// The first evidence that refutes a condition over a box of placements.
ghost use Rattle.std.specs.Prelude.{◌≡◌, ◌<◌, false, find, length, true, IsNone};
ghost use Rattle.std.specs.List.{All};
ghost use Rattle.std.specs.Option.{IfSome};
ghost use Rattle.gd_base.specs.Limits.{COORDINATE};
ghost use Rattle.gd_bound.specs.Evidence.{first, point_number, refuted_at, value_outside};
ghost use Rattle.gd_bound.specs.Laws.{IsUnmet, NothingRefutes};
ghost use Rattle.gd_bound.specs.Thresholds.{pair_by};
ghost use Rattle.gd_vec.specs.Vector.{IsWithin};
ghost use Rattle.gd_zone.specs.Boxes.{IsPlaced, placed_ends};
ghost use Rattle.gd_zone.specs.Conditions.{IsBound, IsCondition, IsPair};
ghost use Rattle.gd_zone.specs.Seen.{feature_in, points_in, rows_in, value_in};
ghost use Rattle.gd_zone.specs.declared.condition.Demand.TheVariants.{Contact, HugInner, HugOuter, Spread, Within};

use crate::evidence::{all_above, exceeds_group, group_exceeds, passes_by_more};
use crate::outside::is_outside;
use crate::pair::Pair;
use crate::threshold::{first_far, first_near, from_one, high_threshold, low_threshold};
use gd_cells::Evidence;
use gd_vec::V3;
use gd_zone::{Demand, Placed, Subject, View, extremes_of};

// Whether a point, by its number from 0, lies outside two bounds.
fn is_outside_at(view: &View<'_>, lo: Option<i64>, hi: Option<i64>, number: u32) -> bool
    requires condition { IsCondition view.now.subject.now.condition }
    requires lo { IfSome lo IsBound }
    requires hi { IfSome hi IsBound }
    requires number { number < length (rows_in view.now) }
    ensures { result ≡ value_outside view.now.subject.now.condition.surface lo hi (value_in view.now number) }
{
    is_outside(&view.subject.condition.surface, lo, hi, view.value(number))
}

// The number from 1 of the first point that lies outside two bounds, and 0 where there is none.
fn first_outside(view: &View<'_>, lo: Option<i64>, hi: Option<i64>) -> u32
    requires condition { IsCondition view.now.subject.now.condition }
    requires lo { IfSome lo IsBound }
    requires hi { IfSome hi IsBound }
    ensures { result ≡ point_number (find
        (λ i. value_outside view.now.subject.now.condition.surface lo hi (value_in view.now i)) (points_in view.now)) }
{
    let numbers = view.subject.points();
    for at in 0..numbers.len() {
        if is_outside_at(view, lo, hi, numbers[at]) {
            return from_one(numbers[at]);
        }
    }
    0
}

// The first point that lies outside.
fn within_pair(view: &View<'_>, lo: Option<i64>, hi: Option<i64>) -> Option<Pair>
    requires condition { IsCondition view.now.subject.now.condition }
    requires lo { IfSome lo IsBound }
    requires hi { IfSome hi IsBound }
    ensures { result ≡ pair_by view.now.subject.now.condition.surface (Within lo hi)
        (value_in view.now) (points_in view.now) (feature_in view.now) }
{
    let a = first_outside(view, lo, hi);
    if a == 0 { None } else { Some(Pair { a, b: 0 }) }
}

// The first point with the greatest lower end, and the first with the least upper end.
fn spread_pair(view: &View<'_>, t: i64) -> Option<Pair>
    requires condition { IsCondition view.now.subject.now.condition }
    requires t { IsBound t }
    ensures { result ≡ pair_by view.now.subject.now.condition.surface (Spread t)
        (value_in view.now) (points_in view.now) (feature_in view.now) }
{
    let surface = &view.subject.condition.surface;
    let numbers = view.subject.points();
    match extremes_of(view, numbers) {
        None => None,
        Some(x) => {
            if passes_by_more(surface, x.greatest, x.least, t) {
                Some(Pair {
                    a: first_far(view, numbers, low_threshold(surface, x.greatest.lo)),
                    b: first_near(view, numbers, high_threshold(surface, x.least.hi)),
                })
            } else {
                None
            }
        }
    }
}

// No point: all of the group lie above the bound.
fn contact_pair(view: &View<'_>, hi: i64) -> Option<Pair>
    requires condition { IsCondition view.now.subject.now.condition }
    requires hi { IsBound hi }
    requires pair { IsPair view.now.subject.now.condition.surface (Contact hi) }
    ensures { result ≡ pair_by view.now.subject.now.condition.surface (Contact hi)
        (value_in view.now) (points_in view.now) (feature_in view.now) }
{
    if all_above(view, hi) {
        Some(Pair { a: 0, b: 0 })
    } else {
        None
    }
}

// The first point of the feature with the least upper end.
fn inner_pair(view: &View<'_>, slack: i64) -> Option<Pair>
    requires condition { IsCondition view.now.subject.now.condition }
    requires slack { IsBound slack }
    requires pair { IsPair view.now.subject.now.condition.surface (HugInner slack) }
    ensures { result ≡ pair_by view.now.subject.now.condition.surface (HugInner slack)
        (value_in view.now) (points_in view.now) (feature_in view.now) }
{
    let numbers = view.subject.feature();
    match extremes_of(view, numbers) {
        None => None,
        Some(x) => {
            if group_exceeds(view, slack, x.least) {
                Some(Pair {
                    a: 0,
                    b: first_near(
                        view,
                        numbers,
                        high_threshold(&view.subject.condition.surface, x.least.hi),
                    ),
                })
            } else {
                None
            }
        }
    }
}

// The first point of the feature with the greatest lower end.
fn outer_pair(view: &View<'_>, slack: i64) -> Option<Pair>
    requires condition { IsCondition view.now.subject.now.condition }
    requires slack { IsBound slack }
    requires pair { IsPair view.now.subject.now.condition.surface (HugOuter slack) }
    ensures { result ≡ pair_by view.now.subject.now.condition.surface (HugOuter slack)
        (value_in view.now) (points_in view.now) (feature_in view.now) }
{
    let numbers = view.subject.feature();
    match extremes_of(view, numbers) {
        None => None,
        Some(x) => {
            if exceeds_group(view, slack, x.greatest) {
                Some(Pair {
                    a: first_far(
                        view,
                        numbers,
                        low_threshold(&view.subject.condition.surface, x.greatest.lo),
                    ),
                    b: 0,
                })
            } else {
                None
            }
        }
    }
}

// The pair that refutes a condition, if it is refuted.
fn refuting_pair(view: &View<'_>) -> Option<Pair>
    requires condition { IsCondition view.now.subject.now.condition }
    ensures { result ≡ pair_by view.now.subject.now.condition.surface view.now.subject.now.condition.demand
        (value_in view.now) (points_in view.now) (feature_in view.now) }
{
    match view.subject.condition.demand {
        Demand::Within { lo, hi } => within_pair(view, lo, hi),
        Demand::Spread { t } => spread_pair(view, t),
        Demand::Contact { hi } => contact_pair(view, hi),
        Demand::HugInner { slack } => inner_pair(view, slack),
        Demand::HugOuter { slack } => outer_pair(view, slack),
    }
}

/// The first evidence that refutes a condition over a box of placements, with the number of the condition. Then no
/// placement of the box meets it. `None` exactly where no evidence refutes it. `base` is the part's first point, in
/// units.
pub fn bound(subject: &Subject<'_>, number: u32, base: &V3, placed: &Placed) -> Option<Evidence>
    requires condition { IsCondition subject.now.condition }
    requires base { IsWithin COORDINATE base.now }
    requires placed { IsPlaced placed.now }
    ensures first { result ≡ first (placed_ends placed.now) base.now subject.now.index.now.table.now.rows
        subject.now.condition number }
    ensures refuted { IfSome result (λ e. refuted_at (placed_ends placed.now) base.now
        subject.now.index.now.table.now.rows subject.now.condition e ≡ true) }
    ensures none { IsNone result → NothingRefutes (placed_ends placed.now) base.now
        subject.now.index.now.table.now.rows subject.now.condition }
    ensures unmet { IfSome result (λ _.
        IsUnmet placed.now base.now subject.now.index.now.table.now.rows subject.now.condition) }
{
    let view = View::of(subject, base, placed);
    match refuting_pair(&view) {
        None => None,
        Some(pair) => Some(Evidence {
            condition: number,
            a: pair.a,
            b: pair.b,
        }),
    }
}

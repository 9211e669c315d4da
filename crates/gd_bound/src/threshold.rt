// The first of some points whose value has the greatest lower end, or the least upper end, as they are compared.
ghost use Rattle.std.specs.Prelude.{◌≡◌, ◌<◌, ◌≤◌, ◌^◌, ◌+◌, ◌*ℤ◌, ◌≤ℤ◌, find, int_le, length, pos, unsigned_abs};
ghost use Rattle.std.specs.List.{All};
ghost use Rattle.gd_base.specs.Limits.{POINTS};
ghost use Rattle.gd_bound.specs.Evidence.{point_number};
ghost use Rattle.gd_bound.specs.Thresholds.{high_threshold, low_threshold};
ghost use Rattle.gd_zone.specs.Conditions.{IsCondition};
ghost use Rattle.gd_zone.specs.Seen.{rows_in, value_in};
ghost use Rattle.gd_zone.specs.Tests.{ceil_root, floor_root};
ghost use Rattle.gd_zone.specs.Values.{IsSizedEnd};

use gd_zone::{Surface, View, ceil_root, floor_root};

/// The least lower end that is compared as this one is. Roots are rounded down, so lesser ends may have the same.
pub fn low_threshold(surface: &Surface, lo: i128) -> i128
    requires { IsSizedEnd surface.now lo }
    ensures { result ≡ low_threshold surface.now lo }
{
    match surface {
        Surface::Plane { .. } => lo,
        Surface::Axis { .. } => squared(floor_root(lo)),
        Surface::Ball { .. } => squared(floor_root(lo)),
    }
}

/// The greatest upper end that is compared as this one is. Roots are rounded up.
pub fn high_threshold(surface: &Surface, hi: i128) -> i128
    requires { IsSizedEnd surface.now hi }
    ensures { result ≡ high_threshold surface.now hi }
{
    match surface {
        Surface::Plane { .. } => hi,
        Surface::Axis { .. } => squared(ceil_root(hi)),
        Surface::Ball { .. } => squared(ceil_root(hi)),
    }
}

// The square of a root.
fn squared(root: i128) -> i128
    requires { unsigned_abs root ≤ 2 ^ 60 }
    ensures { result ≡ root *ℤ root }
{
    root * root
}

/// The number from 1 of a point by its number from 0.
pub fn from_one(number: u32) -> u32
    requires { number < POINTS }
    ensures { result ≡ number + 1 }
{
    number + 1
}

// Whether the lower end of a point isn't below a threshold.
fn is_far(view: &View<'_>, number: u32, threshold: i128) -> bool
    requires condition { IsCondition view.now.subject.now.condition }
    requires number { number < length (rows_in view.now) }
    ensures { result ≡ int_le threshold (value_in view.now number).lo }
{
    is_at_most(threshold, view.value(number).lo)
}

// Whether the upper end of a point isn't above a threshold.
fn is_near(view: &View<'_>, number: u32, threshold: i128) -> bool
    requires condition { IsCondition view.now.subject.now.condition }
    requires number { number < length (rows_in view.now) }
    ensures { result ≡ int_le (value_in view.now number).hi threshold }
{
    is_at_most(view.value(number).hi, threshold)
}

// Whether one end is at most another.
fn is_at_most(a: i128, b: i128) -> bool
    ensures { result ≡ int_le a b }
{
    a <= b
}

/// The number from 1 of the first of some points whose lower end isn't below a threshold, and 0 where there is none.
pub fn first_far(view: &View<'_>, numbers: &[u32], threshold: i128) -> u32
    requires condition { IsCondition view.now.subject.now.condition }
    requires below { All (λ number. number < length (rows_in view.now)) numbers.now }
    ensures { result ≡ point_number (find (λ i. int_le threshold (value_in view.now i).lo) numbers.now) }
{
    for at in 0..numbers.len() {
        if is_far(view, numbers[at], threshold) {
            return from_one(numbers[at]);
        }
    }
    0
}

/// The number from 1 of the first of some points whose upper end isn't above a threshold, and 0 where there is none.
pub fn first_near(view: &View<'_>, numbers: &[u32], threshold: i128) -> u32
    requires condition { IsCondition view.now.subject.now.condition }
    requires below { All (λ number. number < length (rows_in view.now)) numbers.now }
    ensures { result ≡ point_number (find (λ i. int_le (value_in view.now i).hi threshold) numbers.now) }
{
    for at in 0..numbers.len() {
        if is_near(view, numbers[at], threshold) {
            return from_one(numbers[at]);
        }
    }
    0
}

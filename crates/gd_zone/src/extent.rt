// The least and the greatest value of some points.
ghost use Rattle.std.specs.Prelude.{◌≡◌, ◌<◌, [], length, map, IfSome, IsNone};
ghost use Rattle.std.specs.List.{All};
ghost use Rattle.gd_quat.specs.Formulas.{ends};
ghost use Rattle.gd_zone.specs.Conditions.{IsCondition};
ghost use Rattle.gd_zone.specs.Extremes.{AreExtremes, lower, upper};
ghost use Rattle.gd_zone.specs.Seen.{rows_in, value_in};
ghost use Rattle.gd_zone.specs.Values.{IsSized};

use crate::view::View;
use gd_interval::Iv;

/// The least and the greatest value of some points over a box: each lies in its interval at every placement of the box.
#[derive(Clone, Copy, Debug, PartialEq, Eq)]
pub struct Extremes {
    pub least: Iv,
    pub greatest: Iv,
}

// The lesser of both ends.
#[inline(always)]
fn lower(a: Iv, b: Iv) -> Iv
    ensures { ends result ≡ lower (ends a) (ends b) }
{
    Iv {
        lo: a.lo.min(b.lo),
        hi: a.hi.min(b.hi),
    }
}

// The greater of both ends.
#[inline(always)]
fn upper(a: Iv, b: Iv) -> Iv
    ensures { ends result ≡ upper (ends a) (ends b) }
{
    Iv {
        lo: a.lo.max(b.lo),
        hi: a.hi.max(b.hi),
    }
}

// With one value more.
#[inline(always)]
fn with(found: Extremes, value: Iv) -> Extremes
    ensures least { ends result.least ≡ lower (ends found.least) (ends value) }
    ensures greatest { ends result.greatest ≡ upper (ends found.greatest) (ends value) }
{
    Extremes {
        least: lower(found.least, value),
        greatest: upper(found.greatest, value),
    }
}

/// The extremes of the values of some points, by their numbers. `None` where there are no points.
pub fn extremes_of(view: &View<'_>, numbers: &[u32]) -> Option<Extremes>
    requires condition { IsCondition view.now.subject.now.condition }
    requires below { All (λ number. number < length (rows_in view.now)) numbers.now }
    ensures none { IsNone result → numbers.now ≡ [] }
    ensures some { IfSome result (λ x. AreExtremes (map (value_in view.now) numbers.now)
        (ends x.least) (ends x.greatest)) }
    ensures least { IfSome result (λ x. IsSized view.now.subject.now.condition.surface x.least) }
    ensures greatest { IfSome result (λ x. IsSized view.now.subject.now.condition.surface x.greatest) }
{
    if numbers.is_empty() {
        return None;
    }
    let first = view.value(numbers[0]);
    let mut found = Extremes {
        least: first,
        greatest: first,
    };
    for at in 1..numbers.len() {
        found = with(found, view.value(numbers[at]));
    }
    Some(found)
}

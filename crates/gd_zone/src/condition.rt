// What is asked of the points of a placed part.
use gd_vec::V3;

/// A nominal surface. A direction has whole entries within 1,000, not all 0, and no unit; a point is in units.
#[derive(Clone, Copy, Debug, PartialEq, Eq)]
pub enum Surface {
    /// The plane through `point` at right angles to `direction`, to whose side the distances of points are positive.
    Plane { direction: V3, point: V3 },
    /// The line through `point` along `direction`: distances are those from the line.
    Axis { direction: V3, point: V3 },
    /// The point: distances are those from it.
    Ball { point: V3 },
}

/// What is asked of the distances of points from a surface. All numbers are in half units of 0.05 micrometre.
#[derive(Clone, Copy, Debug, PartialEq, Eq)]
pub enum Demand {
    /// Twice the distance of every point is at least `lo` and at most `hi`, where they are given: a zone about a true
    /// surface, or a boundary that no point may pass (ASME Y14.5.1M-1994, 2.9 and 5.2).
    Within { lo: Option<i64>, hi: Option<i64> },
    /// Twice the distances of no two points differ by more than `t`: a zone that isn't located (6.5.1, 6.7).
    Spread { t: i64 },
    /// Twice the distance of some point of the group is at most `hi`: a plane datum feature touches its datum there.
    Contact { hi: i64 },
    /// Some point of the group is no further from the axis than any point of the feature, up to `slack`: a hole touches
    /// its datum there.
    HugInner { slack: i64 },
    /// Some point of the group is no nearer to the axis than any point of the feature, up to `slack`: a pin touches its
    /// datum there.
    HugOuter { slack: i64 },
}

/// A demand on the points of a feature, by the feature's number in the point table. `group` names the contact group of
/// `Contact`, `HugInner` and `HugOuter`, where there always is one; for `Within` and `Spread` it limits the condition
/// to the points of one group. `offset` is the offset of a placement that moves these points: 1 or 2, or 0 for none.
#[derive(Clone, Copy, Debug, PartialEq, Eq)]
pub struct Condition {
    pub surface: Surface,
    pub demand: Demand,
    pub feature: u32,
    pub group: Option<u32>,
    pub offset: u32,
}

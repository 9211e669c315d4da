// Conditions over boxes of placements: ties by hand, and drawn boxes.
ghost use Rattle.std.specs.Prelude.{◌≤◌, ◌<◌, ◌^◌, ◌≤ℤ◌, pos, unsigned_abs};
ghost use Rattle.std.specs.Option.{IfSome};
ghost use Rattle.gd_quat.specs.Boxes.{Fits, IsRotationBox, VectorFits};
ghost use Rattle.gd_vec.specs.Vector.{IsWithin};
ghost use Rattle.gd_zone.specs.Boxes.{IsPlaced};
ghost use Rattle.gd_zone.specs.Conditions.{HasBounds, IsAxisDemand, IsBallDemand, IsBound, IsCondition, IsPlaneDemand};

use gd_bound::{bound, bound_at};
use gd_cells::Evidence;
use gd_interval::{Iv, between, point};
use gd_points::{PointIndex, read_points};
use gd_quat::{RotationBox, VecBox, matrix};
use gd_vec::V3;
use gd_zone::{Condition, Demand, Placed, Subject, Surface, condition_holds};
use std::alloc::Global;
use std::string::String;
use std::test::Fail;

// The features a to e have the numbers 0 to 4. Less the first point, those of d lie 20, 10 and 5 units above the plane
// z = 0 and 5, 10 and 7 units from the axis of z, and that of e lies 7 units from the origin.
const POINTS: &str = "feature,group,x,y,z
a,0,12,-7,5\nb,1,310,-44,120\nb,1,-205,318,64\nb,2,77,260,-301\nb,2,-150,-90,240\nc,1,400,12,-35\nc,2,-61,-333,180
d,1,15,-3,25\nd,1,18,1,15\nd,2,12,0,10\ne,0,14,-4,11
";

const BASE: V3 = V3 { x: 12, y: -7, z: 5 };

// A row has the answer, the surface and the demand, and the numbers of `Row`; those past its end are 0. The answer is
// `holds`, the points of the evidence, or `open` where neither is so.
//
// A tie of each pair and half a unit to either side, where nothing moves; then ties under translations by up to 1,000
// units. A spread along a direction doesn't depend on them; whether all points lie below a bound does.
const TIES: &str = "\
8 0: plane within: - 39 0 0 1 0 0 0 3 -
holds: plane within: - 40 0 0 1 0 0 0 3 -
holds: plane within: - 41 0 0 1 0 0 0 3 -
10 0: plane within: 11 - 0 0 1 0 0 0 3 -
holds: plane within: 10 - 0 0 1 0 0 0 3 -
holds: plane within: 9 - 0 0 1 0 0 0 3 -
8 10: plane spread: - 29 0 0 1 0 0 0 3 -
holds: plane spread: - 30 0 0 1 0 0 0 3 -
holds: plane spread: - 31 0 0 1 0 0 0 3 -
0 0: plane contact: - 19 0 0 1 0 0 0 3 1
holds: plane contact: - 20 0 0 1 0 0 0 3 1
holds: plane contact: - 21 0 0 1 0 0 0 3 1
9 0: axis within: - 19 0 0 2 0 0 0 3 -
holds: axis within: - 20 0 0 2 0 0 0 3 -
holds: axis within: - 21 0 0 2 0 0 0 3 -
8 0: axis within: 11 - 0 0 2 0 0 0 3 -
holds: axis within: 10 - 0 0 2 0 0 0 3 -
holds: axis within: 9 - 0 0 2 0 0 0 3 -
9 8: axis spread: - 9 0 0 2 0 0 0 3 -
holds: axis spread: - 10 0 0 2 0 0 0 3 -
holds: axis spread: - 11 0 0 2 0 0 0 3 -
0 8: axis inner: - 3 0 0 2 0 0 0 3 2
holds: axis inner: - 4 0 0 2 0 0 0 3 2
holds: axis inner: - 5 0 0 2 0 0 0 3 2
9 0: axis outer: - 5 0 0 2 0 0 0 3 2
holds: axis outer: - 6 0 0 2 0 0 0 3 2
holds: axis outer: - 7 0 0 2 0 0 0 3 2
11 0: ball within: - 13 0 0 2 0 0 0 4 -
holds: ball within: - 14 0 0 2 0 0 0 4 -
holds: ball within: - 15 0 0 2 0 0 0 4 -
11 0: ball within: 15 - 0 0 2 0 0 0 4 -
holds: ball within: 14 - 0 0 2 0 0 0 4 -
holds: ball within: 13 - 0 0 2 0 0 0 4 -
8 10: plane spread: - 29 0 0 1 0 0 0 3 - 0 0 0 0 0 0 0 0 -1000 1000 -1000 1000 -1000 1000
holds: plane spread: - 30 0 0 1 0 0 0 3 - 0 0 0 0 0 0 0 0 -1000 1000 -1000 1000 -1000 1000
open: plane within: - 39 0 0 1 0 0 0 3 - 0 0 0 0 0 0 0 0 -1000 1000 -1000 1000 -1000 1000
open: plane within: - 2039 0 0 1 0 0 0 3 - 0 0 0 0 0 0 0 0 -1000 1000 -1000 1000 -1000 1000
holds: plane within: - 2040 0 0 1 0 0 0 3 - 0 0 0 0 0 0 0 0 -1000 1000 -1000 1000 -1000 1000
";

// By `tests/random_conditions`: of each pair one that is refuted, one that holds and one of which neither is so.
const DRAWN: &str = "\
6 0: plane within: -3165 -2712 -9 -5 -8 66 377 -344 2 1 1 2 -26907 -26907 -19126 -19056 -29944 -29944 4 10 -5 -4 -22 -20
holds: plane within: -1390 - 3 6 5 -68 151 -106 1 - 0 2 -8196 -8196 20074 20074 -23461 -23460 64 68 -5 0 36 36
open: plane within: -606 1623 9 -8 0 36 -198 -398 1 - 0 1 18169 32767 8853 8853 -16986 -16923 -6 -3 44 48 66 71
4 2: plane spread: - 0 6 -5 -2 -327 -53 163 1 - 0 2 -12640 -12640 -7843 -7842 29948 30083 83 85 2 3 13 19
holds: plane spread: - 22 -4 3 -8 -34 -58 252 2 2 1 1 2136 2138 -22873 -22515 -3748 -3748 51 53 30 34 -57 -56
open: plane spread: - 0 4 7 -9 -61 68 323 2 2 0 2 -11457 -11457 10957 11022 -8835 -8835 -63 -62 85 91 9 9
0 0: plane contact: - -175 6 -9 2 23 396 -114 1 1 0 2 -7581 -7580 21970 21970 31811 31811 -21 -18 -76 -73 -88 -84
holds: plane contact: - 1608 6 7 0 180 153 -92 2 1 1 0 -18093 -18088 14689 14689 9314 9330 -7 -2 77 83 -80 -74
open: plane contact: - 528 -5 -9 -8 116 -62 86 2 1 1 2 7657 32767 -18658 -18656 23923 23925 -28 -22 12 14 -65 -63
6 0: axis within: 1378 2357 -1 -9 3 -219 251 363 2 - 0 3 8778 8780 -9111 -9109 25158 25158 87 90 33 36 28 33
holds: axis within: - 5396 -5 -7 5 320 73 355 1 - 0 2 2445 2447 11438 11438 -23952 -23952 -67 -67 -24 -19 -72 -68
open: axis within: - 2223 3 6 -5 279 -137 -329 1 2 0 1 -10383 -10375 -19331 -19330 -2944 32767 -77 -77 21 21 53 59
7 6: axis spread: - 0 6 -5 -9 395 127 351 2 - 1 0 24593 24593 19987 19987 -1810 -123 -53 -49 -24 -22 -61 -58
holds: axis spread: - 158 5 -7 -7 248 -71 181 2 2 0 1 -11573 -11571 -3082 -3019 -18283 -18283 -18 -18 32 32 -8 -2
open: axis spread: - 500 4 7 -5 -384 345 326 1 2 1 1 13601 32767 26668 26668 3667 32767 58 61 44 48 -15 -13
0 7: axis inner: - 1 -7 1 0 -66 257 -162 2 1 0 3 16918 16965 30226 30227 23313 23351 -82 -77 68 70 -53 -52
holds: axis inner: - 874 1 7 0 72 313 110 2 1 0 2 16749 16769 -12857 -12857 -7557 -7499 -4 -2 -64 -64 -36 -32
open: axis inner: - 0 -4 4 4 283 346 94 2 1 0 2 27142 27402 -1424 -1424 -6161 -6123 28 34 -78 -75 4 7
4 0: axis outer: - 0 6 -4 -1 -86 180 -296 1 1 0 2 -470 -470 12551 12551 4055 4057 -37 -34 -52 -50 46 46
holds: axis outer: - 1246 9 -4 -1 217 -104 283 1 1 0 1 -26790 -26790 -486 -446 -6564 -6506 12 14 -32 -27 8 8
open: axis outer: - 1 9 7 6 -57 -320 35 1 1 1 3 5173 5173 5768 5769 49 49 -12 -6 -45 -43 70 70
7 0: ball within: 5990 - 7 -9 7 134 269 131 2 2 0 2 -24166 -24109 326 326 -24325 -24325 -15 -15 4 8 -87 -82
holds: ball within: -412 1555 -1 -4 7 299 192 297 1 2 0 2 8908 8963 19071 19073 23054 23054 -80 -76 63 66 88 92
open: ball within: 1257 - -6 8 -5 -209 352 248 2 - 0 3 -26097 32767 8869 8869 -19958 -19955 -63 -63 34 37 -53 -50
";

// The numbers of a row: two bounds in half units, the surface's direction and point, a feature, a group, an offset, a
// face, and the low and high ends of three ratios in 2^-15 and of three lengths in units. The lengths are those of the
// translation and of the offsets. A bound or a group may be missing.
#[derive(Clone, Copy)]
struct Row {
    numbers: [Option<i16>; 24],
}

impl Row {
    // The numbers of a line, between blanks. What is no number is missing.
    fn read(line: &str) -> Row {
        let mut numbers = [None; 24];
        for (at, word) in line.split_whitespace().enumerate() {
            if at < 24 {
                numbers[at] = word.parse::<i16>().ok();
            }
        }
        Row { numbers }
    }

    // The number in a column, and 0 where it is missing.
    fn number(&self, column: usize) -> i16
        requires { column < 24 }
    {
        self.numbers[column].unwrap_or(0)
    }

    // A bound, if there is one.
    fn limit(&self, column: usize) -> Option<i64>
        requires { column < 24 }
        ensures { IfSome result IsBound }
    {
        match self.numbers[column] {
            None => None,
            Some(h) => Some(i64::from(h)),
        }
    }

    // The upper bound.
    fn hi(&self) -> i64
        ensures { IsBound result }
    {
        i64::from(self.number(1))
    }

    // The upper bound where it can't be below 0.
    fn slack(&self) -> i64
        ensures bound { IsBound result }
        ensures not_negative { pos 0 ≤ℤ result }
    {
        i64::from(u16::try_from(self.number(1)).unwrap_or(0))
    }

    // A number of the direction.
    fn component(&self, column: usize) -> i64
        requires { column < 24 }
        ensures { unsigned_abs result ≤ 2 ^ 10 }
    {
        i64::from(i8::try_from(self.number(column)).unwrap_or(0))
    }

    fn direction(&self) -> V3
        ensures { IsWithin (2 ^ 10) result }
    {
        V3 {
            x: self.component(2),
            y: self.component(3),
            z: self.component(4),
        }
    }

    fn place(&self) -> V3
        ensures { IsWithin (2 ^ 26) result }
    {
        V3 {
            x: i64::from(self.number(5)),
            y: i64::from(self.number(6)),
            z: i64::from(self.number(7)),
        }
    }

    // A number that counts, if there is one.
    fn count(&self, column: usize) -> Option<u32>
        requires { column < 24 }
    {
        u32::try_from(self.numbers[column]?).ok()
    }

    fn within(&self) -> Demand
        ensures bounds { HasBounds result }
        ensures plane { IsPlaneDemand result }
        ensures axis { IsAxisDemand result }
        ensures ball { IsBallDemand result }
    {
        Demand::Within {
            lo: self.limit(0),
            hi: self.limit(1),
        }
    }

    // A condition on a plane.
    fn on_plane(&self, demand: Demand) -> Condition
        requires pair { IsPlaneDemand demand }
        requires bounds { HasBounds demand }
        ensures { IsCondition result }
    {
        let surface = Surface::Plane {
            direction: self.direction(),
            point: self.place(),
        };
        Condition {
            surface,
            demand,
            feature: self.count(8).unwrap_or(0),
            group: self.count(9),
            offset: u32::from(self.number(10) == 1),
        }
    }

    fn on_axis(&self, demand: Demand) -> Condition
        requires pair { IsAxisDemand demand }
        requires bounds { HasBounds demand }
        ensures { IsCondition result }
    {
        let surface = Surface::Axis {
            direction: self.direction(),
            point: self.place(),
        };
        Condition {
            surface,
            demand,
            feature: self.count(8).unwrap_or(0),
            group: self.count(9),
            offset: u32::from(self.number(10) == 1),
        }
    }

    fn on_ball(&self, demand: Demand) -> Condition
        requires pair { IsBallDemand demand }
        requires bounds { HasBounds demand }
        ensures { IsCondition result }
    {
        let surface = Surface::Ball {
            point: self.place(),
        };
        Condition {
            surface,
            demand,
            feature: self.count(8).unwrap_or(0),
            group: self.count(9),
            offset: u32::from(self.number(10) == 1),
        }
    }

    fn condition(&self, pair: &str) -> Condition
        ensures { IsCondition result }
    {
        match pair {
            "plane within" => self.on_plane(self.within()),
            "plane spread" => self.on_plane(Demand::Spread { t: self.slack() }),
            "plane contact" => self.on_plane(Demand::Contact { hi: self.hi() }),
            "axis within" => self.on_axis(self.within()),
            "axis spread" => self.on_axis(Demand::Spread { t: self.slack() }),
            "axis inner" => self.on_axis(Demand::HugInner {
                slack: self.slack(),
            }),
            "axis outer" => self.on_axis(Demand::HugOuter {
                slack: self.slack(),
            }),
            _ => self.on_ball(self.within()),
        }
    }

    // A ratio, in 2^-30.
    fn ratio(&self, column: usize) -> Iv
        requires { column < 23 }
        ensures { Fits (2 ^ 30) result }
    {
        let (a, b) = (self.number(column), self.number(column + 1));
        ordered(ratio(a), ratio(b), 1 << 30)
    }

    // A length, in fine units.
    fn length(&self, column: usize) -> Iv
        requires { column < 23 }
        ensures { Fits (2 ^ 45) result }
    {
        let (a, b) = (self.number(column), self.number(column + 1));
        ordered(length(a), length(b), 1 << 45)
    }

    fn lengths(&self) -> VecBox
        ensures { VectorFits (2 ^ 45) result }
    {
        VecBox {
            x: self.length(18),
            y: self.length(20),
            z: self.length(22),
        }
    }

    // The rotations with 1 at the component of the face, and the ratios at the others.
    fn turns(&self) -> RotationBox
        ensures { IsRotationBox result }
    {
        let one = point(1_073_741_824);
        let (first, second, third) = (self.ratio(12), self.ratio(14), self.ratio(16));
        match self.number(11) {
            0 => RotationBox {
                q0: one,
                q1: first,
                q2: second,
                q3: third,
            },
            1 => RotationBox {
                q0: first,
                q1: one,
                q2: second,
                q3: third,
            },
            2 => RotationBox {
                q0: first,
                q1: second,
                q2: one,
                q3: third,
            },
            _ => RotationBox {
                q0: first,
                q1: second,
                q2: third,
                q3: one,
            },
        }
    }

    fn placements(&self) -> Placed
        ensures { IsPlaced result }
    {
        let lengths = self.lengths();
        Placed {
            matrix: matrix(&self.turns()),
            shift: lengths,
            first: lengths,
            second: lengths,
        }
    }
}

// The box between two numbers.
fn ordered(a: i128, b: i128, size: u64) -> Iv
    requires a { unsigned_abs a ≤ size }
    requires b { unsigned_abs b ≤ size }
    ensures { Fits size result }
{
    if a <= b { between(a, b) } else { between(b, a) }
}

// A ratio in 2^-30, of one in 2^-15.
fn ratio(a: i16) -> i128
    ensures { unsigned_abs result ≤ 2 ^ 30 }
{
    i128::from(a) * 32_768
}

// A length in fine units, of one in units.
fn length(a: i16) -> i128
    ensures { unsigned_abs result ≤ 2 ^ 45 }
{
    i128::from(a) * 65_536
}

// What is found of a condition. The first evidence has to refute, and with its points exchanged it must not, unless
// both are none.
fn judged(alloc: Global, condition: &Condition, placed: &Placed) -> Result<String, Fail>
    requires condition { IsCondition condition.now }
    requires placed { IsPlaced placed.now }
{
    let table = read_points(alloc, POINTS.as_bytes())?;
    let index = PointIndex::of(alloc, &table)?;
    let subject = Subject::of(condition, &index);
    let holds = condition_holds(&subject, &BASE, placed);
    match bound(&subject, 9, &BASE, placed) {
        None => Ok(String::from_str(alloc, if holds { "holds" } else { "open" })?),
        Some(e) => {
            let turned = Evidence {
                condition: e.condition,
                a: e.b,
                b: e.a,
            };
            let refutes = bound_at(&subject, &BASE, placed, &e);
            let exchanged = bound_at(&subject, &BASE, placed, &turned);
            if holds || e.condition != 9 || !refutes || (e.a != e.b && exchanged) {
                return Ok(String::from_str(alloc, "wrong evidence")?);
            }
            Ok(format!(in alloc; "{} {}", e.a, e.b)?)
        }
    }
}

#[test]
fn rows(rt: HostRuntime) -> Result<(), Fail> {
    for line in TIES.lines().chain(DRAWN.lines()) {
        let (want, asked) = line.split_once(": ").unwrap_or((line, ""));
        let (pair, numbers) = asked.split_once(": ").unwrap_or((asked, ""));
        let row = Row::read(numbers);
        let found = judged(rt.alloc(), &row.condition(pair), &row.placements())?;
        assert_eq!(rt; found.as_str(), want, "{line}");
    }
    Ok(())
}

// A plate with four holes through the search.
ghost use Rattle.std.specs.Prelude.{◌≡◌, ◌≤◌, ◌^◌, IfOk, length};
ghost use Rattle.std.specs.List.{All};
ghost use Rattle.gd_turn.specs.Ranges.{AreRanges};
ghost use Rattle.gd_vec.specs.Vector.{IsWithin};
ghost use Rattle.gd_zone.specs.Conditions.{IsCondition};

use gd_cells::Node;
use gd_fit::placement_task;
use gd_points::{PointIndex, read_points};
use gd_search::{Outcome, search};
use gd_turn::{Ranges, TurnRange};
use gd_vec::V3;
use gd_zone::{Condition, Demand, Surface};
use std::alloc::{AllocError, Global};
use std::test::Fail;

const ORIGIN: V3 = V3 { x: 0, y: 0, z: 0 };

// The first point of the plate.
const BASE: V3 = V3 {
    x: 100_000,
    y: 100_000,
    z: 0,
};

// A plate of 200 mm by 100 mm. The greatest distance from a hole's axis is that of h4: 50 units.
const PLATE: &[u8] =
    b"feature,group,x,y,z\nbase,1,100000,100000,0\nbase,2,1900000,100000,4\nbase,3,1000000,900000,6\nback,1,300000,2,50000\nback,2,1700000,0,50000\nleft,1,3,500000,50000\nh1,0,200020,199990,0\nh1,0,200030,199990,100000\nh2,0,1799990,200015,0\nh2,0,1799990,200020,100000\nh3,0,200000,800040,0\nh3,0,200000,800040,100000\nh4,0,1800050,800000,0\nh4,0,1800050,800000,100000\n";

// The same with h4 500 units from its axis.
const MOVED: &[u8] =
    b"feature,group,x,y,z\nbase,1,100000,100000,0\nbase,2,1900000,100000,4\nbase,3,1000000,900000,6\nback,1,300000,2,50000\nback,2,1700000,0,50000\nleft,1,3,500000,50000\nh1,0,200020,199990,0\nh1,0,200030,199990,100000\nh2,0,1799990,200015,0\nh2,0,1799990,200020,100000\nh3,0,200000,800040,0\nh3,0,200000,800040,100000\nh4,0,1800500,800000,0\nh4,0,1800500,800000,100000\n";

// Placements about the plate as it was measured.
fn ranges(turn: u32, shift: u32) -> Ranges
    ensures { AreRanges result }
{
    Ranges {
        turn: TurnRange::Within(turn.min(20)),
        shift: shift.min(25),
        centre: BASE,
        offsets: 0,
    }
}

// A direction along an axis.
fn along(axis: u32) -> V3
    ensures { IsWithin (2 ^ 10) result }
{
    match axis {
        0 => V3 { x: 1, y: 0, z: 0 },
        1 => V3 { x: 0, y: 1, z: 0 },
        _ => V3 { x: 0, y: 0, z: 1 },
    }
}

// What a datum plane asks of its feature: all points lie on its outer side, and each group touches it up to 10 units.
fn of_plane(axis: u32, feature: u32, group: Option<u32>) -> Condition
    ensures { IsCondition result }
{
    let demand = match group {
        None => Demand::Within {
            lo: Some(0),
            hi: None,
        },
        Some(_) => Demand::Contact { hi: 20 },
    };
    Condition {
        surface: Surface::Plane {
            direction: along(axis),
            point: ORIGIN,
        },
        demand,
        feature,
        group,
        offset: 0,
    }
}

// What a position of 100 units asks of an axis at x and y hundreds of units.
fn of_hole(x: u16, y: u16, feature: u32) -> Condition
    ensures { IsCondition result }
{
    Condition {
        surface: Surface::Axis {
            direction: along(2),
            point: V3 {
                x: 100 * i64::from(x),
                y: 100 * i64::from(y),
                z: 0,
            },
        },
        demand: Demand::Within {
            lo: None,
            hi: Some(100),
        },
        feature,
        group: None,
        offset: 0,
    }
}

// The conditions of three datum planes and of four holes.
fn conditions(alloc: Global) -> Result<Vec<Condition>, AllocError>
    ensures conditions { IfOk result (λ v. All IsCondition v.items) }
    ensures few { IfOk result (λ v. length v.items ≤ 4096) }
{
    let planes = [
        (2, 0, None),
        (2, 0, Some(1)),
        (2, 0, Some(2)),
        (2, 0, Some(3)),
        (1, 1, None),
        (1, 1, Some(1)),
        (1, 1, Some(2)),
        (0, 2, None),
        (0, 2, Some(1)),
    ];
    let holes = [
        (2000, 2000, 3),
        (18_000, 2000, 4),
        (2000, 8000, 5),
        (18_000, 8000, 6),
    ];
    let mut conditions = Vec::new(alloc);
    for (axis, feature, group) in planes {
        conditions.push(of_plane(axis, feature, group))?;
    }
    for (x, y, feature) in holes {
        conditions.push(of_hole(x, y, feature))?;
    }
    Ok(conditions)
}

// A verdict in words: the witness of an accept, and the evidence of a reject.
fn told(rt: &HostRuntime, outcome: &Outcome) -> Result<String, Fail> {
    let alloc = rt.alloc();
    match outcome {
        Outcome::Accept { witness, level } => Ok(format!(in alloc;
            "accept {level} root {} at {} {} {} {} {} {}",
            witness.root,
            witness.at[0],
            witness.at[1],
            witness.at[2],
            witness.at[3],
            witness.at[4],
            witness.at[5]
        )?),
        Outcome::Reject { tree } => {
            let mut text = String::from_str(alloc, "reject")?;
            for node in tree {
                match node {
                    Node::Refuted(e) => {
                        let line = format!(in alloc; " {} {} {}", e.condition, e.a, e.b)?;
                        text.push_str(line.as_str())?;
                    }
                    Node::Split | Node::Left => text.push('s')?,
                }
            }
            Ok(text)
        }
        Outcome::StillOpen { .. } => Ok(String::from_str(alloc, "open")?),
    }
}

// By hand. The plate holds where it lies, with 50 units from an axis, which is a tie. With h4 moved, its distance is at
// least 482 units over the whole range, and its axis is the last of the 13 conditions.
#[test]
fn plates(rt: HostRuntime) -> Result<(), Fail> {
    let cases = [
        (
            PLATE,
            6,
            14,
            "accept 0 root 1 at 0 0 0 6553600000 6553600000 0",
        ),
        (MOVED, 20, 4, "reject 13 13 0"),
    ];
    for (file, turn, shift, want) in cases {
        let table = read_points(rt.alloc(), file).expect(&rt, "a table");
        let index = PointIndex::of(rt.alloc(), &table)?;
        let conditions = conditions(rt.alloc())?;
        let task = placement_task(rt.alloc(), ranges(turn, shift), BASE, &conditions, &index)?;
        let outcome = search(&rt, rt.alloc(), &task, 1_000_000)?;
        let got = told(&rt, &outcome)?;
        assert_eq!(rt; got.as_str(), want);
    }
    Ok(())
}

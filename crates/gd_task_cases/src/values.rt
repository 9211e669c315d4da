// Distances at a placement, worked by hand.
use gd_quat::{Assignment, Ratios};
use gd_vec::V3;
use gd_zone::{Surface, placed_at, value};

// By hand: a quarter turn about z and a shift by 3 along x take (1000, 0, 0) to (3, 1000, 0), and the first offset
// adds 1 along y. A unit is 2^16 fine units.
#[test]
fn values(rt: HostRuntime) {
    let nowhere = V3 { x: 0, y: 0, z: 0 };
    let up = V3 { x: 0, y: 1, z: 0 };
    let along = V3 { x: 0, y: 0, z: 2 };
    let turn = Assignment {
        face: 0,
        ratios: Ratios {
            first: 0,
            second: 0,
            third: 1 << 30,
        },
        shift: V3 {
            x: 196_608,
            y: 0,
            z: 0,
        },
        first: V3 {
            x: 0,
            y: 65_536,
            z: 0,
        },
        second: nowhere,
    };
    let placed = placed_at(&turn);
    let v = V3 {
        x: 1000,
        y: 0,
        z: 0,
    };
    let plane = Surface::Plane {
        direction: up,
        point: V3 { x: 0, y: 990, z: 0 },
    };
    let axis = Surface::Axis {
        direction: along,
        point: V3 { x: 0, y: 997, z: 0 },
    };
    let ball = Surface::Ball {
        point: V3 { x: 0, y: 996, z: 0 },
    };
    let rows = [
        ("10 above the plane", value(&plane, &placed, 0, &v), 655_360),
        ("11 with the offset", value(&plane, &placed, 1, &v), 720_896),
        (
            "the other offset is 0",
            value(&plane, &placed, 2, &v),
            655_360,
        ),
        ("4 (9 + 9)", value(&axis, &placed, 0, &v), 309_237_645_312),
        ("9 + 16", value(&ball, &placed, 0, &v), 107_374_182_400),
    ];
    for (name, got, want) in rows {
        assert_eq!(rt; (got.lo, got.hi), (want, want), "{name}");
    }
}

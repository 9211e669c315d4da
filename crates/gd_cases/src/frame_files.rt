// Whole frame files: those of parts, the smallest of each code, and those at the limits.
use crate::frame_cases::{told, try_lines};
use std::test::Fail;

const SADDLE: &str = "feature,group,x,y,z
s,0,0,0,0\ns,0,1000,0,0\ns,0,0,1000,0\ns,0,1000,1000,10\n";

const LEAST: &str = "version = 1
frame = [{name = 'top', kind = 'flatness', features = ['s'], tolerance = 10}]
feature = [{name = 's', shape = 'plane', direction = [0, 0, 1], point = [0, 0, 0]}]
";

const BORED: &str = "feature,group,x,y,z
base,1,0,0,0\nbase,2,400000,0,0\nbase,3,0,400000,0\nbore,0,200500,200000,0\n";

const EVERYTHING: &str = "version = 1
turn = 6
shift = 14
centre = [0, 0, 0]

[[feature]]
name = 'base'
shape = 'plane'
direction = [0, 0, 1]
point = [0, 0, 0]

[[feature]]
name = 'bore'
shape = 'hole'
direction = [0, 0, 1]
point = [200000, 200000, 0]
radius = 500
mmc = 990
lmc = 1010

[[datum]]
name = 'A'
feature = 'base'
slack = 10

[[datum]]
name = 'B'
feature = 'bore'
slack = 10
boundary = 980

[[frame]]
name = 'pattern'
kind = 'position'
features = ['bore']
tolerance = 100
datums = ['A', 'B(M)']
material = 'mmc'
lower = 10
lower_datums = ['A']
separate = true

[[frame]]
name = 'outline'
kind = 'profile'
features = ['base', 'bore']
tolerance = 40
datums = ['A']
above = 10
";

// Eight points on a circle of radius 5,000 units, one of them 10 further out.
const CIRCLE: &str = "feature,group,x,y,z
c,1,3006,4008,0\nc,1,4000,3000,0\nc,1,-3000,4000,0\nc,1,-4000,3000,0
c,1,3000,-4000,0\nc,1,4000,-3000,0\nc,1,-3000,-4000,0\nc,1,-4000,-3000,0\n";

const ROUND: &str = "version = 1
shift = 4
feature = [{name = 'c', shape = 'hole', direction = [0, 0, 1], point = [0, 0, 0]}]
frame = [{name = 'ci', kind = 'circularity', features = ['c'], tolerance = 10}]
";

// A plate of 200 by 100 mm with four holes, whose axes were measured.
const PLATE: &str = "feature,group,x,y,z
base,1,100000,100000,0\nbase,2,1900000,100000,4\nbase,3,1000000,900000,6
back,1,300000,2,50000\nback,2,1700000,0,50000\nleft,1,3,500000,50000
h1,0,200020,199990,0\nh1,0,200030,199990,100000\nh2,0,1799990,200015,0\nh2,0,1799990,200020,100000
h3,0,200000,800040,0\nh3,0,200000,800040,100000\nh4,0,1800050,800000,0\nh4,0,1800050,800000,100000\n";

const MOVED: &str = "feature,group,x,y,z
base,1,100000,100000,0\nbase,2,1900000,100000,4\nbase,3,1000000,900000,6
back,1,300000,2,50000\nback,2,1700000,0,50000\nleft,1,3,500000,50000
h1,0,200020,199990,0\nh1,0,200030,199990,100000\nh2,0,1799990,200015,0\nh2,0,1799990,200020,100000
h3,0,200000,800040,0\nh3,0,200000,800040,100000\nh4,0,1800500,800000,0\nh4,0,1800500,800000,100000\n";

// The base has two contact groups.
const TWICE: &str = "feature,group,x,y,z
base,1,100000,100000,0\nbase,2,1900000,100000,4\nbase,2,1000000,900000,6
back,1,300000,2,50000\nback,2,1700000,0,50000\nleft,1,3,500000,50000
h1,0,200020,199990,0\nh2,0,1799990,200015,0\nh3,0,200000,800040,0\nh4,0,1800050,800000,0\n";

const POSITION: &str = "
feature = [
{name = 'base', shape = 'plane', direction = [0, 0, 1], point = [0, 0, 0]},
{name = 'back', shape = 'plane', direction = [0, 1, 0], point = [0, 0, 0]},
{name = 'left', shape = 'plane', direction = [1, 0, 0], point = [0, 0, 0]},
{name = 'h1', shape = 'axis', direction = [0, 0, 1], point = [200000, 200000, 0]},
{name = 'h2', shape = 'axis', direction = [0, 0, 1], point = [1800000, 200000, 0]},
{name = 'h3', shape = 'axis', direction = [0, 0, 1], point = [200000, 800000, 0]},
{name = 'h4', shape = 'axis', direction = [0, 0, 1], point = [1800000, 800000, 0]},
]
datum = [
{name = 'A', feature = 'base', slack = 10},
{name = 'B', feature = 'back', slack = 10},
{name = 'C', feature = 'left', slack = 10},
]
frame = [
{name = 'pos', kind = 'position', features = ['h1', 'h2', 'h3', 'h4'], tolerance = 100, datums = ['A', 'B', 'C']},
]
";

// A datum hole, and a hole beside it.
const AT_HOLE: &str = "feature,group,x,y,z
d,1,1000,0,0\nd,2,-1000,0,0\nd,3,0,1000,0\nd,4,0,-1000,0
h,0,10518,0,0\nh,0,9518,0,0\nh,0,10018,500,0\nh,0,10018,-500,0\n";

const DATUM: &str = "version = 1
turn = 20
feature = [{name = 'd', shape = 'hole', direction = [0, 0, 1], point = [0, 0, 0]},";

const AT_MMC: &str = "
{name = 'h', shape = 'hole', direction = [0, 0, 1], point = [10000, 0, 0], mmc = 1000}]
shift = 5
centre = [982, 0, 0]
datum = [{name = 'D', feature = 'd', slack = 2, boundary = 1960}]
";

const AT_FIVE: &str = "
{name = 'h', shape = 'hole', direction = [0, 0, 1], point = [10000, 0, 0], mmc = 5}]
shift = 5
centre = [982, 0, 0]
datum = [{name = 'D', feature = 'd', slack = 2, boundary = 1960}]
";

const PAIR: &str = "feature,group,x,y,z
d,1,1000,0,0\nd,2,-1000,0,0\nd,3,0,1000,0\nd,4,0,-1000,0\nh1,0,10008,0,0\nh2,0,19992,0,0\n";

const TWO_AXES: &str = "
{name = 'h1', shape = 'axis', direction = [0, 0, 1], point = [10000, 0, 0]},
{name = 'h2', shape = 'axis', direction = [0, 0, 1], point = [20000, 0, 0]}]
shift = 4
datum = [{name = 'D', feature = 'd', boundary = 1960}]
";

const SEAT: &str = "feature,group,x,y,z
d,1,1000,0,0\nd,2,-1000,0,0\nd,3,0,1000,0\nd,4,0,-1000,0
seat,1,2000,0,5000\nseat,1,-2010,0,5000\nseat,2,3000,0,9000\nseat,2,0,3010,9000\n";

const RUNOUT: &str = "version = 1
turn = 20
shift = 0
feature = [
{name = 'd', shape = 'pin', direction = [0, 0, 1], point = [0, 0, 0]},
{name = 'seat', shape = 'pin', direction = [0, 0, 1], point = [0, 0, 0]},
]
datum = [{name = 'D', feature = 'd', slack = 10}]
frame = [
{name = 'cr', kind = 'circular_runout', features = ['seat'], tolerance = 10, datums = ['D'], separate = true},
{name = 'tr', kind = 'total_runout', features = ['seat'], tolerance = 10, datums = ['D'], separate = true},
]
";

// A hole at its maximum material condition, and a position of 10 units on each of two axes or on both.
const HOLE_FRAME: &str =
    "frame = [{name = 'm', kind = 'position', features = ['h'], tolerance = 10, material = 'mmc', ";

const ON_ONE: &str =
    "{name = 'f1', kind = 'position', features = ['h1'], tolerance = 10, datums = ['D(M)']";

const ON_TWO: &str =
    "{name = 'f2', kind = 'position', features = ['h2'], tolerance = 10, datums = ['D(M)']";

const ON_BOTH: &str =
    "{name = 'pat', kind = 'position', features = ['h1', 'h2'], tolerance = 100, datums = ['D(M)']";

// Files of whole parts, with their points.
const WHOLE_FILES: &str = "\
read 1 0 1 | SADDLE | LEAST
read 2 2 2 | BORED | EVERYTHING
read 1 0 1 | CIRCLE | ROUND
read 7 3 1 | PLATE | version = 1; turn = 6; shift = 14; POSITION
read 7 3 1 | MOVED | version = 1; turn = 20; shift = 4; POSITION
29 1 3 | TWICE | version = 1; turn = 6; shift = 14; POSITION
read 2 1 1 | AT_HOLE | DATUM AT_MMC; HOLE_FRAME datums = ['D(M)']}]
read 2 1 1 | AT_HOLE | DATUM AT_MMC; HOLE_FRAME datums = ['D']}]
read 2 1 1 | AT_HOLE | DATUM AT_FIVE; HOLE_FRAME datums = ['D(M)']}]
read 3 1 2 | PAIR | DATUM TWO_AXES; frame = [ON_ONE}, ON_TWO}]
read 3 1 2 | PAIR | DATUM TWO_AXES; frame = [ON_ONE, separate = true}, ON_TWO, separate = true}]
read 3 1 1 | PAIR | DATUM TWO_AXES; frame = [ON_BOTH, lower = 10, lower_datums = ['D(M)']}]
read 2 1 2 | SEAT | RUNOUT";

#[test]
fn whole_files(rt: HostRuntime) -> Result<(), Fail> {
    let pieces = [
        ("SADDLE", SADDLE),
        ("BORED", BORED),
        ("CIRCLE", CIRCLE),
        ("PLATE", PLATE),
        ("MOVED", MOVED),
        ("TWICE", TWICE),
        ("AT_HOLE", AT_HOLE),
        ("HOLE_FRAME", HOLE_FRAME),
        ("ON_ONE", ON_ONE),
        ("ON_TWO", ON_TWO),
        ("ON_BOTH", ON_BOTH),
        ("PAIR", PAIR),
        ("SEAT", SEAT),
        ("LEAST", LEAST),
        ("EVERYTHING", EVERYTHING),
        ("ROUND", ROUND),
        ("POSITION", POSITION),
        ("DATUM", DATUM),
        ("AT_MMC", AT_MMC),
        ("AT_FIVE", AT_FIVE),
        ("TWO_AXES", TWO_AXES),
        ("RUNOUT", RUNOUT),
    ];
    try_lines(&rt, rt.alloc(), &pieces, "CASE", WHOLE_FILES)
}

// The smallest file of each code, as docs/FORMATS.md has it; those of 32 and 34 stand below.
const SMALLEST: &str = "\
20 0 0 | v
21 0 0 | version = 2
22 0 0 | a = 1; version = 1; FRAME; FEATURE
23 0 0 | # nothing
24 0 0 | version = '1'
25 0 0 | version = 1; turn = 21; FRAME; FEATURE
26 1 3 | version = 1; FEATURE; frame = [{name = 'top', kind = 'flatness', features = ['x'], tolerance = 10}]
27 1 3 | version = 1; FEATURE; frame = [{TOP, datums = ['X']}]
28 2 1 | version = 1; FRAME; feature = [TABLE, TABLE]
29 1 3 | version = 1; FEATURE; datum = [DATUM]; frame = [{PROFILE, datums = ['D']}]
30 1 1 | version = 1; FRAME; feature = [{name = 's', shape = 'plane', direction = [0, 0, 0], point = [0, 0, 0]}]
31 1 3 | version = 1; FEATURE; frame = [{TOP, material = 'mmc'}]";

const TOP: &str = "name = 'top', kind = 'flatness', features = ['s'], tolerance = 10";

const TABLE: &str = "{name = 's', shape = 'plane', direction = [0, 0, 1], point = [0, 0, 0]}";

#[test]
fn smallest_files(rt: HostRuntime) -> Result<(), Fail> {
    let pieces = [
        ("SADDLE", SADDLE),
        ("FEATURE", "feature = [TABLE]"),
        ("TABLE", TABLE),
        ("FRAME", "frame = [{TOP}]"),
        ("TOP", TOP),
        (
            "PROFILE",
            "name = 'top', kind = 'profile', features = ['s'], tolerance = 10",
        ),
        ("DATUM", "{name = 'D', feature = 's'}"),
    ];
    try_lines(&rt, rt.alloc(), &pieces, "SADDLE | CASE", SMALLEST)
}

#[test]
fn other_bytes_than_text(rt: HostRuntime) -> Result<(), Fail> {
    let got = told(
        rt.alloc(),
        SADDLE,
        b"version = 1\nturn = '\xff'\n".as_slice(),
    )?;
    assert_eq!(rt; got.as_str(), "20 0 0");
    Ok(())
}

// A list at its limit is read on, up to its first table. One table more is a fault of the top level, and comes after a
// fault of `centre` there.
const LONG_LISTS: &str = "\
23 1 1 | feature = [<1024 {}, # @; >]; frame = [{}]
25 0 0 | feature = [<1025 {}, # @; >]; frame = [{}]
24 0 0 | feature = [<1025 {}, # @; >]; frame = [{}]; centre = 1
23 1 2 | datum = [<64 {}, # @; >]; frame = [{}]
25 0 0 | datum = [<65 {}, # @; >]; frame = [{}]
24 0 0 | datum = [<65 {}, # @; >]; frame = [{}]; centre = 1
23 1 3 | frame = [<256 {}, # @; >]
25 0 0 | frame = [<257 {}, # @; >]
24 0 0 | frame = [<257 {}, # @; >]; centre = 1";

#[test]
fn long_lists(rt: HostRuntime) -> Result<(), Fail> {
    try_lines(
        &rt,
        rt.alloc(),
        &[("SADDLE", SADDLE)],
        "SADDLE | version = 1; CASE",
        LONG_LISTS,
    )
}

// Five pins: 1,000 groups each of the first four, and none of the last so far. The datum `d` has three.
const PIN_POINTS: &str = "feature,group,x,y,z
d,1,9,0,0\nd,2,0,9,0\nd,3,-9,0,0
<1000 p1,@,9,0,0\n><1000 p2,@,9,0,0\n><1000 p3,@,9,0,0\n><1000 p4,@,9,0,0\n>";

const PINS: &str = "version = 1
feature = [
{name = 'd', shape = 'pin', direction = [0, 0, 1], point = [0, 0, 0]},
{name = 'p1', shape = 'pin', direction = [0, 0, 1], point = [0, 0, 0], mmc = 18},
{name = 'p2', shape = 'pin', direction = [0, 0, 1], point = [0, 0, 0], mmc = 18},
{name = 'p3', shape = 'pin', direction = [0, 0, 1], point = [0, 0, 0], mmc = 18},
{name = 'p4', shape = 'pin', direction = [0, 0, 1], point = [0, 0, 0]},
{name = 'p5', shape = 'pin', direction = [0, 0, 1], point = [0, 0, 0]},
]
datum = [{name = 'D', feature = 'd'}]
";

const CIRCULAR: &str =
    "{name = 'c', kind = 'circular_runout', features = ['p1', 'p2', 'p3', 'p4', 'p5'], tolerance = 9, datums = ['D']}";

const PARALLEL: &str =
    "{name = 'p', kind = 'parallelism', features = ['p1', 'p2', 'p3'], tolerance = 9, \
    material = 'mmc', datums = ['D']}";

// 3 conditions of the datum word, 4,000 of the first four pins, and those of the last.
const MANY_CONDITIONS: &str = "\
read 6 1 1 | <93 p5,@,9,0,0; > | PINS; frame = [CIRCULAR]
34 1 3 | <94 p5,@,9,0,0; > | PINS; frame = [CIRCULAR]
34 1 3 | <94 p5,@,9,0,0; > | PINS; frame = [CIRCULAR, PARALLEL]
32 1 3 | <94 p5,@,9,0,0; > | PINS; frame = [PARALLEL, CIRCULAR]";

#[test]
fn many_conditions(rt: HostRuntime) -> Result<(), Fail> {
    let pieces = [
        ("PIN_POINTS", PIN_POINTS),
        ("PINS", PINS),
        ("CIRCULAR", CIRCULAR),
        ("PARALLEL", PARALLEL),
    ];
    try_lines(&rt, rt.alloc(), &pieces, "PIN_POINTSCASE", MANY_CONDITIONS)
}

// Three planes with 999 contact groups each, and 64 axes.
const PLANE_POINTS: &str = "feature,group,x,y,z
<1000 p,@,0,0,0\n><1000 q,@,0,0,0\n><1000 r,@,0,0,0\n><64 a@,0,0,0,0\n>";

const PLANES: &str =
    "datum = [{name = 'P', feature = 'p'}, {name = 'Q', feature = 'q'}, {name = 'R', feature = 'r'}]
version = 1
feature = [
{name = 'p', shape = 'plane', direction = [0, 0, 1], point = [0, 0, 0]},
{name = 'q', shape = 'plane', direction = [1, 0, 0], point = [0, 0, 0]},
{name = 'r', shape = 'plane', direction = [0, 1, 0], point = [0, 0, 0]},
<64 {name = 'a@', shape = 'axis', direction = [0, 0, 1], point = [0, 0, 0]},\n>]
";

const JOINED: &str = "kind = 'position', tolerance = 9, datums = ['P', 'Q', 'R']";

const EIGHT: &str = "'a0','a1','a2','a3','a4','a5','a6','a7'";

const OTHERS: &str = "\
    'a8','a9','a10','a11','a12','a13','a14','a15','a16','a17','a18','a19','a20','a21',\
    'a22','a23','a24','a25','a26','a27','a28','a29','a30','a31','a32','a33','a34','a35',\
    'a36','a37','a38','a39','a40','a41','a42','a43','a44','a45','a46','a47','a48','a49',\
    'a50','a51','a52','a53','a54','a55','a56','a57','a58','a59','a60','a61','a62','a63'";

// 3,000 conditions of the datum words, 1,088 of seventeen frames of 64 axes, and those of one more frame: no frame has
// 4,096 alone.
const JOINED_CONDITIONS: &str = "\
read 67 3 18 | EIGHT
34 18 3 | EIGHT, 'a8'";

#[test]
fn joined_conditions(rt: HostRuntime) -> Result<(), Fail> {
    let pieces = [
        ("PLANE_POINTS", PLANE_POINTS),
        ("PLANES", PLANES),
        ("JOINED", JOINED),
        ("EIGHT", EIGHT),
        ("OTHERS", OTHERS),
    ];
    let shape =
        "PLANE_POINTS | PLANES; frame = [<17 {name = 'f@', JOINED, features = [EIGHT, OTHERS]},>; \
        {name = 'last', JOINED, features = [CASE]}]; ";
    try_lines(&rt, rt.alloc(), &pieces, shape, JOINED_CONDITIONS)
}

// Frame files with one thing wrong at each place where it can stand, and with two things wrong.
use crate::frame_cases::{Piece, try_lines};
use std::test::Fail;

// Planes p with three contact groups and q with two, a hole h, a pin m, axes a, b, c and a sphere s.
const POINTS: &str = "feature,group,x,y,z
p,1,0,0,0\np,2,9,0,0\np,3,0,9,0\nq,1,0,0,0\nq,2,0,9,0
h,1,9,0,0\nh,2,0,9,0\nh,3,-9,0,0\nm,1,9,0,0\nm,2,0,9,0\nm,3,-9,0,0
a,0,0,0,0\nb,0,0,0,0\nc,0,0,0,0\ns,0,0,0,0\n";

const FEATURES: &str = "version = 1
feature = [
{name = 'p', shape = 'plane', direction = [0, 0, 1], point = [0, 0, 0]},
{name = 'q', shape = 'plane', direction = [1, 0, 0], point = [0, 0, 0]},
{name = 'h', shape = 'hole', direction = [0, 0, 1], point = [0, 0, 0]},
{name = 'm', shape = 'pin', direction = [0, 0, 1], point = [0, 0, 0], radius = 9, mmc = 18},
{name = 'a', shape = 'axis', direction = [0, 0, 1], point = [0, 0, 0]},
{name = 'b', shape = 'axis', direction = [0, 0, 1], point = [0, 0, 0]},
{name = 'c', shape = 'axis', direction = [0, 0, 1], point = [0, 0, 0]},
{name = 's', shape = 'sphere', point = [0, 0, 0]},
]
datum = [
{name = 'P', feature = 'p'},
{name = 'Q', feature = 'q'},
{name = 'H', feature = 'h', boundary = 17},
{name = 'M', feature = 'm'},
{name = 'A', feature = 'a'},
]
";

// Whole files without features.
const TOP_LEVELS: &str = "\
23 0 0 | # nothing
20 0 0 | version
20 0 0 | version = 9223372036854775808
22 0 0 | colour = 1
21 0 0 | version = 2
21 0 0 | version = -1
24 0 0 | version = 1.0
24 0 0 | version = 1979-05-27
23 0 0 | version = 1
21 0 0 | version = 2; turn = true
23 0 0 | turn = 21
22 0 0 | colour = 1; version = '1'
23 0 0 | version = 1; feature = [{hue = 1}]
23 0 0 | version = 1; frame = []
24 0 0 | version = 1; frame = 1
24 0 0 | version = 1; frame = [1]
25 0 0 | version = 1; turn = 'most'
25 0 0 | version = 1; turn = 21
24 0 0 | version = 1; turn = true
25 0 0 | version = 1; turn = 'all'; shift = 26
25 0 0 | version = 1; turn = 20; centre = [0, 0]
24 0 0 | version = 1; centre = [0, 'x', 0, 0]
25 0 0 | version = 1; centre = [0, 0, 8000001]
24 0 0 | version = 1; feature = 1; frame = 2
23 1 3 | version = 1; frame = [{}]
23 1 2 | version = 1; frame = [{}]; datum = [{}]
23 1 1 | version = 1; frame = [{}]; datum = [{}]; feature = [{}]";

// Tables behind a version and an empty frame table.
const FEATURE_AND_DATUM_TABLES: &str = "\
22 1 1 | feature = [{hue = 1}]
24 1 1 | feature = [{name = 1}]
25 1 1 | feature = [{name = ''}]
25 1 1 | feature = [{name = 'abcdefghijklmnopqrstuvwxyz0123456'}]
26 1 1 | feature = [{name = 'z'}]
23 1 1 | feature = [{name = 'p'}]
25 1 1 | feature = [{name = 'p', shape = 'cube'}]
23 1 1 | feature = [{name = 'p', shape = 'plane'}]
25 1 1 | feature = [{name = 'p', shape = 'plane', direction = [0, 0, 1001]}]
24 1 1 | feature = [{name = 'p', shape = 'plane', direction = [0, 'x', 1001, 0]}]
25 1 1 | feature = [{name = 'p', shape = 'plane', direction = [0, 0, 0, 0]}]
30 1 1 | feature = [{name = 's', shape = 'sphere', direction = [0, 0, 0]}]
23 1 1 | feature = [{name = 's', shape = 'sphere'}]
25 1 1 | feature = [{name = 's', shape = 'sphere', point = [0, 0, 0], radius = -1}]
25 1 1 | feature = [{name = 's', shape = 'sphere', point = [0, 0, 0], radius = 8000001}]
28 2 1 | feature = [SPHERE, {name = 's'}]
26 1 2 | feature = [SPHERE]; datum = [{name = 'D', feature = 'p'}]
25 1 2 | feature = [SPHERE]; datum = [{name = 'D', feature = 's', slack = 10001}]
28 2 2 | feature = [SPHERE]; datum = [{name = 'D', feature = 's'}, {name = 'D'}]";

// Keys of a frame table behind the features and datums above.
const FRAME_TABLES: &str = "\
read 8 5 1 | kind = 'flatness', features = ['p'], tolerance = 10
22 1 3 | kind = 'flatness', features = ['p'], tolerance = 10, hue = 1
23 1 3 | features = ['p'], tolerance = 10
25 1 3 | kind = 'flat', features = ['p'], tolerance = 10
25 1 3 | kind = 'flatness', features = [], tolerance = 10
25 1 3 | kind = 'flatness', features = ['p', 'q'], tolerance = 10
28 1 3 | kind = 'position', features = ['X', 'X'], tolerance = 10
25 1 3 | kind = 'position', features = ['X', '!'], tolerance = 10
24 1 3 | kind = 'position', features = ['!', 1], tolerance = 10
26 1 3 | kind = 'position', features = ['X'], tolerance = 10
25 1 3 | kind = 'position', features = ['a'], tolerance = 16000001
27 1 3 | kind = 'position', features = ['a'], tolerance = 10, datums = ['X']
28 1 3 | kind = 'position', features = ['a'], tolerance = 10, datums = ['P', 'P(M)']
26 1 3 | kind = 'position', features = ['X']
28 1 3 | kind = 'position', features = ['a'], tolerance = 10, datums = ['X', 'X(M)']
27 1 3 | kind = 'position', features = ['h'], tolerance = 10, datums = ['X']
31 1 3 | kind = 'position', features = ['h'], tolerance = 10, datums = ['M(M)']
31 1 3 | kind = 'position', features = ['h'], tolerance = 10, datums = ['Q']
23 1 3 | kind = 'position', features = ['a'], tolerance = 10, datums = ['Q', 'M(M)']
29 1 3 | kind = 'parallelism', features = ['a', 'b', 'c'], tolerance = 10, datums = ['Q']
25 1 3 | kind = 'position', features = ['a'], tolerance = 10, datums = ['P (M)']
25 1 3 | kind = 'position', features = ['a'], tolerance = 10, datums = ['P', 'Q', 'H', 'M']
read 8 5 1 | kind = 'position', features = ['a'], tolerance = 10, datums = ['P', 'Q', 'H']
29 1 3 | kind = 'position', features = ['a'], tolerance = 10, datums = ['Q', 'P', 'H']
read 8 5 1 | kind = 'position', features = ['a'], tolerance = 10, datums = ['H(M)', 'Q']
23 1 3 | kind = 'position', features = ['a'], tolerance = 10, datums = ['M(M)']
31 1 3 | kind = 'position', features = ['a'], tolerance = 10, datums = ['P(M)']
31 1 3 | kind = 'position', features = ['a'], tolerance = 10, datums = ['A']
31 1 3 | kind = 'position', features = ['h'], tolerance = 10
23 1 3 | kind = 'position', features = ['h'], tolerance = 10, material = 'mmc'
read 8 5 1 | kind = 'position', features = ['m'], tolerance = 10, material = 'mmc'
23 1 3 | kind = 'position', features = ['m'], tolerance = 10, material = 'lmc'
31 1 3 | kind = 'profile', features = ['a'], tolerance = 10
23 1 3 | kind = 'profile', features = ['s'], tolerance = 10
read 8 5 1 | kind = 'profile', features = ['p', 'm'], tolerance = 10, above = 10
25 1 3 | kind = 'position', features = ['a'], tolerance = 10, above = 11
31 1 3 | kind = 'position', features = ['a'], tolerance = 10, above = 10
31 1 3 | kind = 'profile', features = ['p'], tolerance = 10, lower = 1
read 8 5 1 | kind = 'profile', features = ['p'], tolerance = 10, lower_datums = []
31 1 3 | kind = 'position', features = ['a'], tolerance = 10, datums = ['H(M)'], lower_datums = ['H(M)']
31 1 3 | kind = 'position', features = ['a'], tolerance = 10, datums = ['H(M)'], lower = 1, lower_datums = ['H']
read 8 5 1 | kind = 'position', features = ['a'], tolerance = 10, datums = ['H(M)'], lower = 1, lower_datums = ['H(M)']
31 1 3 | kind = 'angularity', features = ['p'], tolerance = 10
read 8 5 1 | kind = 'parallelism', features = ['a', 'b', 'p'], tolerance = 10, datums = ['P']
32 1 3 | kind = 'parallelism', features = ['a', 'b', 'c'], tolerance = 10, datums = ['P']
31 1 3 | kind = 'total_runout', features = ['p'], tolerance = 10, datums = ['P']
31 1 3 | kind = 'total_runout', features = ['p'], tolerance = 10, datums = ['H(M)']
read 8 5 1 | kind = 'circular_runout', features = ['p'], tolerance = 10, datums = ['H'], separate = true
24 1 3 | kind = 'circular_runout', features = ['p'], tolerance = 10, datums = ['H'], separate = 1";

const SPHERE: &str = "{name = 's', shape = 'sphere', point = [0, 0, 0]}";

const PIECES: [Piece; 3] = [
    ("POINTS", POINTS),
    ("FEATURES", FEATURES),
    ("SPHERE", SPHERE),
];

#[test]
fn top_levels(rt: HostRuntime) -> Result<(), Fail> {
    try_lines(&rt, rt.alloc(), &PIECES, "POINTS | CASE", TOP_LEVELS)
}

#[test]
fn features_and_datums(rt: HostRuntime) -> Result<(), Fail> {
    let shape = "POINTS | version = 1; frame = [{}]; CASE";
    try_lines(&rt, rt.alloc(), &PIECES, shape, FEATURE_AND_DATUM_TABLES)
}

#[test]
fn frames(rt: HostRuntime) -> Result<(), Fail> {
    let shape = "POINTS | FEATURES; frame = [{name = 'f', CASE}]; ";
    try_lines(&rt, rt.alloc(), &PIECES, shape, FRAME_TABLES)
}

// Whole runs of `judge` and `check` over memory, in which each call fails in turn.
use crate::runs::{CERTIFICATE, CORNER, shelf_of, try_run};
use gd_base::{Memory, Name2};
use gd_world::MemShelf;
use std::alloc::Global;
use std::test::Fail;

// Flatness of the corner of a cube, whose certificate is that of `flat`: all points are of its one feature.
const FRAMES: &str = "version = 1
feature = [{name = 'a', shape = 'plane', direction = [0, 0, 1], point = [0, 0, 0]}]
frame = [{name = 'top', kind = 'flatness', features = ['a'], tolerance = 10}]
";

// The corner, its frames under `f`, and what `c` holds where there is something.
fn shelf_with_frames(alloc: Global, certificate: &str) -> Result<MemShelf, Memory> {
    let mut shelf = shelf_of(alloc, CORNER, certificate)?;
    shelf.add(
        Name2::of(alloc, "f")?,
        Vec::from_slice(alloc, FRAMES.as_bytes())?,
    )?;
    Ok(shelf)
}

#[test]
fn calls_on_frames_fail_in_turn(rt: HostRuntime) -> Result<(), Fail> {
    // Words, what `c` holds before, the call of the shelf that fails and how many bytes it then leaves, the put that
    // fails, the status, what the sink holds, and what `c` holds after.
    let judge = "judge f p.csv c 5 text";
    let check = "check f p.csv c";
    let report = "group 1 top reject leaves 3\nstatus 1\n";
    let json =
        "{\"groups\":[{\"leaves\":3,\"name\":\"top\",\"verdict\":\"reject\"}],\"status\":1}\n";
    let no_points = "gdteval: cannot read p.csv\n";
    let no_frames = "gdteval: cannot read f\n";
    let no_certificate = "gdteval: cannot read c\n";
    let cases = [
        (judge, "old", (0, 0, 0), 1, report, CERTIFICATE),
        (
            "judge f p.csv c 5 json",
            "",
            (0, 0, 0),
            1,
            json,
            CERTIFICATE,
        ),
        (judge, "old", (1, 3, 0), 5, no_points, "old"),
        (judge, "old", (2, 3, 0), 5, no_frames, "old"),
        (judge, "old", (3, 0, 0), 6, "", ""),
        (judge, "old", (3, 3, 0), 6, "", "gdc"),
        (judge, "old", (3, 1000, 0), 6, "", CERTIFICATE),
        (
            judge,
            "old",
            (0, 0, 1),
            6,
            "group 1 top reject",
            CERTIFICATE,
        ),
        (check, CERTIFICATE, (0, 0, 0), 0, "valid\n", CERTIFICATE),
        (check, CERTIFICATE, (1, 0, 0), 5, no_points, CERTIFICATE),
        (check, CERTIFICATE, (2, 0, 0), 5, no_frames, CERTIFICATE),
        (
            check,
            CERTIFICATE,
            (3, 0, 0),
            5,
            no_certificate,
            CERTIFICATE,
        ),
        (check, CERTIFICATE, (0, 0, 1), 6, "val", CERTIFICATE),
        (check, "", (0, 0, 0), 5, no_certificate, ""),
        (check, "x", (0, 0, 0), 8, "invalid line 1 code 45\n", "x"),
    ];
    let points = CORNER.as_bytes();
    for (line, before, faults, status, text, after) in cases {
        let shelf = shelf_with_frames(rt.alloc(), before)?;
        let want = (status, text.as_bytes(), after.as_bytes(), points);
        try_run(&rt, rt.alloc(), shelf, line, faults, want)?;
    }
    Ok(())
}

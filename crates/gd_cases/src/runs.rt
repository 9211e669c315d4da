// Whole runs over memory, in which each call fails in turn. Ample memory never gives the status of want of memory.
use gd_base::{Memory, Name2};
use gd_run::run;
use gd_world::{MemShelf, MemSink};
use std::alloc::Global;
use std::process::Abort;
use std::test::Fail;
use std::thread::Threads;

const SADDLE: &str =
    "feature,group,x,y,z\ns,0,0,0,0\ns,0,1000,0,0\ns,0,0,1000,0\ns,0,1000,1000,10\n";

pub(crate) const CORNER: &str =
    "feature,group,x,y,z\na,0,0,0,0\na,0,1000,0,0\na,0,0,1000,0\na,0,0,0,1000\n";

pub(crate) const CERTIFICATE: &str =
    "gdcert 1\nplain\nshare 5\ngroups 1\ngroup 1 reject\nr 1 2 1\nr 1 3 1\nr 1 4 1\nend\n";

/// What a run leaves: its status, what the sink holds, and what `c` and `p.csv` hold.
pub(crate) type Left<'a> = (u8, &'a [u8], &'a [u8], &'a [u8]);

/// A part of four points, or of the corner of a cube, under `p.csv`, and what `c` holds where there is something.
pub(crate) fn shelf_of(alloc: Global, points: &str, certificate: &str) -> Result<MemShelf, Memory> {
    let mut shelf = MemShelf::new(alloc);
    let bytes = Vec::from_slice(alloc, points.as_bytes())?;
    shelf.add(Name2::of(alloc, "p.csv")?, bytes)?;
    if !certificate.is_empty() {
        let bytes = Vec::from_slice(alloc, certificate.as_bytes())?;
        shelf.add(Name2::of(alloc, "c")?, bytes)?;
    }
    Ok(shelf)
}

// What a name holds, by its first entry: nothing where it has none.
fn held<'a>(shelf: &'a MemShelf, name: &str) -> &'a [u8] {
    for file in &shelf.files {
        if file.0.text() == name {
            return file.1.as_slice();
        }
    }
    b""
}

// The words of a line.
fn words_of(alloc: Global, line: &str) -> Result<Vec<String>, Memory> {
    let mut words = Vec::new(alloc);
    for word in line.split(' ') {
        words.push(String::from_str(alloc, word)?)?;
    }
    Ok(words)
}

/// Tries the words of a line. The call of the shelf of the first number fails and then leaves so many bytes, as does the
/// put of the last number; 0 fails none.
pub(crate) fn try_run<R: Abort + Threads + Sync>(
    rt: &R,
    alloc: Global,
    mut shelf: MemShelf,
    line: &str,
    faults: (u64, u64, u64),
    want: Left<'_>,
) -> Result<(), Fail> {
    let words = words_of(alloc, line)?;
    shelf.fail.push(faults.0)?;
    shelf.prefix = faults.1;
    let mut out = MemSink::new(alloc);
    out.fail.push(faults.2)?;
    let ended = run(rt, alloc, &words, &mut shelf, &mut out);
    let left = (
        ended.0,
        out.bytes.as_slice(),
        held(&shelf, "c"),
        held(&shelf, "p.csv"),
    );
    assert_eq!(rt; left, want, "{line}, {faults:?}");
    Ok(())
}

#[test]
fn runs_over_memory(rt: HostRuntime) -> Result<(), Fail> {
    // Words, the load and the put that fail, if any, the status, and what the sink holds.
    let cases = [
        (
            "flat p.csv 10 1000",
            0,
            0,
            0,
            "accept level 0 direction 0 0 1073741824\n",
        ),
        (
            "flat p.csv 4 3",
            0,
            0,
            2,
            "open budget level 2 undecided 3 spent 3\n",
        ),
        ("flat p.csv 4 10000", 0, 0, 1, "reject leaves 62\n"),
        (
            "flat q.csv 10 1000",
            0,
            0,
            5,
            "gdteval: cannot read q.csv\n",
        ),
        (
            "flat p.csv 10 1000",
            1,
            0,
            5,
            "gdteval: cannot read p.csv\n",
        ),
        ("flat p.csv 10 1000", 0, 1, 6, "accept level 0 direc"),
        ("flat p.csv 4 10000", 0, 1, 6, "reject l"),
        ("flat p.csv 4 3", 0, 1, 6, "open budget level 2 "),
        ("flat q.csv 10 1000", 0, 1, 6, "gdteval: cann"),
        ("flat p.csv 10", 0, 0, 4, "gdteval: wrong words\n"),
        ("flat p.csv 10", 0, 1, 6, "gdteval: w"),
    ];
    let points = SADDLE.as_bytes();
    for (line, load, put, status, text) in cases {
        let shelf = shelf_of(rt.alloc(), SADDLE, "")?;
        let want = (status, text.as_bytes(), b"".as_slice(), points);
        try_run(&rt, rt.alloc(), shelf, line, (load, 0, put), want)?;
    }
    Ok(())
}

#[test]
fn calls_fail_in_turn(rt: HostRuntime) -> Result<(), Fail> {
    // Words, what `c` holds before, the call of the shelf that fails and how many bytes it then leaves, the put that
    // fails, the status, what the sink holds, and what `c` holds after.
    let flat = "flat p.csv 10 5 c";
    let check = "checkflat p.csv 10 c";
    let unread = "gdteval: cannot read p.csv\n";
    let cases = [
        (flat, "", (0, 0, 0), 1, "reject leaves 3\n", CERTIFICATE),
        (flat, "old", (0, 0, 0), 1, "reject leaves 3\n", CERTIFICATE),
        (flat, "old", (1, 3, 0), 5, unread, "old"),
        (flat, "old", (2, 0, 0), 6, "", ""),
        (flat, "old", (2, 3, 0), 6, "", "gdc"),
        (flat, "old", (2, 1000, 0), 6, "", CERTIFICATE),
        (flat, "old", (0, 0, 1), 6, "reject l", CERTIFICATE),
        (check, CERTIFICATE, (0, 0, 0), 0, "valid\n", CERTIFICATE),
        (check, CERTIFICATE, (1, 0, 0), 5, unread, CERTIFICATE),
        (
            check,
            CERTIFICATE,
            (2, 0, 0),
            5,
            "gdteval: cannot read c\n",
            CERTIFICATE,
        ),
        (check, CERTIFICATE, (0, 0, 1), 6, "val", CERTIFICATE),
        (check, "", (0, 0, 0), 5, "gdteval: cannot read c\n", ""),
        (check, "x", (0, 0, 0), 8, "invalid line 1 code 45\n", "x"),
        (check, "x", (0, 0, 1), 6, "invalid lin", "x"),
    ];
    let points = CORNER.as_bytes();
    for (line, before, faults, status, text, after) in cases {
        let shelf = shelf_of(rt.alloc(), CORNER, before)?;
        let want = (status, text.as_bytes(), after.as_bytes(), points);
        try_run(&rt, rt.alloc(), shelf, line, faults, want)?;
    }
    Ok(())
}

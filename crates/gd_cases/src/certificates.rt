// Certificates of a small task: a valid one of each verdict, and one for each code.
use gd_cert::read_cert;
use gd_check::{CheckAnswer, check};
use gd_toys::Toy;
use std::alloc::{AllocError, Global};
use std::test::Fail;

// A toy of three levels, whose centres hold from level 1 on where it shows.
fn toy(shows: bool, depth: u32) -> Toy<'static, ()> {
    Toy {
        shows,
        depth,
        least: 1,
        finest: 3,
        points: 1,
        watch: &(),
    }
}

// The lines of a tree from a letter a line: `s`, `r` or `o`.
fn tree_lines(alloc: Global, letters: &str) -> Result<String, AllocError> {
    let lines = letters.replace(alloc, "r", "r 1 1 0\n")?;
    let lines = lines.replace(alloc, "s", "s\n")?;
    lines.replace(alloc, "o", "o\n")
}

// The line and the code of what is wrong with a certificate of one group: 0 and 0 where it is valid, and none where its
// text isn't read.
fn wrong(
    alloc: Global,
    toy: Toy<'_, ()>,
    told: u32,
    group: &str,
    letters: &str,
) -> Result<Option<(u32, u32)>, Fail> {
    let lines = tree_lines(alloc, letters)?;
    let text = format!(in alloc;
        "gdcert 1\nplain\nshare 3\ngroups {told}\ngroup 1 {group}\n{lines}end\n"
    )?;
    if text.len() > 1000 {
        return Ok(None);
    }
    let Ok(cert) = read_cert(alloc, text.as_bytes()) else {
        return Ok(None);
    };
    match check(alloc, &[toy], &cert)? {
        CheckAnswer::Valid => Ok(Some((0, 0))),
        CheckAnswer::Invalid { line, code } => Ok(Some((line, code))),
    }
}

#[test]
fn accepts(rt: HostRuntime) -> Result<(), Fail> {
    let cases = [
        ("it holds", "accept\nw 1 1 0", (0, 0)),
        ("it doesn't", "accept\nw 1 0 0", (6, 51)),
        ("three numbers", "accept\nw 1 0 0 0", (6, 52)),
    ];
    for (name, group, want) in cases {
        let got = wrong(rt.alloc(), toy(true, 0), 1, group, "")?;
        assert_eq!(rt; got, Some(want), "{name}");
    }
    Ok(())
}

#[test]
fn rejects(rt: HostRuntime) -> Result<(), Fail> {
    let cases = [
        ("all refuted", 2, 1, "srrssrrsrr", (0, 0)),
        ("not refuted there", 2, 1, "srrsrr", (10, 50)),
        ("no line of a root", 2, 1, "srr", (9, 53)),
        ("no cell of a line", 1, 1, "srrsrrr", (12, 54)),
        ("no second group", 1, 2, "srrsrr", (4, 55)),
        ("the grid ends", 9, 1, "srrssss", (12, 57)),
    ];
    for (name, depth, told, letters, want) in cases {
        let got = wrong(rt.alloc(), toy(false, depth), told, "reject", letters)?;
        assert_eq!(rt; got, Some(want), "{name}");
    }
    Ok(())
}

#[test]
fn opens(rt: HostRuntime) -> Result<(), Fail> {
    let cases = [
        ("undecided", 2, "open\nat 1 2 2 budget", (0, 0)),
        ("a count", 2, "open\nat 1 2 1 budget", (6, 56)),
        ("refuted", 1, "open\nat 1 2 2 budget", (11, 56)),
    ];
    for (name, depth, group, want) in cases {
        let got = wrong(rt.alloc(), toy(false, depth), 1, group, "srrsoo")?;
        assert_eq!(rt; got, Some(want), "{name}");
    }
    Ok(())
}

// The program: it repeats one call over drawn numbers, the reading of a frame file or the making of its groups, and prints a
// checksum of the answers.
#![tactic(auto)]

mod conditions;
mod directions;
mod draws;
mod forms;
mod frames;
mod groups;
mod rows;

use conditions::{Place, Turn, condition, judge_all, members_text};
use directions::{Direction, Point, WideDirection};
use draws::{Drawn, draw_all};
use forms::{draw_axes, form_named, judge_axes};
use frames::{frames_text, points_text, read_once, table_of};
use gd_axis::Judged;
use gd_frames::read_frames;
use gd_points::PointIndex;
use gd_zone::Subject;
use groups::{group_once, joined_frames_text, many_points_text};
use rows::{Factors, Fraction, Radicand, Row, Sides, Square};
use std::process::ExitCode;
use std::time::Instant;
use std::{env, io};

const WRONG_WORDS: &str = "gd_bench: KERNEL TURNS [time]";
/// How many calls a turn has.
const CALLS: u32 = 256;
/// How many points one call of a direction takes.
const POINTS: u32 = 4_096;

/// A checksum of some turns, and their nanoseconds.
#[derive(Clone, Copy)]
struct Measured {
    sum: i128,
    nanoseconds: u128,
}

/// One turn, from a checksum to the next. It isn't inlined, so that no drawn number becomes a constant of its code.
#[inline(never)]
fn summed<T: Row>(rows: &[T], points: &[Point], start: i128) -> i128 {
    let mut sum = start;
    for row in rows {
        let (lo, hi) = row.answer(points);
        sum = (sum ^ lo).wrapping_add(hi);
    }
    sum
}

fn measure<T: Row + Drawn + Drop>(rt: &HostRuntime, turns: u32) -> io::Result<Measured> {
    let rows: Vec<T> = draw_all(rt.alloc(), CALLS)?;
    let points = draw_all(rt.alloc(), POINTS)?;
    let start = Instant::now(rt)?;
    let mut sum = 0;
    for _ in 0..turns {
        sum = summed(&rows, &points, sum);
    }
    let nanoseconds = start.elapsed(rt)?.as_nanos();
    Ok(Measured { sum, nanoseconds })
}

/// The turns of reading a frame file at all its limits.
fn measure_frames(rt: &HostRuntime, turns: u32) -> io::Result<Option<Measured>> {
    let alloc = rt.alloc();
    let points = points_text(alloc)?;
    let Some(table) = table_of(alloc, points.as_str()) else {
        return Ok(None);
    };
    let text = frames_text(alloc)?;
    let start = Instant::now(rt)?;
    let mut sum = 0;
    for _ in 0..turns {
        sum = read_once(alloc, text.as_str(), &table, sum);
    }
    let nanoseconds = start.elapsed(rt)?.as_nanos();
    Ok(Some(Measured { sum, nanoseconds }))
}

/// The turns of making the groups of a frame file at its limits.
fn measure_groups(rt: &HostRuntime, turns: u32) -> io::Result<Option<Measured>> {
    let alloc = rt.alloc();
    let points = many_points_text(alloc)?;
    let text = joined_frames_text(alloc)?;
    let Some(table) = table_of(alloc, points.as_str()) else {
        return Ok(None);
    };
    let Ok(file) = read_frames(alloc, text.as_bytes(), &table) else {
        return Ok(None);
    };
    let Ok(index) = PointIndex::of(alloc, &table) else {
        return Ok(None);
    };
    let start = Instant::now(rt)?;
    let mut sum = 0;
    for _ in 0..turns {
        sum = group_once(alloc, &file, &index, sum);
    }
    let nanoseconds = start.elapsed(rt)?.as_nanos();
    Ok(Some(Measured { sum, nanoseconds }))
}

/// The turns of bounding the condition of a name over 256 cells, or `None` where none has that name.
fn measure_condition(rt: &HostRuntime, name: &str, turns: u32) -> io::Result<Option<Measured>> {
    let alloc = rt.alloc();
    let text = members_text(alloc)?;
    let (Some(condition), Some(table)) = (condition(name), table_of(alloc, text.as_str())) else {
        return Ok(None);
    };
    let Ok(index) = PointIndex::of(alloc, &table) else {
        return Ok(None);
    };
    let subject = Subject::of(&condition, &index);
    let places: Vec<Place> = draw_all(alloc, CALLS)?;
    let start = Instant::now(rt)?;
    let mut sum = 0;
    for _ in 0..turns {
        sum = judge_all(&subject, &places, sum);
    }
    let nanoseconds = start.elapsed(rt)?.as_nanos();
    Ok(Some(Measured { sum, nanoseconds }))
}

/// The turns of a form of a name over 256 boxes of axes, or `None` where none has that name.
fn measure_form(rt: &HostRuntime, name: &str, turns: u32) -> io::Result<Option<Measured>> {
    let alloc = rt.alloc();
    let text = members_text(alloc)?;
    let (Some(form), Some(table)) = (form_named(name), table_of(alloc, text.as_str())) else {
        return Ok(None);
    };
    let Ok(index) = PointIndex::of(alloc, &table) else {
        return Ok(None);
    };
    let Some(judged) = Judged::of(&index, 0, None) else {
        return Ok(None);
    };
    let all = draw_axes(alloc, form.shape, CALLS)?;
    let start = Instant::now(rt)?;
    let mut sum = 0;
    for _ in 0..turns {
        sum = judge_axes(&judged, &all, form.tolerance, sum);
    }
    let nanoseconds = start.elapsed(rt)?.as_nanos();
    Ok(Some(Measured { sum, nanoseconds }))
}

/// The kernel of a name, or `None` where none has it.
fn named(rt: &HostRuntime, name: &str, turns: u32) -> io::Result<Option<Measured>> {
    Ok(Some(match name {
        "mul" => measure::<Factors>(rt, turns)?,
        "quot" => measure::<Fraction>(rt, turns)?,
        "root" => measure::<Square>(rt, turns)?,
        "isqrt" => measure::<Radicand>(rt, turns)?,
        "cmp_root" => measure::<Sides>(rt, turns)?,
        "dot_128" => measure::<WideDirection>(rt, turns)?,
        "dot_64" => measure::<Direction>(rt, turns)?,
        "matrix" => measure::<Turn>(rt, turns)?,
        "frames" => return measure_frames(rt, turns),
        "groups" => return measure_groups(rt, turns),
        "line" | "circle" | "cylinder" => return measure_form(rt, name, turns),
        _ => return measure_condition(rt, name, turns),
    }))
}

/// Does what the words ask for, and tells whether they are right.
fn run(rt: &HostRuntime) -> io::Result<bool> {
    let mut words = env::args(rt)?.skip(1);
    let (Some(name), Some(turns)) = (words.next(), words.next()) else {
        return Ok(false);
    };
    let Ok(turns) = turns.parse() else {
        return Ok(false);
    };
    let Some(it) = named(rt, &name, turns)? else {
        return Ok(false);
    };
    match words.next() {
        None => println!(rt; "{}", it.sum)?,
        Some(_) => println!(rt; "{} {}", it.sum, it.nanoseconds)?,
    }
    Ok(true)
}

fn main(rt: HostRuntime) -> io::Result<ExitCode> {
    if run(&rt)? {
        return Ok(ExitCode::SUCCESS);
    }
    eprintln!(rt; "{WRONG_WORDS}")?;
    Ok(ExitCode::from(4))
}

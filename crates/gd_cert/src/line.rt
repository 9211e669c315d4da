// What the words of one line tell.
ghost use Rattle.std.specs.List.{list_all};
ghost use Rattle.std.specs.Prelude.{◌≡◌, ◌+◌, ◌<◌, ◌^◌, true};
ghost use Rattle.gd_base.specs.Causes.{Gives};
ghost use Rattle.gd_cert.specs.Bounds.{is_requirement_byte};
ghost use Rattle.gd_cert.specs.Certificates.{body_of, heading_of};
ghost use Rattle.gd_cert.specs.Drafts.{line_cause, texts};
ghost use Rattle.gd_cert.specs.Lines.{counts_in, end_in, ends_tree, evidence_in, group_in, heading_in, level_in, lone, node_in, number_and_verdict_in, place_in, probe_in, reason_in, share_in, sized_in, told_in, verdict_in, witness_in};
ghost use Rattle.gd_cert.specs.Words.{is_requirement, is_word};

use crate::cert::{CertBody, Head};
use crate::number::{read_below, read_number, read_signed_all};
use crate::rule::{LineFault, Rule};
use crate::stage::Stage;
use crate::word::is;
use gd_base::limits::{BUDGET, GROUPS, REQUIREMENT_BYTES, TOLERANCE};
use gd_base::{Counts, Name2, Reason};
use gd_cells::{Evidence, MOST_DIMS, Node};
use std::alloc::Global;
use std::str;

/// `plain`, or `probe NAME T`.
pub(crate) fn read_heading(alloc: Global, words: &[&[u8]]) -> Result<Head, LineFault>
    ensures { Gives line_cause heading_of result (heading_in (texts words.now)) }
{
    match words {
        [word] => {
            if is(word, b"plain".as_slice()) {
                Ok(Head::Plain)
            } else {
                Err(LineFault::Rule(Rule::Head))
            }
        }
        [word, name, tolerance] => {
            if is(word, b"probe".as_slice()) && is_requirement_name(name) {
                read_probe(alloc, name, tolerance)
            } else {
                Err(LineFault::Rule(Rule::Head))
            }
        }
        _ => Err(LineFault::Rule(Rule::Head)),
    }
}

// The requirement of a name, at a tolerance.
fn read_probe(alloc: Global, name: &[u8], tolerance: &[u8]) -> Result<Head, LineFault>
    requires { is_requirement name.now ≡ true }
    ensures { Gives line_cause heading_of result (probe_in name.now tolerance.now) }
{
    let Some(tolerance) = read_below(tolerance, u64::from(TOLERANCE) + 1) else {
        return Err(LineFault::Rule(Rule::Head));
    };
    match str::from_utf8(name) {
        Ok(text) => Ok(Head::Probe {
            name: Name2::of(alloc, text)?,
            tolerance: tolerance as u32,
        }),
        Err(_) => Err(LineFault::Rule(Rule::Head)),
    }
}

// Whether a word is the name of a requirement.
fn is_requirement_name(word: &[u8]) -> bool
    ensures { result ≡ is_requirement word.now }
{
    1 <= word.len() && word.len() <= REQUIREMENT_BYTES && are_bytes_of_requirement(word)
}

fn are_bytes_of_requirement(word: &[u8]) -> bool
    ensures { result ≡ list_all is_requirement_byte word.now }
{
    word.iter().all(|b| is_byte_of_requirement(*b))
}

// Whether a byte may stand in the name of a requirement.
fn is_byte_of_requirement(byte: u8) -> bool
    ensures { result ≡ is_requirement_byte byte }
{
    matches!(byte, b'a'..=b'z' | b'A'..=b'Z' | b'0'..=b'9' | b'_' | b'-' | b'/' | b'#')
}

/// `share N`.
pub(crate) fn read_share(words: &[&[u8]]) -> Result<u32, Rule>
    ensures { result ≡ share_in (texts words.now) }
{
    read_sized(b"share".as_slice(), u64::from(BUDGET), words)
}

/// `groups G`.
pub(crate) fn read_told(words: &[&[u8]]) -> Result<u32, Rule>
    ensures { result ≡ told_in (texts words.now) }
{
    let told = read_sized(b"groups".as_slice(), u64::from(GROUPS), words)?;
    if told == 0 { Err(Rule::Head) } else { Ok(told) }
}

// A word, and a number up to the greatest.
fn read_sized(name: &[u8], greatest: u64, words: &[&[u8]]) -> Result<u32, Rule>
    requires { greatest < 2 ^ 32 }
    ensures { result ≡ sized_in name.now (greatest + 1) (texts words.now) }
{
    let [word, number] = words else {
        return Err(Rule::Head);
    };
    if !is(word, name) {
        return Err(Rule::Head);
    }
    match read_below(number, greatest + 1) {
        None => Err(Rule::Head),
        Some(number) => Ok(number as u32),
    }
}

/// What comes behind the line of a group, which must have the next number, or behind `end`.
pub(crate) fn read_group(next: usize, words: &[&[u8]]) -> Result<Stage, Rule>
    ensures { result ≡ group_in next (texts words.now) }
{
    let [word, words @ ..] = words else {
        return Err(Rule::Expected);
    };
    if is(word, b"group".as_slice()) {
        read_begun(next, words)
    } else if is(word, b"end".as_slice()) {
        read_end(words)
    } else {
        Err(Rule::Expected)
    }
}

fn read_end(words: &[&[u8]]) -> Result<Stage, Rule>
    ensures { result ≡ end_in (texts words.now) }
{
    if words.is_empty() {
        Ok(Stage::Done)
    } else {
        Err(Rule::Words)
    }
}

// The number of a group and its verdict. Another number is the first fault, and a misspelled one the last.
fn read_begun(next: usize, words: &[&[u8]]) -> Result<Stage, Rule>
    ensures { result ≡ number_and_verdict_in next (texts words.now) }
{
    let [number, words @ ..] = words else {
        return Err(Rule::Words);
    };
    let verdict = read_verdict(words);
    match read_number(number) {
        Some(number) => {
            if number as usize == next {
                verdict.ok_or(Rule::Words)
            } else {
                Err(Rule::Expected)
            }
        }
        None => match verdict {
            Some(_) => Err(Rule::Number),
            None => Err(Rule::Words),
        },
    }
}

fn read_verdict(words: &[&[u8]]) -> Option<Stage>
    ensures { result ≡ verdict_in (texts words.now) }
{
    let [word] = words else {
        return None;
    };
    if is(word, b"accept".as_slice()) {
        Some(Stage::Witness)
    } else if is(word, b"reject".as_slice()) {
        Some(Stage::Reject)
    } else if is(word, b"open".as_slice()) {
        Some(Stage::Counts)
    } else {
        None
    }
}

/// `w R n n ..`, with 2 to MOST_DIMS numbers after the root.
pub(crate) fn read_witness(alloc: Global, words: &[&[u8]]) -> Result<CertBody, LineFault>
    ensures { Gives line_cause body_of result (witness_in (texts words.now)) }
{
    match words {
        [word, place @ ..] => {
            if is(word, b"w".as_slice()) {
                read_place(alloc, place)
            } else {
                Err(LineFault::Rule(Rule::Expected))
            }
        }
        [] => Err(LineFault::Rule(Rule::Expected)),
    }
}

fn read_place(alloc: Global, words: &[&[u8]]) -> Result<CertBody, LineFault>
    ensures { Gives line_cause body_of result (place_in (texts words.now)) }
{
    let [root, at @ ..] = words else {
        return Err(LineFault::Rule(Rule::Words));
    };
    if at.len() < 2 || MOST_DIMS < at.len() {
        return Err(LineFault::Rule(Rule::Words));
    }
    let Some(root) = read_number(root) else {
        return Err(LineFault::Rule(Rule::Number));
    };
    let at = read_signed_all(alloc, at)?;
    Ok(CertBody::Accept { root, at })
}

/// `at L U S budget` or `at L U S floor`.
pub(crate) fn read_counts(words: &[&[u8]]) -> Result<Stage, Rule>
    ensures { result ≡ counts_in (texts words.now) }
{
    match words {
        [word, counts @ ..] => {
            if is(word, b"at".as_slice()) {
                read_level(counts)
            } else {
                Err(Rule::Expected)
            }
        }
        [] => Err(Rule::Expected),
    }
}

fn read_level(words: &[&[u8]]) -> Result<Stage, Rule>
    ensures { result ≡ level_in (texts words.now) }
{
    let [level, undecided, spent, reason] = words else {
        return Err(Rule::Words);
    };
    let reason = read_reason(reason).ok_or(Rule::Words)?;
    let level = read_number(level).ok_or(Rule::Number)?;
    let undecided = read_number(undecided).ok_or(Rule::Number)?;
    let spent = read_number(spent).ok_or(Rule::Number)?;
    Ok(Stage::Open(Counts {
        level,
        undecided,
        spent,
        reason,
    }))
}

fn read_reason(word: &[u8]) -> Option<Reason>
    ensures { result ≡ reason_in word.now }
{
    if is(word, b"budget".as_slice()) {
        Some(Reason::Budget)
    } else if is(word, b"floor".as_slice()) {
        Some(Reason::Floor)
    } else {
        None
    }
}

/// Whether the line ends a tree: its first word is `group` or `end`.
#[inline]
pub(crate) fn is_behind_tree(words: &[&[u8]]) -> bool
    ensures { result ≡ ends_tree (texts words.now) }
{
    match words {
        [word, ..] => is(word, b"group".as_slice()) || is(word, b"end".as_slice()),
        [] => false,
    }
}

/// A line of a tree: `s`, `r C A B`, and `o` where a cell may be undecided.
#[inline]
pub(crate) fn read_node(undecided: bool, words: &[&[u8]]) -> Result<Node, Rule>
    ensures { result ≡ node_in undecided (texts words.now) }
{
    let [word, words @ ..] = words else {
        return Err(Rule::Words);
    };
    if is(word, b"r".as_slice()) {
        read_evidence(words)
    } else if is(word, b"s".as_slice()) {
        alone(Node::Split, words)
    } else if is(word, b"o".as_slice()) && undecided {
        alone(Node::Left, words)
    } else {
        Err(Rule::Words)
    }
}

// A node whose line has no more words.
#[inline]
fn alone(node: Node, words: &[&[u8]]) -> Result<Node, Rule>
    ensures { result ≡ lone node (texts words.now) }
{
    if words.is_empty() {
        Ok(node)
    } else {
        Err(Rule::Words)
    }
}

#[inline]
fn read_evidence(words: &[&[u8]]) -> Result<Node, Rule>
    ensures { result ≡ evidence_in (texts words.now) }
{
    let [condition, a, b] = words else {
        return Err(Rule::Words);
    };
    let condition = read_number(condition).ok_or(Rule::Number)?;
    let a = read_number(a).ok_or(Rule::Number)?;
    let b = read_number(b).ok_or(Rule::Number)?;
    Ok(Node::Refuted(Evidence { condition, a, b }))
}

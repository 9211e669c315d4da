// The text of a certificate. Each function but the last appends its lines to a text.
ghost use Rattle.std.specs.Prelude.{◌≡◌, ◌<◌, ◌^◌, ◌+◌, ◌∷◌, [], ◌++◌, IfOk, OnOk, codes, decimal, length, map};
ghost use Rattle.std.specs.Fmt.{signed_decimal};
ghost use Rattle.std.specs.List.{flat_map};
ghost use Rattle.gd_cert.specs.Certificates.{body_of, certificate_of, heading_of};
ghost use Rattle.gd_cert.specs.Text.{body_lines, groups_lines, heading_words, line_text, node_words, text, verdict_word, counts_words};
ghost use Rattle.gd_cert.specs.declared.cert.CertGroup.{CertGroup};

use crate::cert::{Cert, CertBody, CertGroup, Head};
use crate::title::put_title;
use gd_base::{Counts, Memory, Reason};
use gd_cells::Node;
use itoa::{Buffer, Integer};
use std::alloc::Global;

// A space and a number.
fn put_number<N: Integer>(text: &mut Vec<u8>, number: N) -> Result<(), Memory>
    ensures { OnOk result (text.new.items ≡ text.old.items ++ 32 ∷ N.text number) }
{
    let mut buffer = Buffer::new();
    text.push(b' ')?;
    text.extend_from_slice(buffer.format(number).as_bytes())?;
    Ok(())
}

// The line of a word and a number.
fn put_count(text: &mut Vec<u8>, word: &[u8], count: u32) -> Result<(), Memory>
    ensures { OnOk result (text.new.items ≡ text.old.items ++ line_text (word.now ∷ decimal count ∷ [])) }
{
    text.extend_from_slice(word)?;
    put_number(text, count)?;
    text.push(b'\n')?;
    Ok(())
}

// The line of what the verdicts are for.
fn put_heading(text: &mut Vec<u8>, head: &Head) -> Result<(), Memory>
    ensures { OnOk result (text.new.items ≡ text.old.items ++ line_text (heading_words (heading_of head.now))) }
{
    match head {
        Head::Plain => text.extend_from_slice(b"plain\n")?,
        Head::Probe { name, tolerance } => {
            text.extend_from_slice(b"probe ")?;
            text.extend_from_slice(name.bytes())?;
            put_number(text, *tolerance)?;
            text.push(b'\n')?;
        }
    }
    Ok(())
}

// The line of a cell.
fn put_node(text: &mut Vec<u8>, node: &Node) -> Result<(), Memory>
    ensures { OnOk result (text.new.items ≡ text.old.items ++ line_text (node_words node.now)) }
{
    match node {
        Node::Split => text.extend_from_slice(b"s\n")?,
        Node::Left => text.extend_from_slice(b"o\n")?,
        Node::Refuted(evidence) => {
            text.push(b'r')?;
            put_number(text, evidence.condition)?;
            put_number(text, evidence.a)?;
            put_number(text, evidence.b)?;
            text.push(b'\n')?;
        }
    }
    Ok(())
}

// The lines of a tree.
fn put_tree(text: &mut Vec<u8>, tree: &[Node]) -> Result<(), Memory>
    ensures { OnOk result (text.new.items ≡ text.old.items ++ flat_map line_text (map node_words tree.now)) }
{
    for node in tree {
        put_node(text, node)?;
    }
    Ok(())
}

// A space before each of some numbers.
fn put_numbers(text: &mut Vec<u8>, numbers: &[i64]) -> Result<(), Memory>
    ensures { OnOk result (text.new.items ≡ text.old.items ++ flat_map (λ z. 32 ∷ signed_decimal z) numbers.now) }
{
    for number in numbers {
        put_number(text, *number)?;
    }
    Ok(())
}

// The line of a witness: its root and its numbers.
#[tactic(auto, using(crate::proofs::Writing::witness_text))]
fn put_witness(text: &mut Vec<u8>, root: u32, at: &[i64]) -> Result<(), Memory>
    ensures { OnOk result (text.new.items ≡ text.old.items ++ line_text (codes "w" ∷ decimal root ∷ map signed_decimal at.now)) }
{
    text.push(b'w')?;
    put_number(text, root)?;
    put_numbers(text, at)?;
    text.push(b'\n')?;
    Ok(())
}

// The line of where a search stopped, and why.
fn put_counts(text: &mut Vec<u8>, counts: Counts) -> Result<(), Memory>
    ensures { OnOk result (text.new.items ≡ text.old.items ++ line_text (counts_words counts)) }
{
    text.extend_from_slice(b"at")?;
    put_number(text, counts.level)?;
    put_number(text, counts.undecided)?;
    put_number(text, counts.spent)?;
    match counts.reason {
        Reason::Budget => text.extend_from_slice(b" budget\n")?,
        Reason::Floor => text.extend_from_slice(b" floor\n")?,
    }
    Ok(())
}

// The first line of a group: its number and the word of its verdict.
fn put_verdict(text: &mut Vec<u8>, number: usize, body: &CertBody) -> Result<(), Memory>
    ensures { OnOk result (text.new.items ≡ text.old.items ++ line_text (codes "group" ∷ decimal number ∷ verdict_word (body_of body.now) ∷ [])) }
{
    text.extend_from_slice(b"group")?;
    put_number(text, number)?;
    match body {
        CertBody::Accept { .. } => text.extend_from_slice(b" accept\n")?,
        CertBody::Reject { .. } => text.extend_from_slice(b" reject\n")?,
        CertBody::StillOpen { .. } => text.extend_from_slice(b" open\n")?,
    }
    Ok(())
}

// The lines of a group after its first.
fn put_body(text: &mut Vec<u8>, body: &CertBody) -> Result<(), Memory>
    ensures { OnOk result (text.new.items ≡ text.old.items ++ flat_map line_text (body_lines (body_of body.now))) }
{
    match body {
        CertBody::Accept { root, at } => put_witness(text, *root, at),
        CertBody::Reject { tree } => put_tree(text, tree),
        CertBody::StillOpen { counts, tree } => {
            put_counts(text, *counts)?;
            put_tree(text, tree)
        }
    }
}

// The lines of the groups, which are numbered from 1.
fn put_groups(text: &mut Vec<u8>, groups: &[CertGroup]) -> Result<(), Memory>
    ensures { OnOk result (text.new.items ≡ text.old.items ++ flat_map line_text (groups_lines 1 (map (λ (group : CertGroup). body_of group.body) groups.now))) }
{
    for (at, group) in groups.iter().enumerate() {
        put_verdict(text, at + 1, &group.body)?;
        put_body(text, &group.body)?;
    }
    Ok(())
}

/// The text of a certificate (docs/FORMATS.md, "Certificate"). The kept lines are no part of it.
pub fn write_cert(alloc: Global, cert: &Cert) -> Result<Vec<u8>, Memory>
    ensures { IfOk result (λ v. v.items ≡ text (certificate_of cert.now)) }
{
    let mut text = Vec::new(alloc);
    put_title(&mut text)?;
    put_heading(&mut text, &cert.head)?;
    put_count(&mut text, b"share", cert.share)?;
    put_count(&mut text, b"groups", cert.told)?;
    put_groups(&mut text, &cert.groups)?;
    text.extend_from_slice(b"end\n")?;
    Ok(text)
}

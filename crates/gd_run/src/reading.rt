// The one place where a run loads files and reads them.
ghost use Rattle.std.specs.Prelude.{◌≡◌, ◌≤◌, ◌+◌, true, false, Ok, Err, Some, IfOk, IsOkAnd, is_some, length, map};
ghost use Rattle.gd_base.specs.Causes.{Rose};
ghost use Rattle.gd_base.specs.Limits.{FILE_BYTES};
ghost use Rattle.gd_report.specs.Said.{invalid, said_in};
ghost use Rattle.gd_run.specs.Inputs.{AreInOrder, IsPlaced, IsRefusal, IsTurn, IsWordOf, Reads, certificate_file};
ghost use Rattle.gd_run.specs.Inputs.{frames_beside, kinds_after, kinds_of, nothing_given, points_file, reads};
ghost use Rattle.gd_run.specs.Inputs.{said_of_long, with_bytes, with_certificate, with_kind, with_points};
ghost use Rattle.gd_run.specs.Reports.{IsSound, OnInputs};
ghost use Rattle.gd_run.specs.Views.{given_of, input_of};
ghost use Rattle.gd_world.specs.Shelf.{IsWord, SameFiles};

use crate::inputs::{Input, InputKind, Inputs};
use crate::report::Refusal;
use gd_base::ReadFault;
use gd_cert::{CertFault, CertReadFault, read_cert};
use gd_frames::read_frames;
use gd_points::{Rule as PointsRule, read_points};
use gd_report::{Line, input_line, invalid_line};
use gd_world::{LoadFault, Shelf};
use std::alloc::{AllocError, Global};

// What is said of the first fault of a certificate.
fn fault_line(alloc: Global, fault: CertFault) -> Result<Line, AllocError>
    ensures { IfOk result (λ line. said_in line ≡ invalid fault.line fault.code) }
{
    invalid_line(alloc, fault.line, fault.code)
}

// The refusal that says so.
fn refused<'a>(line: Result<Line, AllocError>) -> Result<Inputs, Refusal<'a>>
    ensures { OnInputs (λ i. ⊥) (λ said. IsOkAnd line (λ l. said_in l ≡ said)) (λ w. ⊥) result }
{
    match line {
        Ok(line) => Err(Refusal::Refused(line)),
        Err(AllocError) => Err(Refusal::Memory),
    }
}

// Reads the bytes of a points file.
fn read_table<'a>(
    alloc: Global,
    word: &'a str,
    bytes: &[u8],
    inputs: Inputs,
) -> Result<Inputs, Refusal<'a>>
    requires short { length bytes.now ≤ FILE_BYTES }
    requires sound { IsSound inputs }
    ensures read { OnInputs (λ i. with_points (given_of inputs) word.now (points_file bytes.now) ≡ Ok (given_of i))
        (λ said. with_points (given_of inputs) word.now (points_file bytes.now) ≡ Err said) (λ w. ⊥) result }
    ensures sound { OnInputs IsSound (λ said. Unit {0}) (λ w. Unit {0}) result }
{
    match read_points(alloc, bytes) {
        Ok(table) => Ok(Inputs {
            table: Some(table),
            frames: None,
            certificate: inputs.certificate,
        }),
        Err(ReadFault::Input(fault)) => refused(input_line(alloc, word, fault)),
        Err(ReadFault::Memory) => Err(Refusal::Memory),
    }
}

// Reads the bytes of a frame file, beside the table of the points.
fn read_frame_file<'a>(
    alloc: Global,
    word: &'a str,
    bytes: &[u8],
    inputs: Inputs,
) -> Result<Inputs, Refusal<'a>>
    requires short { length bytes.now ≤ FILE_BYTES }
    requires sound { IsSound inputs }
    requires points { is_some inputs.table ≡ true }
    ensures read { OnInputs (λ i. frames_beside (given_of inputs) word.now bytes.now inputs.table ≡ Ok (given_of i))
        (λ said. frames_beside (given_of inputs) word.now bytes.now inputs.table ≡ Err said) (λ w. ⊥) result }
    ensures sound { OnInputs IsSound (λ said. Unit {0}) (λ w. Unit {0}) result }
{
    match read_frames(alloc, bytes, inputs.table()) {
        Ok(file) => Ok(Inputs {
            table: inputs.table,
            frames: Some(file),
            certificate: inputs.certificate,
        }),
        Err(ReadFault::Input(fault)) => refused(input_line(alloc, word, fault)),
        Err(ReadFault::Memory) => Err(Refusal::Memory),
    }
}

// Reads the bytes of a certificate.
fn read_certificate<'a>(alloc: Global, bytes: &[u8], inputs: Inputs) -> Result<Inputs, Refusal<'a>>
    requires short { length bytes.now ≤ FILE_BYTES }
    requires sound { IsSound inputs }
    ensures read { OnInputs (λ i. with_certificate (given_of inputs) (certificate_file bytes.now) ≡ Ok (given_of i))
        (λ said. with_certificate (given_of inputs) (certificate_file bytes.now) ≡ Err said) (λ w. ⊥) result }
    ensures sound { OnInputs IsSound (λ said. Unit {0}) (λ w. Unit {0}) result }
{
    match read_cert(alloc, bytes) {
        Ok(certificate) => Ok(Inputs {
            table: inputs.table,
            frames: inputs.frames,
            certificate: Some(certificate),
        }),
        Err(CertReadFault::Cert(fault)) => refused(fault_line(alloc, fault)),
        Err(CertReadFault::Memory) => Err(Refusal::Memory),
    }
}

// Reads the bytes of an input.
fn read_bytes<'a>(
    alloc: Global,
    input: &Input<'a>,
    bytes: &[u8],
    inputs: Inputs,
) -> Result<Inputs, Refusal<'a>>
    requires short { length bytes.now ≤ FILE_BYTES }
    requires sound { IsSound inputs }
    requires placed { IsPlaced input.now.kind (kinds_of (given_of inputs)) }
    ensures read { OnInputs
        (λ i. with_bytes input.now.kind (given_of inputs) input.now.word.now bytes.now ≡ Ok (given_of i))
        (λ said. with_bytes input.now.kind (given_of inputs) input.now.word.now bytes.now ≡ Err said) (λ w. ⊥) result }
    ensures sound { OnInputs IsSound (λ said. Unit {0}) (λ w. Unit {0}) result }
{
    match input.kind {
        InputKind::Points => read_table(alloc, input.word, bytes, inputs),
        InputKind::Frames => read_frame_file(alloc, input.word, bytes, inputs),
        InputKind::Certificate => read_certificate(alloc, bytes, inputs),
    }
}

// What is said of an input that is too long.
fn too_long<'a>(alloc: Global, input: &Input<'a>) -> Result<Line, AllocError>
    ensures { IfOk result (λ line. said_in line ≡ said_of_long input.now.kind input.now.word.now) }
{
    match input.kind {
        InputKind::Points | InputKind::Frames => {
            input_line(alloc, input.word, PointsRule::TooLong.fault(0, 0))
        }
        InputKind::Certificate => fault_line(alloc, CertFault::too_long()),
    }
}

// Loads one input and reads it. No name is changed.
fn read_input<'a, S: Shelf>(
    alloc: Global,
    input: &Input<'a>,
    inputs: Inputs,
    shelf: &mut S,
) -> Result<Inputs, Refusal<'a>>
    requires sound { IsSound inputs }
    requires placed { IsPlaced input.now.kind (kinds_of (given_of inputs)) }
    ensures read { S.tells ≡ true → OnInputs
        (λ i. Reads (given_of inputs) (input_of input.now) (S.holds shelf.old) (Ok (given_of i)))
        (λ said. Reads (given_of inputs) (input_of input.now) (S.holds shelf.old) (Err said)) (λ w. Unit {0}) result }
    ensures kind { OnInputs (λ i. kinds_of (given_of i) ≡ with_kind input.now.kind (kinds_of (given_of inputs)))
        IsRefusal (λ w. w ≡ input.now.word.now) result }
    ensures unread { OnInputs (λ i. Unit {0}) (λ said. Unit {0})
        (λ w. Rose (S.faults shelf.old) (S.faults shelf.new) × IsWord (S.failed shelf.new) w false) result }
    ensures same { SameFiles (S.holds shelf.old) (S.holds shelf.new) }
    ensures later { S.faults shelf.old ≤ S.faults shelf.new }
    ensures calls { S.calls shelf.new ≤ S.calls shelf.old + 1 }
    ensures sound { OnInputs IsSound (λ said. Unit {0}) (λ w. Unit {0}) result }
{
    let mut bytes = Vec::new(alloc);
    match shelf.load(alloc, input.word, &mut bytes) {
        Ok(()) => read_bytes(alloc, input, bytes.as_slice(), inputs),
        Err(LoadFault::Failed) => Err(Refusal::Unread(input.word)),
        Err(LoadFault::TooLong) => refused(too_long(alloc, input)),
        Err(LoadFault::Memory) => Err(Refusal::Memory),
    }
}

/// Loads and reads the inputs of a command, in order, until one is refused or could not be read. It is all that a run
/// does to a shelf before it stores, and no name is changed.
pub fn read_inputs<'a, S: Shelf>(
    alloc: Global,
    inputs: &[Input<'a>],
    shelf: &mut S,
) -> Result<Inputs, Refusal<'a>>
    requires { AreInOrder (kinds_of nothing_given) (map input_of inputs.now) }
    ensures read { S.tells ≡ true → OnInputs
        (λ i. reads nothing_given (map input_of inputs.now) (S.holds shelf.old) ≡ Some (Ok (given_of i)))
        (λ said. reads nothing_given (map input_of inputs.now) (S.holds shelf.old) ≡ Some (Err said))
        (λ w. IsTurn nothing_given (map input_of inputs.now) (S.holds shelf.old) w) result }
    ensures kind { OnInputs
        (λ i. kinds_of (given_of i) ≡ kinds_after (kinds_of nothing_given) (map input_of inputs.now))
        IsRefusal (λ w. IsWordOf (map input_of inputs.now) w) result }
    ensures unread { OnInputs (λ i. Unit {0}) (λ said. Unit {0})
        (λ w. Rose (S.faults shelf.old) (S.faults shelf.new) × IsWord (S.failed shelf.new) w false) result }
    ensures same { SameFiles (S.holds shelf.old) (S.holds shelf.new) }
    ensures later { S.faults shelf.old ≤ S.faults shelf.new }
    ensures calls { S.calls shelf.new ≤ S.calls shelf.old + length inputs.now }
    ensures sound { OnInputs IsSound (λ said. Unit {0}) (λ w. Unit {0}) result }
{
    let mut read = Inputs {
        table: None,
        frames: None,
        certificate: None,
    };
    for input in inputs {
        match read_input(alloc, input, read, shelf) {
            Ok(more) => read = more,
            Err(refusal) => return Err(refusal),
        }
    }
    Ok(read)
}

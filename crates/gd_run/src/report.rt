// What a run has to store and to say, or why it has not.
ghost use Rattle.std.specs.Prelude.{◌≡◌, IfOk, IsOkAnd};
ghost use Rattle.gd_report.specs.Said.{said_in};
ghost use Rattle.gd_run.specs.Answers.{only_said};
ghost use Rattle.gd_run.specs.Reports.{OnReport};
ghost use Rattle.gd_run.specs.Views.{answer_in};
ghost use Rattle.gd_run.specs.declared.report.Refusal.TheVariants as refusal;
ghost use Rattle.gd_run.specs.declared.report.Stop.TheVariants as stop;

use gd_base::Memory;
use gd_report::Line;
use std::alloc::AllocError;

/// A name of a file, and the bytes that it is to hold.
#[derive(Drop)]
pub struct NamedFile<'a> {
    pub name: &'a str,
    pub bytes: Vec<u8>,
}

/// A line to put, and a file to store before it, where there is one.
#[derive(Drop)]
pub struct Report<'a> {
    pub line: Line,
    pub file: Option<NamedFile<'a>>,
}

/// A report that stores nothing.
pub fn only_line<'a>(line: Line) -> Report<'a>
    ensures { answer_in result ≡ only_said (said_in line) }
{
    Report { line, file: None }
}

/// Why there is no report.
#[derive(Clone, Copy)]
pub enum Stop<'a> {
    /// The file of this word could not be read.
    Unread(&'a str),
    /// Memory ran out.
    Memory,
}

impl<'a> From<AllocError> for Stop<'a> {
    ghost from_gives = { λ _ e. e ≡ stop.Memory };

    fn from(_: AllocError) -> Self {
        Stop::Memory
    }
}

impl<'a> From<Memory> for Stop<'a> {
    ghost from_gives = { λ _ e. e ≡ stop.Memory };

    fn from(_: Memory) -> Self {
        Stop::Memory
    }
}

/// Why the inputs of a command were not read.
#[derive(Drop)]
pub enum Refusal<'a> {
    /// An input was refused, and this is said of it.
    Refused(Line),
    /// The file of this word could not be read.
    Unread(&'a str),
    /// Memory ran out.
    Memory,
}

impl<'a> From<AllocError> for Refusal<'a> {
    ghost from_gives = { λ _ e. e ≡ refusal.Memory };

    fn from(_: AllocError) -> Self {
        Refusal::Memory
    }
}

impl<'a> From<Memory> for Refusal<'a> {
    ghost from_gives = { λ _ e. e ≡ refusal.Memory };

    fn from(_: Memory) -> Self {
        Refusal::Memory
    }
}

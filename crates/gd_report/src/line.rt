// A line to print, and those of refusals and of checks.
ghost use Rattle.std.specs.Prelude.{◌≡◌, IfOk};
ghost use Rattle.std.specs.String.{string_bytes};
ghost use Rattle.gd_report.specs.Said.{invalid, refused, said_in, unread, valid, wrong_words};
ghost use Rattle.gd_report.specs.Texts.{place_text};

use crate::ending::Ending;
use gd_base::InputFault;
use std::alloc::{AllocError, Global};

/// A line to print, which ends in LF, and how the run ends that prints it.
#[derive(Drop)]
pub struct Line {
    pub text: String,
    pub ending: Ending,
}

/// The words are of no command.
pub fn wrong_words_line(alloc: Global) -> Result<Line, AllocError>
    ensures { IfOk result (λ line. said_in line ≡ wrong_words) }
{
    let text = String::from_str(alloc, "gdteval: wrong words\n")?;
    Ok(Line {
        text,
        ending: Ending::WrongWords,
    })
}

/// The file of a word could not be read.
pub fn cannot_read_line(alloc: Global, word: &str) -> Result<Line, AllocError>
    ensures { IfOk result (λ line. said_in line ≡ unread word.now) }
{
    let text = format!(in alloc; "gdteval: cannot read {word}\n")?;
    Ok(Line {
        text,
        ending: Ending::Unread,
    })
}

fn place(alloc: Global, row: u32, column: u32) -> Result<String, AllocError>
    ensures { IfOk result (λ text. string_bytes text ≡ place_text row column) }
{
    format!(in alloc; "row {row} column {column}\n")
}

/// The input file of a word was refused for this fault.
pub fn input_line(alloc: Global, word: &str, fault: InputFault) -> Result<Line, AllocError>
    ensures { IfOk result (λ line. said_in line ≡ refused word.now fault) }
{
    let code = fault.code;
    let place = place(alloc, fault.row, fault.column)?;
    let text = format!(in alloc; "input {word} code {code} {place}")?;
    Ok(Line {
        text,
        ending: Ending::Refused,
    })
}

/// A certificate is right.
pub fn valid_line(alloc: Global) -> Result<Line, AllocError>
    ensures { IfOk result (λ line. said_in line ≡ valid) }
{
    let text = String::from_str(alloc, "valid\n")?;
    Ok(Line {
        text,
        ending: Ending::Done,
    })
}

/// A certificate is wrong at a line, from 1, by this code. Line 0 stands for a file that is too long.
pub fn invalid_line(alloc: Global, line: u32, code: u32) -> Result<Line, AllocError>
    ensures { IfOk result (λ it. said_in it ≡ invalid line code) }
{
    let text = format!(in alloc; "invalid line {line} code {code}\n")?;
    Ok(Line {
        text,
        ending: Ending::Invalid,
    })
}

// The program: it hands the words, the real files and the real output to the top call, and ends with its status.
#![tactic(auto)]

use gd_run::run;
use gd_world::{FileShelf, StdSink};
use std::alloc::{AllocError, Global};
use std::env;
use std::io::ErrorKind;
use std::process::ExitCode;

/// The status of a run that found no memory for its words.
const WANT_OF_MEMORY: u8 = 7;

// The words after the program's name. Where one of them isn't UTF-8 there are none, so that the run refuses them.
fn words_of(rt: &HostRuntime, alloc: Global) -> Result<Vec<String>, AllocError> {
    let mut words = Vec::new(alloc);
    match env::args(rt) {
        Ok(args) => {
            for word in args.skip(1) {
                words.push(word)?;
            }
            Ok(words)
        }
        Err(error) if error.kind() == ErrorKind::OutOfMemory => Err(AllocError),
        Err(_) => Ok(words),
    }
}

fn main(rt: HostRuntime) -> ExitCode {
    let alloc = rt.alloc();
    let Ok(words) = words_of(&rt, alloc) else {
        return ExitCode::from(WANT_OF_MEMORY);
    };
    let mut shelf = FileShelf::new(&rt, alloc);
    let mut out = StdSink::new(&rt);
    let status = run(&rt, alloc, &words, &mut shelf, &mut out);
    ExitCode::from(status.0)
}

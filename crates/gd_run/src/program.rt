// The one call that the program makes.
ghost use Rattle.std.specs.Prelude.{ℕ, ◌≡◌, ◌≢◌, ◌++◌, ◌+◌, ◌≤◌, ◌⊎◌, true, false, None, IsErrOf, IsSomeAnd, OnOk};
ghost use Rattle.std.specs.Prelude.{length, map, take};
ghost use Rattle.std.specs.Option.{option_len};
ghost use Rattle.std.specs.String.{string_bytes};
ghost use Rattle.gd_base.specs.Causes.{Rose};
ghost use Rattle.gd_report.specs.Said.{status_of};
ghost use Rattle.gd_report.specs.Texts.{cannot_read_text, wrong_words_text};
ghost use Rattle.gd_report.specs.declared.ending.Ending.TheVariants as ending;
ghost use Rattle.gd_run.specs.Asks.{IsNoCommand, inputs_of};
ghost use Rattle.gd_run.specs.Claims.{LeavesValid, StoresValid};
ghost use Rattle.gd_run.specs.Endings.{Answers, CallsFew, Ends, EndsInEight, EndsInOne, EndsInTwo, EndsInZero};
ghost use Rattle.gd_run.specs.Endings.{FailedToRead, ReadsFew, StoresDone};
ghost use Rattle.gd_run.specs.Inputs.{IsTurn, IsWordOf, nothing_given};
ghost use Rattle.gd_run.specs.Reports.{HasReport, IsPlain, IsUnreadAnd, OnReport, PutFails, StoreFails, stores_wanted};
ghost use Rattle.gd_run.specs.Runs.{IsAnswer, IsAnswerOf, IsAnswerTo, IsNext, IsPossible, IsToRead};
ghost use Rattle.gd_run.specs.Views.{answer_in, ask_of, stores_in};
ghost use Rattle.gd_world.specs.Shelf.{IsWord, PutsPrefix, SameFiles};

use crate::command::Command;
use crate::reading::read_inputs;
use crate::report::{NamedFile, Refusal, Report, Stop, only_line};
use gd_base::Status;
use gd_report::{Ending, Line, cannot_read_line, wrong_words_line};
use gd_world::{PutFault, Shelf, Sink, StoreFault};
use std::alloc::{AllocError, Global};
use std::thread::Threads;

// The answer to a command, or the word of a file that could not be read. It changes no file.
fn answer_command<'a, R: Threads + Sync, S: Shelf>(
    rt: &R,
    alloc: Global,
    command: &Command<'a>,
    shelf: &mut S,
) -> Result<Report<'a>, Stop<'a>>
    ensures answer { S.tells ≡ true → OnReport (λ r. IsAnswerTo (ask_of command.now) (S.holds shelf.old) (answer_in r))
        (λ w. IsTurn nothing_given (inputs_of (ask_of command.now)) (S.holds shelf.old) w) result }
    ensures kind { OnReport (λ r. IsAnswerOf (ask_of command.now) (answer_in r))
        (λ w. IsWordOf (inputs_of (ask_of command.now)) w) result }
    ensures unread { OnReport (λ r. Unit {0})
        (λ w. Rose (S.faults shelf.old) (S.faults shelf.new) × IsWord (S.failed shelf.new) w false) result }
    ensures same { SameFiles (S.holds shelf.old) (S.holds shelf.new) }
    ensures later { S.faults shelf.old ≤ S.faults shelf.new }
    ensures calls { S.calls shelf.new ≤ S.calls shelf.old + length (inputs_of (ask_of command.now)) }
{
    let inputs = command.inputs(alloc)?;
    match read_inputs(alloc, inputs.as_slice(), shelf) {
        Ok(read) => match command.answer(rt, alloc, &read) {
            Ok(report) => Ok(report),
            Err(_) => Err(Stop::Memory),
        },
        Err(Refusal::Refused(line)) => Ok(only_line(line)),
        Err(Refusal::Unread(word)) => Err(Stop::Unread(word)),
        Err(Refusal::Memory) => Err(Stop::Memory),
    }
}

// The answer to the words of a run, or the word of a file that could not be read. It changes no file.
fn answer_to<'a, R: Threads + Sync, S: Shelf>(
    rt: &R,
    alloc: Global,
    words: &'a [String],
    shelf: &mut S,
) -> Result<Report<'a>, Stop<'a>>
    ensures answer { S.tells ≡ true → OnReport
        (λ r. IsAnswer (map string_bytes words.now) (S.holds shelf.old) (answer_in r))
        (λ w. IsNext (map string_bytes words.now) (S.holds shelf.old) w) result }
    ensures kind { OnReport (λ r. IsPossible (map string_bytes words.now) (answer_in r))
        (λ w. IsToRead (map string_bytes words.now) w) result }
    ensures unread { OnReport (λ r. Unit {0})
        (λ w. Rose (S.faults shelf.old) (S.faults shelf.new) × IsWord (S.failed shelf.new) w false) result }
    ensures same { SameFiles (S.holds shelf.old) (S.holds shelf.new) }
    ensures later { S.faults shelf.old ≤ S.faults shelf.new }
    ensures calls { ReadsFew (map string_bytes words.now) (S.calls shelf.old) (S.calls shelf.new) }
{
    match Command::of(words) {
        None => Ok(only_line(wrong_words_line(alloc)?)),
        Some(command) => answer_command(rt, alloc, &command, shelf),
    }
}

// Puts a line and ends as it says, or with the fault.
fn put_line<O: Sink>(alloc: Global, line: &Line, out: &mut O) -> Ending
    ensures said { O.tells ≡ true → result ≢ ending.Unwritten → result ≢ ending.OutOfMemory
        → O.written out.new ≡ O.written out.old ++ string_bytes line.now.text }
    ensures ends { result ≢ ending.Unwritten → result ≢ ending.OutOfMemory → result ≡ line.now.ending }
    ensures unwritten { line.now.ending ≢ ending.Unwritten → result ≡ ending.Unwritten
        → Rose (O.faults out.old) (O.faults out.new) }
    ensures prefix { O.tells ≡ true → line.now.ending ≢ ending.Unwritten → result ≡ ending.Unwritten
        → (n : ℕ) × (O.written out.new ≡ O.written out.old ++ take n (string_bytes line.now.text)) }
    ensures want { O.tells ≡ true → line.now.ending ≢ ending.OutOfMemory → result ≡ ending.OutOfMemory
        → O.written out.new ≡ O.written out.old }
    ensures calls { O.calls out.new ≤ O.calls out.old + 1 }
{
    match out.put(alloc, line.text.as_bytes()) {
        Ok(()) => line.ending,
        Err(PutFault::Failed) => Ending::Unwritten,
        Err(PutFault::Memory) => Ending::OutOfMemory,
    }
}

// Stores a file, where there is one.
fn store_file<S: Shelf>(
    alloc: Global,
    file: &Option<NamedFile<'_>>,
    shelf: &mut S,
) -> Result<(), StoreFault>
    ensures done { S.tells ≡ true → OnOk result (StoresDone (stores_in file.now) (S.holds shelf.old)
        (S.holds shelf.new)) }
    ensures prefix { S.tells ≡ true → IsErrOf result StoreFault.Failed
        → IsSomeAnd file.now (λ f. PutsPrefix (S.holds shelf.old) (S.holds shelf.new) f.name.now f.bytes.items) }
    ensures memory { IsErrOf result StoreFault.Memory → SameFiles (S.holds shelf.old) (S.holds shelf.new) }
    ensures rose { IsErrOf result StoreFault.Failed → Rose (S.faults shelf.old) (S.faults shelf.new) }
    ensures word { IsErrOf result StoreFault.Failed
        → IsSomeAnd file.now (λ f. IsWord (S.failed shelf.new) f.name.now true) }
    ensures none { file.now ≡ None → shelf.new ≡ shelf.old }
    ensures kept { file.now ≡ None → OnOk result (Unit {0}) × (IsErrOf result StoreFault.Failed → ⊥) }
    ensures calls { S.calls shelf.new ≤ S.calls shelf.old + option_len file.now }
{
    match file {
        None => Ok(()),
        Some(file) => shelf.store(alloc, file.name, file.bytes.as_slice()),
    }
}

// Stores the file of a report, and then puts its line.
fn finish<S: Shelf, O: Sink>(
    alloc: Global,
    report: &Report<'_>,
    shelf: &mut S,
    out: &mut O,
) -> Ending
    requires { IsPlain report.now.line.ending }
    ensures ends { result ≢ ending.Unwritten → result ≢ ending.OutOfMemory → result ≡ report.now.line.ending }
    ensures written { O.tells ≡ true → result ≢ ending.Unwritten → result ≢ ending.OutOfMemory
        → O.written out.new ≡ O.written out.old ++ string_bytes report.now.line.text }
    ensures stored { S.tells ≡ true → result ≢ ending.Unwritten → result ≢ ending.OutOfMemory
        → StoresDone (stores_in report.now.file) (S.holds shelf.old) (S.holds shelf.new) }
    ensures unwritten { result ≡ ending.Unwritten
        → StoreFails report.now S.tells (S.holds shelf.old) (S.holds shelf.new) (S.failed shelf.new)
        (S.faults shelf.old) (S.faults shelf.new) O.tells (O.written out.old) (O.written out.new)
        ⊎ PutFails report.now S.tells (S.holds shelf.old) (S.holds shelf.new) O.tells (O.written out.old)
        (O.written out.new) (O.faults out.old) (O.faults out.new) }
    ensures silent { O.tells ≡ true → result ≡ ending.OutOfMemory → O.written out.new ≡ O.written out.old }
    ensures want { result ≡ ending.OutOfMemory → SameFiles (S.holds shelf.old) (S.holds shelf.new)
        ⊎ (S.tells ≡ true → StoresDone (stores_in report.now.file) (S.holds shelf.old) (S.holds shelf.new)) }
    ensures none { report.now.file ≡ None → SameFiles (S.holds shelf.old) (S.holds shelf.new) }
    ensures calls { S.calls shelf.new ≤ S.calls shelf.old + option_len report.now.file }
    ensures one_put { O.calls out.new ≤ O.calls out.old + 1 }
{
    match store_file(alloc, &report.file, shelf) {
        Ok(()) => put_line(alloc, &report.line, out),
        Err(StoreFault::Failed) => Ending::Unwritten,
        Err(StoreFault::Memory) => Ending::OutOfMemory,
    }
}

// Ends a run with what it has to store and to say, or with why it has not.
fn end<S: Shelf, O: Sink>(
    alloc: Global,
    answer: Result<Report<'_>, Stop<'_>>,
    shelf: &mut S,
    out: &mut O,
) -> Ending
    requires { OnReport (λ r. IsPlain r.line.ending) (λ w. Unit {0}) answer }
    ensures ends { result ≢ ending.Unread → result ≢ ending.Unwritten → result ≢ ending.OutOfMemory
        → HasReport (λ r. result ≡ r.line.ending) answer.entry }
    ensures written { O.tells ≡ true → result ≢ ending.Unread → result ≢ ending.Unwritten → result ≢ ending.OutOfMemory
        → HasReport (λ r. O.written out.new ≡ O.written out.old ++ string_bytes r.line.text) answer.entry }
    ensures stored { S.tells ≡ true → result ≢ ending.Unread → result ≢ ending.Unwritten → result ≢ ending.OutOfMemory
        → HasReport (λ r. StoresDone (stores_in r.file) (S.holds shelf.old) (S.holds shelf.new)) answer.entry }
    ensures unread { result ≡ ending.Unread
        → IsUnreadAnd (λ w. O.tells ≡ true → O.written out.new ≡ O.written out.old ++ cannot_read_text w) answer.entry }
    ensures untouched { IsUnreadAnd (λ w. Unit {0}) answer.entry → shelf.new ≡ shelf.old }
    ensures unwritten { result ≡ ending.Unwritten
        → HasReport (λ r. StoreFails r S.tells (S.holds shelf.old) (S.holds shelf.new) (S.failed shelf.new)
        (S.faults shelf.old) (S.faults shelf.new) O.tells (O.written out.old) (O.written out.new)
        ⊎ PutFails r S.tells (S.holds shelf.old) (S.holds shelf.new) O.tells (O.written out.old) (O.written out.new)
        (O.faults out.old) (O.faults out.new)) answer.entry
        ⊎ IsUnreadAnd (λ w. Rose (O.faults out.old) (O.faults out.new)
        × (O.tells ≡ true → (n : ℕ) × (O.written out.new
        ≡ O.written out.old ++ take n (cannot_read_text w)))) answer.entry }
    ensures silent { O.tells ≡ true → result ≡ ending.OutOfMemory → O.written out.new ≡ O.written out.old }
    ensures want { result ≡ ending.OutOfMemory → SameFiles (S.holds shelf.old) (S.holds shelf.new)
        ⊎ HasReport (λ r. S.tells ≡ true → StoresDone (stores_in r.file) (S.holds shelf.old)
        (S.holds shelf.new)) answer.entry }
    ensures none { OnReport (λ r. r.file ≡ None) (λ w. Unit {0}) answer.entry
        → SameFiles (S.holds shelf.old) (S.holds shelf.new) }
    ensures calls { S.calls shelf.new ≤ S.calls shelf.old + stores_wanted answer.entry }
    ensures one_put { O.calls out.new ≤ O.calls out.old + 1 }
{
    match answer {
        Ok(report) => finish(alloc, &report, shelf, out),
        Err(Stop::Unread(word)) => match cannot_read_line(alloc, word) {
            Ok(line) => put_line(alloc, &line, out),
            Err(AllocError) => Ending::OutOfMemory,
        },
        Err(Stop::Memory) => Ending::OutOfMemory,
    }
}

// The run, with its ending.
fn run_once<R: Threads + Sync, S: Shelf, O: Sink>(
    rt: &R,
    alloc: Global,
    words: &[String],
    shelf: &mut S,
    out: &mut O,
) -> Ending
    ensures ends { Ends (record {
      words = map string_bytes words.now;
      shelf_tells = S.tells;
      sink_tells = O.tells;
      old = S.holds shelf.old;
      new = S.holds shelf.new;
      failed = S.failed shelf.new;
      before = O.written out.old;
      now = O.written out.new;
      shelf_faults = (S.faults shelf.old, S.faults shelf.new);
      sink_faults = (O.faults out.old, O.faults out.new);
    }) (status_of result) }
    ensures calls { CallsFew (map string_bytes words.now) (S.calls shelf.old) (S.calls shelf.new) }
    ensures one_put { O.calls out.new ≤ O.calls out.old + 1 }
{
    let answer = answer_to(rt, alloc, words, shelf);
    end(alloc, answer, shelf, out)
}

/// Does what the words ask, over the files of a shelf and with one text to a sink, and ends with a status.
///
/// The words are those after the program's name. `docs/FORMATS.md` lists the commands, the texts and the statuses. The
/// clause `ends` says how a run may end, whatever the shelf and the sink tell; the clauses from `zero` on are laws of
/// it.
pub fn run<R: Threads + Sync, S: Shelf, O: Sink>(
    rt: &R,
    alloc: Global,
    words: &Vec<String>,
    shelf: &mut S,
    out: &mut O,
) -> Status
    // A run ends with its answer, with a file that could not be read, in a store or a put that failed, or for want of
    // memory.
    ensures ends { Ends (record {
      words = map string_bytes words.now.items;
      shelf_tells = S.tells;
      sink_tells = O.tells;
      old = S.holds shelf.old;
      new = S.holds shelf.new;
      failed = S.failed shelf.new;
      before = O.written out.old;
      now = O.written out.new;
      shelf_faults = (S.faults shelf.old, S.faults shelf.new);
      sink_faults = (O.faults out.old, O.faults out.new);
    }) result.0 }

    // A run in which no load, no store and no put failed ends with its answer, but for want of memory.
    ensures answer { S.tells ≡ true → O.tells ≡ true → result.0 ≢ 5 → result.0 ≢ 6 → result.0 ≢ 7
        → Answers (map string_bytes words.now.items) (S.holds shelf.old) (S.holds shelf.new) (O.written out.old)
        (O.written out.new) result.0 }

    // With 0 it printed an accept, with a direction along which no two points are further apart than the tolerance; or
    // that each group is accepted, and the witness of each in the certificate meets what the group asks; or `valid` for
    // a certificate that is right.
    ensures zero { S.tells ≡ true → O.tells ≡ true → result.0 ≡ 0
        → EndsInZero (map string_bytes words.now.items) (S.holds shelf.old) (O.written out.old) (O.written out.new) }

    // With 1 it printed a reject: along no direction are all points within the tolerance; or some group is rejected,
    // and nothing meets what it asks.
    ensures reject { S.tells ≡ true → O.tells ≡ true → result.0 ≡ 1
        → EndsInOne (map string_bytes words.now.items) (S.holds shelf.old) (O.written out.old) (O.written out.new) }

    // With 2 it printed an open verdict, which is the verdict for the budget; or no group is rejected and some is open,
    // which is its verdict for its share of the budget.
    ensures open { S.tells ≡ true → O.tells ≡ true → result.0 ≡ 2
        → EndsInTwo (map string_bytes words.now.items) (S.holds shelf.old) (O.written out.old) (O.written out.new) }

    // With 8 it printed the first wrong line of a certificate, which isn't right.
    ensures invalid { S.tells ≡ true → O.tells ≡ true → result.0 ≡ 8
        → EndsInEight (map string_bytes words.now.items) (S.holds shelf.old) (O.written out.old) (O.written out.new) }

    // What a verdict stored as its certificate is valid for the files as they were read.
    ensures stored { S.tells ≡ true → result.0 ≤ 2
        → StoresValid (map string_bytes words.now.items) (S.holds shelf.old) (S.holds shelf.new) }

    // However the run ends, what was stored whole is valid so.
    ensures left { S.tells ≡ true
        → LeavesValid (map string_bytes words.now.items) (S.holds shelf.old) (S.holds shelf.new) (S.failed shelf.new) }

    // Status 4 comes exactly where the words are of no command and the put was done.
    ensures four { result.0 ≡ 4 → IsNoCommand (map string_bytes words.now.items) }
    ensures wrong_words { IsNoCommand (map string_bytes words.now.items) → result.0 ≢ 6 → result.0 ≢ 7 → result.0 ≡ 4 }
    ensures wrong_text { O.tells ≡ true → result.0 ≡ 4 → O.written out.new ≡ O.written out.old ++ wrong_words_text }

    // Status 5 comes only where a load of this run failed: that of a file which the words name. Status 6 comes only
    // where a store failed, or the put.
    ensures five { result.0 ≡ 5 → Rose (S.faults shelf.old) (S.faults shelf.new) }
    ensures word { result.0 ≡ 5 → FailedToRead (map string_bytes words.now.items) (S.failed shelf.new) }
    ensures six { result.0 ≡ 6 → Rose (S.faults shelf.old) (S.faults shelf.new)
        ⊎ Rose (O.faults out.old) (O.faults out.new) }

    // Want of memory puts nothing.
    ensures seven { O.tells ≡ true → result.0 ≡ 7 → O.written out.new ≡ O.written out.old }

    // No status but 0, 1, 2, 6 and 7 comes with a change of a file.
    ensures same { result.0 ≢ 0 → result.0 ≢ 1 → result.0 ≢ 2 → result.0 ≢ 6 → result.0 ≢ 7
        → SameFiles (S.holds shelf.old) (S.holds shelf.new) }
    ensures range { result.0 ≤ 8 }

    // The shelf is called once at most for each file that the words name, and the sink once at most.
    ensures calls { CallsFew (map string_bytes words.now.items) (S.calls shelf.old) (S.calls shelf.new) }
    ensures one_put { O.calls out.new ≤ O.calls out.old + 1 }
{
    run_once(rt, alloc, words.as_slice(), shelf, out).status()
}

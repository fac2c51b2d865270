// A run: one decision, and then one writer.
ghost use Rattle.std.specs.Prelude.{◌≡◌, []};
ghost use Rattle.lrp_io.specs.Starts.{StartsOnly};
ghost use Rattle.lrp_top.specs.Due.{IsRun, files_named};
ghost use Rattle.lrp_top.specs.Ends.{Ends};
ghost use Rattle.lrp_outputs.specs.Outcomes.{status_of};
ghost use Rattle.lrp_outputs.specs.Outputs.{told};

use crate::deciding::due;
use crate::seeing::{Filled, Watched};
use lrp_io::{Failed, Shelf, Sink};
use lrp_outputs::{Output, Refusal, Status, write_outcome};
use std::alloc::Global;

/// Does what the words after the program's name say, and writes one text or one line.
///
/// No memory is taken once the first byte is written, so a run that has begun to write ends with
/// its outcome's status, or with `Write`.
pub fn run<F: Shelf, S: Sink>(alloc: Global, words: &[String], shelf: &mut F, out: &mut S) -> Status
    ensures run { IsRun words.now (⟦<F as Watched>⟧.seen shelf.old shelf.new)
        (⟦<S as Filled>⟧.taken out.old out.new) result }

    // Where the words name no file, none is read.
    ensures unread { files_named words.now ≡ [] → shelf.new ≡ shelf.old }

    // No file is started but those that the words name, in their order, each once at most.
    ensures starts { StartsOnly (F.starts shelf.old) (F.starts shelf.new) (files_named words.now) }
{
    let outcome = due(alloc, words, shelf);
    tell(out, &outcome)
}

/// Writes an outcome's text, and gives the status that it ends with.
pub fn tell<S: Sink>(out: &mut S, outcome: &Result<Output, Refusal>) -> Status
    ensures { Ends (told outcome.now) (⟦<S as Filled>⟧.taken out.old out.new) result }
{
    match write_outcome(out, outcome) {
        Ok(()) => status_after(outcome),
        Err(Failed) => Status::Write,
    }
}

/// The status once an outcome's text was written whole.
fn status_after(outcome: &Result<Output, Refusal>) -> Status
    ensures { result ≡ status_of (told outcome.now) }
{
    match outcome {
        Ok(_) => Status::Done,
        Err(refusal) => refusal.status(),
    }
}

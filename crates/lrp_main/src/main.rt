//! The program: the words, real files and standard output.
#![tactic(auto)]

#[cfg(test)]
mod copies;
#[cfg(test)]
mod tests;

ghost use Rattle.std.specs.Prelude.{◌≡◌, drop};
ghost use Rattle.std.specs.Process.{exit_status};
ghost use Rattle.lrp_io.specs.Starts.{StartsOnly};
ghost use Rattle.lrp_main.specs.Exits.{IsExit, IsExitOf, IsUnbegun};
ghost use Rattle.lrp_outputs.specs.Statuses.{status_number as number_of_status};
ghost use Rattle.lrp_top.specs.Due.{files_named};

use lrp_io::{RealShelf, RealSink, Shelf, Sink};
use lrp_top::{Status, run};
use std::alloc::Global;
use std::env;
use std::io::{self, ErrorKind};
use std::process::ExitCode;
use std::rt::{Env, Files};

/// The number with which the program ends where memory for its words is refused.
const NO_MEMORY: u8 = 8;

/// The number with which it ends where its words can't be read.
const UNREADABLE: u8 = 10;

fn main(rt: HostRuntime) -> ExitCode {
    program(&rt)
}

/// What the program is: a run of the words after its name, over real files and standard output.
fn program<R: AllocGlobal + Env + Files + Print>(rt: &R) -> ExitCode
    ensures { IsExit (exit_status result) }
{
    let alloc = rt.alloc();
    let words = match env::args(rt) {
        Ok(words) => words,
        Err(error) => return ExitCode::from(number_of(&error)),
    };
    let Ok(words) = words.collect::<Vec<String>>(alloc) else {
        return ExitCode::from(NO_MEMORY);
    };
    let mut shelf = RealShelf::new(rt);
    let mut out = RealSink::new(rt);
    run_after_name(alloc, words.as_slice(), &mut shelf, &mut out)
}

/// Does what the words after the first one say, which is the program's name; the number tells how
/// it ended.
fn run_after_name<F: Shelf, S: Sink>(
    alloc: Global,
    words: &[String],
    shelf: &mut F,
    out: &mut S,
) -> ExitCode
    ensures exit { IsExitOf (drop 1 words.now)
        (record {
          files = F.files shelf.old;
          faults_before = F.faults shelf.old;
          faults = F.faults shelf.new;
          given = F.given shelf.new;
          may_be = F.may_be shelf.new;
        })
        (record {
          bytes_before = S.written out.old;
          bytes = S.written out.new;
          faults_before = S.faults out.old;
          faults = S.faults out.new;
        })
        (exit_status result) }
    ensures starts { StartsOnly (F.starts shelf.old) (F.starts shelf.new)
        (files_named (drop 1 words.now)) }
{
    exit_code(run(alloc, after_first(words), shelf, out))
}

/// The words after the first one.
fn after_first(words: &[String]) -> &[String]
    ensures { result.now ≡ drop 1 words.now }
{
    match words {
        [] => words,
        [_, others @ ..] => others,
    }
}

/// How the program ends where a run ended so.
fn exit_code(status: Status) -> ExitCode
    ensures { exit_status result ≡ number_of_status status }
{
    ExitCode::from(status.code())
}

/// The number with which the program ends where the system doesn't give its words.
fn number_of(error: &io::Error) -> u8
    ensures { IsUnbegun result }
{
    match error.kind() {
        ErrorKind::OutOfMemory => NO_MEMORY,
        _ => UNREADABLE,
    }
}

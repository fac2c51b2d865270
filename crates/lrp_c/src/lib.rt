//! The engine as C calls it: words and files as bytes in, a status and a text out; and sessions, whose files are kept.
//!
//! It is built as a static library, whose exports are declared in `packaging/library/fizhedul.h`.
#![tactic(auto)]

mod files;
mod handle;
mod held;
mod kept_file;
mod loose;
mod packed;
mod reply;
mod room;
mod session;
mod shelf;
mod text;

ghost use Rattle.std.specs.Prelude.{◌≡◌, None};
ghost use Rattle.lrp_c.specs.Calls.{IsCall};
ghost use Rattle.lrp_c.specs.Sessions.{IsHandleAsked, IsOpening, IsReplyTold, closing_number};

use crate::handle::{OpenDatabase, give_back, open, take};
use crate::packed::Unread;
use crate::reply::{Reply, reply_to};
use crate::room::put_front;
use crate::session::reply_of;
use std::alloc::Global;

/// The number for memory that was refused before the run.
const NO_MEMORY: i32 = 8;

/// The number for words or files that aren't packed.
const UNREADABLE: i32 = 10;

/// The number for a database that isn't open.
const CLOSED: i32 = 11;

/// Does what the words say, over these files alone: writes as many bytes of the text as there is room for, sets `count`
/// to the number of all of them, and gives the status.
#[unsafe(no_mangle)]
pub extern "C" fn fizhedul_run(
    alloc: Global,
    words: &[u8],
    files: &[u8],
    out: &mut [u8],
    count: &mut usize,
) -> i32
    ensures { IsCall words.now files.now out.old out.new count.new result }
{
    tell(reply_to(alloc, words, files), out, count)
}

/// Writes as much of a reply as there is room for, and gives its number.
fn tell(reply: Result<Reply, Unread>, out: &mut [u8], count: &mut usize) -> i32
    ensures { IsReplyTold reply out.old out.new count.new result }
{
    match reply {
        Ok(reply) => {
            *count = reply.text.len();
            put_front(out, &reply.text);
            i32::from(reply.status.code())
        }
        Err(Unread::Memory) => {
            *count = 0;
            NO_MEMORY
        }
        Err(Unread::Unpacked) => {
            *count = 0;
            UNREADABLE
        }
    }
}

/// Keeps these files for calls of `fizhedul_ask`. What was open before is closed, where the call doesn't fail.
#[unsafe(no_mangle)]
pub extern "C" fn fizhedul_open(alloc: Global, files: &[u8], database: &mut OpenDatabase) -> i32
    ensures { IsOpening files.now database.old.held.files database.new.held.files result }
{
    match open(alloc, files) {
        Ok(boxed) => {
            drop(take(alloc, database));
            give_back(database, boxed);
            0
        }
        Err(Unread::Memory) => NO_MEMORY,
        Err(Unread::Unpacked) => UNREADABLE,
    }
}

/// Does what the words say, as `fizhedul_run` does, over these files in front of those that are kept. A database that was
/// read of one of them is kept in its place, and so are the answers of its last page.
#[unsafe(no_mangle)]
pub extern "C" fn fizhedul_ask(
    alloc: Global,
    database: &mut OpenDatabase,
    words: &[u8],
    files: &[u8],
    out: &mut [u8],
    count: &mut usize,
) -> i32
    ensures { IsHandleAsked words.now files.now database.old.held.files database.new.held.files
        out.old out.new count.new result }
{
    match take(alloc, database) {
        Some(boxed) => {
            let (reply, boxed) = reply_of(alloc, boxed, words, files);
            give_back(database, boxed);
            tell(reply, out, count)
        }
        None => {
            *count = 0;
            CLOSED
        }
    }
}

/// Lets go of the files that are kept; says whether some were.
#[unsafe(no_mangle)]
pub extern "C" fn fizhedul_close(alloc: Global, database: &mut OpenDatabase) -> i32
    ensures closed { database.new.held.files ≡ None }
    ensures told { result ≡ closing_number database.old.held.files }
{
    match take(alloc, database) {
        Some(boxed) => {
            drop(boxed);
            0
        }
        None => CLOSED,
    }
}

// The text and the status of a run over files in memory.
ghost use Rattle.std.specs.Prelude.{◌≡◌, IfOk, IsErrOf};
ghost use Rattle.lrp_c.specs.Calls.{AreUnpacked, IsReply, IsRunOver};

use crate::packed::{Unread, files_in, words_in};
use crate::shelf::{CallShelf, Stock};
use crate::text::TextSink;
use lrp_io::File;
use lrp_model::List;
use lrp_top::{Status, run};
use std::alloc::Global;
use std::marker::Brand;

/// How a run ended, and what it wrote.
#[derive(Drop)]
pub struct Reply {
    pub status: Status,
    pub text: Vec<u8>,
}

/// What the packed words come to over the packed files.
pub fn reply_to(alloc: Global, words: &[u8], files: &[u8]) -> Result<Reply, Unread>
    ensures answered { IfOk result (λ reply. IsReply words.now files.now reply.text.items
        reply.status) }
    ensures unpacked { IsErrOf result Unread.Unpacked → AreUnpacked words.now files.now }
{
    let said = words_in(alloc, words)?;
    let held = files_in(alloc, files)?;
    Ok(run_over(alloc, said.as_slice(), held))
}

/// What these words come to over these files.
pub fn run_over(alloc: Global, words: &[String], files: List<File>) -> Reply
    ensures { IsRunOver words.now files result.text.items result.status }
{
    run_on::<Brand>(alloc, words, files)
}

/// The same, with a shelf whose type names the files.
fn run_on<K: Stock>(alloc: Global, words: &[String], files: List<File>) -> Reply
    requires { files ≡ K.files }
    ensures { IsRunOver words.now files result.text.items result.status }
{
    let mut shelf: CallShelf<K> = CallShelf::new(alloc, files);
    let mut text = TextSink::new(alloc);
    let status = run(alloc, words, &mut shelf, &mut text);
    Reply {
        status,
        text: text.into_bytes(),
    }
}

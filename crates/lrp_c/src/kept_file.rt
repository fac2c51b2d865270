// Files of a session: each holds its bytes once, as they were given or in the database that was read of them.
ghost use Rattle.std.specs.Prelude.{◌≡◌, ◌≤◌, IfErr, IfOk, IfSome, nat_eq, length};
ghost use lib.Pointwise.{pointwise};
ghost use Rattle.lrp_c.specs.KeptFiles.{IsContent, IsReadOf, content_bytes};
ghost use Rattle.lrp_c.specs.Sessions.{AnswersAsked};
ghost use Rattle.lrp_model.specs.Limits.{most_bytes};
ghost use Rattle.lrp_top.specs.Keeping.{IsAnswering};
ghost use Rattle.lrp_top.specs.Questions.{IsProperPurpose};

use crate::reply::Reply;
use crate::text::TextSink;
use lrp_io::File;
use lrp_model::{Copies, List, Memory, Name};
use lrp_top::{Asked, KeptDatabase, Told, ask, is_read_for, keep};
use std::alloc::Global;
use std::marker::Model;
use std::mem;

/// The most bytes of a database's file.
const MOST_BYTES: usize = 16_777_216;

/// What a file holds: its bytes, or the database that was read of them, which has them.
#[derive(Drop)]
pub enum Content {
    Bytes { bytes: List<u8> },
    Database { kept: KeptDatabase },
}

/// A file of a session, which contracts see as the file.
#[derive(Drop)]
pub struct KeptFile {
    name: Name,
    content: Content,
}

impl Model for KeptFile {
    ghost use Rattle.lrp_c.specs.KeptFiles.{IsContent, content_bytes};
    ghost use Rattle.lrp_io.specs.declared.shelf.File.{File as FileOf};

    ghost Value = { FileOf };

    ghost view = { λ f. record { name = f.name; bytes = content_bytes f.content } };

    ghost invariant = { λ f. IsContent f.content };
}

impl KeptFile {
    /// The file, whose bytes are as they were given.
    pub fn new(file: File) -> KeptFile
        ensures { result ≡ file }
    {
        let File { name, bytes } = file;
        KeptFile {
            name,
            content: Content::Bytes { bytes },
        }
    }

    /// Whether this is its name.
    pub fn has_name(&self, name: &str) -> bool
        ensures { result ≡ pointwise nat_eq self.now.name name.now }
    {
        self.name.as_bytes() == name.as_bytes()
    }

    /// The file in memory of its own.
    pub fn copy(&self, alloc: Global) -> Result<File, Memory>
        ensures { IfOk result (λ file. file ≡ self.now) }
    {
        Ok(File {
            name: self.name.copy(alloc)?,
            bytes: bytes_in(&self.content).copy_bytes(alloc)?,
        })
    }

    /// What a question of this query over the file's database comes to, where the file can be read as the question asks.
    pub fn answer(&mut self, alloc: Global, asked: &Asked<'_>, query: List<u8>) -> Option<Reply>
        requires proper { IsProperPurpose asked.now.purpose }
        requires answers { IsAnswering asked.now.purpose }
        requires short { length query ≤ most_bytes }
        ensures reply { IfSome result (AnswersAsked asked.now self.old.bytes query) }
        ensures same { self.new ≡ self.old }
    {
        let nothing = Content::Bytes {
            bytes: List::new(alloc),
        };
        match read_as_asked(alloc, mem::replace(&mut self.content, nothing), asked) {
            Ok(kept) => {
                let Replied { reply, kept } = reply_kept(alloc, asked, query, kept);
                self.content = Content::Database { kept };
                Some(reply)
            }
            Err(bytes) => {
                self.content = Content::Bytes { bytes };
                None
            }
        }
    }
}

/// The bytes of a file.
fn bytes_in(content: &Content) -> &List<u8>
    ensures { result.now ≡ content_bytes content.now }
{
    match content {
        Content::Bytes { bytes } => bytes,
        Content::Database { kept } => &kept.file.bytes,
    }
}

/// The database of a file, read as a question asks, or the file's bytes, where they can't be read so.
fn read_as_asked(
    alloc: Global,
    content: Content,
    asked: &Asked<'_>,
) -> Result<KeptDatabase, List<u8>>
    requires { IsContent content }
    ensures read { IfOk result (IsReadOf asked.now (content_bytes content)) }
    ensures given { IfErr result (λ bytes. bytes ≡ content_bytes content) }
{
    match content {
        Content::Bytes { bytes } => read_anew(alloc, bytes, asked),
        Content::Database { kept } => {
            if is_read_for(&kept, asked) {
                Ok(kept)
            } else {
                read_anew(alloc, kept.into_bytes(), asked)
            }
        }
    }
}

/// The database of these bytes, read as a question asks, or the bytes, where they can't be read so.
fn read_anew(alloc: Global, bytes: List<u8>, asked: &Asked<'_>) -> Result<KeptDatabase, List<u8>>
    ensures read { IfOk result (IsReadOf asked.now bytes) }
    ensures given { IfErr result (λ given. given ≡ bytes) }
{
    if bytes.len() > MOST_BYTES {
        Err(bytes)
    } else {
        keep(alloc, bytes, asked)
    }
}

/// What a question came to, and the database that it is of.
#[derive(Drop)]
struct Replied {
    reply: Reply,
    kept: KeptDatabase,
}

/// What a question of this query over a database comes to.
fn reply_kept(alloc: Global, asked: &Asked<'_>, query: List<u8>, kept: KeptDatabase) -> Replied
    requires proper { IsProperPurpose asked.now.purpose }
    requires answers { IsAnswering asked.now.purpose }
    requires read { IsReadOf asked.now kept.file.bytes kept }
    requires short { length query ≤ most_bytes }
    ensures reply { AnswersAsked asked.now kept.file.bytes query result.reply }
    ensures kept { IsContent (Content.Database result.kept) }
    ensures bytes { result.kept.file.bytes ≡ kept.file.bytes }
{
    let mut text = TextSink::new(alloc);
    let Told { status, kept } = ask(alloc, asked, query, kept, &mut text);
    let text = text.into_bytes();
    Replied {
        reply: Reply { status, text },
        kept,
    }
}

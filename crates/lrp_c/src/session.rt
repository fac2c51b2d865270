// Files that are kept, of which some are databases that were read.
ghost use Rattle.std.specs.Prelude.{◌≡◌, ◌++◌, ◌≤◌, IfNone, IfOk, IfSome, IsErrOf, length, map, string_bytes};
ghost use Rattle.lrp_c.specs.Calls.{AreUnpacked, IsReply, IsRunOver};
ghost use Rattle.lrp_c.specs.Packed.{packed_files, packed_words};
ghost use Rattle.lrp_c.specs.Sessions.{AnswersOver, HasQuery};
ghost use Rattle.lrp_model.specs.Limits.{most_bytes};
ghost use Rattle.lrp_top.specs.Keeping.{IsAnswering, MeansDue};
ghost use Rattle.lrp_top.specs.Questions.{IsProperPurpose};

use crate::files::{all_files, kept_place, place_of, short_bytes};
use crate::kept_file::KeptFile;
use crate::packed::{Unread, files_in, words_in};
use crate::reply::{Reply, run_over};
use lrp_io::File;
use lrp_model::{List, Memory};
use lrp_top::{Asked, question_in};
use std::alloc::Global;
use std::mem;

/// Files that are kept.
#[derive(Drop)]
pub struct Session {
    pub files: List<KeptFile>,
}

impl Session {
    /// A session of these files.
    pub fn new(alloc: Global, files: List<File>) -> Result<Session, Memory>
        ensures { IfOk result (λ session. session.files ≡ files) }
    {
        let mut kept = List::new(alloc);
        for file in files.into_vec() {
            kept.push(KeptFile::new(file))?;
        }
        Ok(Session { files: kept })
    }
}

/// The words and the files of a call.
#[derive(Drop)]
struct Said {
    words: Vec<String>,
    files: List<File>,
}

/// What words come to over these files in front of a session's.
fn reply_in(
    alloc: Global,
    words: &[String],
    files: List<File>,
    session: &mut Session,
) -> Result<Reply, Memory>
    ensures reply { IfOk result (λ reply. IsRunOver words.now (files ++ session.old.files)
        reply.text.items reply.status) }
    ensures files { session.new.files ≡ session.old.files }
{
    match question_in(words) {
        Some(asked) => reply_asked(alloc, words, &asked, files, session),
        None => reply_anew(alloc, words, files, session),
    }
}

/// What words come to over these files in front of a session's, of which all are read anew.
fn reply_anew(
    alloc: Global,
    words: &[String],
    files: List<File>,
    session: &Session,
) -> Result<Reply, Memory>
    ensures { IfOk result (λ reply. IsRunOver words.now (files ++ session.now.files)
        reply.text.items reply.status) }
{
    let all = all_files(alloc, files, session.files.as_slice())?;
    Ok(run_over(alloc, words, all))
}

/// What a question comes to over these files in front of a session's: over its database, where that can be kept.
fn reply_asked(
    alloc: Global,
    words: &[String],
    asked: &Asked<'_>,
    files: List<File>,
    session: &mut Session,
) -> Result<Reply, Memory>
    requires proper { IsProperPurpose asked.now.purpose }
    requires answers { IsAnswering asked.now.purpose }
    requires due { MeansDue words.now asked.now }
    ensures reply { IfOk result (λ reply. IsRunOver words.now (files ++ session.old.files)
        reply.text.items reply.status) }
    ensures files { session.new.files ≡ session.old.files }
{
    if let Some(query) = question_bytes(alloc, files.as_slice(), asked) {
        if let Some(reply) = reply_kept(alloc, asked, query, session) {
            return Ok(reply);
        }
    }
    reply_anew(alloc, words, files, session)
}

/// The bytes of a question's query, where its file is among these and that of its database isn't.
fn question_bytes(alloc: Global, files: &[File], asked: &Asked<'_>) -> Option<List<u8>>
    ensures query { IfSome result (HasQuery asked.now files.now) }
{
    match place_of(files, asked.files.database) {
        Some(_) => None,
        None => short_bytes(alloc, files, asked.files.query),
    }
}

/// What a question comes to over its database, where that is among a session's files and can be read.
fn reply_kept(
    alloc: Global,
    asked: &Asked<'_>,
    query: List<u8>,
    session: &mut Session,
) -> Option<Reply>
    requires proper { IsProperPurpose asked.now.purpose }
    requires answers { IsAnswering asked.now.purpose }
    requires short { length query ≤ most_bytes }
    ensures reply { IfSome result (AnswersOver asked.now session.old.files query) }
    ensures files { session.new.files ≡ session.old.files }
{
    let place = kept_place(session.files.as_slice(), asked.files.database)?;
    let mut files = mem::replace(&mut session.files, List::new(alloc)).into_vec();
    let reply = files[place].answer(alloc, asked, query);
    session.files = List::from_vec(files);
    reply
}

/// What the packed words come to over the packed files in front of a session's, and the session after it.
pub fn reply_of(
    alloc: Global,
    boxed: Box<Session>,
    words: &[u8],
    files: &[u8],
) -> (Result<Reply, Unread>, Box<Session>)
    ensures answered { IfOk result.0 (λ reply. IsReply words.now
        (files.now ++ packed_files boxed.value.files) reply.text.items reply.status) }
    ensures unpacked { IsErrOf result.0 Unread.Unpacked → AreUnpacked words.now files.now }
    ensures files { result.1.value.files ≡ boxed.value.files }
{
    match said_in(alloc, words, files) {
        Ok(said) => {
            let (reply, boxed) = reply_said(alloc, boxed, said);
            match reply {
                Ok(reply) => (Ok(reply), boxed),
                Err(Memory { .. }) => (Err(Unread::Memory), boxed),
            }
        }
        Err(unread) => (Err(unread), boxed),
    }
}

/// What the words of a call come to over its files in front of a session's, and the session after it.
fn reply_said(
    alloc: Global,
    boxed: Box<Session>,
    said: Said,
) -> (Result<Reply, Memory>, Box<Session>)
    ensures reply { IfOk result.0 (λ reply. IsRunOver said.words.items
        (said.files ++ boxed.value.files) reply.text.items reply.status) }
    ensures files { result.1.value.files ≡ boxed.value.files }
{
    let Said { words, files } = said;
    let mut boxed = boxed;
    let reply = reply_in(alloc, words.as_slice(), files, &mut *boxed);
    (reply, boxed)
}

/// The words and the files that are packed.
fn said_in(alloc: Global, words: &[u8], files: &[u8]) -> Result<Said, Unread>
    ensures packed { IfOk result (λ said. (words.now ≡ packed_words (map string_bytes said.words.items))
        × (files.now ≡ packed_files said.files)) }
    ensures unpacked { IsErrOf result Unread.Unpacked → AreUnpacked words.now files.now }
{
    let words = words_in(alloc, words)?;
    let files = files_in(alloc, files)?;
    Ok(Said { words, files })
}

// A database that is kept, and the answers of the page that was asked of it last.
ghost use Rattle.std.specs.Prelude.{◌≡◌, ◌≤◌, IfErr, IfOk, IfSome, IsTrue, Some, length};
ghost use Rattle.lrp_model.specs.Limits.{most_bytes};
ghost use Rattle.lrp_top.specs.Keeping.{AsksAgain, AsksSame, IsDatabaseKept, IsReadFor};

use crate::files::{DatabaseFile, QueryFile};
use crate::language::{QueryLanguage, civil_of, language_of};
use crate::reading::relations_of;
use lrp_answers::{Answer, Paused};
use lrp_civil::CivilText;
use lrp_model::{List, Planning};
use lrp_words::{Asked, QuestionFiles};
use std::alloc::Global;

/// A query over a database that is kept, how its answers were found, and the digest of both files.
#[derive(Drop)]
pub struct KeptQuery {
    pub file: QueryFile,
    pub language: QueryLanguage,
    pub planning: Planning,
    pub cap: u32,
    pub files: [u8; 32],
}

/// A query over a database that is kept, all of its answers, and the listing of them as its last page left it.
#[derive(Drop)]
pub struct KeptAnswer {
    pub query: KeptQuery,
    pub answer: Answer,
    pub paused: Option<Paused>,
}

/// A database that was read, which civil values it may have, and the answers of the page that was asked of it last.
#[derive(Drop)]
pub struct KeptDatabase {
    pub civil: Option<CivilText>,
    pub file: DatabaseFile,
    pub last: Option<KeptAnswer>,
}

impl KeptDatabase {
    /// The bytes of its file.
    pub fn into_bytes(self) -> List<u8>
        ensures { result ≡ self.file.bytes }
    {
        let KeptDatabase { file, .. } = self;
        file.into_bytes()
    }
}

/// The database of a file's bytes, read as a question reads it, of which nothing was asked yet. Bytes that can't be read so
/// are given back.
pub fn keep(alloc: Global, bytes: List<u8>, asked: &Asked<'_>) -> Result<KeptDatabase, List<u8>>
    requires { length bytes ≤ most_bytes }
    ensures kept { IfOk result IsDatabaseKept }
    ensures bytes { IfOk result (λ kept. kept.file.bytes ≡ bytes) }
    ensures reads { IfOk result (IsReadFor asked.now) }
    ensures given { IfErr result (λ given. given ≡ bytes) }
{
    let civil = civil_of(&asked.files);
    match relations_of(alloc, bytes.as_slice(), civil) {
        Ok(relations) => Ok(KeptDatabase {
            civil,
            file: DatabaseFile { bytes, relations },
            last: None,
        }),
        Err(_) => Err(bytes),
    }
}

/// Whether a database was read as a question reads it.
pub fn is_read_for(kept: &KeptDatabase, asked: &Asked<'_>) -> bool
    ensures { IsTrue result → IsReadFor asked.now kept.now }
{
    kept.civil == civil_of(&asked.files)
}

/// The answers that are kept, where they are those of this query with these words.
pub fn kept_for(
    last: Option<KeptAnswer>,
    files: &QuestionFiles<'_>,
    cap: u32,
    query: &[u8],
) -> Option<KeptAnswer>
    ensures again { IfSome result (AsksAgain files.now cap query.now) }
    ensures same { IfSome result (λ kept. last ≡ Some kept) }
{
    match last {
        Some(kept) => {
            if is_again(&kept.query, files, cap, query) {
                Some(kept)
            } else {
                None
            }
        }
        None => None,
    }
}

/// Whether a query that is kept is this one, asked with these words.
fn is_again(kept: &KeptQuery, files: &QuestionFiles<'_>, cap: u32, query: &[u8]) -> bool
    ensures { IsTrue result → AsksSame files.now cap query.now kept.now }
{
    kept.language == language_of(files)
        && kept.planning == files.planning
        && kept.cap == cap
        && kept.file.bytes.as_slice() == query
}

// The files of a command, or why there are none.
ghost use Rattle.std.specs.Prelude.{◌≡◌, ◌≤◌, IfOk, List as ListOf, ℕ};
ghost use Rattle.std.specs.List.{AllByRecursion};
ghost use Rattle.lrp_edits.specs.EditMeaning.{IsEditOf};
ghost use Rattle.lrp_io.specs.Starts.{StartsOne};
ghost use Rattle.lrp_top.specs.Due.{IsDatabaseRead, IsQueryRead};
ghost use Rattle.lrp_top.specs.Languages.{civil_by, language_by, usual_by};
ghost use Rattle.lrp_top.specs.Lengths.{TellsLength};
ghost use Rattle.lrp_top.specs.Questions.{IsFit, asked_as, read_as};
ghost use Rattle.lrp_top.specs.Watched.{AreEditsRead};
ghost use Rattle.lrp_words.specs.Commands.{asked_files};

use crate::language::{QueryLanguage, civil_of, language_of, usual_civil};
use crate::reading::{database_in, edits_in, query_in};
use crate::seeing::Watched;
use lrp_civil::CivilText;
use lrp_database::Database;
use lrp_edits::Edit;
use lrp_io::{LoadFault, Shelf, load};
use lrp_model::{List, Query};
use lrp_outputs::{Refusal, WatchRefusal};
use lrp_words::QuestionFiles;
use std::alloc::Global;

/// The bytes of a database's file, and the relations that they mean: the digest of a page's token is of the bytes that were
/// read.
pub struct DatabaseFile {
    pub bytes: List<u8>,
    pub relations: Database,
}

/// The bytes of a query's file, and the well-sorted query that they say.
pub struct QueryFile {
    pub bytes: List<u8>,
    pub query: Query,
}

impl DatabaseFile {
    /// Its relations alone.
    pub fn into_relations(self) -> Database
        ensures { result ≡ self.relations }
    {
        let DatabaseFile {
            bytes: _bytes,
            relations,
        } = self;
        relations
    }

    /// Its bytes alone.
    pub fn into_bytes(self) -> List<u8>
        ensures { result ≡ self.bytes }
    {
        let DatabaseFile {
            bytes,
            relations: _relations,
        } = self;
        bytes
    }
}

impl QueryFile {
    /// Its query alone.
    pub fn into_query(self) -> Query
        ensures { result ≡ self.query }
    {
        let QueryFile {
            bytes: _bytes,
            query,
        } = self;
        query
    }
}

// Each is let go by one call: a derived drop would be proved anew, part by part, wherever a value goes.
impl Drop for DatabaseFile {
    fn drop(self) {
        let DatabaseFile {
            bytes: _bytes,
            relations: _relations,
        } = self;
    }
}

impl Drop for QueryFile {
    fn drop(self) {
        let QueryFile {
            bytes: _bytes,
            query: _query,
        } = self;
    }
}

/// The database of a file.
pub fn database_of<F: Shelf>(
    alloc: Global,
    name: &str,
    civil: Option<CivilText>,
    shelf: &mut F,
) -> Result<DatabaseFile, Refusal>
    ensures read { IsDatabaseRead civil (⟦<F as Watched>⟧.seen shelf.old shelf.new) name.now
        (read_as result) }
    ensures long { TellsLength (⟦<F as Watched>⟧.seen shelf.old shelf.new) result }
    ensures files { F.files shelf.new ≡ F.files shelf.old }
    ensures later { (other : ListOf ℕ) → F.faults shelf.old other ≤ F.faults shelf.new other }
    ensures starts { StartsOne (F.starts shelf.old) (F.starts shelf.new) name.now }
{
    match load(alloc, shelf, name) {
        Ok(bytes) => database_in(alloc, bytes, civil),
        Err(LoadFault::Failed) => Err(Refusal::ReadDatabase),
        Err(LoadFault::TooLong) => Err(Refusal::LongDatabase),
        Err(LoadFault::Memory) => Err(Refusal::Memory),
    }
}

/// The well-sorted query of a file, over a database.
pub fn query_of<F: Shelf>(
    alloc: Global,
    database: &Database,
    name: &str,
    language: QueryLanguage,
    shelf: &mut F,
) -> Result<QueryFile, Refusal>
    ensures asked { IsQueryRead language database.now
        (⟦<F as Watched>⟧.seen shelf.old shelf.new) name.now (asked_as result) }
    ensures long { TellsLength (⟦<F as Watched>⟧.seen shelf.old shelf.new) result }
    ensures fit { IfOk result (λ file. IsFit database.now file) }
    ensures files { F.files shelf.new ≡ F.files shelf.old }
    ensures later { (other : ListOf ℕ) → F.faults shelf.old other ≤ F.faults shelf.new other }
    ensures starts { StartsOne (F.starts shelf.old) (F.starts shelf.new) name.now }
{
    match load(alloc, shelf, name) {
        Ok(bytes) => query_in(alloc, database, bytes, language),
        Err(LoadFault::Failed) => Err(Refusal::ReadQuery),
        Err(LoadFault::TooLong) => Err(Refusal::LongQuery),
        Err(LoadFault::Memory) => Err(Refusal::Memory),
    }
}

/// The database of a question's words.
pub fn database_asked<F: Shelf>(
    alloc: Global,
    files: &QuestionFiles<'_>,
    shelf: &mut F,
) -> Result<DatabaseFile, Refusal>
    ensures read { IsDatabaseRead (civil_by (asked_files files.now))
        (⟦<F as Watched>⟧.seen shelf.old shelf.new) files.now.database.now (read_as result) }
    ensures long { TellsLength (⟦<F as Watched>⟧.seen shelf.old shelf.new) result }
    ensures files { F.files shelf.new ≡ F.files shelf.old }
    ensures later { (other : ListOf ℕ) → F.faults shelf.old other ≤ F.faults shelf.new other }
    ensures starts { StartsOne (F.starts shelf.old) (F.starts shelf.new) files.now.database.now }
{
    database_of(alloc, files.database, civil_of(files), shelf)
}

/// The query of a question's words, over a database.
pub fn query_asked<F: Shelf>(
    alloc: Global,
    database: &Database,
    files: &QuestionFiles<'_>,
    shelf: &mut F,
) -> Result<QueryFile, Refusal>
    ensures asked { IsQueryRead (language_by (asked_files files.now)) database.now
        (⟦<F as Watched>⟧.seen shelf.old shelf.new) files.now.query.now (asked_as result) }
    ensures long { TellsLength (⟦<F as Watched>⟧.seen shelf.old shelf.new) result }
    ensures fit { IfOk result (λ file. IsFit database.now file) }
    ensures files { F.files shelf.new ≡ F.files shelf.old }
    ensures later { (other : ListOf ℕ) → F.faults shelf.old other ≤ F.faults shelf.new other }
    ensures starts { StartsOne (F.starts shelf.old) (F.starts shelf.new) files.now.query.now }
{
    query_of(alloc, database, files.query, language_of(files), shelf)
}

/// The database of a file where the words say no more than whether times are civil ones.
pub fn usual_database<F: Shelf>(
    alloc: Global,
    name: &str,
    civil: bool,
    shelf: &mut F,
) -> Result<DatabaseFile, Refusal>
    ensures read { IsDatabaseRead (usual_by civil) (⟦<F as Watched>⟧.seen shelf.old shelf.new)
        name.now (read_as result) }
    ensures long { TellsLength (⟦<F as Watched>⟧.seen shelf.old shelf.new) result }
    ensures files { F.files shelf.new ≡ F.files shelf.old }
    ensures later { (other : ListOf ℕ) → F.faults shelf.old other ≤ F.faults shelf.new other }
    ensures starts { StartsOne (F.starts shelf.old) (F.starts shelf.new) name.now }
{
    database_of(alloc, name, usual_civil(civil), shelf)
}

/// The edits of a file, over a database.
pub fn edits_of<F: Shelf>(
    alloc: Global,
    database: &Database,
    name: &str,
    shelf: &mut F,
) -> Result<List<Edit>, Refusal>
    ensures read { AreEditsRead database.now (⟦<F as Watched>⟧.seen shelf.old shelf.new) name.now
        result }
    ensures long { TellsLength (⟦<F as Watched>⟧.seen shelf.old shelf.new) result }
    ensures lawful { IfOk result (AllByRecursion (IsEditOf database.now)) }
    ensures starts { StartsOne (F.starts shelf.old) (F.starts shelf.new) name.now }
{
    match load(alloc, shelf, name) {
        Ok(bytes) => edits_in(alloc, database, bytes.as_slice()),
        Err(LoadFault::Failed) => Err(Refusal::Watch(WatchRefusal::Read)),
        Err(LoadFault::TooLong) => Err(Refusal::Watch(WatchRefusal::Long)),
        Err(LoadFault::Memory) => Err(Refusal::Memory),
    }
}

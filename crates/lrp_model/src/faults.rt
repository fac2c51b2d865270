// Why a text is no database, or no well-sorted query, with the numbers that rank kinds at one place.
ghost use Rattle.std.specs.Prelude.{◌≡◌};
ghost use Rattle.lrp_model.specs.Kinds.{database_number, database_word, query_number, query_word};

use crate::Place;
use thiserror::Error;

/// Why a text is no database. At one place the kind of the least number is reported.
#[derive(Clone, Copy, Debug, PartialEq, Eq)]
pub enum DbKind {
    Utf8,
    Syntax,
    Number,
    Period,
    Name,
    Arity,
    Sort,
    Column,
    Wide,
    TextTooLong,
    /// A name in a file of edits that is no relation of the database.
    UnknownRelation,
}

/// The fault of a text that is no database.
#[derive(Clone, Copy, Debug, PartialEq, Eq, Error)]
#[error("database {} at {}:{}", .kind.word(), .place.line, .place.column)]
pub struct DbFault {
    pub kind: DbKind,
    pub place: Place,
}

/// Why a text is no query, or no well-sorted one. At one place the kind of the least number is reported.
#[derive(Clone, Copy, Debug, PartialEq, Eq)]
pub enum QueryKind {
    Utf8,
    Syntax,
    Number,
    Period,
    Deep,
    UnknownRelation,
    Arity,
    Sort,
    Unbound,
    Rebound,
    Wide,
    TextTooLong,
    UnknownSort,
    /// A second definition of one name, or one whose name is a relation of the database.
    Defined,
}

/// The fault of a text that is no query, or of a query that is not well-sorted.
#[derive(Clone, Copy, Debug, PartialEq, Eq, Error)]
#[error("query {} at {}:{}", .kind.word(), .place.line, .place.column)]
pub struct QueryFault {
    pub kind: QueryKind,
    pub place: Place,
}

/// Why no query is read, or none is well-sorted: its one fault, or want of memory.
#[derive(Clone, Copy, Debug, PartialEq, Eq, Error)]
pub enum QueryRead {
    #[error("{fault}")]
    Fault { fault: QueryFault },
    #[error("memory")]
    Memory,
}

impl DbKind {
    /// The number that ranks the kind among faults at one place.
    pub fn number(self) -> u8
        ensures { result ≡ database_number self }
    {
        match self {
            DbKind::Utf8 => 1,
            DbKind::Syntax => 2,
            DbKind::Number => 3,
            DbKind::Period => 4,
            DbKind::Name => 5,
            DbKind::Arity => 6,
            DbKind::Sort => 7,
            DbKind::Column => 8,
            DbKind::Wide => 9,
            DbKind::TextTooLong => 10,
            DbKind::UnknownRelation => 11,
        }
    }

    /// The word that a refusal has for the kind.
    pub fn word(self) -> &'static str
        ensures { result.now ≡ database_word self }
    {
        match self {
            DbKind::Utf8 => "Utf8",
            DbKind::Syntax => "Syntax",
            DbKind::Number => "Number",
            DbKind::Period => "Period",
            DbKind::Name => "Name",
            DbKind::Arity => "Arity",
            DbKind::Sort => "Sort",
            DbKind::Column => "Column",
            DbKind::Wide => "Wide",
            DbKind::TextTooLong => "TextTooLong",
            DbKind::UnknownRelation => "UnknownRelation",
        }
    }
}

impl QueryKind {
    /// The number that ranks the kind among faults at one place.
    pub fn number(self) -> u8
        ensures { result ≡ query_number self }
    {
        match self {
            QueryKind::Utf8 => 1,
            QueryKind::Syntax => 2,
            QueryKind::Number => 3,
            QueryKind::Period => 4,
            QueryKind::Deep => 5,
            QueryKind::UnknownRelation => 6,
            QueryKind::Arity => 7,
            QueryKind::Sort => 8,
            QueryKind::Unbound => 9,
            QueryKind::Rebound => 10,
            QueryKind::Wide => 11,
            QueryKind::TextTooLong => 12,
            QueryKind::UnknownSort => 13,
            QueryKind::Defined => 14,
        }
    }

    /// The word that a refusal has for the kind.
    pub fn word(self) -> &'static str
        ensures { result.now ≡ query_word self }
    {
        match self {
            QueryKind::Utf8 => "Utf8",
            QueryKind::Syntax => "Syntax",
            QueryKind::Number => "Number",
            QueryKind::Period => "Period",
            QueryKind::Deep => "Deep",
            QueryKind::UnknownRelation => "UnknownRelation",
            QueryKind::Arity => "Arity",
            QueryKind::Sort => "Sort",
            QueryKind::Unbound => "Unbound",
            QueryKind::Rebound => "Rebound",
            QueryKind::Wide => "Wide",
            QueryKind::TextTooLong => "TextTooLong",
            QueryKind::UnknownSort => "UnknownSort",
            QueryKind::Defined => "Defined",
        }
    }
}

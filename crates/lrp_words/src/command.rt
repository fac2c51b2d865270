// What words ask for.
use crate::purpose::Asked;
use lrp_model::Planning;
use thiserror::Error;

/// What each question of files has: the names of the files of its database and of its query, which are not empty, how the
/// query is planned, whether it may have temporal operators or is in the wide language, and whether times are minutes since
/// 1970-01-01 00:00 and databases may have civil values.
#[derive(Clone, Copy)]
pub struct QuestionFiles<'a> {
    pub database: &'a str,
    pub query: &'a str,
    pub planning: Planning,
    pub tense: bool,
    pub wide: bool,
    pub civil: bool,
}

/// What is looked over: the names of the files of a database and, where there is one, of a query, which are not empty,
/// whether the query may have temporal operators, and whether the database may have civil values.
#[derive(Clone, Copy)]
pub struct LintFiles<'a> {
    pub database: &'a str,
    pub query: Option<&'a str>,
    pub tense: bool,
    pub civil: bool,
}

/// A command with its values, whose texts are borrowed from the words: a question of files with its purpose, or one that
/// asks none. Contracts see its task, with texts as bytes.
///
/// `db`, `query` and `edits` are names of files, and not empty. With `auto` a query that isn't in kept form is watched too.
#[derive(Clone, Copy)]
pub enum Command<'a> {
    Question {
        asked: Asked<'a>,
    },
    Check {
        db: &'a str,
        civil: bool,
    },
    Lint {
        files: LintFiles<'a>,
    },
    Watch {
        db: &'a str,
        query: &'a str,
        edits: &'a str,
        cap: u32,
        planning: Planning,
        auto: bool,
    },
    Sample {
        seed: u32,
        size: u32,
    },
}

/// The words spell no command.
#[derive(Clone, Copy, Debug, PartialEq, Eq, Error)]
#[error("usage")]
pub struct Usage;

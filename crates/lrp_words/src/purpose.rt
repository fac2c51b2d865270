// What a question is asked for.
use crate::command::QuestionFiles;

/// A question of files, and what it is asked for.
#[derive(Clone, Copy)]
pub struct Asked<'a> {
    pub files: QuestionFiles<'a>,
    pub purpose: Purpose<'a>,
}

/// What is told of a question.
#[derive(Clone, Copy)]
pub enum Purpose<'a> {
    /// Its plan.
    Plan,
    /// All of its answers, where no step has more than `cap` cells. With `canon` it is the canonical answer, where it has no
    /// more than `cap` rows. Its relation has this name.
    Answer {
        cap: u32,
        canon: bool,
        name: &'a str,
    },
    /// Its least answer, where no step has more than `cap` cells. With `dates` its times are shown as dates.
    Witness {
        cap: u32,
        dates: bool,
    },
    /// A page of its answers.
    Page {
        paging: Paging<'a>,
    },
    /// How many of its answers lie in a window.
    Count {
        counting: Counting,
    },
    /// Its answers in a window, as ranges.
    Ranges {
        ranging: Ranging,
    },
}

/// What a page is asked for: a window, at most how many lines, a token after which it begins, its form, a cap on the
/// cells of each step, and whether its times are shown as dates.
#[derive(Clone, Copy)]
pub struct Paging<'a> {
    pub from: i64,
    pub to: i64,
    pub limit: u32,
    pub after: Option<&'a str>,
    pub json: bool,
    pub cap: u32,
    pub civil: bool,
}

/// What a count is asked for: a window, whose ends are civil minutes where `civil` is set, and a cap on the cells of each step.
#[derive(Clone, Copy)]
pub struct Counting {
    pub from: i64,
    pub to: i64,
    pub cap: u32,
    pub civil: bool,
}

/// What ranges are asked for: a window, at most how many lines, their form, a cap on the cells of each step, and whether
/// their ends are shown as dates.
#[derive(Clone, Copy)]
pub struct Ranging {
    pub from: i64,
    pub to: i64,
    pub limit: u32,
    pub json: bool,
    pub cap: u32,
    pub civil: bool,
}

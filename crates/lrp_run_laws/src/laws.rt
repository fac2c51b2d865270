// What holds of whole runs: each law is the contract of a function that does nothing but call the laws that it rests on.
ghost use Rattle.std.specs.Prelude.{◌≡◌, ◌≤ℤ◌, ◌+ℤ◌, ℕ, ℤ, List, Option, pos};
ghost use Rattle.lrp_io.specs.declared.shelf.File.{File};
ghost use Rattle.lrp_words.specs.Commands.{Task};
ghost use Rattle.lrp_model.specs.Formulas.{Question};
ghost use Rattle.lrp_model.specs.Rows.{Tuple};
ghost use Rattle.lrp_model.specs.Sorts.{time_count};
ghost use Rattle.lrp_model.specs.Texts.{Identifier};
ghost use Rattle.lrp_model.specs.declared.relations.Relation.{Relation};
ghost use Rattle.lrp_civil.specs.declared.values.CivilText.{CivilText};
ghost use Rattle.lrp_top.specs.declared.language.QueryLanguage.{QueryLanguage};
ghost use Rattle.lrp_top.specs.Canonical.{HasCanonicalRows};
ghost use Rattle.lrp_run_laws.specs.Contents.{Contents, contents_of, digest_of, SaysQuestion, SaysRelations};
ghost use Rattle.lrp_run_laws.specs.Tasks.{IsLawfulTask};
ghost use Rattle.lrp_run_laws.specs.Runs.{HaveStoodStill, IsComplete, IsRunOf, MayHappen, Run};
ghost use Rattle.lrp_run_laws.specs.Reasons.{HasReason};
ghost use Rattle.lrp_run_laws.specs.Numbers.{HasToldNumber, HaveAddedUp};
ghost use Rattle.lrp_run_laws.specs.Pairs.{EndedAlike, IsDecidedByFiles};
ghost use Rattle.lrp_run_laws.specs.SameAnswers.{HasToldCanonical, HaveSameAnswers, WroteAlike};
ghost use Rattle.lrp_run_laws.specs.Following.{IsFollowed, IsShortWindow, IsUnfinished};

use lrp_canon::{answer_texts_are_unique, answers_have_one_row_count};
use lrp_count::{ranges_are_unique, sizes_add, sizes_are_unique};
use lrp_edits::{edits_are_one, edits_have_no_fault, edits_have_one_fault};
use lrp_eval::counts_are_unique;
use lrp_lint::findings_are_one;
use lrp_model::{
    pages_are_unique, pages_resume, ranks_differ, texts_in_order, tokens_spell_one_tuple,
    tuples_are_times_and_texts,
};
use lrp_reading_laws::{
    databases_have_no_fault, databases_have_one_fault, expanded_files_have_data_texts,
    expanded_texts_are_data_texts, files_have_no_fault, files_have_one_fault,
    queries_have_no_fault, queries_have_one_fault, read_texts_are_data_texts,
    tense_queries_have_no_fault, tense_queries_have_one_fault, texts_are_of_one_database,
    texts_are_of_one_file, texts_are_of_one_query, well_sorted_queries_have_no_fault,
};
use lrp_tense::texts_are_one_query;

/// A run ends with a status that has its cause.
pub fn runs_have_causes()
    ensures { (run : Run) → MayHappen run → HasReason run }
{}

/// A run of a lawful task, over files that are told and with counts of faults that stood still, writes the task's output, or
/// runs out of memory and says so.
pub fn lawful_runs_are_complete()
    ensures { (task : Task) (held : List File) (run : Run)
        → IsRunOf task held run
        → IsLawfulTask task (contents_of held task)
        → HaveStoodStill task run
        → IsComplete task (contents_of held task) run }
{
    texts_are_of_one_database();
    databases_have_no_fault();
    texts_are_of_one_query();
    queries_have_no_fault();
    texts_are_one_query();
    tense_queries_have_no_fault();
    texts_are_of_one_file();
    files_have_no_fault();
    well_sorted_queries_have_no_fault();
    edits_are_one();
    edits_have_no_fault();
    tokens_spell_one_tuple();
    row_counts_are_unique();
}

/// Two runs of a task, over files of the same bytes, end alike, where neither ends for want of memory or for a failure of a
/// file or of the sink.
pub fn runs_have_one_outcome()
    ensures { (task : Task) (held held_again : List File) (run other : Run)
        → IsRunOf task held run
        → IsRunOf task held_again other
        → contents_of held task ≡ contents_of held_again task
        → IsDecidedByFiles run.ended
        → IsDecidedByFiles other.ended
        → EndedAlike task (contents_of held task) run other }
{
    texts_are_of_one_database();
    databases_have_no_fault();
    databases_have_one_fault();
    texts_are_of_one_query();
    queries_have_no_fault();
    queries_have_one_fault();
    texts_are_one_query();
    tense_queries_have_no_fault();
    tense_queries_have_one_fault();
    texts_are_of_one_file();
    files_have_no_fault();
    files_have_one_fault();
    well_sorted_queries_have_no_fault();
    edits_are_one();
    edits_have_no_fault();
    edits_have_one_fault();
    tokens_spell_one_tuple();
    pages_are_unique();
    ranks_differ();
    tuples_are_times_and_texts();
    counts_are_unique();
    row_counts_are_unique();
    answer_texts_are_unique();
    sizes_are_unique();
    ranges_are_unique();
    findings_are_one();
}

/// A query has one number of canonical rows.
pub fn row_counts_are_unique()
    ensures { (db : List Relation) (q : Question) (count other : ℕ)
        → HasCanonicalRows db q count
        → HasCanonicalRows db q other
        → count ≡ other }
{
    answers_have_one_row_count();
}

/// Two runs that told the canonical answers of two queries under one name, each over its own database, wrote the same bytes where the queries
/// have one head and the same answers. So two runs that told the canonical answer of one query wrote the same bytes, by
/// whichever ways of planning.
pub fn equal_answers_equal_bytes()
    ensures answers { (run other : Run) (called : Identifier) (db further : List Relation)
        (q r : Question)
        → HasToldCanonical run called db q
        → HasToldCanonical other called further r
        → HaveSameAnswers db further q r
        → WroteAlike run other }
    ensures plans { (run other : Run) (called : Identifier) (db : List Relation) (q : Question)
        → HasToldCanonical run called db q
        → HasToldCanonical other called db q
        → WroteAlike run other }
{
    texts_are_of_one_database();
    databases_have_no_fault();
    texts_are_of_one_query();
    queries_have_no_fault();
    texts_are_one_query();
    tense_queries_have_no_fault();
    texts_are_of_one_file();
    files_have_no_fault();
    well_sorted_queries_have_no_fault();
    answer_texts_are_unique();
}

/// Of a query with one time column, the number of answers in a window is the sum of those of two windows that make it up, as
/// three runs told them.
pub fn numbers_add_up()
    ensures { (one next whole : Run) (db : List Relation) (q : Question) (from middle to : ℤ)
        → time_count q.head ≡ 1
        → from ≤ℤ middle
        → middle ≤ℤ to
        → HasToldNumber one db q from middle
        → HasToldNumber next db q (middle +ℤ pos 1) to
        → HasToldNumber whole db q from to
        → HaveAddedUp one next whole }
{
    texts_are_of_one_database();
    databases_have_no_fault();
    texts_are_of_one_query();
    queries_have_no_fault();
    texts_are_one_query();
    tense_queries_have_no_fault();
    texts_are_of_one_file();
    files_have_no_fault();
    well_sorted_queries_have_no_fault();
    sizes_are_unique();
    sizes_add();
}

/// Of a page of what two files ask, after which more is to come, the token of the last tuple and of these files is resumed
/// just after that tuple, and a page that is told for it goes on with the page.
pub fn pages_follow()
    ensures { (language : QueryLanguage) (civil : Option CivilText) (files : Contents)
        (db : List Relation) (q : Question) (from to : ℤ)
        (after : Option Tuple) (limit : ℕ) (page : List Tuple) (end : Tuple)
        → SaysRelations civil files db
        → SaysQuestion language files db q
        → IsShortWindow from to
        → IsUnfinished db q from to after limit page end
        → IsFollowed (digest_of files) db q from to after limit page end }
{
    read_texts_are_data_texts();
    expanded_texts_are_data_texts();
    expanded_files_have_data_texts();
    texts_in_order();
    tuples_are_times_and_texts();
    tokens_spell_one_tuple();
    pages_resume();
}

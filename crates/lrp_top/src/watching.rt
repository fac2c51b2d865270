// A watch: its three files, each with its refusals, and then the least answers while the edits are made.
ghost use Rattle.std.specs.Prelude.{◌≡◌, [], ◌∷◌, ◌||◌, IfOk, false, true};
ghost use Rattle.lrp_io.specs.Starts.{StartsOnly};
ghost use Rattle.lrp_kept.specs.KeptForm.{is_kept as is_kept_form};
ghost use Rattle.lrp_model.specs.Formulas.{question_of};
ghost use Rattle.lrp_top.specs.Due.{IsWatchedFor};
ghost use Rattle.lrp_top.specs.Lengths.{TellsLength};
ghost use Rattle.lrp_outputs.specs.Outputs.{told};
ghost use Rattle.lrp_top.specs.Refusals.{refused_at};
ghost use Rattle.lrp_top.specs.Watched.{IsFormFit, IsWatched};
ghost use Rattle.lrp_watch.specs.Anew.{CanBeDecidedAnew};
ghost use Rattle.lrp_watch.specs.Watching.{CanBeWatched};

use crate::files::{database_of, edits_of, query_of};
use crate::language::QueryLanguage;
use crate::seeing::Watched;
use lrp_database::Database;
use lrp_edits::Edit;
use lrp_io::Shelf;
use lrp_kept::is_kept;
use lrp_model::{Planning, Query};
use lrp_outputs::{Output, Refusal, WatchRefusal};
use lrp_watch::{Anew, WatchFault, least_answers, least_answers_anew};
use std::alloc::Global;

/// The files of a watch by their names.
#[derive(Clone, Copy)]
pub struct WatchFiles<'a> {
    pub database: &'a str,
    pub query: &'a str,
    pub edits: &'a str,
}

/// How a query is watched: the most cells of a step, how a query that isn't in kept form is planned, and whether one is watched.
#[derive(Clone, Copy)]
pub struct Watching {
    pub cap: u32,
    pub planning: Planning,
    pub auto: bool,
}

/// The least answers of a query over a database as it is read and after each edit, or the first refusal. No edit is made
/// before all files are read.
pub fn watch<F: Shelf>(
    alloc: Global,
    files: &WatchFiles<'_>,
    how: Watching,
    shelf: &mut F,
) -> Result<Output, Refusal>
    ensures due { IsWatchedFor (⟦<F as Watched>⟧.seen shelf.old shelf.new) files.now.database.now
        files.now.query.now files.now.edits.now how.cap how.planning how.auto (told result) }
    ensures long { TellsLength (⟦<F as Watched>⟧.seen shelf.old shelf.new) (told result) }
    ensures starts { StartsOnly (F.starts shelf.old) (F.starts shelf.new)
        (files.now.database.now ∷ files.now.query.now ∷ files.now.edits.now ∷ []) }
{
    let database = database_of(alloc, files.database, None, shelf)?;
    let query = query_of(
        alloc,
        &database.relations,
        files.query,
        QueryLanguage::FirstOrder,
        shelf,
    )?;
    looked_at(&query.query, how.auto)?;
    let edits = edits_of(alloc, &database.relations, files.edits, shelf)?;
    leasts(
        alloc,
        &database.relations,
        &query.query,
        edits.as_slice(),
        how,
    )
}

/// Whether a query can be watched; it is refused where it is neither in kept form nor may have another.
fn looked_at(query: &Query, auto: bool) -> Result<(), Refusal>
    ensures looked { IsFormFit auto (question_of query.now) result }
    ensures fit { IfOk result (λ _. is_kept_form (question_of query.now) || auto ≡ true) }
{
    if is_kept(query) || auto {
        Ok(())
    } else {
        Err(Refusal::Watch(WatchRefusal::NotKept))
    }
}

/// The least answers while edits are made: of what is kept, or decided anew after each edit.
fn leasts(
    alloc: Global,
    database: &Database,
    query: &Query,
    edits: &[Edit],
    how: Watching,
) -> Result<Output, Refusal>
    requires { CanBeDecidedAnew database.now (question_of query.now) edits.now }
    ensures { IsWatched (is_kept_form (question_of query.now)) how.planning database.now
        (question_of query.now) how.cap edits.now (told result) }
{
    if is_kept(query) {
        kept_leasts(alloc, database, query, edits, how)
    } else {
        new_leasts(alloc, database, query, edits, how)
    }
}

/// The least answers of a query in kept form while edits are made.
fn kept_leasts(
    alloc: Global,
    database: &Database,
    query: &Query,
    edits: &[Edit],
    how: Watching,
) -> Result<Output, Refusal>
    requires { CanBeWatched database.now (question_of query.now) edits.now }
    ensures { IsWatched true how.planning database.now (question_of query.now) how.cap edits.now
        (told result) }
{
    match least_answers(alloc, database, query, edits, how.cap) {
        Ok(leasts) => Ok(Output::LeastAnswers(leasts)),
        Err(fault) => Err(refused(fault, how.cap)),
    }
}

/// The least answers of a query while edits are made, decided anew after each edit.
fn new_leasts(
    alloc: Global,
    database: &Database,
    query: &Query,
    edits: &[Edit],
    how: Watching,
) -> Result<Output, Refusal>
    requires { CanBeDecidedAnew database.now (question_of query.now) edits.now }
    ensures { IsWatched false how.planning database.now (question_of query.now) how.cap edits.now
        (told result) }
{
    let anew = Anew {
        planning: how.planning,
        cap: how.cap,
    };
    match least_answers_anew(alloc, database, query, edits, anew) {
        Ok(leasts) => Ok(Output::LeastAnswers(leasts)),
        Err(fault) => Err(refused(fault, how.cap)),
    }
}

/// The refusal of a watch whose fault this is, where at most `cap` cells are allowed.
fn refused(fault: WatchFault, cap: u32) -> Refusal
    ensures { result ≡ refused_at cap fault }
{
    match fault {
        WatchFault::PeriodLimit { edit } => Refusal::Watch(WatchRefusal::PeriodLimit { edit }),
        WatchFault::BoundLimit { edit } => Refusal::Watch(WatchRefusal::BoundLimit { edit }),
        WatchFault::TooManyCells { edit } => Refusal::Watch(WatchRefusal::Cells { cap, edit }),
        WatchFault::Memory => Refusal::Memory,
    }
}

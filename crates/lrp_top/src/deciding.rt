// The decision: what the words ask for, before the first byte is written.
ghost use Rattle.std.specs.Prelude.{◌≡◌, [], ◌∷◌, None};
ghost use Rattle.std.specs.List.{AllByRecursion};
ghost use Rattle.lrp_io.specs.Starts.{StartsOnly};
ghost use Rattle.lrp_top.specs.Languages.{usual_by};
ghost use Rattle.lrp_top.specs.Due.{IsDue, IsDueOf, IsDatabaseRead, IsOutput, IsLengthOrMemory, files_named, files_of};
ghost use Rattle.lrp_top.specs.Lengths.{TellsLength};
ghost use Rattle.lrp_outputs.specs.Outputs.{told};
ghost use Rattle.lrp_top.specs.Questions.{IsProperPurpose, IsAsked, IsServed, need_of};
ghost use Rattle.lrp_top.specs.Seen.{IsOverrun};
ghost use Rattle.lrp_top.specs.Steps.{Then};
ghost use Rattle.lrp_top.specs.Telling.{TellsRelations};
ghost use Rattle.lrp_words.specs.Commands.{HasCivilOfFiles, task_of};
ghost use Rattle.lrp_words.specs.Ranges.{IsInRange};

use crate::files::usual_database;
use crate::linting::lint;
use crate::needing::head_need;
use crate::question::question_of;
use crate::sampling::sample;
use crate::seeing::Watched;
use crate::serving::serve;
use crate::watching::{WatchFiles, Watching, watch};
use lrp_io::Shelf;
use lrp_outputs::{Output, Refusal};
use lrp_rel::databases_read_back;
use lrp_words::{Asked, Command, Usage, read_words};
use std::alloc::Global;

/// The output that the words ask for, or the first refusal that applies.
pub fn due<F: Shelf>(alloc: Global, words: &[String], shelf: &mut F) -> Result<Output, Refusal>
    ensures due { IsDue words.now (⟦<F as Watched>⟧.seen shelf.old shelf.new) (told result) }
    ensures unread { files_named words.now ≡ [] → shelf.new ≡ shelf.old }
    ensures starts { StartsOnly (F.starts shelf.old) (F.starts shelf.new)
        (files_named words.now) }
{
    match read_words(words) {
        Ok(command) => carry_out(alloc, command, shelf),
        Err(Usage) => Err(Refusal::Usage),
    }
}

/// The output that a command asks for, or the first refusal that applies.
fn carry_out<F: Shelf>(
    alloc: Global,
    command: Command<'_>,
    shelf: &mut F,
) -> Result<Output, Refusal>
    requires range { IsInRange (task_of command) }
    requires civil { HasCivilOfFiles command }
    ensures due { IsDueOf (task_of command.entry) (⟦<F as Watched>⟧.seen shelf.old shelf.new)
        (told result) }
    ensures long { AllByRecursion (λ name. IsOverrun
        (⟦<F as Watched>⟧.seen shelf.old shelf.new) name → IsLengthOrMemory (told result))
        (files_of (task_of command.entry)) }
    ensures unread { files_of (task_of command.entry) ≡ [] → shelf.new ≡ shelf.old }
    ensures starts { StartsOnly (F.starts shelf.old) (F.starts shelf.new)
        (files_of (task_of command.entry)) }
{
    match command {
        Command::Question { asked } => answer_to(alloc, &asked, shelf),
        Command::Check { db, civil } => check(alloc, db, civil, shelf),
        Command::Lint { files } => lint(alloc, &files, shelf),
        Command::Watch {
            db: database,
            query,
            edits,
            cap,
            planning,
            auto,
        } => {
            let files = WatchFiles {
                database,
                query,
                edits,
            };
            let how = Watching {
                cap,
                planning,
                auto,
            };
            watch(alloc, &files, how, shelf)
        }
        Command::Sample { seed, size } => sample(alloc, seed, size),
    }
}

/// The relations of a database.
fn check<F: Shelf>(
    alloc: Global,
    database: &str,
    civil: bool,
    shelf: &mut F,
) -> Result<Output, Refusal>
    ensures due { Then (IsDatabaseRead (usual_by civil) (⟦<F as Watched>⟧.seen shelf.old shelf.new)
        database.now) (λ d. IsOutput (TellsRelations d.says)) (told result) }
    ensures long { TellsLength (⟦<F as Watched>⟧.seen shelf.old shelf.new) (told result) }
    ensures starts { StartsOnly (F.starts shelf.old) (F.starts shelf.new) (database.now ∷ []) }
{
    match usual_database(alloc, database, civil, shelf) {
        Ok(file) => {
            databases_read_back();
            Ok(Output::Relations(file.into_relations()))
        }
        Err(refusal) => Err(refusal),
    }
}

/// What is told of a query over a database for a purpose.
fn answer_to<F: Shelf>(alloc: Global, asked: &Asked<'_>, shelf: &mut F) -> Result<Output, Refusal>
    requires proper { IsProperPurpose asked.now.purpose }
    ensures due { IsAsked asked.now.files (need_of asked.now.purpose)
        (⟦<F as Watched>⟧.seen shelf.old shelf.new)
        (IsServed asked.now.files.planning asked.now.purpose) (told result) }
    ensures long { TellsLength (⟦<F as Watched>⟧.seen shelf.old shelf.new) (told result) }
    ensures starts { StartsOnly (F.starts shelf.old) (F.starts shelf.new)
        (asked.now.files.database.now ∷ asked.now.files.query.now ∷ []) }
{
    let need = head_need(&asked.purpose);
    match question_of(alloc, &asked.files, need, shelf) {
        Ok(question) => serve(alloc, question, &asked.purpose),
        Err(refusal) => Err(refusal),
    }
}

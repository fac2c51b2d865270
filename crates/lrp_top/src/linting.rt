// What is silently wrong in a database and, where one is named, in a query over it.
ghost use Rattle.std.specs.Prelude.{◌∷◌, ◌≤◌, List as ListOf, Some, ℕ, length};
ghost use Rattle.lrp_io.specs.Starts.{StartsOne, StartsOnly};
ghost use Rattle.lrp_model.specs.Limits.{most_bytes};
ghost use Rattle.lrp_outputs.specs.Outputs.{told};
ghost use Rattle.lrp_top.specs.Due.{IsLinted, IsLintedBy, IsLintedOver, IsPlacedReadOf, query_named};
ghost use Rattle.lrp_top.specs.Lengths.{TellsLength};
ghost use Rattle.lrp_top.specs.Seen.{ShelfSeen};
ghost use Rattle.lrp_words.specs.Commands.{after_text, linted_files};

use crate::files::usual_database;
use crate::reading::raw_of;
use crate::seeing::Watched;
use lrp_database::Database;
use lrp_io::{LoadFault, Shelf, load};
use lrp_outputs::{Output, Refusal};
use lrp_sorts::check;
use lrp_words::LintFiles;
use std::alloc::Global;

/// What is silently wrong in the database and the query of these files, or the first refusal of either.
pub fn lint<F: Shelf>(
    alloc: Global,
    files: &LintFiles<'_>,
    shelf: &mut F,
) -> Result<Output, Refusal>
    ensures due { IsLinted (linted_files files.now) (⟦<F as Watched>⟧.seen shelf.old shelf.new)
        (told result) }
    ensures long { TellsLength (⟦<F as Watched>⟧.seen shelf.old shelf.new) (told result) }
    ensures starts { StartsOnly (F.starts shelf.old) (F.starts shelf.new)
        (files.now.database.now ∷ query_named (after_text files.now.query)) }
{
    let file = usual_database(alloc, files.database, files.civil, shelf)?;
    let database = file.into_relations();
    match files.query {
        Some(name) => lint_over(alloc, database, name, files.tense, shelf),
        None => {
            let report = lrp_lint::lint(alloc, database, None)?;
            Ok(Output::Lint(report))
        }
    }
}

/// The same with the query of a file.
fn lint_over<F: Shelf>(
    alloc: Global,
    database: Database,
    name: &str,
    tense: bool,
    shelf: &mut F,
) -> Result<Output, Refusal>
    ensures due { IsLintedOver tense database (⟦<F as Watched>⟧.seen shelf.old shelf.new)
        (Some name.now) (told result) }
    ensures long { TellsLength (⟦<F as Watched>⟧.seen shelf.old shelf.new) (told result) }
    ensures starts { StartsOne (F.starts shelf.old) (F.starts shelf.new) name.now }
{
    match load(alloc, shelf, name) {
        Ok(bytes) => lint_text(alloc, database, bytes.as_slice(), tense),
        Err(LoadFault::Failed) => Err(Refusal::ReadQuery),
        Err(LoadFault::TooLong) => Err(Refusal::LongQuery),
        Err(LoadFault::Memory) => Err(Refusal::Memory),
    }
}

/// The same with the query of a file's bytes.
fn lint_text(
    alloc: Global,
    database: Database,
    bytes: &[u8],
    tense: bool,
) -> Result<Output, Refusal>
    requires { length bytes.now ≤ most_bytes }
    ensures { (seen : ShelfSeen) (name : ListOf ℕ)
        → IsLintedBy database (IsPlacedReadOf tense database seen name bytes.now) (told result) }
{
    let raw = raw_of(alloc, bytes, tense)?;
    let report = lrp_lint::lint(alloc, database, Some(&raw))?;
    check(alloc, raw, &report.database)?;
    Ok(Output::Lint(report))
}

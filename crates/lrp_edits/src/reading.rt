// Edits, read from the tokens of a text: a written row is dropped as soon as what it means is kept.
ghost use Rattle.std.specs.Prelude.{◌<◌, ℕ, length, IfOk, []};
ghost use Rattle.lrp_text.specs.Parsers.{Reads, left_after, until_from};
ghost use Rattle.lrp_text.specs.Taking.{is_end};
ghost use Rattle.lrp_rel.specs.Gathered.{ReadsInto};
ghost use Rattle.lrp_edits.specs.EditTexts.{FitsEdit};
ghost use Rattle.lrp_edits.specs.EditRules.{change, edit, edits};
ghost use Rattle.lrp_edits.specs.EditGathered.{AreEditsOf, AreHeadings};

use crate::edits::{Edits, RawEdit};
use lrp_database::Database;
use lrp_model::{Fault, List, Symbol};
use lrp_rel::{Heading, read_label, read_placed_row};
use lrp_text::TokenCursor;
use std::alloc::Global;

// Whether a row is added or taken out.
#[tactic(auto, unfolding(crate::specs::EditRules::change))]
fn read_change(tokens: &mut TokenCursor<'_>) -> Result<bool, Fault>
    ensures value { Reads (change tokens.old) result tokens.new }
    ensures fewer { IfOk result (λ _. length tokens.new < length tokens.old) }
{
    if tokens.eat(Symbol::Plus) {
        return Ok(true);
    }
    tokens.expect(Symbol::Minus)?;
    Ok(false)
}

#[tactic(auto, unfolding(crate::specs::EditRules::edit))]
fn read_edit(alloc: Global, tokens: &mut TokenCursor<'_>) -> Result<RawEdit, Fault>
    ensures value { (n : ℕ) → length tokens.old < n → Reads (edit n tokens.old) result tokens.new }
    ensures fits { IfOk result FitsEdit }
    ensures fewer { IfOk result (λ _. length tokens.new < length tokens.old) }
{
    let add = read_change(tokens)?;
    let relation = read_label(alloc, tokens)?;
    let row = read_placed_row(alloc, tokens)?;
    Ok(RawEdit { add, relation, row })
}

// The edits of a database, up to the end.
fn read_all(
    alloc: Global,
    database: &Database,
    headings: &List<Heading>,
    tokens: &mut TokenCursor<'_>,
) -> Result<Edits, Fault>
    requires { AreHeadings database.now headings.now }
    ensures { (n : ℕ) → length tokens.old < n
        → ReadsInto (AreEditsOf database.now)
        (until_from (edit n) is_end n [] tokens.old) result tokens.new }
{
    let mut kept = Edits::new(alloc);
    'edits: loop {
        if tokens.sees_end() {
            return Ok(kept);
        }
        let edit = read_edit(alloc, tokens)?;
        kept.keep(alloc, database, headings, edit)?;
    }
}

// The edits of a database, and the end after them.
#[tactic(auto, unfolding(crate::specs::EditRules::edits))]
pub fn read_edits_to_end(
    alloc: Global,
    database: &Database,
    headings: &List<Heading>,
    tokens: &mut TokenCursor<'_>,
) -> Result<Edits, Fault>
    requires { AreHeadings database.now headings.now }
    ensures { (n : ℕ) → length tokens.old < n
        → ReadsInto (AreEditsOf database.now) (edits n tokens.old) result
        (left_after result tokens.new) }
{
    let kept = read_all(alloc, database, headings, tokens)?;
    tokens.expect_end()?;
    Ok(kept)
}

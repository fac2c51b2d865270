// Equal texts as conditions of a pattern.
ghost use Rattle.std.specs.Prelude.{◌≡◌, ◌-◌, ◌<◌, ◌≤◌, length, List as ListOf, IfOk, MatchOption};
ghost use Rattle.lrp_model.specs.Texts.{Ascends, Identifier};
ghost use Rattle.lrp_model.specs.declared.formulas.Test.TheVariants.{Equal};
ghost use Rattle.lrp_model.specs.declared.formulas.DataTerm.TheVariants.{Const as constant};
ghost use Rattle.lrp_tables.specs.Columns.{names_of_data};
ghost use Rattle.lrp_tables.specs.Tables.{AreNamesAmong};
ghost use Rattle.lrp_steps.specs.Conditions.{IsWithTest, HasNoTest, IsWithText, HasNoText};

use crate::pattern::{Pattern, known_at};
use crate::sides::column_among;
use lrp_model::{DataTerm, DataText, Domain, List, Memory, Name};

/// The pattern and an equality of texts of these variables, or `None` where nothing that the pattern asks for passes.
pub fn with_equal(
    pattern: Pattern,
    left: &DataTerm,
    right: &DataTerm,
    texts: &List<Name>,
    domain: &Domain,
) -> Result<Option<Pattern>, Memory>
    requires few { length texts.now ≤ 8 }
    requires known { length pattern.texts ≡ 8 }
    requires left { AreNamesAmong (names_of_data left.now) texts.now }
    requires right { AreNamesAmong (names_of_data right.now) texts.now }
    ensures { IfOk result (λ found. (times : ListOf Identifier)
        → MatchOption found (HasNoTest domain.now times texts.now
        (Equal left.now right.now) pattern)
        (IsWithTest domain.now times texts.now (Equal left.now right.now) pattern)) }
{
    domain.len();
    match left {
        DataTerm::Var { name } => {
            let column = column_among(texts, name);
            match right {
                DataTerm::Var { name: other } => {
                    let second = column_among(texts, other);
                    Ok(Some(pattern.with_pair(column, second)?))
                }
                DataTerm::Const { text } => with_text(pattern, column, text, domain),
            }
        }
        DataTerm::Const { text } => match right {
            DataTerm::Var { name } => {
                let column = column_among(texts, name);
                with_text(pattern, column, text, domain)
            }
            DataTerm::Const { text: other } => {
                if text == other {
                    Ok(Some(pattern))
                } else {
                    Ok(None)
                }
            }
        },
    }
}

/// The pattern and that a data term of these variables is a text, or `None` where nothing that the pattern asks for passes.
pub fn with_constant(
    pattern: Pattern,
    term: &DataTerm,
    text: &DataText,
    texts: &List<Name>,
    domain: &Domain,
) -> Result<Option<Pattern>, Memory>
    requires few { length texts.now ≤ 8 }
    requires known { length pattern.texts ≡ 8 }
    requires names { AreNamesAmong (names_of_data term.now) texts.now }
    ensures { IfOk result (λ found. (times : ListOf Identifier)
        → MatchOption found (HasNoTest domain.now times texts.now
        (Equal term.now (constant text.now)) pattern)
        (IsWithTest domain.now times texts.now (Equal term.now (constant text.now)) pattern)) }
{
    domain.len();
    match term {
        DataTerm::Var { name } => {
            let column = column_among(texts, name);
            with_text(pattern, column, text, domain)
        }
        DataTerm::Const { text: other } => {
            if other == text {
                Ok(Some(pattern))
            } else {
                Ok(None)
            }
        }
    }
}

// The pattern and that a data column, counted from 1, has a text.
fn with_text(
    pattern: Pattern,
    column: usize,
    text: &DataText,
    domain: &Domain,
) -> Result<Option<Pattern>, Memory>
    requires low { 0 < column }
    requires high { column ≤ 8 }
    requires known { length pattern.texts ≡ 8 }
    requires ascends { Ascends domain.now }
    ensures { IfOk result (λ found. MatchOption found (HasNoText domain.now pattern column text.now)
        (IsWithText domain.now pattern column text.now)) }
{
    let Some(number) = domain.find(text) else {
        return Ok(None);
    };
    let Some(texts) = known_at(&pattern.texts, column - 1, number) else {
        return Ok(None);
    };
    Ok(Some(pattern.with_texts(texts)))
}

// What stands before the formulas of an operator, read from its tokens.
ghost use Rattle.std.specs.Prelude.{◌<◌, length, IfOk};
ghost use Rattle.lrp_model.specs.DatabaseMeaning.{integer_of};
ghost use Rattle.lrp_text.specs.Parsers.{Reads};
ghost use Rattle.lrp_query.specs.OperatorRules.{ends as ends_rule, variable};

use crate::terms::signed;
use lrp_model::{Fault, Name, Place, Symbol};
use lrp_text::{TokenCursor, integer};
use std::alloc::Global;

/// The ends of an interval, after a parenthesis.
#[tactic(auto, unfolding(crate::specs::OperatorRules::ends))]
pub fn read_ends(tokens: &mut TokenCursor<'_>) -> Result<(i64, i64), Fault>
    ensures value { Reads (ends_rule integer_of tokens.old) result tokens.new }
    ensures fewer { IfOk result (λ _. length tokens.new < length tokens.old) }
{
    let from = integer(tokens)?;
    tokens.expect(Symbol::Comma)?;
    let to = integer(tokens)?;
    tokens.expect(Symbol::Close)?;
    Ok((
        signed(from.negative, from.size),
        signed(to.negative, to.size),
    ))
}

/// The variable of an operator, and a parenthesis.
#[tactic(auto, unfolding(crate::specs::OperatorRules::variable))]
pub fn read_variable(alloc: Global, tokens: &mut TokenCursor<'_>) -> Result<(Name, Place), Fault>
    ensures value { Reads (variable tokens.old) result tokens.new }
    ensures fewer { IfOk result (λ _. length tokens.new < length tokens.old) }
{
    let named = tokens.name(alloc)?;
    tokens.expect(Symbol::Open)?;
    Ok(named)
}

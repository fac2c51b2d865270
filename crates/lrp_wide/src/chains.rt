// Where definitions lead that each only name an earlier one, with variables for its columns.
ghost use Rattle.std.specs.Prelude.{◌≡◌, List as ListOf, Some, length, slice_get, IfOk, IfSome};
ghost use Rattle.lrp_model.specs.declared.raw.RawDefinition.{RawDefinition as RawDefinitionOf};
ghost use Rattle.lrp_wide.specs.Chains.{AreChains, AreVariables, IsChainIfAny, IsContinued, IsStepTo, IsVariableOf};

use crate::names::is_star;
use crate::numbering::plus;
use lrp_model::{
    Column, Copies, Memory, Name, RawDefinition, RawFormula, RawKind, RawTerm, RawTermKind,
};
use lrp_sorts::Definitions;
use std::alloc::Global;

/// A chain of definitions: its last one, how many steps away that is, and which variable of the first one's text each column
/// of the last one is.
#[derive(Drop)]
pub struct Chain {
    pub end: usize,
    pub steps: u64,
    pub names: Vec<Name>,
}

/// The chain of each definition that begins one. Each is a step longer than that of the definition which it names.
pub fn chains_of(
    alloc: Global,
    definitions: &Definitions<'_>,
    texts: &[RawDefinition],
) -> Result<Vec<Option<Box<Chain>>>, Memory>
    requires { length definitions.now.definitions ≡ length texts.now }
    ensures length { IfOk result (λ made. length made.items ≡ length texts.now) }
    ensures chains { IfOk result (λ made. AreChains definitions.now texts.now made.items) }
{
    let mut chains = Vec::with_capacity(alloc, texts.len())?;
    for text in texts {
        let chain = chain_of(alloc, definitions, chains.as_slice(), &text.body)?;
        chains.push(chain)?;
    }
    Ok(chains)
}

// The chain of the definition after those before, which has this text.
fn chain_of(
    alloc: Global,
    definitions: &Definitions<'_>,
    before: &[Option<Box<Chain>>],
    body: &RawFormula,
) -> Result<Option<Box<Chain>>, Memory>
    ensures { IfOk result (λ made. (plain : ListOf RawDefinitionOf) (text : RawDefinitionOf)
        → AreChains definitions.now plain before.now
        → slice_get plain (length before.now) ≡ Some text → text.body ≡ body.now
        → IsChainIfAny definitions.now plain (length before.now) made) }
{
    let RawKind::Atom { relation, terms } = &body.kind else {
        return Ok(None);
    };
    let Some(number) = definitions.number(relation, before.len()) else {
        return Ok(None);
    };
    let columns = definitions.at(number).columns.as_slice();
    let Some(names) = variables_of(alloc, columns, terms.as_slice())? else {
        return Ok(None);
    };
    step_to(alloc, columns, names, number, &before[number])
}

// The chain that takes a step to the definition with a number, and goes on along its chain.
fn step_to(
    alloc: Global,
    columns: &[Column],
    names: Vec<Name>,
    number: usize,
    further: &Option<Box<Chain>>,
) -> Result<Option<Box<Chain>>, Memory>
    ensures { IfOk result (λ made. IsStepTo columns.now names.items number further.now made) }
{
    match further {
        Some(further) => continued(alloc, columns, names.as_slice(), further),
        None => {
            let chain = Chain {
                end: number,
                steps: 1,
                names,
            };
            let made = Box::new(alloc, chain)?;
            Ok(Some(made))
        }
    }
}

// The variables that the terms of columns are, where each is one and none is a `*`.
fn variables_of(
    alloc: Global,
    columns: &[Column],
    terms: &[RawTerm],
) -> Result<Option<Vec<Name>>, Memory>
    ensures { IfOk result (λ names. IfSome names
        (λ vs. AreVariables columns.now terms.now vs.items)) }
{
    let mut names = Vec::new(alloc);
    for i in 0..columns.len().min(terms.len()) {
        let term = &terms[i];
        let RawTermKind::Var { name } = &term.kind else {
            return Ok(None);
        };
        if is_star(term) {
            return Ok(None);
        }
        names.push(name.copy(alloc)?)?;
    }
    Ok(Some(names))
}

// A chain that leads on, by the variables that the columns between are.
fn continued(
    alloc: Global,
    columns: &[Column],
    variables: &[Name],
    further: &Chain,
) -> Result<Option<Box<Chain>>, Memory>
    ensures { IfOk result (λ made. IfSome made
        (λ c. IsContinued columns.now variables.now further.now c.value)) }
{
    let mut names = Vec::with_capacity(alloc, further.names.len())?;
    for name in further.names.as_slice() {
        let Some(variable) = variable_of(columns, variables, name) else {
            return Ok(None);
        };
        names.push(variable.copy(alloc)?)?;
    }
    let chain = Chain {
        end: further.end,
        steps: plus(further.steps, 1)?,
        names,
    };
    let made = Box::new(alloc, chain)?;
    Ok(Some(made))
}

// The variable that the column with a name is.
fn variable_of<'a>(columns: &[Column], variables: &'a [Name], name: &Name) -> Option<&'a Name>
    ensures { IfSome result (λ v. IsVariableOf columns.now variables.now name.now v.now) }
{
    for i in 0..columns.len().min(variables.len()) {
        if columns[i].name == *name {
            return Some(&variables[i]);
        }
    }
    None
}

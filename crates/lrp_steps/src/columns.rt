// The columns that steps make.
ghost use Rattle.std.specs.Prelude.{◌≡◌, ◌≤◌, ◌^◌, ◌++◌, ◌≤ℤ◌, pos, nat_abs, length, flat_map, IfOk, OnOk};
ghost use Rattle.std.specs.FinMap as finite;
ghost use Rattle.lrp_store.specs.Stores.{IsStore};
ghost use Rattle.lrp_tables.specs.Columns.{head_times, head_texts, joint, names_of_time, names_of_data, times_of_test, texts_of_test, test_times, test_names, times_of_term, texts_of_term, scan_times, scan_texts};

use lrp_model::{DataTerm, Head, List, Memory, Name, Shape, Term, Test, TimeTerm};
use lrp_store::Store;
use lrp_tables::{Vars, joint};
use std::alloc::Global;

/// The names of the time columns of a head and those of its data columns, in head order.
pub fn head_vars(alloc: Global, head: &Head) -> Result<Vars, Memory>
    ensures times { IfOk result (λ made. made.times ≡ head_times head.now.columns) }
    ensures texts { IfOk result (λ made. made.texts ≡ head_texts head.now.columns) }
{
    Ok(Vars {
        times: times_of(alloc, head)?,
        texts: texts_of(alloc, head)?,
    })
}

fn times_of(alloc: Global, head: &Head) -> Result<List<Name>, Memory>
    ensures { IfOk result (λ made. made ≡ head_times head.now.columns) }
{
    let mut names = List::new(alloc);
    for column in head.columns.as_slice() {
        if column.sort.is_time() {
            names.push(column.name.copy(alloc)?)?;
        }
    }
    Ok(names)
}

fn texts_of(alloc: Global, head: &Head) -> Result<List<Name>, Memory>
    ensures { IfOk result (λ made. made ≡ head_texts head.now.columns) }
{
    let mut names = List::new(alloc);
    for column in head.columns.as_slice() {
        if !column.sort.is_time() {
            names.push(column.name.copy(alloc)?)?;
        }
    }
    Ok(names)
}

/// The variables of two tables, each once.
pub fn joint_vars(alloc: Global, left: &Vars, right: &Vars) -> Result<Vars, Memory>
    ensures times { IfOk result (λ made. made.times ≡ joint left.now.times right.now.times) }
    ensures texts { IfOk result (λ made. made.texts ≡ joint left.now.texts right.now.texts) }
{
    Ok(Vars {
        times: joint(alloc, &left.times, &right.times)?,
        texts: joint(alloc, &left.texts, &right.texts)?,
    })
}

/// A store without cells that has a column for each variable.
pub fn store_over(alloc: Global, vars: &Vars, period: i64) -> Store
    requires times { length vars.now.times ≤ 8 }
    requires texts { length vars.now.texts ≤ 8 }
    requires low { pos 1 ≤ℤ period }
    requires high { period ≤ℤ pos (2 ^ 62) }
    ensures made { result ≡ record {
      shape = record {
        times = length vars.now.times;
        texts = length
            vars.now.texts;
      };
      period = nat_abs period;
      tables = finite.empty;
      spare = 0;
    } }
    ensures valid { IsStore result }
{
    let shape = Shape {
        times: vars.times.len() as u8,
        texts: vars.texts.len() as u8,
    };
    Store::new(alloc, shape, period)
}

/// The time variables of a test and its data variables, each once.
pub fn test_vars(alloc: Global, test: &Test) -> Result<Vars, Memory>
    ensures times { IfOk result (λ made. made.times ≡ test_times test.now) }
    ensures texts { IfOk result (λ made. made.texts ≡ test_names test.now) }
{
    let none = List::new(alloc);
    let times = times_in(alloc, test)?;
    let texts = texts_in(alloc, test)?;
    Ok(Vars {
        times: joint(alloc, &none, &times)?,
        texts: joint(alloc, &none, &texts)?,
    })
}

// The time variables of a test, as often as they stand there.
fn times_in(alloc: Global, test: &Test) -> Result<List<Name>, Memory>
    ensures { IfOk result (λ made. made ≡ times_of_test test.now) }
{
    let mut names = List::new(alloc);
    match test {
        Test::Compare { left, right, .. } => {
            push_time(alloc, left, &mut names)?;
            push_time(alloc, right, &mut names)?;
        }
        Test::Member { term, .. } => push_time(alloc, term, &mut names)?,
        Test::Equal { .. } => {}
    }
    Ok(names)
}

// The data variables of a test, as often as they stand there.
fn texts_in(alloc: Global, test: &Test) -> Result<List<Name>, Memory>
    ensures { IfOk result (λ made. made ≡ texts_of_test test.now) }
{
    let mut names = List::new(alloc);
    if let Test::Equal { left, right } = test {
        push_text(alloc, left, &mut names)?;
        push_text(alloc, right, &mut names)?;
    }
    Ok(names)
}

/// The time variables of an atom's terms and its data variables, each once.
pub fn scan_vars(alloc: Global, terms: &List<Term>) -> Result<Vars, Memory>
    ensures times { IfOk result (λ made. made.times ≡ scan_times terms.now) }
    ensures texts { IfOk result (λ made. made.texts ≡ scan_texts terms.now) }
{
    let none = List::new(alloc);
    let times = times_of_terms(alloc, terms)?;
    let texts = texts_of_terms(alloc, terms)?;
    Ok(Vars {
        times: joint(alloc, &none, &times)?,
        texts: joint(alloc, &none, &texts)?,
    })
}

// The time variables of the terms, as often as they stand there.
fn times_of_terms(alloc: Global, terms: &List<Term>) -> Result<List<Name>, Memory>
    ensures { IfOk result (λ made. made ≡ flat_map times_of_term terms.now) }
{
    let mut names = List::new(alloc);
    for term in terms.as_slice() {
        push_times(alloc, term, &mut names)?;
    }
    Ok(names)
}

// The data variables of the terms, as often as they stand there.
fn texts_of_terms(alloc: Global, terms: &List<Term>) -> Result<List<Name>, Memory>
    ensures { IfOk result (λ made. made ≡ flat_map texts_of_term terms.now) }
{
    let mut names = List::new(alloc);
    for term in terms.as_slice() {
        push_texts(alloc, term, &mut names)?;
    }
    Ok(names)
}

// Puts the variable of a term, if it is a time term with one, after the names.
fn push_times(alloc: Global, term: &Term, names: &mut List<Name>) -> Result<(), Memory>
    ensures { OnOk result (names.new ≡ names.old ++ times_of_term term.now) }
{
    match term {
        Term::Time { term } => push_time(alloc, term, names),
        Term::Data { .. } => Ok(()),
    }
}

// Puts the variable of a term, if it is a data term with one, after the names.
fn push_texts(alloc: Global, term: &Term, names: &mut List<Name>) -> Result<(), Memory>
    ensures { OnOk result (names.new ≡ names.old ++ texts_of_term term.now) }
{
    match term {
        Term::Time { .. } => Ok(()),
        Term::Data { term } => push_text(alloc, term, names),
    }
}

// Puts the variable of a time term, if it has one, after the names.
fn push_time(alloc: Global, term: &TimeTerm, names: &mut List<Name>) -> Result<(), Memory>
    ensures { OnOk result (names.new ≡ names.old ++ names_of_time term.now) }
{
    if let TimeTerm::Var { name, .. } = term {
        names.push(name.copy(alloc)?)?;
    }
    Ok(())
}

// Puts the variable of a data term, if it has one, after the names.
fn push_text(alloc: Global, term: &DataTerm, names: &mut List<Name>) -> Result<(), Memory>
    ensures { OnOk result (names.new ≡ names.old ++ names_of_data term.now) }
{
    if let DataTerm::Var { name } = term {
        names.push(name.copy(alloc)?)?;
    }
    Ok(())
}

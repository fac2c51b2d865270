// The binders around a formula, looked up by their names.
ghost use Rattle.std.specs.Prelude.{◌≡◌, ◌∷◌, IfOk, OnOk, OnErr, IsSome, Some, option_map, reverse, length, [], if◌then◌else◌, bytes_eq};
ghost use Rattle.lrp_model.specs.Sorting.{binder_sort};
ghost use Rattle.lrp_sorts.specs.Nesting.{apart, first_sort};
ghost use Rattle.lrp_sorts.specs.Scopes.{Around, binders, kept_at};
ghost use Rattle.lrp_model.specs.Texts.{Identifier};

use lrp_model::{Memory, Name, RawColumn, Sort};
use std::alloc::Global;
use std::collections::HashMap;
use std::marker::Model;

/// A quantifier's binder, and the sort that its name has outside, where it is bound there too.
#[derive(Clone, Copy)]
pub struct QuantifierBinder<'a> {
    pub binder: &'a RawColumn,
    pub outer: Option<&'a Sort>,
}

/// The head's columns, and the quantifiers around a formula. A map has the sort of each name's innermost binder, but for the
/// columns of a short head, which are looked up where they stand.
pub struct Scope<'a> {
    columns: &'a [RawColumn],
    is_short: bool,
    sorts: HashMap<&'a [u8], &'a Sort>,
    quantifiers: Vec<QuantifierBinder<'a>>,
}

// It is let go by one call, which is proved once.
impl<'a> Drop for Scope<'a> {
    fn drop(self) {
        let Scope {
            columns: _columns,
            is_short: _is_short,
            sorts: _sorts,
            quantifiers: _quantifiers,
        } = self;
    }
}

impl<'a> Model for Scope<'a> {
    ghost use Rattle.std.specs.Prelude.{reverse, map};
    ghost use Rattle.lrp_sorts.specs.Scopes.{Around};
    ghost use Rattle.lrp_sorts.specs.Nesting.{IsNested, mapped};

    ghost Value = { Around };

    ghost view = { λ a. record { quantifiers = reverse (map (λ q. q.binder.now) a.quantifiers.items); head = a.columns.now } };

    ghost invariant = { λ a. IsNested a.sorts (reverse a.quantifiers.items) (mapped a.is_short a.columns.now) };
}

impl<'a> Scope<'a> {
    // The binders of a head, with the sort of the last column of each name.
    pub fn of(alloc: Global, columns: &'a [RawColumn], sorts: HashMap<&'a [u8], &'a Sort>) -> Self
        requires { (n : Identifier) → kept_at sorts n ≡ binder_sort (reverse columns.now) n }
        ensures { result ≡ record { quantifiers = []; head = columns.now } }
    {
        Scope {
            columns,
            is_short: false,
            sorts,
            quantifiers: Vec::new(alloc),
        }
    }

    // The binders of a head of few columns.
    pub fn short(alloc: Global, columns: &'a [RawColumn]) -> Self
        ensures { result ≡ record { quantifiers = []; head = columns.now } }
    {
        Scope {
            columns,
            is_short: true,
            sorts: HashMap::new(alloc),
            quantifiers: Vec::new(alloc),
        }
    }

    // The sort of a name's innermost binder, where it has one. Most names are bound by the innermost quantifier.
    pub fn sort_of(&self, name: &Name) -> Option<&'a Sort>
        ensures { option_map (λ s. s.now) result ≡ binder_sort (binders self.now) name.now }
    {
        if let Some(last) = self.quantifiers.last() {
            if last.binder.name == *name {
                return Some(&last.binder.sort);
            }
        } else if self.is_short {
            return last_sort(self.columns, name);
        }
        let kept = self.sorts.get(name.as_bytes()).copied();
        or_apart(kept, self.is_short, self.columns, name)
    }

    // How many quantifiers there are.
    pub fn quantifiers(&self) -> usize
        ensures { result ≡ length self.now.quantifiers }
    {
        self.quantifiers.len()
    }

    // One quantifier further in; and the sort that its name has outside, where it is bound there too.
    pub fn enter(&mut self, binder: &'a RawColumn) -> Result<Option<&'a Sort>, Memory>
        ensures outer { IfOk result (λ outer. option_map (λ s. s.now) outer
            ≡ binder_sort (binders self.old) binder.now.name) }
        ensures scope { OnOk result (self.new ≡ record self.old {
          quantifiers = binder.now
              ∷ self.old.quantifiers;
        }) }
    {
        self.quantifiers.reserve(1)?;
        let outer = bind_name(&mut self.sorts, binder.name.as_bytes(), &binder.sort)?;
        self.quantifiers
            .push_reserved(QuantifierBinder { binder, outer });
        Ok(or_apart(outer, self.is_short, self.columns, &binder.name))
    }

    // Out of the innermost quantifier.
    pub fn leave(&mut self)
        ensures { (c : RawColumn) (outer : Around)
            → self.old ≡ record outer { quantifiers = c ∷ outer.quantifiers } → self.new ≡ outer }
    {
        let Some(last) = self.quantifiers.pop() else {
            return;
        };
        restore(&mut self.sorts, last.binder.name.as_bytes(), last.outer);
    }
}

// The sort of the last column of a name, where it has one.
pub fn last_sort<'a>(columns: &'a [RawColumn], name: &Name) -> Option<&'a Sort>
    ensures { option_map (λ s. s.now) result ≡ binder_sort (reverse columns.now) name.now }
{
    let mut found = None;
    for column in columns {
        found = sort_beside(column, name, found);
    }
    found
}

// The sort of a name, a further column being the innermost binder.
fn sort_beside<'a>(column: &'a RawColumn, name: &Name, before: Option<&'a Sort>) -> Option<&'a Sort>
    ensures { option_map (λ s. s.now) result
        ≡ (if bytes_eq column.now.name name.now then Some column.now.sort else option_map
        (λ s. s.now) before.entry) }
{
    if column.name == *name {
        Some(&column.sort)
    } else {
        before
    }
}

// The sort that is kept for a name, and else that of the last column of a short head.
fn or_apart<'a>(
    kept: Option<&'a Sort>,
    is_short: bool,
    columns: &'a [RawColumn],
    name: &Name,
) -> Option<&'a Sort>
    ensures { option_map (λ s. s.now) result
        ≡ first_sort (option_map (λ s. s.now) kept.entry)
        (binder_sort (apart is_short columns.now) name.now) }
{
    if kept.is_some() || !is_short {
        return kept;
    }
    last_sort(columns, name)
}

// A name, bound to a sort from now on; and the sort that it had before.
fn bind_name<'a>(
    sorts: &mut HashMap<&'a [u8], &'a Sort>,
    name: &'a [u8],
    sort: &'a Sort,
) -> Result<Option<&'a Sort>, Memory>
    ensures outer { IfOk result (λ outer. option_map (λ s. s.now) outer
        ≡ kept_at sorts.old name.now) }
    ensures bound { OnOk result ((n : Identifier)
        → kept_at sorts.new n ≡ (if bytes_eq name.now n then Some sort.now else kept_at sorts.old
        n)) }
    ensures refused { OnErr result ((n : Identifier) → kept_at sorts.new n ≡ kept_at sorts.old n) }
{
    Ok(sorts.insert(name, sort)?)
}

// A name that is bound, with the sort that it has outside.
fn restore<'a>(sorts: &mut HashMap<&'a [u8], &'a Sort>, name: &'a [u8], outer: Option<&'a Sort>)
    requires { IsSome (kept_at sorts.old name.now) }
    ensures { (n : Identifier) → kept_at sorts.new n
        ≡ (if bytes_eq name.now n then option_map
        (λ s. s.now) outer.entry else kept_at sorts.old n) }
{
    match outer {
        Some(sort) => match sorts.insert(name, sort) {
            Ok(_) => {}
            Err(_) => unreachable!(),
        },
        None => {
            sorts.remove(name);
        }
    }
}

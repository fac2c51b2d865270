// The texts of a database's rows, looked up by the sorts of their columns.
ghost use Rattle.std.specs.Prelude.{◌≡◌, ◌∷◌, [], ◌||◌, IfOk, OnOk, option_map};
ghost use Rattle.std.specs.List.{list_any};
ghost use Rattle.lrp_model.specs.Domains.{row_texts};
ghost use Rattle.lrp_model.specs.Rows.{relation_named};
ghost use Rattle.lrp_model.specs.Sorts.{same_sort};
ghost use Rattle.lrp_model.specs.Texts.{Text};
ghost use Rattle.lrp_model.specs.declared.relations.Sort.{Sort as SortOf};
ghost use Rattle.lrp_lint.specs.Known.{column_if_any, has, names, relation_texts, says};
ghost use Rattle.lrp_lint.specs.Mentions.{is_entry, is_known};

use lrp_database::Database;
use lrp_model::{Column, DataText, Memory, Name, Relation, Sort, Value};
use std::alloc::Global;
use std::collections::HashSet;
use std::marker::Model;

// A sort, by its name where it has one.
#[derive(Clone, Copy, PartialEq, Eq, Hash)]
pub enum SortName<'a> {
    Time,
    Data,
    Named(&'a [u8]),
}

// A text and its sort.
#[derive(Clone, Copy, PartialEq, Eq, Hash)]
pub struct SortedText<'a> {
    pub sort: SortName<'a>,
    pub text: &'a [u8],
}

/// A database with the texts of its rows, each with the sort of its column.
pub struct TextCatalog<'a> {
    database: &'a Database,
    texts: HashSet<SortedText<'a>>,
}

// It is let go by one call, which is proved once.
impl<'a> Drop for TextCatalog<'a> {
    fn drop(self) {
        let TextCatalog {
            database: _database,
            texts: _texts,
        } = self;
    }
}

impl<'a> Model for TextCatalog<'a> {
    ghost use Rattle.std.specs.Prelude.{◌≡◌, List};
    ghost use Rattle.lrp_model.specs.Texts.{Text};
    ghost use Rattle.lrp_model.specs.declared.relations.Relation.{Relation};
    ghost use Rattle.lrp_model.specs.declared.relations.Sort.{Sort};
    ghost use Rattle.lrp_lint.specs.Known.{has};
    ghost use Rattle.lrp_lint.specs.Mentions.{is_known};

    ghost Value = { List Relation };

    ghost view = { λ a. a.database.now };

    ghost invariant = { λ a. (s : Sort) (t : Text) → has a.texts s t ≡ is_known a.database.now s t };
}

// A sort by its name.
fn sort_name(sort: &Sort) -> SortName<'_>
    ensures { (s : SortOf) → names s result ≡ same_sort s sort.now }
{
    match sort {
        Sort::Time => SortName::Time,
        Sort::Data => SortName::Data,
        Sort::Named { name } => SortName::Named(name.as_bytes()),
    }
}

// A text with its sort.
fn sorted_text<'a>(sort: &'a Sort, text: &'a DataText) -> SortedText<'a>
    ensures { (s : SortOf) (t : Text) → says s t result ≡ is_entry s t (sort.now, text.now) }
{
    SortedText {
        sort: sort_name(sort),
        text: text.as_bytes(),
    }
}

impl<'a> TextCatalog<'a> {
    /// The catalog of a database.
    pub fn of(alloc: Global, database: &'a Database) -> Result<Self, Memory>
        ensures { IfOk result (λ made. made ≡ database.now) }
    {
        let texts = known_texts(alloc, database)?;
        Ok(TextCatalog { database, texts })
    }

    /// The relation of a name.
    pub fn relation(&self, name: &Name) -> Option<&'a Relation>
        ensures { option_map (λ r. r.now) result ≡ relation_named self.now name.now }
    {
        let database = self.database;
        database.relation(name)
    }

    /// Whether some row has the text in a column of the sort.
    pub fn is_known(&self, sort: &Sort, text: &DataText) -> bool
        ensures { result ≡ is_known self.now sort.now text.now }
    {
        self.texts.contains(&sorted_text(sort, text))
    }
}

// The texts of the rows of a database.
fn known_texts<'a>(alloc: Global, database: &'a Database) -> Result<HashSet<SortedText<'a>>, Memory>
    ensures { IfOk result (λ made. (s : SortOf) (t : Text)
        → has made s t ≡ is_known database.now s t) }
{
    let mut texts = HashSet::new(alloc);
    for i in 0..database.relations() {
        add_relation(&mut texts, database.at(i))?;
    }
    Ok(texts)
}

// The texts of the rows of a relation.
fn add_relation<'a>(
    texts: &mut HashSet<SortedText<'a>>,
    relation: &'a Relation,
) -> Result<(), Memory>
    ensures { OnOk result ((s : SortOf) (t : Text)
        → has texts.new s t ≡ (has texts.old s t || list_any (is_entry s t)
        (relation_texts relation.now))) }
{
    let columns = relation.columns.as_slice();
    let rows = relation.rows.as_slice();
    for row in rows {
        add_row(texts, columns, row.values.as_slice())?;
    }
    Ok(())
}

// The texts of a row's values.
fn add_row<'a>(
    texts: &mut HashSet<SortedText<'a>>,
    columns: &'a [Column],
    values: &'a [Value],
) -> Result<(), Memory>
    ensures { OnOk result ((s : SortOf) (t : Text)
        → has texts.new s t ≡ (has texts.old s t || list_any (is_entry s t)
        (row_texts columns.now values.now))) }
{
    for (i, value) in values.iter().enumerate() {
        add_at(texts, columns, i, value)?;
    }
    Ok(())
}

// The text of a value in the column at a place, where there is one.
fn add_at<'a>(
    texts: &mut HashSet<SortedText<'a>>,
    columns: &'a [Column],
    i: usize,
    value: &'a Value,
) -> Result<(), Memory>
    ensures { OnOk result ((s : SortOf) (t : Text)
        → has texts.new s t ≡ (has texts.old s t || list_any (is_entry s t)
        (row_texts (column_if_any columns.now i) (value.now ∷ [])))) }
{
    if i < columns.len() {
        return add_value(texts, &columns[i], value);
    }
    Ok(())
}

// The text of a value, where it is one.
fn add_value<'a>(
    texts: &mut HashSet<SortedText<'a>>,
    column: &'a Column,
    value: &'a Value,
) -> Result<(), Memory>
    ensures { OnOk result ((s : SortOf) (t : Text)
        → has texts.new s t ≡ (has texts.old s t || list_any (is_entry s t)
        (row_texts (column.now ∷ []) (value.now ∷ [])))) }
{
    match value {
        Value::Const { text } => add_text(texts, sorted_text(&column.sort, text)),
        Value::Point { .. } => Ok(()),
    }
}

// A text with its sort.
fn add_text<'a>(texts: &mut HashSet<SortedText<'a>>, text: SortedText<'a>) -> Result<(), Memory>
    ensures { OnOk result ((s : SortOf) (t : Text)
        → has texts.new s t ≡ (has texts.old s t || says s t text.entry)) }
{
    texts.insert(text)?;
    Ok(())
}

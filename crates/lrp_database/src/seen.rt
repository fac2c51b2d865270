// The texts of a database's rows as they are met, each once, and again for each sort.
ghost use Rattle.std.specs.Prelude.{◌≡◌, ◌∷◌, [], OnOk, IfOk};
ghost use Rattle.std.specs.List.{flat_map, AllByRecursion};
ghost use Rattle.indexmap.specs.IndexSet.{keys};
ghost use Rattle.lrp_model.specs.Domains.{row_texts, database_texts};
ghost use Rattle.lrp_model.specs.Kept.{AreValuesOf, IsRowOf, IsKept};
ghost use Rattle.lrp_database.specs.Once.{put_once};
ghost use Rattle.lrp_database.specs.Seen.{HasSeen, IsPaired, SeesMore, SeesNamed};

use indexmap::IndexSet;
use lrp_model::{Column, DataText, Memory, Name, Relation, Row, Sort, Value};
use std::alloc::Global;

// What was seen so far while a database is built: the texts of all sorts, those of the sort `data`, which has no name of
// its own, and beside each name of a sort those of that sort.
#[derive(Drop)]
pub struct Seen {
    pub all: IndexSet<DataText>,
    pub unnamed: IndexSet<DataText>,
    pub names: IndexSet<Name>,
    pub named: Vec<IndexSet<DataText>>,
}

// One text more, unless it is there.
fn see(alloc: Global, texts: &mut IndexSet<DataText>, text: &DataText) -> Result<(), Memory>
    ensures { OnOk result (keys texts.new ≡ put_once (keys texts.old) text.now) }
{
    if !texts.contains(text) {
        texts.insert(text.copy(alloc)?)?;
    }
    Ok(())
}

// The set of one text.
fn set_of(alloc: Global, text: &DataText) -> Result<IndexSet<DataText>, Memory>
    ensures { IfOk result (λ made. keys made ≡ text.now ∷ []) }
{
    let mut made = IndexSet::new(alloc);
    made.insert(text.copy(alloc)?)?;
    Ok(made)
}

impl Seen {
    // Nothing yet.
    pub fn new(alloc: Global) -> Seen
        ensures seen { HasSeen [] result }
        ensures paired { IsPaired result }
    {
        Seen {
            all: IndexSet::new(alloc),
            unnamed: IndexSet::new(alloc),
            names: IndexSet::new(alloc),
            named: Vec::new(alloc),
        }
    }

    // A text of the sort of this name.
    fn see_named(&mut self, alloc: Global, name: &Name, text: &DataText) -> Result<(), Memory>
        requires { IsPaired self.old }
        ensures seen { OnOk result (SeesNamed name.now text.now self.old self.new) }
        ensures paired { OnOk result (IsPaired self.new) }
    {
        match self.names.get_index_of(name) {
            Some(i) => see(alloc, &mut self.named[i], text),
            None => {
                self.names.insert(name.copy(alloc)?)?;
                self.named.push(set_of(alloc, text)?)?;
                Ok(())
            }
        }
    }

    // A text of a column of this sort.
    fn see_text(&mut self, alloc: Global, sort: &Sort, text: &DataText) -> Result<(), Memory>
        requires { IsPaired self.old }
        ensures seen { OnOk result (SeesMore ((sort.now, text.now) ∷ []) self.old self.new) }
        ensures paired { OnOk result (IsPaired self.new) }
    {
        see(alloc, &mut self.all, text)?;
        match sort {
            Sort::Time => Ok(()),
            Sort::Data => see(alloc, &mut self.unnamed, text),
            Sort::Named { name } => self.see_named(alloc, name, text),
        }
    }

    // The text that a column has, if it has one.
    fn see_value(&mut self, alloc: Global, column: &Column, value: &Value) -> Result<(), Memory>
        requires { IsPaired self.old }
        ensures seen { OnOk result (SeesMore (row_texts (column.now ∷ []) (value.now ∷ [])) self.old
            self.new) }
        ensures paired { OnOk result (IsPaired self.new) }
    {
        match value {
            Value::Const { text } => self.see_text(alloc, &column.sort, text),
            Value::Point { .. } => Ok(()),
        }
    }

    // The texts of a row's values.
    fn see_row(&mut self, alloc: Global, columns: &[Column], values: &[Value]) -> Result<(), Memory>
        requires paired { IsPaired self.old }
        requires values { AreValuesOf columns.now values.now }
        ensures seen { OnOk result (SeesMore (row_texts columns.now values.now) self.old self.new) }
        ensures paired { OnOk result (IsPaired self.new) }
    {
        for (i, value) in values.iter().enumerate() {
            self.see_value(alloc, &columns[i], value)?;
        }
        Ok(())
    }

    // The texts of the rows of a relation.
    fn see_rows(&mut self, alloc: Global, columns: &[Column], rows: &[Row]) -> Result<(), Memory>
        requires paired { IsPaired self.old }
        requires rows { AllByRecursion (IsRowOf columns.now) rows.now }
        ensures seen { OnOk result (SeesMore (flat_map
            (λ row. row_texts columns.now row.values) rows.now) self.old self.new) }
        ensures paired { OnOk result (IsPaired self.new) }
    {
        for row in rows {
            self.see_row(alloc, columns, row.values.as_slice())?;
        }
        Ok(())
    }

    // The texts of the rows of relations.
    pub fn see_all(&mut self, alloc: Global, relations: &[Relation]) -> Result<(), Memory>
        requires paired { IsPaired self.old }
        requires kept { AllByRecursion IsKept relations.now }
        ensures seen { OnOk result (SeesMore (database_texts relations.now) self.old self.new) }
        ensures paired { OnOk result (IsPaired self.new) }
    {
        for relation in relations {
            self.see_rows(alloc, relation.columns.as_slice(), relation.rows.as_slice())?;
        }
        Ok(())
    }
}

// The texts of each sort, gathered once.
ghost use Rattle.std.specs.Prelude.{◌≡◌, [], IfOk, OnOk};
ghost use Rattle.std.specs.BTreeSet.{keys};
ghost use Rattle.std.specs.Option.{option_copied};
ghost use Rattle.lrp_model.specs.Domains.{database_texts};
ghost use Rattle.lrp_model.specs.Texts.{in_order};
ghost use Rattle.lrp_model.specs.declared.relations.Sort.TheVariants.{Data, Named};
ghost use Rattle.lrp_plan.specs.Domains.{AreDomains, Gathers, TakesText, gathered};

use lrp_database::Database;
use lrp_model::{Copies, DataText, List, Memory, Name, Sort};
use std::alloc::Global;
use std::collections::{BTreeSet, HashMap};

/// The texts of a database and a query by their sorts, each once, and where memory comes from.
///
/// A data sort of which the query has no text is not among them: those of the database alone are put in order where they are
/// asked for.
pub struct Domains {
    pub alloc: Global,
    pub timed: BTreeSet<DataText>,
    pub unnamed: Option<BTreeSet<DataText>>,
    pub named: HashMap<Name, BTreeSet<DataText>>,
}

// They are let go by one call, which is proved once.
impl Drop for Domains {
    fn drop(self) {
        let Domains {
            alloc: _alloc,
            timed: _timed,
            unnamed: _unnamed,
            named: _named,
        } = self;
    }
}

/// The texts of the database, and these of a query, by their sorts.
pub fn domains_of(
    alloc: Global,
    database: &Database,
    texts: &[(Sort, DataText)],
) -> Result<Domains, Memory>
    ensures { IfOk result (AreDomains (database_texts database.now) texts.now) }
{
    let mut domains = Domains::new(alloc, database)?;
    for entry in texts {
        domains.add(database, &entry.0, &entry.1)?;
    }
    Ok(domains)
}

impl Domains {
    // No text of a query yet.
    fn new(alloc: Global, database: &Database) -> Result<Domains, Memory>
        ensures { IfOk result (AreDomains (database_texts database.now) []) }
    {
        let timed = set_of(alloc, database.texts_of(&Sort::Time).as_slice())?;
        Ok(Domains {
            alloc,
            timed,
            unnamed: None,
            named: HashMap::new(alloc),
        })
    }

    // A further text of the query.
    fn add(&mut self, database: &Database, sort: &Sort, text: &DataText) -> Result<(), Memory>
        ensures { OnOk result (Gathers (database_texts database.now) sort.now text.now self.old
            self.new) }
    {
        match sort {
            Sort::Time => see(self.alloc, &mut self.timed, text),
            Sort::Data => self.add_unnamed(database, text),
            Sort::Named { name } => self.add_named(database, sort, name, text),
        }
    }

    // A further text of the sort `data`.
    fn add_unnamed(&mut self, database: &Database, text: &DataText) -> Result<(), Memory>
        ensures { OnOk result (Gathers (database_texts database.now) Data text.now self.old
            self.new) }
    {
        let alloc = self.alloc;
        match &mut self.unnamed {
            Some(texts) => see(alloc, texts, text),
            None => {
                let mut texts = set_of(alloc, database.texts_of(&Sort::Data).as_slice())?;
                see(alloc, &mut texts, text)?;
                self.unnamed = Some(texts);
                Ok(())
            }
        }
    }

    // A further text of the sort of this name.
    fn add_named(
        &mut self,
        database: &Database,
        sort: &Sort,
        name: &Name,
        text: &DataText,
    ) -> Result<(), Memory>
        requires { sort.now ≡ Named name.now }
        ensures { OnOk result (Gathers (database_texts database.now) sort.now text.now self.old
            self.new) }
    {
        let alloc = self.alloc;
        match self.named.get_mut(name) {
            Some(texts) => see(alloc, texts, text),
            None => {
                let mut texts = set_of(alloc, database.texts_of(sort).as_slice())?;
                see(alloc, &mut texts, text)?;
                self.named.insert(name.copy(alloc)?, texts)?;
                Ok(())
            }
        }
    }

    /// The texts of a sort, where they were gathered.
    pub fn of(&self, sort: &Sort) -> Option<&BTreeSet<DataText>>
        ensures { option_copied result ≡ gathered self.now sort.now }
    {
        match sort {
            Sort::Time => Some(&self.timed),
            Sort::Data => self.unnamed.as_ref(),
            Sort::Named { name } => self.named.get(name),
        }
    }
}

// One text more, unless it is there.
fn see(alloc: Global, texts: &mut BTreeSet<DataText>, text: &DataText) -> Result<(), Memory>
    ensures { OnOk result (TakesText text.now (keys texts.old) (keys texts.new)) }
{
    if !texts.contains(text) {
        texts.insert(text.copy(alloc)?)?;
    }
    Ok(())
}

// The set of these texts.
fn set_of(alloc: Global, texts: &[DataText]) -> Result<BTreeSet<DataText>, Memory>
    ensures { IfOk result (λ made. keys made ≡ in_order texts.now) }
{
    let mut set = BTreeSet::new(alloc);
    for text in texts {
        see(alloc, &mut set, text)?;
    }
    Ok(set)
}

/// These texts, each once, in order of bytes.
pub fn ordered(alloc: Global, texts: &List<DataText>) -> Result<List<DataText>, Memory>
    ensures { IfOk result (λ made. made ≡ in_order texts.now) }
{
    let mut all = texts.copy(alloc)?.into_vec();
    all.sort()?;
    all.dedup();
    Ok(List::from_vec(all))
}

/// The texts of a set, in order of bytes.
pub fn list_of(alloc: Global, texts: &BTreeSet<DataText>) -> Result<List<DataText>, Memory>
    ensures { IfOk result (λ made. made ≡ keys texts.now) }
{
    let mut list = Vec::with_capacity(alloc, texts.len())?;
    for text in texts {
        list.push(text.copy(alloc)?)?;
    }
    Ok(List::from_vec(list))
}

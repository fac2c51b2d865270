// The texts of a database's rows, as lists: of all sorts, and of each.
ghost use Rattle.std.specs.Prelude.{◌≡◌, ◌∷◌, [], map, length, IfOk};
ghost use Rattle.std.specs.List.{AllByRecursion};
ghost use Rattle.indexmap.specs.IndexSet.{keys};
ghost use Rattle.lrp_model.specs.Kept.{IsKept};
ghost use Rattle.lrp_database.specs.Once.{texts_beside};
ghost use Rattle.lrp_database.specs.Stored.{AreTextsOf};

use crate::seen::Seen;
use indexmap::IndexSet;
use lrp_model::{DataText, List, Memory, Name, Relation};
use std::alloc::Global;

// What a database keeps of them: the texts of all sorts, those of the sort `data`, and beside each name of a sort those
// of that sort, as lists; and the empty list, for sorts that have none. Sets serve only while the texts are gathered.
#[derive(Drop)]
pub struct TextLists {
    pub all: List<DataText>,
    pub unnamed: List<DataText>,
    pub names: IndexSet<Name>,
    pub named: List<List<DataText>>,
    pub none: List<DataText>,
}

// The texts of a set, in order.
fn list_of(alloc: Global, set: IndexSet<DataText>) -> Result<List<DataText>, Memory>
    ensures { IfOk result (λ made. made ≡ keys set) }
{
    Ok(List::from_vec(set.into_iter().collect::<Vec<_>>(alloc)?))
}

// The texts of each set.
fn lists_of(alloc: Global, sets: Vec<IndexSet<DataText>>) -> Result<List<List<DataText>>, Memory>
    ensures { IfOk result (λ made. made ≡ map keys sets.items) }
{
    let mut lists = List::new(alloc);
    for set in sets {
        lists.push(list_of(alloc, set)?)?;
    }
    Ok(lists)
}

impl TextLists {
    // The texts of the rows of kept relations.
    pub fn of(alloc: Global, relations: &[Relation]) -> Result<TextLists, Memory>
        requires { AllByRecursion IsKept relations.now }
        ensures { IfOk result (AreTextsOf relations.now) }
    {
        let mut seen = Seen::new(alloc);
        seen.see_all(alloc, relations)?;
        let Seen {
            all,
            unnamed,
            names,
            named,
        } = seen;
        Ok(TextLists {
            all: list_of(alloc, all)?,
            unnamed: list_of(alloc, unnamed)?,
            names,
            named: lists_of(alloc, named)?,
            none: List::new(alloc),
        })
    }

    // The texts of the sort of this name.
    pub fn of_name(&self, name: &Name) -> &List<DataText>
        requires none { self.now.none ≡ [] }
        requires paired { length (keys self.now.names) ≡ length self.now.named }
        ensures { result.now ≡ texts_beside (keys self.now.names) self.now.named name.now }
    {
        match self.names.get_index_of(name) {
            Some(i) => self.named.at(i),
            None => &self.none,
        }
    }
}

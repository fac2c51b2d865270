// What terms say once the sorts of their names are resolved.
ghost use Rattle.std.specs.Prelude.{◌≡◌, IfOk};
ghost use Rattle.lrp_model.specs.RawTerms.{time_of, data_of, is_data_kind, said_term};

use crate::{DataTerm, DataText, Memory, RawTerm, RawTermKind, Term, TimeTerm};
use std::alloc::Global;

impl RawTerm {
    /// Whether it is a text, or a name alone.
    pub fn is_data(&self) -> bool
        ensures { result ≡ is_data_kind self.now.kind }
    {
        match &self.kind {
            RawTermKind::Text { .. } | RawTermKind::Var { .. } => true,
            RawTermKind::Int { .. } | RawTermKind::Shifted { .. } => false,
        }
    }

    /// The time term; a text, which is none, stands for 0.
    pub fn time(&self, alloc: Global) -> Result<TimeTerm, Memory>
        ensures { IfOk result (λ made. made ≡ time_of self.now.kind) }
    {
        match &self.kind {
            RawTermKind::Int { value } => Ok(TimeTerm::Int { value: *value }),
            RawTermKind::Var { name } => Ok(TimeTerm::Var {
                name: name.copy(alloc)?,
                plus: 0,
            }),
            RawTermKind::Shifted { name, plus } => Ok(TimeTerm::Var {
                name: name.copy(alloc)?,
                plus: *plus,
            }),
            RawTermKind::Text { .. } => Ok(TimeTerm::Int { value: 0 }),
        }
    }

    /// The data term; an integer or a name with an offset, which are none, stand for the empty text.
    pub fn data(&self, alloc: Global) -> Result<DataTerm, Memory>
        ensures { IfOk result (λ made. made ≡ data_of self.now.kind) }
    {
        match &self.kind {
            RawTermKind::Text { text } => Ok(DataTerm::Const {
                text: text.copy(alloc)?,
            }),
            RawTermKind::Var { name } => Ok(DataTerm::Var {
                name: name.copy(alloc)?,
            }),
            RawTermKind::Int { .. } | RawTermKind::Shifted { .. } => Ok(DataTerm::Const {
                text: DataText::new(alloc, "")?,
            }),
        }
    }

    /// The term that it says.
    pub fn said(&self, alloc: Global) -> Result<Term, Memory>
        ensures { IfOk result (λ made. made ≡ said_term self.now) }
    {
        if self.is_data() {
            Ok(Term::Data {
                term: self.data(alloc)?,
            })
        } else {
            Ok(Term::Time {
                term: self.time(alloc)?,
            })
        }
    }
}

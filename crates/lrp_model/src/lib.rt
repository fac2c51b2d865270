//! The values that the query engine speaks of, and what they mean.
#![tactic(auto)]

mod domain;
mod faults;
mod formulas;
mod laws;
mod limits;
mod list;
mod memory;
mod names;
mod plans;
mod raw;
mod raw_copies;
mod raw_terms;
mod relations;
mod short;
mod tokens;
mod tuples;
mod written;

pub use domain::Domain;
pub use faults::{DbFault, DbKind, QueryFault, QueryKind, QueryRead};
pub use formulas::{DataTerm, Formula, Head, Op, Query, Term, Test, TimeTerm};
pub use laws::{
    divisibility_is_decided, free_variables_decide, holding_is_decided, pages_are_unique,
    pages_resume, ranks_differ, rows_are_decided, satisfaction_is_classical, texts_in_order,
    tokens_spell_one_tuple, tuples_are_times_and_texts,
};
pub use limits::LIMIT;
pub use list::{Copies, List};
pub use memory::{Memory, numbered};
pub use names::{DataText, Name};
pub use plans::{Plan, Planning, Step, StepKind};
pub use raw::{
    Paired, Ranged, RawColumn, RawDefinition, RawFile, RawFormula, RawKind, RawQuery, RawTerm,
    RawTermKind,
};
pub use relations::{Bound, Column, Relation, Row, RowPoint, Sort, Value};
pub use tokens::{Fault, LexFault, LexKind, Place, Symbol, Token, TokenKind, Word};
pub use tuples::{Cell, Shape, Spot, Tuple};
pub use written::{BoundOp, Integer, Located, RawBound, RawRelation, RawRow, Side, WrittenValue};

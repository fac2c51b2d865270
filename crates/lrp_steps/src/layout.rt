// Operands of steps, and what is made of them.
use crate::lent::PatternRef;
use crate::pattern::Pattern;
use lrp_store::Store;
use lrp_tables::Places;

/// A store, and the places of its columns among those of a longer tuple.
#[derive(Clone, Copy)]
pub struct Operand<'a> {
    pub store: &'a Store,
    pub places: &'a Places,
}

/// The tuples that a pattern asks for with each text below a size, in at most so many cells.
#[derive(Clone, Copy)]
pub struct Wanted<'a> {
    pub pattern: &'a Pattern,
    pub size: u32,
    pub cap: u32,
}

/// The same of a pattern whose zones stand elsewhere.
#[derive(Clone, Copy)]
pub struct Sought<'a, 'z> {
    pub pattern: &'a PatternRef<'z>,
    pub size: u32,
    pub cap: u32,
}

// What can be wrong with a row or with what a query names, and where it is.

/// What can be wrong with a row.
#[derive(Clone, Copy, Debug, PartialEq, Eq, PartialOrd, Ord)]
pub enum RowFlaw {
    /// It holds nothing.
    EmptyRow,
    /// Two of its time columns are tied by no bound, neither directly nor through others.
    UntiedTimes,
    /// Its periods have no common multiple that is at most 2^62 with its greatest bound, so that no query can be asked of it.
    RowLimit,
}

/// What is wrong with a row: the relation and the row by their numbers, from 0.
#[derive(Clone, Copy, Debug, PartialEq, Eq, PartialOrd, Ord)]
pub struct RowFinding {
    pub relation: usize,
    pub row: usize,
    pub flaw: RowFlaw,
}

/// What can be wrong with what a query names.
#[derive(Clone, Copy, Debug, PartialEq, Eq, PartialOrd, Ord)]
pub enum QueryFlaw {
    /// A text that no row of the database has in a column of its sort.
    UnknownText,
    /// A relation without rows.
    EmptyRelation,
}

/// What is wrong with a name or a text in a query, at the place of its first byte.
#[derive(Clone, Copy, Debug, PartialEq, Eq, PartialOrd, Ord)]
pub struct QueryFinding {
    pub line: u32,
    pub column: u32,
    pub flaw: QueryFlaw,
}

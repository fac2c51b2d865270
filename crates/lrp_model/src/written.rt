// Databases as their text says them, with the place of each name, value and row.
ghost use Rattle.std.specs.Prelude.{◌≡◌, IfOk};

use crate::{Copies, DataText, List, Memory, Name, Place, RawColumn};
use std::alloc::Global;

/// Something of a tree, and the place of its first token.
#[derive(Drop)]
pub struct Located<T> {
    pub place: Place,
    pub item: T,
}

/// An integer with its sign: `-0` is written with one.
#[derive(Clone, Copy, PartialEq, Eq)]
pub struct Integer {
    pub negative: bool,
    pub size: u64,
}

/// A value of a row: a text, an instant, or a point `at + period n`.
#[derive(Drop)]
pub enum WrittenValue {
    Constant { text: DataText },
    Instant { at: Integer },
    Point { at: Integer, period: u64 },
}

/// How a bound compares its two sides.
#[derive(Clone, Copy, PartialEq, Eq)]
pub enum BoundOp {
    AtMost,
    AtLeast,
    Equal,
}

/// The right side of a bound: an integer, a column, or a column with an offset upwards or downwards.
#[derive(Drop)]
pub enum Side {
    Alone {
        value: Integer,
    },
    Column {
        name: Located<Name>,
    },
    Shifted {
        name: Located<Name>,
        down: bool,
        by: u64,
    },
}

/// A bound as it is written.
pub struct RawBound {
    pub left: Located<Name>,
    pub op: BoundOp,
    pub side: Side,
}

impl Drop for RawBound {
    fn drop(self) {
        let RawBound {
            left: _left,
            op: _op,
            side: _side,
        } = self;
    }
}

/// A row as it is written.
#[derive(Drop)]
pub struct RawRow {
    pub values: List<Located<WrittenValue>>,
    pub bounds: List<RawBound>,
}

/// A relation as it is written; a row's place is that of its parenthesis.
pub struct RawRelation {
    pub name: Located<Name>,
    pub columns: List<RawColumn>,
    pub rows: List<Located<RawRow>>,
}

impl Drop for RawRelation {
    fn drop(self) {
        let RawRelation {
            name: _name,
            columns: _columns,
            rows: _rows,
        } = self;
    }
}

impl<T: Copies> Copies for Located<T> {
    fn copy(&self, alloc: Global) -> Result<Self, Memory> {
        Ok(Located {
            place: self.place,
            item: self.item.copy(alloc)?,
        })
    }
}

impl Copies for WrittenValue {
    fn copy(&self, alloc: Global) -> Result<Self, Memory> {
        match self {
            WrittenValue::Constant { text } => Ok(WrittenValue::Constant {
                text: text.copy(alloc)?,
            }),
            WrittenValue::Instant { at } => Ok(WrittenValue::Instant { at: *at }),
            WrittenValue::Point { at, period } => Ok(WrittenValue::Point {
                at: *at,
                period: *period,
            }),
        }
    }
}

impl Copies for Side {
    fn copy(&self, alloc: Global) -> Result<Self, Memory> {
        match self {
            Side::Alone { value } => Ok(Side::Alone { value: *value }),
            Side::Column { name } => Ok(Side::Column {
                name: name.copy(alloc)?,
            }),
            Side::Shifted { name, down, by } => Ok(Side::Shifted {
                name: name.copy(alloc)?,
                down: *down,
                by: *by,
            }),
        }
    }
}

impl Copies for RawBound {
    fn copy(&self, alloc: Global) -> Result<Self, Memory> {
        Ok(RawBound {
            left: self.left.copy(alloc)?,
            op: self.op,
            side: self.side.copy(alloc)?,
        })
    }
}

impl Copies for RawRow {
    fn copy(&self, alloc: Global) -> Result<Self, Memory> {
        Ok(RawRow {
            values: self.values.copy(alloc)?,
            bounds: self.bounds.copy(alloc)?,
        })
    }
}

impl Copies for RawRelation {
    fn copy(&self, alloc: Global) -> Result<Self, Memory> {
        Ok(RawRelation {
            name: self.name.copy(alloc)?,
            columns: self.columns.copy(alloc)?,
            rows: self.rows.copy(alloc)?,
        })
    }
}

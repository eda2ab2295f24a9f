// What a table is made of: its columns, dimensions and indexes, by place.
use crate::Name;
use mdc_values::{ColType, List};

/// How a generated column is made from its base: `INTEGER(d)/k`, `YEAR(d)`, `MONTH(d)`, `c/k` and `c+k`.
#[derive(Clone, Copy, Debug, PartialEq, Eq)]
pub enum GenKind {
    IntegerOver,
    Year,
    Month,
    Over,
    Plus,
}

/// What a generated column is made from: a column by its place, and a number, which is 0 for `Year` and `Month`.
#[derive(Clone, Copy, Debug, PartialEq, Eq)]
pub struct GenExpr {
    pub kind: GenKind,
    pub base: u8,
    pub k: i64,
}

/// A column of a table.
#[derive(Debug, Drop)]
pub struct ColumnDef {
    pub name: Name,
    pub ty: ColType,
    pub not_null: bool,
    pub made: Option<GenExpr>,
}

/// A column of a key, by its place.
#[derive(Clone, Copy, Debug, PartialEq, Eq)]
pub struct KeyPart {
    pub column: u8,
    pub descending: bool,
}

/// A record index of a table.
#[derive(Debug, Drop)]
pub struct IndexDef {
    pub name: Name,
    pub unique: bool,
    pub parts: List<KeyPart>,
    /// The page where its tree begins.
    pub root: u32,
}

/// Where a table's own trees begin: the block map, the index of all dimensions, and the index of each.
#[derive(Debug, Drop)]
pub struct Roots {
    pub map: u32,
    pub composite: u32,
    pub dims: List<u32>,
}

/// A table. `dims` has the places of each dimension's columns, and `next` is the number of the next row.
#[derive(Debug, Drop)]
pub struct TableDef {
    pub number: u8,
    pub name: Name,
    pub columns: List<ColumnDef>,
    pub dims: List<List<u8>>,
    pub indexes: List<IndexDef>,
    pub next: u64,
    pub roots: Roots,
}

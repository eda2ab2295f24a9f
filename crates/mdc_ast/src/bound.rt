// Statements after binding: tables are numbers, columns are places, and literals are values.
use crate::definition::{ColumnDef, IndexDef, KeyPart, TableDef};
use crate::join::BoundJoin;
use crate::predicate::Pred;
use crate::statement::{PlanMode, RolloutMode, Sign};
use mdc_values::{List, Value};

/// What an UPDATE computes with.
#[derive(Debug, Drop)]
pub enum BoundOperand {
    Column(u8),
    Value(Value),
}

/// What an UPDATE computes.
#[derive(Debug, Drop)]
pub enum BoundItem {
    One(BoundOperand),
    Two(BoundOperand, Sign, BoundOperand),
}

/// A column that an UPDATE sets, and what it is set to.
#[derive(Debug, Drop)]
pub struct BoundSet {
    pub column: u8,
    pub item: BoundItem,
}

/// What a query shows in one place of a line.
#[derive(Clone, Copy, Debug, PartialEq, Eq)]
pub enum BoundOut {
    Column(u8),
    CountAll,
    Count(u8),
    Sum(u8),
    Min(u8),
    Max(u8),
}

/// A query.
#[derive(Debug, Drop)]
pub struct BoundSelect {
    pub table: u8,
    pub outs: List<BoundOut>,
    pub pred: Option<Pred>,
    pub group: List<u8>,
    pub order: List<KeyPart>,
    pub first: Option<u32>,
}

/// A statement.
#[derive(Debug, Drop)]
pub enum Bound {
    /// Its number, its next row number and its roots are 0, and it has no roots of dimensions.
    CreateTable(TableDef),
    CreateIndex {
        table: u8,
        index: IndexDef,
    },
    DropTable(u8),
    DropIndex {
        table: u8,
        index: u8,
    },
    /// Each row has a value for each column of the table.
    Insert {
        table: u8,
        rows: List<List<Value>>,
    },
    Update {
        table: u8,
        sets: List<BoundSet>,
        pred: Option<Pred>,
    },
    Delete {
        table: u8,
        pred: Option<Pred>,
    },
    Query(BoundSelect),
    Explain(BoundSelect),
    SetRollout(RolloutMode),
    SetPlan(PlanMode),
    SetPace(u16),
    Clean(u32),
    CleanTable(u8),
    ListBlocks(u8),
    Reclaim(u8),
    Begin,
    Commit,
    Rollback,
    AddColumn {
        table: u8,
        column: ColumnDef,
    },
    Join(BoundJoin),
    Reorg(u8),
}

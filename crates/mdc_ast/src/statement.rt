// Statements as their texts give them, before any table is looked at. All lists stand in the order of the text.
use crate::definition::GenKind;
use crate::{JoinText, Name, PredText};
use mdc_values::{List, Literal};

/// The type of a column, as a statement writes it.
#[derive(Clone, Copy, Debug, PartialEq, Eq)]
pub enum TypeText {
    Integer,
    Bigint,
    /// `CHAR` without a number has 1.
    Char(u64),
    Date,
}

/// What a generated column is made from. `k` is 1 where no divisor is written, and 0 for `Year` and `Month`.
#[derive(Debug, Drop)]
pub struct GenText {
    pub kind: GenKind,
    pub base: Name,
    pub negative: bool,
    pub k: u64,
}

/// A column of a CREATE TABLE.
#[derive(Debug, Drop)]
pub struct ColumnText {
    pub name: Name,
    pub ty: TypeText,
    pub not_null: bool,
    pub made: Option<GenText>,
}

/// A column of an index or of an ORDER BY.
#[derive(Debug, Drop)]
pub struct KeyText {
    pub column: Name,
    pub descending: bool,
}

/// What an INSERT gives for one column.
#[derive(Debug, Drop)]
pub enum InsertItem {
    Literal(Literal),
    Default,
}

/// What is compared or computed.
#[derive(Debug, Drop)]
pub enum Operand {
    Column(Name),
    Literal(Literal),
}

/// What joins two operands.
#[derive(Clone, Copy, Debug, PartialEq, Eq)]
pub enum Sign {
    Plus,
    Minus,
    Times,
}

/// What an UPDATE computes.
#[derive(Debug, Drop)]
pub enum SetItem {
    One(Operand),
    Two(Operand, Sign, Operand),
}

/// A column that an UPDATE sets, and what it is set to.
#[derive(Debug, Drop)]
pub struct SetText {
    pub column: Name,
    pub item: SetItem,
}

/// What a query shows in one place of a line.
#[derive(Debug, Drop)]
pub enum Out {
    Column(Name),
    CountAll,
    Count(Name),
    Sum(Name),
    Min(Name),
    Max(Name),
}

/// What a query shows.
#[derive(Debug, Drop)]
pub enum OutList {
    /// All columns, in the order of the table.
    Star,
    Outs(List<Out>),
}

/// A query. `group` and `order` are empty where it has none, and `first` is how many lines it gives at most.
#[derive(Debug, Drop)]
pub struct Select {
    pub list: OutList,
    pub table: Name,
    pub pred: Option<PredText>,
    pub group: List<Name>,
    pub order: List<KeyText>,
    pub first: Option<u64>,
}

/// How a DELETE takes out the rows of blocks in which all of them qualify: row by row, whole blocks at once, or whole blocks
/// at once that stay Pending until their entries in record indexes are cleaned out.
#[derive(Clone, Copy, Debug, PartialEq, Eq)]
pub enum RolloutMode {
    None,
    Immediate,
    Deferred,
}

/// How rows are found.
#[derive(Clone, Copy, Debug, PartialEq, Eq)]
pub enum PlanMode {
    Auto,
    Scan,
    Block,
    Record,
}

/// A statement.
#[derive(Debug, Drop)]
pub enum Stmt {
    /// `dims` are the dimensions, each with its columns.
    CreateTable {
        name: Name,
        columns: List<ColumnText>,
        dims: List<List<Name>>,
    },
    CreateIndex {
        name: Name,
        unique: bool,
        table: Name,
        parts: List<KeyText>,
    },
    DropTable(Name),
    DropIndex(Name),
    /// All columns in order where `columns` is `None`.
    Insert {
        table: Name,
        columns: Option<List<Name>>,
        rows: List<List<InsertItem>>,
    },
    Update {
        table: Name,
        sets: List<SetText>,
        pred: Option<PredText>,
    },
    Delete {
        table: Name,
        pred: Option<PredText>,
    },
    Query(Select),
    Explain(Select),
    SetRollout(RolloutMode),
    SetPlan(PlanMode),
    SetPace(u64),
    Clean(u64),
    CleanTable(Name),
    ListBlocks(Name),
    Reclaim(Name),
    Begin,
    Commit,
    Rollback,
    /// The grammar has no form for it yet, as for all that follow.
    AddColumn {
        table: Name,
        column: Name,
        ty: TypeText,
    },
    OpenReader(u64),
    CloseReader(u64),
    Reader(u64, Select),
    Join(JoinText),
    Reorg(Name),
}

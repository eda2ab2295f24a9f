//! What a statement is: plain data for statements, definitions, rows and answers, seen by contracts field by field.
//!
//! Its `specs` say how a script is cut into pieces (`Cutting`), which tokens bytes have (`Tokens`), what the grammar is, as
//! data (`Rules`, `Phrases`, `Grammar`), and what a piece says, a statement or a refusal with its place (`Places`,
//! `Reading`); when a row qualifies (`Truth`) and fits (`FittingRows`), and what a plain database is and what holds of each
//! (`Definitions`, `Database`, `TableLimits`, `ValidDatabase`). It stands on `mdc_values`.
#![tactic(auto)]

mod bound;
mod definition;
mod join;
mod name;
mod predicate;
mod refusal;
mod reply;
mod row;
mod span;
mod statement;

pub use bound::{Bound, BoundItem, BoundOperand, BoundOut, BoundSelect, BoundSet};
pub use definition::{ColumnDef, GenExpr, GenKind, IndexDef, KeyPart, Roots, TableDef};
pub use join::{BoundJoin, JoinOut, JoinTest, JoinText, Qual};
pub use name::Name;
pub use predicate::{Atom, AtomText, Pred, PredText, Right, Test, TestText};
pub use refusal::Refusal;
pub use reply::{Outcome, Reply};
pub use row::{Cell, Row};
pub use span::{Cut, Span};
pub use statement::{
    ColumnText, GenText, InsertItem, KeyText, Operand, Out, OutList, PlanMode, RolloutMode, Select,
    SetItem, SetText, Sign, Stmt, TypeText,
};

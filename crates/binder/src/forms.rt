// Which forms of statements are built, and which rollout modes.
ghost use Rattle.std.specs.Prelude.{◌≡◌};
ghost use Rattle.statement_meaning.specs.Built as spec;

use mdc_ast::{ColumnText, RolloutMode, Stmt};

/// Whether the form of a statement is built. It takes no memory.
pub fn built(stmt: &Stmt) -> bool
    ensures { result ≡ spec.is_built_step stmt.now }
{
    match stmt {
        Stmt::CreateTable { columns, .. } => has_no_generated(columns.as_slice()),
        Stmt::CreateIndex { .. }
        | Stmt::DropTable(_)
        | Stmt::DropIndex(_)
        | Stmt::Insert { .. }
        | Stmt::Update { .. }
        | Stmt::Delete { .. }
        | Stmt::Query(_)
        | Stmt::Reclaim(_) => true,
        Stmt::Explain(_)
        | Stmt::SetRollout(_)
        | Stmt::SetPlan(_)
        | Stmt::SetPace(_)
        | Stmt::Clean(_)
        | Stmt::CleanTable(_)
        | Stmt::ListBlocks(_)
        | Stmt::Begin
        | Stmt::Commit
        | Stmt::Rollback
        | Stmt::AddColumn { .. }
        | Stmt::OpenReader(_)
        | Stmt::CloseReader(_)
        | Stmt::Reader(..)
        | Stmt::Join(_)
        | Stmt::Reorg(_) => false,
    }
}

/// Whether a rollout mode is built.
pub fn built_mode(mode: RolloutMode) -> bool
    ensures { result ≡ spec.is_built_mode mode }
{
    match mode {
        RolloutMode::None => true,
        RolloutMode::Immediate => true,
        RolloutMode::Deferred => false,
    }
}

fn has_no_generated(columns: &[ColumnText]) -> bool
    ensures { result ≡ spec.has_no_generated columns.now }
{
    columns.iter().all(|column| column.made.is_none())
}

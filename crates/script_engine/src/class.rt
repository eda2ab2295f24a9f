// What a statement is to the engine. Forms of statements are classed here alone.
ghost use Rattle.std.specs.Prelude.{◌≡◌, false, MatchOption};
ghost use Rattle.script_engine.specs.Roles as roles;
ghost use Rattle.script_engine.specs.Roles.{Lists, is_listing, role_in, role_of};

use binder::built_mode;
use mdc_ast::{Name, PlanMode, RolloutMode, Select, Stmt};
use statement_meaning::Settings;

/// What a statement is to the engine.
pub(crate) enum Class<'s> {
    Begin,
    Commit,
    Rollback,
    Set(Setting),
    /// LIST BLOCKS of a table of that name.
    List(&'s Name),
    /// EXPLAIN of a query.
    Explain(&'s Select),
    Query,
    /// It may change tables, indexes or rows.
    Change,
    /// Its form isn't built.
    Unbuilt,
}

/// What SET PLAN and SET CURRENT MDC ROLLOUT MODE set.
#[derive(Clone, Copy, Debug, PartialEq, Eq)]
pub(crate) enum Setting {
    Plan(PlanMode),
    Rollout(RolloutMode),
}

/// The class of a statement.
pub(crate) fn class_of(stmt: &Stmt) -> Class<'_>
    ensures { role_in result ≡ role_of stmt.now }
{
    match stmt {
        Stmt::Begin => Class::Begin,
        Stmt::Commit => Class::Commit,
        Stmt::Rollback => Class::Rollback,
        Stmt::SetPlan(mode) => Class::Set(Setting::Plan(*mode)),
        Stmt::SetRollout(mode) => Class::Set(Setting::Rollout(*mode)),
        Stmt::ListBlocks(name) => Class::List(name),
        Stmt::Explain(select) => Class::Explain(select),
        Stmt::Query(_) => Class::Query,
        Stmt::CreateTable { .. }
        | Stmt::CreateIndex { .. }
        | Stmt::DropTable(_)
        | Stmt::DropIndex(_)
        | Stmt::Insert { .. }
        | Stmt::Update { .. }
        | Stmt::Delete { .. }
        | Stmt::Reclaim(_) => Class::Change,
        Stmt::SetPace(_)
        | Stmt::Clean(_)
        | Stmt::CleanTable(_)
        | Stmt::AddColumn { .. }
        | Stmt::OpenReader(_)
        | Stmt::CloseReader(_)
        | Stmt::Reader(..)
        | Stmt::Join(_)
        | Stmt::Reorg(_) => Class::Unbuilt,
    }
}

/// The name in a LIST BLOCKS.
pub(crate) fn listed(stmt: &Stmt) -> Option<&Name>
    ensures { MatchOption result (is_listing (role_of stmt.now) ≡ false) (λ name. role_of stmt.now ≡ Lists name.now) }
{
    match class_of(stmt) {
        Class::List(name) => Some(name),
        Class::Begin
        | Class::Commit
        | Class::Rollback
        | Class::Set(_)
        | Class::Explain(_)
        | Class::Query
        | Class::Change
        | Class::Unbuilt => None,
    }
}

/// Whether a statement changes nothing, in a transaction or outside of one.
pub(crate) fn only_reads(stmt: &Stmt) -> bool
    ensures { result ≡ roles.only_reads (role_of stmt.now) }
{
    match class_of(stmt) {
        Class::List(_) | Class::Explain(_) | Class::Query => true,
        Class::Begin
        | Class::Commit
        | Class::Rollback
        | Class::Set(_)
        | Class::Change
        | Class::Unbuilt => false,
    }
}

/// Whether a statement is EXPLAIN.
pub(crate) fn is_explain(stmt: &Stmt) -> bool
    ensures { result ≡ roles.is_explain (role_of stmt.now) }
{
    match class_of(stmt) {
        Class::Explain(_) => true,
        Class::Begin
        | Class::Commit
        | Class::Rollback
        | Class::Set(_)
        | Class::List(_)
        | Class::Query
        | Class::Change
        | Class::Unbuilt => false,
    }
}

impl Setting {
    /// Whether what is set is built.
    pub(crate) fn is_built(self) -> bool
        ensures { result ≡ roles.is_built_setting self }
    {
        match self {
            Setting::Plan(_) => true,
            Setting::Rollout(mode) => built_mode(mode),
        }
    }

    /// These settings, with this one set.
    pub(crate) fn on(self, settings: Settings) -> Settings
        ensures { result ≡ roles.set_on self settings }
    {
        match self {
            Setting::Plan(plan) => Settings { plan, ..settings },
            Setting::Rollout(rollout) => Settings {
                rollout,
                ..settings
            },
        }
    }
}

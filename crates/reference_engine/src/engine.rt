// The engine: tables in memory, and what statements do to them, in transactions.
ghost use Rattle.std.specs.Prelude.{◌≡◌, IfOk, Ok, Some};
ghost use Rattle.mdc_ast.specs.declared.refusal.Refusal.{Refusal};
ghost use Rattle.mdc_ast.specs.declared.statement.Select.{Select};
ghost use Rattle.mdc_ast.specs.Database.{empty_database};
ghost use Rattle.statement_meaning.specs.Built.{IsBuiltDatabase};
ghost use Rattle.statement_meaning.specs.Session.{session_on};
ghost use Rattle.reference_engine.specs.Sessions.{Steps, Turns};

use crate::executing::execute;
use crate::tables::Tables;
use binder::{BindFault, bind, built_mode};
use mdc_ast::{Name, Outcome, PlanMode, Reply, RolloutMode, Stmt};
use mdc_values::Memory;
use row_checks::{no_table, not_built, not_in_state};
use statement_meaning::{Pass, Settings};
use std::alloc::Global;
use std::marker::Model;

/// The engine. Contracts see the session that it holds.
#[derive(Drop)]
pub struct Engine {
    alloc: Global,
    working: Tables,
    // The tables of the last commit, where a transaction is open.
    kept: Option<Tables>,
    settings: Settings,
    pass: Pass,
}

impl Model for Engine {
    ghost use Rattle.std.specs.Prelude.{IfSome};
    ghost use Rattle.statement_meaning.specs.Built.{IsBuiltDatabase};
    ghost use Rattle.statement_meaning.specs.Session.{Session};
    ghost use Rattle.reference_engine.specs.Sessions.{session_of};

    ghost Value = { Session };

    ghost view = { λ engine. session_of engine.working engine.kept engine.settings engine.pass };

    ghost invariant = { λ engine. IsBuiltDatabase engine.working × IfSome engine.kept IsBuiltDatabase };
}

impl Engine {
    /// An engine with no tables.
    pub fn new(alloc: Global) -> Result<Engine, Memory>
        ensures { IfOk result (λ engine. engine ≡ session_on empty_database) }
    {
        let working = Tables::empty(alloc)?;
        Ok(Engine {
            alloc,
            working,
            kept: None,
            settings: Settings::first(),
            pass: Pass::Idle,
        })
    }

    /// Executes a statement. It is None what is said where lists of rows don't tell it: how many blocks a table has, and by which plan
    /// the rows of a query are found. Where the statement is refused, and after `Memory`, nothing has changed.
    pub fn execute(&mut self, stmt: &Stmt) -> Result<Option<Outcome>, Memory>
        ensures turns { Turns stmt.now result self.old self.new }
        ensures refused { (refusal : Refusal) → result ≡ Ok (Some (Outcome.Refused refusal)) → self.new ≡ self.old }
        ensures valid { IsBuiltDatabase self.old.working × IsBuiltDatabase self.new.working }
    {
        // The fields are named for what the invariant says of them, before and behind the turn.
        let _ = &self.working;
        let said = self.turn(stmt);
        let _ = &self.working;
        said
    }

    // Turns the session by a statement.
    fn turn(&mut self, stmt: &Stmt) -> Result<Option<Outcome>, Memory>
        ensures { Turns stmt.now result self.old self.new }
    {
        match stmt {
            Stmt::Begin => self.begin(),
            Stmt::Commit => Ok(self.commit()),
            Stmt::Rollback => Ok(self.roll_back()),
            Stmt::SetPlan(mode) => Ok(self.set_plan(*mode)),
            Stmt::SetRollout(mode) => Ok(self.set_rollout(*mode)),
            Stmt::ListBlocks(name) => self.list_blocks(name),
            Stmt::Explain(_) => self.explain(stmt),
            Stmt::CreateTable { .. }
            | Stmt::CreateIndex { .. }
            | Stmt::DropTable(_)
            | Stmt::DropIndex(_)
            | Stmt::Insert { .. }
            | Stmt::Update { .. }
            | Stmt::Delete { .. }
            | Stmt::Query(_)
            | Stmt::SetPace(_)
            | Stmt::Clean(_)
            | Stmt::CleanTable(_)
            | Stmt::Reclaim(_)
            | Stmt::AddColumn { .. }
            | Stmt::OpenReader(_)
            | Stmt::CloseReader(_)
            | Stmt::Reader(..)
            | Stmt::Join(_)
            | Stmt::Reorg(_) => self.step(stmt),
        }
    }

    // A BEGIN.
    fn begin(&mut self) -> Result<Option<Outcome>, Memory>
        ensures { Turns Stmt.Begin result self.old self.new }
    {
        if self.kept.is_some() {
            return Ok(Some(Outcome::Refused(not_in_state(self.alloc))));
        }
        let kept = self.working.copied()?;
        self.kept = Some(kept);
        Ok(Some(Outcome::Done(Reply::Done)))
    }

    // A COMMIT.
    fn commit(&mut self) -> Option<Outcome>
        ensures { Turns Stmt.Commit (Ok result) self.old self.new }
    {
        if self.kept.is_none() {
            return Some(Outcome::Refused(not_in_state(self.alloc)));
        }
        self.kept = None;
        Some(Outcome::Done(Reply::Done))
    }

    // A ROLLBACK.
    fn roll_back(&mut self) -> Option<Outcome>
        ensures { Turns Stmt.Rollback (Ok result) self.old self.new }
    {
        match self.kept.take() {
            Some(kept) => {
                self.working = kept;
                Some(Outcome::Done(Reply::Done))
            }
            None => Some(Outcome::Refused(not_in_state(self.alloc))),
        }
    }

    // A SET PLAN.
    fn set_plan(&mut self, mode: PlanMode) -> Option<Outcome>
        ensures { Turns (Stmt.SetPlan mode) (Ok result) self.old self.new }
    {
        self.settings.plan = mode;
        Some(Outcome::Done(Reply::Done))
    }

    // A SET CURRENT MDC ROLLOUT MODE.
    fn set_rollout(&mut self, mode: RolloutMode) -> Option<Outcome>
        ensures { Turns (Stmt.SetRollout mode) (Ok result) self.old self.new }
    {
        if !built_mode(mode) {
            return Some(Outcome::Refused(not_built(self.alloc)));
        }
        self.settings.rollout = mode;
        Some(Outcome::Done(Reply::Done))
    }

    // A LIST BLOCKS.
    fn list_blocks(&mut self, name: &Name) -> Result<Option<Outcome>, Memory>
        ensures { Turns (Stmt.ListBlocks name.now) result self.old self.new }
    {
        if self.working.catalog().table(name).is_some() {
            return Ok(None);
        }
        let refusal = no_table(self.alloc, name)?;
        Ok(Some(Outcome::Refused(refusal)))
    }

    // An EXPLAIN.
    fn explain(&mut self, stmt: &Stmt) -> Result<Option<Outcome>, Memory>
        requires { (select : Select) × (stmt.now ≡ Stmt.Explain select) }
        ensures { Turns stmt.now result self.old self.new }
    {
        match bind(self.alloc, stmt, self.working.catalog()) {
            Ok(_bound) => Ok(None),
            Err(BindFault::Refused(refusal)) => Ok(Some(Outcome::Refused(refusal))),
            Err(BindFault::Memory) => Err(Memory),
        }
    }

    // Any other statement, on the tables as they are now.
    fn step(&mut self, stmt: &Stmt) -> Result<Option<Outcome>, Memory>
        ensures { Steps stmt.now result self.old self.new }
    {
        let outcome = execute(self.alloc, stmt, &mut self.working)?;
        Ok(Some(outcome))
    }
}

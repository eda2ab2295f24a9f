// Statements in transactions.
ghost use Rattle.std.specs.Prelude.{◌≡◌, ◌&&◌, false, true, Err, IsTrue, None, Ok};
ghost use Rattle.statement_meaning.specs.Session.{is_refusal};
ghost use Rattle.store_api.specs.declared.fault.Damage.{Damage};
ghost use Rattle.mdc_sound.specs.SoundDatabase.{IsSoundDatabase};
ghost use Rattle.script_engine.specs.Breaking.{NamesExactly};
ghost use Rattle.script_engine.specs.Held.{IsWritten};
ghost use Rattle.script_engine.specs.OnAnyPages.{ExecutesOnAny, IsGoingEngine};
ghost use Rattle.script_engine.specs.Ready.{AreServed};
ghost use Rattle.script_engine.specs.Reloading.{Reloads};
ghost use Rattle.script_engine.specs.Roles.{Sets, is_built_setting, is_tried, only_reads, role_of};
ghost use Rattle.script_engine.specs.Serving.{MayCall};
ghost use Rattle.script_engine.specs.Trying.{TriesStep};
ghost use Rattle.script_engine.specs.Turns.{ComesUnready, Executes};
ghost use Rattle.store_api.specs.declared.fault.StoreFault.TheVariants as stop;

use crate::class::{Class, Setting, class_of};
use crate::committing::{WRONG_COUNT, commit_counted, commit_work, is_counted};
use crate::damage::{load_exactly, try_again, try_exactly};
use crate::engine::Engine;
use crate::executing::execute;
use crate::opening::are_served;
use crate::tables::Tables;
use extent_map::SpaceFault;
use mdc_ast::{Outcome, Reply, Stmt};
use row_checks::{file_full, not_built, not_in_state};
use store_api::{Pages, Store, StoreFault};

/// Whether a statement was refused.
fn is_refused(outcome: &Outcome) -> bool
    ensures { result ≡ is_refusal outcome.now }
{
    match outcome {
        Outcome::Done(_) => false,
        Outcome::Refused(_) => true,
    }
}

impl<S: Store> Engine<S> {
    /// Executes a statement that is written so in a script.
    pub(crate) fn turn(&mut self, stmt: &Stmt) -> Result<Outcome, StoreFault>
        requires may { MayCall S.Pages self.old }
        requires written { IsWritten stmt.now }
        ensures executes { Executes S.Pages stmt.now result self.old self.new }
        ensures any { IsGoingEngine S.Pages self.old → ExecutesOnAny S.Pages stmt.now result self.old self.new }
    {
        match class_of(stmt) {
            Class::Begin => Ok(self.begin()),
            Class::Commit => self.commit(),
            Class::Rollback => self.roll_back(),
            Class::Set(setting) => Ok(self.set(setting)),
            Class::List(_) | Class::Explain(_) | Class::Query => self.read(stmt),
            Class::Change | Class::Unbuilt => self.change(stmt),
        }
    }

    /// A BEGIN.
    #[tactic(auto, using(crate::proofs::LeavingLemmas::leaves_still, crate::proofs::TouchesForStatementLemmas::held_still, crate::proofs::FetchesForStatementLemmas::brings_none, crate::proofs::FetchesOnceLemmas::once_none))]
    fn begin(&mut self) -> Outcome
        requires may { MayCall S.Pages self.old }
        ensures executes { Executes S.Pages Stmt.Begin (Ok result) self.old self.new }
        ensures any { IsGoingEngine S.Pages self.old → ExecutesOnAny S.Pages Stmt.Begin (Ok result) self.old self.new }
    {
        if self.is_open {
            return Outcome::Refused(not_in_state(self.tables.alloc));
        }
        self.is_open = true;
        Outcome::Done(Reply::Done)
    }

    /// A COMMIT.
    #[tactic(auto, using(crate::proofs::LeavingLemmas::leaves_still, crate::proofs::TouchesForStatementLemmas::held_still, crate::proofs::FetchesForStatementLemmas::brings_none, crate::proofs::FetchesOnceLemmas::once_none))]
    fn commit(&mut self) -> Result<Outcome, StoreFault>
        requires may { MayCall S.Pages self.old }
        ensures executes { Executes S.Pages Stmt.Commit result self.old self.new }
        ensures any { IsGoingEngine S.Pages self.old → ExecutesOnAny S.Pages Stmt.Commit result self.old self.new }
    {
        if !self.is_open {
            return Ok(Outcome::Refused(not_in_state(self.tables.alloc)));
        }
        commit_work(&self.tables, &mut self.store)?;
        self.is_open = false;
        Ok(Outcome::Done(Reply::Done))
    }

    /// A ROLLBACK.
    #[tactic(auto, using(crate::proofs::LeavingLemmas::leaves_still, crate::proofs::TouchesForStatementLemmas::held_still, crate::proofs::FetchesForStatementLemmas::brings_none, crate::proofs::FetchesOnceLemmas::once_none))]
    fn roll_back(&mut self) -> Result<Outcome, StoreFault>
        requires may { MayCall S.Pages self.old }
        ensures executes { Executes S.Pages Stmt.Rollback result self.old self.new }
        ensures any { IsGoingEngine S.Pages self.old → ExecutesOnAny S.Pages Stmt.Rollback result self.old self.new }
    {
        if !self.is_open {
            return Ok(Outcome::Refused(not_in_state(self.tables.alloc)));
        }
        self.served = go_back(&mut self.tables, &mut self.store)?;
        self.is_open = false;
        Ok(Outcome::Done(Reply::Done))
    }

    /// SET PLAN or SET CURRENT MDC ROLLOUT MODE. It is the run that is set, and not the database: no page changes, and ROLLBACK leaves it.
    #[tactic(auto, using(crate::proofs::LeavingLemmas::leaves_still, crate::proofs::TouchesForStatementLemmas::held_still, crate::proofs::FetchesForStatementLemmas::brings_none, crate::proofs::FetchesOnceLemmas::once_none))]
    fn set(&mut self, setting: Setting) -> Outcome
        requires may { MayCall S.Pages self.old }
        ensures executes { (stmt : Stmt) → role_of stmt ≡ Sets setting → Executes S.Pages stmt (Ok result) self.old self.new }
        ensures any { (stmt : Stmt) → role_of stmt ≡ Sets setting → IsGoingEngine S.Pages self.old → ExecutesOnAny S.Pages stmt (Ok result) self.old self.new }
    {
        if !self.takes(setting) {
            return Outcome::Refused(not_built(self.tables.alloc));
        }
        self.tables.settings = setting.on(self.tables.settings);
        Outcome::Done(Reply::Done)
    }

    /// Whether a setting is taken: it is built, and statements are served.
    fn takes(&self, setting: Setting) -> bool
        ensures { result ≡ (self.now.served && is_built_setting setting) }
    {
        self.served && setting.is_built()
    }

    /// A statement that changes nothing, in a transaction or outside of one.
    #[tactic(auto, using(crate::proofs::LeavingLemmas::leaves_still, crate::proofs::TouchesForStatementLemmas::held_still, crate::proofs::FetchesForStatementLemmas::brings_none, crate::proofs::FetchesOnceLemmas::once_none, crate::proofs::FetchesForStatementLemmas::fetches_none, crate::proofs::FetchesForListingLemmas::lists_none))]
    fn read(&mut self, stmt: &Stmt) -> Result<Outcome, StoreFault>
        requires may { MayCall S.Pages self.old }
        requires written { IsWritten stmt.now }
        requires reading { only_reads (role_of stmt.now) ≡ true }
        ensures executes { Executes S.Pages stmt.now result self.old self.new }
        ensures any { IsGoingEngine S.Pages self.old → ExecutesOnAny S.Pages stmt.now result self.old self.new }
    {
        if !self.served {
            return Ok(Outcome::Refused(not_built(self.tables.alloc)));
        }
        try_exactly(&mut self.tables, &mut self.store, stmt)
    }

    /// A statement that may change pages, or whose form isn't built. Its change is committed where no transaction is open.
    #[tactic(auto, using(crate::proofs::LeavingLemmas::leaves_still, crate::proofs::TouchesForStatementLemmas::held_still, crate::proofs::FetchesForStatementLemmas::brings_none, crate::proofs::FetchesOnceLemmas::once_none, crate::proofs::FetchesForStatementLemmas::fetches_none))]
    fn change(&mut self, stmt: &Stmt) -> Result<Outcome, StoreFault>
        requires may { MayCall S.Pages self.old }
        requires written { IsWritten stmt.now }
        requires other { is_tried (role_of stmt.now) ≡ true }
        requires changing { only_reads (role_of stmt.now) ≡ false }
        ensures executes { Executes S.Pages stmt.now result self.old self.new }
        ensures any { IsGoingEngine S.Pages self.old → ExecutesOnAny S.Pages stmt.now result self.old self.new }
    {
        if !self.served {
            return Ok(Outcome::Refused(not_built(self.tables.alloc)));
        }
        let outcome = try_exactly(&mut self.tables, &mut self.store, stmt)?;
        if self.is_open {
            return Ok(outcome);
        }
        if is_refused(&outcome) {
            return Ok(outcome);
        }
        if !is_counted(&mut self.store)? {
            return self.change_anew(stmt);
        }
        commit_counted(&mut self.store)?;
        Ok(outcome)
    }

    /// The same of a statement behind which page 0 doesn't state how many pages there are: it goes back to the pages of the last commit,
    /// and is tried once more where they are sound. Of told pages page 0 then states the count.
    fn change_anew(&mut self, stmt: &Stmt) -> Result<Outcome, StoreFault>
        requires going { (S.state self.old.store).ended ≡ false }
        requires written { IsWritten stmt.now }
        requires other { is_tried (role_of stmt.now) ≡ true }
        requires changing { only_reads (role_of stmt.now) ≡ false }
        ensures executes { (first : Engine S) → ComesUnready S.Pages first self.old → Executes S.Pages stmt.now result first self.new }
        ensures any { (first : Engine S) → ComesUnready S.Pages first self.old → IsGoingEngine S.Pages first → ExecutesOnAny S.Pages stmt.now result first self.new }
    {
        let served = go_back(&mut self.tables, &mut self.store)?;
        self.served = served;
        if !served {
            return Ok(Outcome::Refused(not_built(self.tables.alloc)));
        }
        let outcome = try_again(&mut self.tables, &mut self.store, stmt)?;
        if is_refused(&outcome) {
            return Ok(outcome);
        }
        if !is_counted(&mut self.store)? {
            self.store.rollback();
            return Err(StoreFault::Damaged(WRONG_COUNT));
        }
        commit_counted(&mut self.store)?;
        Ok(outcome)
    }
}

/// Goes back to the pages of the last commit, and answers whether their tables are of forms that are built.
fn go_back<S: Store>(tables: &mut Tables, store: &mut S) -> Result<bool, StoreFault>
    requires going { (S.state store.old).ended ≡ false }
    ensures reloads { Reloads S.Pages result store.old store.new tables.old tables.new }
    ensures damaged { (damage : Damage) → result ≡ Err (stop.Damaged damage) → IsTrue (S.state store.old).is_told → IsSoundDatabase tables.old.shape (S.state store.old).base → ⊥ }
    ensures exact { NamesExactly S.Pages tables.old.shape result store.new }
{
    store.rollback();
    tables.forget();
    let catalog = load_exactly(tables.alloc, tables.shape, store)?;
    let served = are_served(&catalog);
    tables.catalog = catalog;
    Ok(served)
}

/// Executes a statement, without a commit. One that runs full is refused, and all is as it was, as it is after a fault.
pub(crate) fn try_statement<P: Pages>(
    tables: &mut Tables,
    pages: &mut P,
    stmt: &Stmt,
) -> Result<Outcome, StoreFault>
    requires served { AreServed tables.old.catalog }
    requires written { IsWritten stmt.now }
    requires going { (P.state pages.old).ended ≡ false }
    requires unmarked { (P.state pages.old).marked ≡ None }
    ensures tries { TriesStep P.Pages stmt.now result pages.old pages.new tables.old tables.new }
{
    pages.mark();
    match execute(tables, pages, stmt) {
        Ok(outcome) => {
            pages.keep()?;
            Ok(outcome)
        }
        Err(SpaceFault::Full(extents)) => {
            pages.undo();
            tables.forget();
            Ok(Outcome::Refused(file_full(tables.alloc, extents)))
        }
        Err(SpaceFault::Store(fault)) => {
            pages.undo();
            tables.forget();
            Err(fault)
        }
    }
}

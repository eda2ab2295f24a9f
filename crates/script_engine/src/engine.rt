// The engine: tables over a store, in transactions.
ghost use Rattle.std.specs.Prelude.{◌≡◌, IfOk, IsErr, IsErrOf, IsOk, IsTrue, MatchResult, OnErr, OnOk, Err};
ghost use Rattle.mdc_words.specs.Faults.{CountsFault};
ghost use Rattle.mdc_words.specs.Time.{OverTime};
ghost use Rattle.statement_meaning.specs.Binding.{bound_of};
ghost use Rattle.store_api.specs.Calls.{Tells, TellsPart};
ghost use Rattle.store_api.specs.Fetching.{BringsOnly};
ghost use Rattle.store_api.specs.Moments.{BaseOrNow, BaseWithFront};
ghost use Rattle.store_api.specs.Works.{Rests};
ghost use Rattle.store_api.specs.declared.fault.Damage.{Damage};
ghost use Rattle.mdc_sound.specs.Breaks.{IsFirstBreak};
ghost use Rattle.statement_rows.specs.RowsOfStatement.{AnyPage};
ghost use Rattle.script_engine.specs.Breaking.{StaysAtDamage};
ghost use Rattle.script_engine.specs.Controls.{AnswersSetting};
ghost use Rattle.script_engine.specs.Fetching.{FetchesForListing, FetchesForStatement, FetchesRowsOnce};
ghost use Rattle.script_engine.specs.Held.{IsWritten, StepsOnPages};
ghost use Rattle.script_engine.specs.Leaving.{IsAllCommitted, LeftWithin, MayBeLeft};
ghost use Rattle.script_engine.specs.OnAnyPages.{ExecutesOnAny, IsGoingEngine};
ghost use Rattle.script_engine.specs.Resting.{Settles};
ghost use Rattle.script_engine.specs.Roles.{role_of};
ghost use Rattle.script_engine.specs.Serving.{IsReadyEngine, MayCall, held_by};
ghost use Rattle.script_engine.specs.Touching.{TouchesAsHeld};

use crate::tables::Tables;
use mdc_ast::{Outcome, Stmt};
use statement_meaning::Pass;
use store_api::{Mute, Store, StoreFault};

/// An engine over a store, which it owns.
#[derive(Drop)]
pub struct Engine<S: Store> {
    pub(crate) store: S,
    pub(crate) tables: Tables,
    // Whether all tables are of forms that are built.
    pub(crate) served: bool,
    // Whether a transaction is open.
    pub(crate) is_open: bool,
    // How far the cleaner's pass is.
    pub(crate) pass: Pass,
}

impl<S: Store> Engine<S> {
    /// The store as it is.
    pub fn close(self) -> S
        ensures { result ≡ self.store }
    {
        self.store
    }

    /// Executes a statement. Outside a transaction its change is committed before the answer; where it is refused, nothing has
    /// changed. A crash within it leaves the pages of the last commit before it, or those that it commits, and so does a stop, after
    /// which the engine takes no further call but `close`. A query and EXPLAIN bring pages of rows to hand only of blocks with a row that
    /// the plan has in the mode that is set; in modes AUTO and BLOCK these are blocks in whose cells a row may qualify. A DELETE that goes
    /// by blocks brings to hand of pages of rows only those of the blocks that it releases, and LIST BLOCKS pages of the block map alone;
    /// so it is where the statement stops, too. Such a DELETE, once it is done, brought none of these pages to hand twice. Whatever the pages are, which pages came to hand is told further on, what BEGIN, COMMIT
    /// and ROLLBACK answer hangs on whether a transaction is open, a refusal, a query, LIST BLOCKS and EXPLAIN change nothing, nor does
    /// what tells that no row went or was changed, CREATE, DROP, a DELETE and REORG TABLE change no page beside those of their table,
    /// where it stands, those of the extent map and idle ones, SET PLAN and SET CURRENT MDC ROLLOUT MODE alone change what the run is set
    /// to, and nothing else, a stop commits nothing, unless a call of the disk failed, and damage is exact: of the pages as they were
    /// held, the first rule that they break, and the lowest page that breaks it.
    pub fn execute(&mut self, stmt: &Stmt) -> Result<Outcome, StoreFault>
        requires may { MayCall S.Pages self.old }
        requires written { IsWritten stmt.now }
        ensures steps { IfOk result (λ outcome. IsReadyEngine S.Pages self.old → StepsOnPages self.old.tables.shape (held_by S.Pages self.old) stmt.now outcome (held_by S.Pages self.new) × IsReadyEngine S.Pages self.new) }
        ensures any { IsGoingEngine S.Pages self.old → ExecutesOnAny S.Pages stmt.now result self.old self.new }
        ensures may { OnOk result (MayCall S.Pages self.new) }
        ensures left { IsReadyEngine S.Pages self.old → OverTime S.clock S.left (LeftWithin self.old.tables.shape (held_by S.Pages self.old) stmt.now (S.state self.old.store)) self.old.store self.new.store }
        ensures base { IsReadyEngine S.Pages self.old → MayBeLeft self.old.tables.shape (held_by S.Pages self.old) stmt.now (S.state self.new.store).base }
        ensures fetches { IsReadyEngine S.Pages self.old → FetchesForStatement S.Pages self.old.tables.shape self.old.store self.new.store self.old.tables.catalog self.old.tables.settings (bound_of self.old.tables.catalog stmt.now) }
        ensures once { IsOk result → IsReadyEngine S.Pages self.old → FetchesRowsOnce S.Pages self.old.tables.shape self.old.store self.new.store self.old.tables.catalog self.old.tables.settings (bound_of self.old.tables.catalog stmt.now) }
        ensures lists { IsReadyEngine S.Pages self.old → FetchesForListing S.Pages self.old.store self.new.store self.old.tables.catalog (role_of stmt.now) }
        ensures brings { BringsOnly S.Pages AnyPage self.old.store self.new.store }
        ensures touches { OnOk result (IsAllCommitted (held_by S.Pages self.old) → TouchesAsHeld S.Pages stmt.now self.old.store self.new.store self.old.tables) }
        ensures settings { MatchResult result (λ outcome. AnswersSetting (role_of stmt.now) self.old.served self.old.tables.settings outcome self.new.tables.settings) (λ stop. self.new.tables.settings ≡ self.old.tables.settings) }
        ensures device { CountsFault (IsErrOf result StoreFault.Device) (S.disk_faults self.old.store) (S.disk_faults self.new.store) }
        ensures damaged { (damage : Damage) → result ≡ Err (StoreFault.Damaged damage) → IsReadyEngine S.Pages self.old → ⊥ }
        ensures breaks { (damage : Damage) → result ≡ Err (StoreFault.Damaged damage) → IsTrue (S.state self.old.store).is_told → IsFirstBreak self.old.tables.shape (S.state self.new.store).work damage.rule damage.page }
        ensures stays { (damage : Damage) → result ≡ Err (StoreFault.Damaged damage) → StaysAtDamage S.Pages self.old self.new }
        ensures say_faults { S.say_faults self.new.store ≡ S.say_faults self.old.store }
        ensures is_told { (S.state self.new.store).is_told ≡ (S.state self.old.store).is_told }
        ensures told { (S.state self.new.store).told ≡ (S.state self.old.store).told }
        ensures beside { (S.state self.new.store).beside ≡ (S.state self.old.store).beside }
        ensures shape { self.new.tables.shape ≡ self.old.tables.shape }
        ensures time { OverTime S.clock S.left (BaseOrNow (S.state self.old.store) (S.state self.new.store)) self.old.store self.new.store }
        ensures rests { Rests S.Pages self.old.store → Rests S.Pages self.new.store }
    {
        self.turn(stmt)
    }

    /// Tells bytes. After `Mute` a front of them may have been told, and the engine takes no further call but `close`.
    pub fn tell(&mut self, bytes: &[u8]) -> Result<(), Mute>
        requires may { MayCall S.Pages self.old }
        ensures ok { OnOk result (Tells bytes.now (S.state self.old.store) (S.state self.new.store)) }
        ensures err { OnErr result (TellsPart bytes.now (S.state self.old.store) (S.state self.new.store)) }
        ensures stays { self.new ≡ record self.old { store = self.new.store } }
        ensures held { held_by S.Pages self.new ≡ held_by S.Pages self.old }
        ensures ready { IsReadyEngine S.Pages self.old → IsReadyEngine S.Pages self.new }
        ensures may { OnOk result (MayCall S.Pages self.new) }
        ensures say_faults { CountsFault (IsErr result) (S.say_faults self.old.store) (S.say_faults self.new.store) }
        ensures disk_faults { S.disk_faults self.new.store ≡ S.disk_faults self.old.store }
        ensures time { OverTime S.clock S.left (BaseWithFront bytes.now (S.state self.old.store)) self.old.store self.new.store }
        ensures rests { Rests S.Pages self.new.store }
    {
        self.store.tell(bytes)
    }

    /// Does what is left to be done after an answer: where no transaction is open, perhaps steps, each a commit that leaves the
    /// database as it is. A crash meanwhile leaves the pages of one of these commits, or those before them. There is no step yet.
    pub fn settle(&mut self) -> Result<(), StoreFault>
        requires may { MayCall S.Pages self.old }
        ensures settles { Settles S.Pages result self.old self.new }
    {
        Ok(())
    }
}

// Damage that is met, and what it is exactly: the first rule that the pages break, and the lowest page that breaks it.
ghost use Rattle.std.specs.Prelude.{◌≡◌, false, IsTrue, None, OnOk, Err};
ghost use Rattle.store_api.specs.Fetching.{BringsOnly};
ghost use Rattle.store_api.specs.declared.fault.Damage.{Damage};
ghost use Rattle.mdc_sound.specs.SoundDatabase.{IsSoundDatabase};
ghost use Rattle.stored_catalog.specs.StoredDefinitions.{IsAnyTablePage};
ghost use Rattle.script_engine.specs.Breaking.{JudgesDamage, LoadsExactly, NamesExactly};
ghost use Rattle.script_engine.specs.Held.{IsWritten};
ghost use Rattle.script_engine.specs.Ready.{AreServed};
ghost use Rattle.script_engine.specs.Roles.{role_of};
ghost use Rattle.script_engine.specs.Trying as trying;
ghost use Rattle.script_engine.specs.Trying.{AnswersBySoundPages, Tries, TriesStep};
ghost use Rattle.store_api.specs.declared.fault.StoreFault.TheVariants as stop;

use crate::class::only_reads;
use crate::opening::are_served;
use crate::tables::Tables;
use crate::transactions::try_statement;
use catalog::Catalog;
use file_check::{Verdict, check};
use mdc_ast::{Outcome, Stmt};
use row_checks::not_built;
use std::alloc::Global;
use std::mem;
use store_api::{Damage, Pages, Shape, StoreFault};
use stored_catalog::load_catalog;

/// The stop at damage that was met: the first rule that the pages break, with the lowest page that breaks it. Where they break none,
/// which of told pages is known otherwise, it is the damage that was met.
pub(crate) fn stop_at<P: Pages>(
    alloc: Global,
    shape: Shape,
    pages: &mut P,
    met: Damage,
) -> StoreFault
    requires going { (P.state pages.old).ended ≡ false }
    ensures judges { JudgesDamage P.Pages shape result pages.old pages.new }
{
    match check(alloc, shape, pages) {
        Ok(Verdict::Broken(damage)) => StoreFault::Damaged(damage),
        Ok(Verdict::Sound) => StoreFault::Damaged(met),
        Err(fault) => StoreFault::from(fault),
    }
}

/// The catalog of the table pages. No other page comes to hand where it is read, nor where the pages are sound.
#[tactic(auto, using(crate::proofs::BreakingLemmas::brings_any))]
pub(crate) fn load_exactly<P: Pages>(
    alloc: Global,
    shape: Shape,
    pages: &mut P,
) -> Result<Catalog, StoreFault>
    requires going { (P.state pages.old).ended ≡ false }
    ensures loads { LoadsExactly P.Pages shape result pages.old pages.new }
    ensures brings { OnOk result (BringsOnly P.Pages IsAnyTablePage pages.old pages.new) }
    ensures tables { IsTrue (P.state pages.old).is_told → (shape : Shape) → IsSoundDatabase shape (P.state pages.old).work → BringsOnly P.Pages IsAnyTablePage pages.old pages.new }
{
    match load_catalog(alloc, pages) {
        Err(StoreFault::Damaged(met)) => Err(stop_at(alloc, shape, pages, met)),
        answer => answer,
    }
}

/// Executes a statement, without a commit. Where damage is met, the pages are judged, and it is tried once more where they are sound.
pub(crate) fn try_exactly<P: Pages>(
    tables: &mut Tables,
    pages: &mut P,
    stmt: &Stmt,
) -> Result<Outcome, StoreFault>
    requires served { AreServed tables.old.catalog }
    requires written { IsWritten stmt.now }
    requires going { (P.state pages.old).ended ≡ false }
    requires unmarked { (P.state pages.old).marked ≡ None }
    ensures tries { TriesStep P.Pages stmt.now result pages.old pages.new tables.old tables.new }
    ensures exact { NamesExactly P.Pages tables.old.shape result pages.new }
{
    match try_statement(tables, pages, stmt) {
        Err(StoreFault::Damaged(_)) => try_again(tables, pages, stmt),
        answer => answer,
    }
}

/// Judges the pages, and tries a statement once more where they are sound, by what is read of them anew: what was kept of them in memory
/// wasn't theirs.
pub(crate) fn try_again<P: Pages>(
    tables: &mut Tables,
    pages: &mut P,
    stmt: &Stmt,
) -> Result<Outcome, StoreFault>
    requires served { AreServed tables.old.catalog }
    requires written { IsWritten stmt.now }
    requires going { (P.state pages.old).ended ≡ false }
    requires unmarked { (P.state pages.old).marked ≡ None }
    ensures tries { Tries P.Pages stmt.now result pages.old pages.new tables.old tables.new }
    ensures answers { AnswersBySoundPages P.Pages stmt.now result pages.old pages.new tables.old tables.new }
    ensures sound { OnOk result (IsTrue (P.state pages.old).is_told → IsSoundDatabase tables.old.shape (P.state pages.old).work) }
    ensures exact { NamesExactly P.Pages tables.old.shape result pages.new }
{
    match check(tables.alloc, tables.shape, pages)? {
        Verdict::Broken(damage) => Err(StoreFault::Damaged(damage)),
        Verdict::Sound => try_reloaded(tables, pages, stmt),
    }
}

/// Tries a statement by the catalog of the table pages. Where that changes nothing, the catalog is put back that there was.
#[tactic(auto, using(crate::proofs::BreakingLemmas::brings_any, crate::proofs::TouchesForStatementLemmas::held_still))]
fn try_reloaded<P: Pages>(
    tables: &mut Tables,
    pages: &mut P,
    stmt: &Stmt,
) -> Result<Outcome, StoreFault>
    requires served { AreServed tables.old.catalog }
    requires written { IsWritten stmt.now }
    requires going { (P.state pages.old).ended ≡ false }
    requires unmarked { (P.state pages.old).marked ≡ None }
    ensures tries { Tries P.Pages stmt.now result pages.old pages.new tables.old tables.new }
    ensures answers { AnswersBySoundPages P.Pages stmt.now result pages.old pages.new tables.old tables.new }
    ensures unbroken { (damage : Damage) → result ≡ Err (stop.Damaged damage) → IsTrue (P.state pages.old).is_told → IsSoundDatabase tables.old.shape (P.state pages.old).work → ⊥ }
{
    let catalog = load_catalog(tables.alloc, pages)?;
    tables.forget();
    if !are_served(&catalog) {
        return Ok(Outcome::Refused(not_built(tables.alloc)));
    }
    let kept = mem::replace(&mut tables.catalog, catalog);
    match try_statement(tables, pages, stmt) {
        Ok(outcome) => {
            if has_changed(stmt, &outcome) {
                return Ok(outcome);
            }
            tables.catalog = kept;
            Ok(outcome)
        }
        Err(stop) => {
            tables.catalog = kept;
            Err(stop)
        }
    }
}

/// Whether a statement that was answered so may have changed pages.
fn has_changed(stmt: &Stmt, outcome: &Outcome) -> bool
    ensures { result ≡ trying.has_changed (role_of stmt.now) outcome.now }
{
    match outcome {
        Outcome::Done(_) => !only_reads(stmt),
        Outcome::Refused(_) => false,
    }
}

// Damage that was met, and what it is exactly.
ghost use Rattle.std.specs.Prelude.{◌≡◌, ◌<◌, ◌+◌, false, IsTrue, IfOk, None, OnOk, Some};
ghost use Rattle.mdc_words.specs.Faults.{CountsFault};
ghost use Rattle.store_api.specs.Causes.{NoDamage, fault_of};
ghost use Rattle.store_api.specs.Frame.{NoPage, OnlyPage};
ghost use Rattle.store_api.specs.RunsOverPages.{RunsOverPages};
ghost use Rattle.store_api.specs.Works.{Steady};
ghost use Rattle.store_api.specs.declared.fault.Damage.{Damage};
ghost use Rattle.store_api.specs.declared.fault.StoreFault.TheVariants as store;
ghost use Rattle.mdc_ast.specs.TableLimits.{IsTableDef};
ghost use Rattle.mdc_sound.specs.SoundDatabase.{with_table_page};
ghost use Rattle.mdc_sound.specs.StandingTable.{pages_of};
ghost use Rattle.file_check.specs.Looking.{AnyPage};
ghost use Rattle.file_check.specs.Verdicts.{IsVerdictOf};
ghost use Rattle.checked_table.specs.ExactDamage.{CountsAnswer, IsExactWith, IsUnsoundWith, JudgesFault};

use file_check::{Verdict, check};
use mdc_ast::TableDef;
use std::alloc::Global;
use store_api::layout::FIRST_TABLE_PAGE;
use store_api::{Damage, Pages, Shape, StoreFault, blank_page, write_page};
use table_page::def_page;

/// The fault to answer where a call met one: damage is made exact. The pages stay.
pub(crate) fn exact_fault<P: Pages>(
    alloc: Global,
    def: &TableDef,
    shape: Shape,
    pages: &mut P,
    fault: StoreFault,
) -> StoreFault
    requires defined { IsTableDef def.now.number def.now }
    requires place { def.now.number < 16 }
    requires going { (P.state pages.old).ended ≡ false }
    requires unmarked { (P.state pages.old).marked ≡ None }
    ensures exact { JudgesFault P.Pages shape def.now pages.new (Some fault) (Some result) }
    ensures same { (P.state pages.new).work ≡ (P.state pages.old).work }
    ensures unmarked { (P.state pages.new).marked ≡ None }
    ensures steady { Steady P.Pages pages.old pages.new }
    ensures device { CountsAnswer P.Pages pages.old pages.new (Some fault) (Some result) }
{
    match fault {
        StoreFault::Damaged(met) => judged(alloc, def, shape, pages, met),
        StoreFault::Device => StoreFault::Device,
        StoreFault::Memory => StoreFault::Memory,
    }
}

/// What damage that was met is exactly: the first rule that the pages break with the definition in the place of its table page,
/// and the lowest page that breaks it. Where they break none, it is the damage that was met.
fn judged<P: Pages>(
    alloc: Global,
    def: &TableDef,
    shape: Shape,
    pages: &mut P,
    met: Damage,
) -> StoreFault
    requires defined { IsTableDef def.now.number def.now }
    requires place { def.now.number < 16 }
    requires going { (P.state pages.old).ended ≡ false }
    requires unmarked { (P.state pages.old).marked ≡ None }
    ensures exact { (damage : Damage) → result ≡ store.Damaged damage → IsUnsoundWith P.Pages shape def.now pages.new → IsExactWith P.Pages shape def.now pages.new damage }
    ensures same { (P.state pages.new).work ≡ (P.state pages.old).work }
    ensures unmarked { (P.state pages.new).marked ≡ None }
    ensures steady { Steady P.Pages pages.old pages.new }
    ensures device { CountsFault (Some result ≡ Some store.Device) (P.disk_faults pages.old) (P.disk_faults pages.new) }
{
    pages.mark();
    let verdict = verdict_with(alloc, def, shape, pages);
    pages.undo();
    match verdict {
        Ok(Verdict::Broken(damage)) => StoreFault::Damaged(damage),
        Ok(Verdict::Sound) => StoreFault::Damaged(met),
        Err(fault) => fault,
    }
}

/// Judges the pages with a definition written onto its table page, where there is that page.
fn verdict_with<P: Pages>(
    alloc: Global,
    def: &TableDef,
    shape: Shape,
    pages: &mut P,
) -> Result<Verdict, StoreFault>
    requires defined { IsTableDef def.now.number def.now }
    requires going { (P.state pages.old).ended ≡ false }
    ensures verdict { IfOk result (λ verdict. IsTrue (P.state pages.old).is_told → IsVerdictOf shape (with_table_page def.now (pages_of P.Pages pages.old)) verdict) }
    ensures runs { RunsOverPages P.Pages (OnlyPage (1 + def.now.number)) AnyPage NoDamage pages.old pages.new (fault_of result) }
{
    write_definition(def, pages)?;
    let verdict = check(alloc, shape, pages)?;
    Ok(verdict)
}

/// Writes a definition onto its table page, where there is that page.
fn write_definition<P: Pages>(def: &TableDef, pages: &mut P) -> Result<(), StoreFault>
    requires defined { IsTableDef def.now.number def.now }
    requires going { (P.state pages.old).ended ≡ false }
    ensures writes { OnOk result (IsTrue (P.state pages.old).is_told → pages_of P.Pages pages.new ≡ with_table_page def.now (pages_of P.Pages pages.old)) }
    ensures runs { RunsOverPages P.Pages (OnlyPage (1 + def.now.number)) NoPage NoDamage pages.old pages.new (fault_of result) }
{
    let page = FIRST_TABLE_PAGE + u32::from(def.number);
    if page >= pages.count() {
        return Ok(());
    }
    let mut bytes = *blank_page();
    def_page(def, &mut bytes);
    write_page(pages, page, &bytes)
}

// Rule 3: the table pages.
ghost use Rattle.std.specs.Prelude.{◌≡◌, ◌+◌, ◌<◌, false, IfOk, IsTrue, List};
ghost use Rattle.store_api.specs.Causes.{NoDamage, fault_of};
ghost use Rattle.store_api.specs.Frame.{NoPage, OnlyPage};
ghost use Rattle.store_api.specs.RunsOverPages.{RunsOverPages};
ghost use Rattle.extent_map.specs.declared.kind.Kind.{Kind};
ghost use Rattle.stored_catalog.specs.StoredDefinitions.{IsStoredPlace, IsWithinLimits};
ghost use Rattle.mdc_sound.specs.SpaceRules.{IsMapSound, IsRootSound};
ghost use Rattle.file_check.specs.Looking.{AnyPage, Unless};
ghost use Rattle.file_check.specs.TablePagesJudged.{AreDefsWithinLimits, HasForm, HasOwners, IsFormWithinLimits, JudgesTablePage, JudgesTablePages};

use crate::lowest::lower;
use crate::names::lowest_shared;
use crate::roots::judge_roots;
use mdc_ast::TableDef;
use std::alloc::Global;
use store_api::layout::{FIRST_TABLE_PAGE, TABLE_PLACES};
use store_api::{Pages, Shape, StoreFault, bring};
use table_page::{DefFault, def_of};

/// What judging the table pages answers.
#[derive(Debug, Drop)]
pub(crate) enum TablePages {
    /// The definition of each place, or none where its page has zeros alone.
    Sound(Vec<Option<TableDef>>),
    /// The lowest page that breaks the rule.
    Broken(u32),
}

/// What judging a table page without the others answers.
#[derive(Drop)]
struct JudgedPage {
    /// The definition that it has, if it has one.
    def: Option<TableDef>,
    /// The page itself, where it breaks the rule.
    broken: Option<u32>,
}

/// What stands on a table page.
#[derive(Drop)]
enum PageForm {
    /// A definition, or zeros alone.
    Formed(Option<TableDef>),
    /// Anything else.
    Formless,
}

/// Judges the table pages: each has zeros alone or is that of a definition within the limits, whose roots are pages of index
/// extents, and no two tables and no two record indexes have one name. Of two of one name the lower page breaks the rule.
pub(crate) fn judge_table_pages<P: Pages>(
    alloc: Global,
    shape: Shape,
    pages: &mut P,
) -> Result<TablePages, StoreFault>
    requires going { (P.state pages.old).ended ≡ false }
    ensures judged { IfOk result (λ answer. IsTrue (P.state pages.old).is_told → (owners : List Kind) → IsRootSound shape (P.state pages.old).work
        → IsMapSound shape (P.state pages.old).work owners → JudgesTablePages shape (P.state pages.old).work owners answer) }
    ensures limits { IfOk result AreDefsWithinLimits }
    ensures same { (P.state pages.new).work ≡ (P.state pages.old).work }
    ensures runs { RunsOverPages P.Pages NoPage AnyPage
        (Unless P.Pages pages.old (λ told. IsRootSound shape told × (owners : List Kind) × IsMapSound shape told owners)) pages.old pages.new (fault_of result) }
{
    let mut defs = Vec::new(alloc);
    let mut lowest = None;
    for t in 0..TABLE_PLACES {
        let page = judge_table_page(alloc, shape, pages, t)?;
        lowest = lower(lowest, page.broken);
        defs.push(page.def)?;
    }
    match lower(lowest, lowest_shared(&defs)) {
        Some(page) => Ok(TablePages::Broken(page)),
        None => Ok(TablePages::Sound(defs)),
    }
}

/// Judges a table page without the others: it has zeros alone, or is that of a definition whose roots are pages of index extents.
fn judge_table_page<P: Pages>(
    alloc: Global,
    shape: Shape,
    pages: &mut P,
    t: u8,
) -> Result<JudgedPage, StoreFault>
    requires place { t < 16 }
    requires going { (P.state pages.old).ended ≡ false }
    ensures judged { IfOk result (λ page. IsTrue (P.state pages.old).is_told → (owners : List Kind) → IsMapSound shape (P.state pages.old).work owners
        → JudgesTablePage shape (P.state pages.old).work owners t page) }
    ensures limits { IfOk result (λ page. IsWithinLimits t page.def) }
    ensures same { (P.state pages.new).work ≡ (P.state pages.old).work }
    ensures runs { RunsOverPages P.Pages NoPage AnyPage (Unless P.Pages pages.old (HasOwners shape)) pages.old pages.new (fault_of result) }
{
    match form_of_page(alloc, pages, t)? {
        PageForm::Formed(def) => judge_definition(alloc, shape, pages, t, def),
        PageForm::Formless => Ok(JudgedPage {
            def: None,
            broken: Some(FIRST_TABLE_PAGE + u32::from(t)),
        }),
    }
}

/// Judges what stands on a table page: where it is a definition, its roots are pages of index extents.
fn judge_definition<P: Pages>(
    alloc: Global,
    shape: Shape,
    pages: &mut P,
    t: u8,
    def: Option<TableDef>,
) -> Result<JudgedPage, StoreFault>
    requires place { t < 16 }
    requires limits { IsWithinLimits t def }
    requires going { (P.state pages.old).ended ≡ false }
    ensures judged { IfOk result (λ page. IsTrue (P.state pages.old).is_told → (owners : List Kind) → IsMapSound shape (P.state pages.old).work owners
        → IsStoredPlace (P.state pages.old).work t def → JudgesTablePage shape (P.state pages.old).work owners t page) }
    ensures limits { IfOk result (λ page. IsWithinLimits t page.def) }
    ensures same { (P.state pages.new).work ≡ (P.state pages.old).work }
    ensures runs { RunsOverPages P.Pages NoPage AnyPage (Unless P.Pages pages.old (HasOwners shape)) pages.old pages.new (fault_of result) }
{
    let Some(def) = def else {
        return Ok(JudgedPage {
            def: None,
            broken: None,
        });
    };
    if judge_roots(alloc, shape, pages, &def)? {
        return Ok(JudgedPage {
            def: Some(def),
            broken: None,
        });
    }
    Ok(JudgedPage {
        def: Some(def),
        broken: Some(FIRST_TABLE_PAGE + u32::from(t)),
    })
}

/// What stands on the page of a table. Where the page isn't there, it is formless.
fn form_of_page<P: Pages>(alloc: Global, pages: &mut P, t: u8) -> Result<PageForm, StoreFault>
    requires place { t < 16 }
    requires going { (P.state pages.old).ended ≡ false }
    ensures form { IfOk result (λ form. IsTrue (P.state pages.old).is_told → HasForm (P.state pages.old).work t form) }
    ensures limits { IfOk result (IsFormWithinLimits t) }
    ensures same { (P.state pages.new).work ≡ (P.state pages.old).work }
    ensures runs { RunsOverPages P.Pages NoPage (OnlyPage (1 + t)) NoDamage pages.old pages.new (fault_of result) }
{
    let page = FIRST_TABLE_PAGE + u32::from(t);
    if page >= pages.count() {
        return Ok(PageForm::Formless);
    }
    bring(pages, page)?;
    match def_of(alloc, pages.page(), t) {
        Ok(def) => Ok(PageForm::Formed(def)),
        Err(DefFault::Form) => Ok(PageForm::Formless),
        Err(DefFault::Memory) => Err(StoreFault::Memory),
    }
}

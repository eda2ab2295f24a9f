// Rule 2: the extent map.
ghost use Rattle.std.specs.Prelude.{◌≡◌, ◌≤◌, ◌↔◌, length, false, IfOk, IsTrue, List};
ghost use Rattle.store_api.specs.Causes.{NoDamage, fault_of};
ghost use Rattle.store_api.specs.Frame.{NoPage};
ghost use Rattle.store_api.specs.RunsOverPages.{RunsOverPages};
ghost use Rattle.store_api.specs.StoreState.{zero_page};
ghost use Rattle.extent_map.specs.declared.kind.Kind.{Kind};
ghost use Rattle.mdc_sound.specs.SpaceRules.{IsMapSound, IsRootSound};
ghost use Rattle.file_check.specs.Judging.{JudgesRule};
ghost use Rattle.file_check.specs.Looking.{AnyPage, Unless};
ghost use Rattle.file_check.specs.MapPagesJudged.{TellTables};

use crate::map_pages::is_map_page_sound;
use extent_map::first_page;
use store_api::layout::{FIRST_MAP_PAGE, FIRST_TABLE_PAGE, ROOT_PAGE, TABLE_PLACES};
use store_api::rules::ROOT_PAGE_RULE;
use store_api::{Damage, Page, Pages, Shape, StoreFault, blank_page, bring};

/// There are fewer pages than stand before the extents.
const TOO_FEW_PAGES: Damage = Damage {
    page: ROOT_PAGE,
    rule: ROOT_PAGE_RULE,
};

/// Judges the extent map: None where each of its pages has an entry of its form for each extent, blocks are those of tables that
/// are there, and extents in use lie within the count; else the lowest of its pages that doesn't.
pub(crate) fn judge_extents<P: Pages>(
    shape: Shape,
    pages: &mut P,
) -> Result<Option<u32>, StoreFault>
    requires going { (P.state pages.old).ended ≡ false }
    ensures judged { IfOk result (λ found. IsTrue (P.state pages.old).is_told → IsRootSound shape (P.state pages.old).work
        → JudgesRule shape (P.state pages.old).work 2 ((owners : List Kind) × IsMapSound shape (P.state pages.old).work owners) found) }
    ensures same { (P.state pages.new).work ≡ (P.state pages.old).work }
    ensures runs { RunsOverPages P.Pages NoPage AnyPage (Unless P.Pages pages.old (IsRootSound shape)) pages.old pages.new (fault_of result) }
{
    let count = pages.count();
    let end = first_page(shape, 0);
    if count < end {
        return Err(StoreFault::Damaged(TOO_FEW_PAGES));
    }
    let tables = tables_there(pages)?;
    for p in FIRST_MAP_PAGE..end {
        bring(pages, p)?;
        if !is_map_page_sound(shape, pages.page(), p - FIRST_MAP_PAGE, count, &tables) {
            return Ok(Some(p));
        }
    }
    Ok(None)
}

/// Whether each table is there: its page has more than zeros.
fn tables_there<P: Pages>(pages: &mut P) -> Result<[bool; TABLE_PLACES as usize], StoreFault>
    requires going { (P.state pages.old).ended ≡ false }
    requires there { 17 ≤ length (P.state pages.old).work }
    ensures told { IfOk result (λ tables. IsTrue (P.state pages.old).is_told → TellTables (P.state pages.old).work tables) }
    ensures same { (P.state pages.new).work ≡ (P.state pages.old).work }
    ensures runs { RunsOverPages P.Pages NoPage AnyPage NoDamage pages.old pages.new (fault_of result) }
{
    let mut tables = [false; TABLE_PLACES as usize];
    for t in 0..TABLE_PLACES as usize {
        bring(pages, FIRST_TABLE_PAGE + t as u32)?;
        tables[t] = !is_blank(pages.page());
    }
    Ok(tables)
}

/// Whether a page has zeros alone.
fn is_blank(page: &Page) -> bool
    ensures { IsTrue result ↔ (page.now ≡ zero_page) }
{
    page[..] == blank_page()[..]
}

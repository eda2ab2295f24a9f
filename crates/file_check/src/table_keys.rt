// Row numbers and unique keys of one table.
ghost use Rattle.std.specs.Prelude.{◌≡◌, ◌↔◌, map, false, IfOk, IsTrue};
ghost use Rattle.std.specs.List.{AllByRecursion};
ghost use Rattle.store_api.specs.Causes.{fault_of};
ghost use Rattle.store_api.specs.Frame.{NoPage};
ghost use Rattle.store_api.specs.RunsOverPages.{RunsOverPages};
ghost use Rattle.row_page.specs.Row.{AreRowColumns};
ghost use Rattle.key_codec.specs.Keys.{ArePartsOf};
ghost use Rattle.mdc_sound.specs.BlockRules.{IsUniqueSound};
ghost use Rattle.file_check.specs.Judging.{Judges};
ghost use Rattle.file_check.specs.KeysJudged.{AreKeysOf, AreNumbersOf, AreTableKeys, BreaksTableKeys, TellsRows, WhereRows};
ghost use Rattle.file_check.specs.Looking.{AnyPage, Unless};

use crate::blocks::blocks_in_state;
use crate::differing::{are_apart_below, do_keys_differ};
use crate::row_keys::push_keys;
use crate::rows::rows_of_block;
use block_map::BlockState;
use mdc_ast::{IndexDef, TableDef};
use std::alloc::Global;
use store_api::layout::FIRST_TABLE_PAGE;
use store_api::{Pages, Shape, StoreFault};

/// Judges the numbers of a table's rows, which were gathered, and its unique keys: its page, where they aren't sound. It sorts the
/// numbers.
pub(crate) fn judge_keys_of_table<P: Pages>(
    alloc: Global,
    shape: Shape,
    pages: &mut P,
    def: &TableDef,
    numbers: &mut Vec<u64>,
) -> Result<Option<u32>, StoreFault>
    requires columns { AreRowColumns def.now.columns }
    requires parts { AllByRecursion (λ index. ArePartsOf def.now.columns index.parts) def.now.indexes }
    requires going { (P.state pages.old).ended ≡ false }
    ensures judged { IfOk result (λ here. WhereRows (P.state pages.old) shape def.now (λ rows. AreNumbersOf numbers.old.items rows → Judges (AreTableKeys def.now rows) (BreaksTableKeys def.now rows) here)) }
    ensures same { (P.state pages.new).work ≡ (P.state pages.old).work }
    ensures runs { RunsOverPages P.Pages NoPage AnyPage (Unless P.Pages pages.old (TellsRows shape def.now)) pages.old pages.new (fault_of result) }
{
    let page = FIRST_TABLE_PAGE + u32::from(def.number);
    if !are_apart_below(def.next, numbers)? {
        return Ok(Some(page));
    }
    for index in def.indexes.as_slice() {
        if !is_unique(alloc, shape, pages, def, index)? {
            return Ok(Some(page));
        }
    }
    Ok(None)
}

/// Whether no two rows have equal keys in an index, if it is UNIQUE.
fn is_unique<P: Pages>(
    alloc: Global,
    shape: Shape,
    pages: &mut P,
    def: &TableDef,
    index: &IndexDef,
) -> Result<bool, StoreFault>
    requires columns { AreRowColumns def.now.columns }
    requires parts { ArePartsOf def.now.columns index.now.parts }
    requires going { (P.state pages.old).ended ≡ false }
    ensures judged { IfOk result (λ unique. WhereRows (P.state pages.old) shape def.now (λ rows. IsTrue unique ↔ IsUniqueSound rows index.now)) }
    ensures same { (P.state pages.new).work ≡ (P.state pages.old).work }
    ensures runs { RunsOverPages P.Pages NoPage AnyPage (Unless P.Pages pages.old (TellsRows shape def.now)) pages.old pages.new (fault_of result) }
{
    if !index.unique {
        return Ok(true);
    }
    let mut keys = keys_of_table(alloc, shape, pages, def, index)?;
    do_keys_differ(&mut keys)
}

/// The keys of all rows of a table in an index.
fn keys_of_table<P: Pages>(
    alloc: Global,
    shape: Shape,
    pages: &mut P,
    def: &TableDef,
    index: &IndexDef,
) -> Result<Vec<Vec<u8>>, StoreFault>
    requires columns { AreRowColumns def.now.columns }
    requires parts { ArePartsOf def.now.columns index.now.parts }
    requires going { (P.state pages.old).ended ≡ false }
    ensures keys { IfOk result (λ keys. WhereRows (P.state pages.old) shape def.now (AreKeysOf def.now.columns index.now.parts (map (λ key. key.items) keys.items))) }
    ensures same { (P.state pages.new).work ≡ (P.state pages.old).work }
    ensures runs { RunsOverPages P.Pages NoPage AnyPage (Unless P.Pages pages.old (TellsRows shape def.now)) pages.old pages.new (fault_of result) }
{
    let blocks = blocks_in_state(alloc, shape, pages, def, BlockState::Used)?;
    let mut keys = Vec::new(alloc);
    for block in blocks.as_slice() {
        let rows = rows_of_block(alloc, shape, pages, def, *block)?;
        push_keys(alloc, &def.columns, &index.parts, &rows, &mut keys)?;
    }
    Ok(keys)
}

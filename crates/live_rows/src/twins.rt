// A row in a Used block with the key of given values.
ghost use Rattle.std.specs.Prelude.{◌≡◌, ◌<◌, false, length, IfOk};
ghost use Rattle.store_api.specs.Causes.{fault_of};
ghost use Rattle.store_api.specs.Frame.{NoPage};
ghost use Rattle.store_api.specs.RunsOverPages.{RunsOverPages};
ghost use Rattle.store_api.specs.declared.shape.Shape.{Shape};
ghost use Rattle.extent_map.specs.declared.kind.Kind.{Kind};
ghost use Rattle.entry_tree.specs.Forest.{Forest, leaf_entries};
ghost use Rattle.table_trees.specs.TableTrees.{map_place};
ghost use Rattle.table_trees.specs.TreesBeside.{HoldsTreeAt};
ghost use Rattle.mdc_sound.specs.BlockRules.{AreTableIndexesSound};
ghost use Rattle.mdc_sound.specs.StandingTable.{StandsTable, TableForests, pages_of, view_of};
ghost use Rattle.mdc_sound.specs.TableRows.{rows_in_table};
ghost use Rattle.record_index.specs.RecordIndexes.{HasRecordIndexes, HaveKeysIn, key_in_record_index, parts_of_record_index, place_of_record_index};
ghost use Rattle.live_rows.specs.LiveRids.{HasMapForm};
ghost use Rattle.live_rows.specs.Twins.{BreaksLook, FindsLiveTwin, FindsTwin, IsLookPage};

use crate::among::is_among;
use crate::blocks::see_block;
use crate::places::{first_place, next_block, next_place};
use block_map::BlockMap;
use mdc_ast::TableDef;
use mdc_values::{List, Rid, Rids, Value};
use record_index::rid_under;
use std::alloc::Global;
use store_api::{Pages, StoreFault};

/// A place, outside some, of a row of a Used block that has the key of these values in a record index. None where there is none. Of
/// each block that has entries of the key it asks the block map once at most, and it ends at the first that is found.
pub fn live_twin<P: Pages>(
    alloc: Global,
    def: &TableDef,
    index: u8,
    pages: &mut P,
    values: &List<Value>,
    but: &Rids,
) -> Result<Option<Rid>, StoreFault>
    requires indexes { HasRecordIndexes def.now }
    requires there { index < length def.now.indexes }
    requires values { HaveKeysIn def.now.columns (parts_of_record_index def.now index) values.now }
    requires going { (P.state pages.old).ended ≡ false }
    ensures named { IfOk result (λ twin. (entries map : Forest) → HoldsTreeAt P.Pages pages.old (place_of_record_index def.now index) entries → HoldsTreeAt P.Pages pages.old (map_place def.now) map → HasMapForm map
        → FindsLiveTwin (key_in_record_index def.now index values.now) (leaf_entries entries) map but.now twin) }
    ensures twin { IfOk result (λ twin. (shape : Shape) (owners : List Kind) (forests : TableForests) → StandsTable P.Pages shape pages.old def.now owners forests
        → AreTableIndexesSound shape (pages_of P.Pages pages.old) (view_of def.now forests)
        → FindsTwin def.now index (rows_in_table shape (pages_of P.Pages pages.old) def.now forests.map) values.now but.now twin) }
    ensures same { (P.state pages.new).work ≡ (P.state pages.old).work }
    ensures runs { RunsOverPages P.Pages NoPage (IsLookPage P.Pages pages.old def.now index) (BreaksLook P.Pages pages.old def.now index) pages.old pages.new (fault_of result) }
{
    find_live_twin(alloc, def, index, pages, values, but)
}

/// A place in a Used block, outside some, that a record index has under the key of these values.
fn find_live_twin<P: Pages>(
    alloc: Global,
    def: &TableDef,
    index: u8,
    pages: &mut P,
    values: &List<Value>,
    but: &Rids,
) -> Result<Option<Rid>, StoreFault>
    requires indexes { HasRecordIndexes def.now }
    requires there { index < length def.now.indexes }
    requires values { HaveKeysIn def.now.columns (parts_of_record_index def.now index) values.now }
    requires going { (P.state pages.old).ended ≡ false }
    ensures named { IfOk result (λ twin. (entries map : Forest) → HoldsTreeAt P.Pages pages.old (place_of_record_index def.now index) entries → HoldsTreeAt P.Pages pages.old (map_place def.now) map → HasMapForm map
        → FindsLiveTwin (key_in_record_index def.now index values.now) (leaf_entries entries) map but.now twin) }
    ensures same { (P.state pages.new).work ≡ (P.state pages.old).work }
    ensures runs { RunsOverPages P.Pages NoPage (IsLookPage P.Pages pages.old def.now index) (BreaksLook P.Pages pages.old def.now index) pages.old pages.new (fault_of result) }
{
    let map = BlockMap::at(alloc, def.roots.map);
    let mut from = first_place();
    'finding: loop {
        let Some(rid) = rid_under(alloc, def, index, pages, values, from)? else {
            return Ok(None);
        };
        if is_among(but.as_slice(), rid) {
            let Some(next) = next_place(rid) else {
                return Ok(None);
            };
            from = next;
            continue;
        }
        let seen = see_block(&map, pages, rid.block)?;
        if seen.is_used {
            return Ok(Some(rid));
        }
        let Some(next) = next_block(rid) else {
            return Ok(None);
        };
        from = next;
    }
}

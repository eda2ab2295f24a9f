// The first UNIQUE index in which two rows would have equal keys.
ghost use Rattle.std.specs.Prelude.{◌≡◌, ◌<◌, ◌++◌, false, filter, flat_map, length, map, option_map, Contains, IfOk, IfSome, IsTrue, List};
ghost use Rattle.std.specs.List.{AllByRecursion, list_any};
ghost use Rattle.mdc_values.specs.declared.value.Value.{Value};
ghost use Rattle.mdc_ast.specs.Database.{fits_all};
ghost use Rattle.mdc_ast.specs.TableLimits.{IsTableDef};
ghost use Rattle.statement_meaning.specs.Cause.{DuplicateKey};
ghost use Rattle.statement_meaning.specs.Doing.{twin_causes};
ghost use Rattle.statement_meaning.specs.Keys as spec;
ghost use Rattle.binder.specs.Saying.{first_of};
ghost use Rattle.store_api.specs.Causes.{fault_of};
ghost use Rattle.store_api.specs.Frame.{NoPage};
ghost use Rattle.store_api.specs.RunsOverPages.{RunsOverPages};
ghost use Rattle.store_api.specs.declared.shape.Shape.{Shape};
ghost use Rattle.extent_map.specs.declared.kind.Kind.{Kind};
ghost use Rattle.mdc_sound.specs.BlockRules.{AreTableIndexesSound, AreTableKeysSound};
ghost use Rattle.mdc_sound.specs.StandingTable.{StandsTable, TableForests, pages_of, view_of};
ghost use Rattle.mdc_sound.specs.TableRows.{rows_in_table};
ghost use Rattle.record_index.specs.RecordIndexes.{parts_of_record_index};
ghost use Rattle.live_rows.specs.Twins.{BreaksLook, IsLookPage};
ghost use Rattle.unique_keys.specs.Clashes.{AreStaying, BreaksClash, IsClashPage, StayInTable};

use live_rows::live_twin;
use mdc_ast::{KeyPart, Name, TableDef};
use mdc_values::{List, Memory, Rids, Value};
use row_checks::have_twins;
use std::alloc::Global;
use store_api::{Pages, StoreFault};

/// The first UNIQUE index of a table in which two rows have equal keys, once the rows in some places went and rows of these values
/// came. Rows that stay have keys of their own, so that each index is asked for the rows that come alone, once for each at most.
pub fn first_clash<'d, P: Pages>(
    alloc: Global,
    def: &'d TableDef,
    pages: &mut P,
    come: &[&List<Value>],
    but: &Rids,
) -> Result<Option<&'d Name>, StoreFault>
    requires defined { IsTableDef def.now.number def.now }
    requires fit { AllByRecursion (λ values. IsTrue (fits_all def.now.columns values)) (map (λ values. values.now) come.now) }
    requires going { (P.state pages.old).ended ≡ false }
    ensures clash { IfOk result (λ found. (shape : Shape) (owners : List Kind) (forests : TableForests) → StandsTable P.Pages shape pages.old def.now owners forests
        → AreTableIndexesSound shape (pages_of P.Pages pages.old) (view_of def.now forests) → AreTableKeysSound shape (pages_of P.Pages pages.old) (view_of def.now forests)
        → (stay : List (List Value)) → AreStaying (rows_in_table shape (pages_of P.Pages pages.old) def.now forests.map) but.now stay
        → first_of (flat_map (twin_causes (stay ++ map (λ values. values.now) come.now)) def.now.indexes) ≡ option_map (λ name. DuplicateKey name.now) found) }
    ensures named { IfOk result (λ found. IfSome found (λ name. Contains (map (λ index. index.name) (filter (λ index. index.unique) def.now.indexes)) name.now)) }
    ensures same { (P.state pages.new).work ≡ (P.state pages.old).work }
    ensures runs { RunsOverPages P.Pages NoPage (IsClashPage P.Pages pages.old def.now) (BreaksClash P.Pages pages.old def.now) pages.old pages.new (fault_of result) }
{
    for (place, index) in def.indexes.as_slice().iter().enumerate() {
        if !index.unique {
            continue;
        }
        let parts = index.parts.as_slice();
        if clashes_in(alloc, def, place as u8, parts, pages, come, but)? {
            return Ok(Some(&index.name));
        }
    }
    Ok(None)
}

/// Whether two of the rows that come have equal keys in a record index, or one of them has that of a row that stays.
fn clashes_in<P: Pages>(
    alloc: Global,
    def: &TableDef,
    index: u8,
    parts: &[KeyPart],
    pages: &mut P,
    come: &[&List<Value>],
    but: &Rids,
) -> Result<bool, StoreFault>
    requires defined { IsTableDef def.now.number def.now }
    requires there { index < length def.now.indexes }
    requires parts { parts.now ≡ parts_of_record_index def.now index }
    requires fit { AllByRecursion (λ values. IsTrue (fits_all def.now.columns values)) (map (λ values. values.now) come.now) }
    requires going { (P.state pages.old).ended ≡ false }
    ensures clash { IfOk result (λ found. (stay : List (List Value)) → StayInTable P.Pages pages.old def.now but.now stay → spec.have_twins parts.now stay ≡ false
        → spec.have_twins parts.now (stay ++ map (λ values. values.now) come.now) ≡ found) }
    ensures same { (P.state pages.new).work ≡ (P.state pages.old).work }
    ensures runs { RunsOverPages P.Pages NoPage (IsLookPage P.Pages pages.old def.now index) (BreaksLook P.Pages pages.old def.now index) pages.old pages.new (fault_of result) }
{
    if are_twins_among(alloc, parts, come)? {
        return Ok(true);
    }
    has_live_twin(alloc, def, index, pages, come, but)
}

/// Whether two of these rows have equal keys.
fn are_twins_among(alloc: Global, parts: &[KeyPart], come: &[&List<Value>]) -> Result<bool, Memory>
    ensures { IfOk result (λ found. found ≡ spec.have_twins parts.now (map (λ values. values.now) come.now)) }
{
    // Most INSERTs bring one row.
    if come.len() < 2 {
        return Ok(false);
    }
    let mut lent = Vec::with_capacity(alloc, come.len())?;
    for values in come {
        lent.push(values.as_slice())?;
    }
    have_twins(alloc, parts, lent.as_slice())
}

/// Whether one of these rows has the key of a row of a Used block, outside some places.
fn has_live_twin<P: Pages>(
    alloc: Global,
    def: &TableDef,
    index: u8,
    pages: &mut P,
    come: &[&List<Value>],
    but: &Rids,
) -> Result<bool, StoreFault>
    requires defined { IsTableDef def.now.number def.now }
    requires there { index < length def.now.indexes }
    requires fit { AllByRecursion (λ values. IsTrue (fits_all def.now.columns values)) (map (λ values. values.now) come.now) }
    requires going { (P.state pages.old).ended ≡ false }
    ensures twin { IfOk result (λ found. (stay : List (List Value)) → StayInTable P.Pages pages.old def.now but.now stay
        → list_any (spec.has_twin (parts_of_record_index def.now index) stay) (map (λ values. values.now) come.now) ≡ found) }
    ensures same { (P.state pages.new).work ≡ (P.state pages.old).work }
    ensures runs { RunsOverPages P.Pages NoPage (IsLookPage P.Pages pages.old def.now index) (BreaksLook P.Pages pages.old def.now index) pages.old pages.new (fault_of result) }
{
    for values in come {
        if live_twin(alloc, def, index, pages, values, but)?.is_some() {
            return Ok(true);
        }
    }
    Ok(false)
}

// Whether new rows of a table, or rows that become others, would have equal keys in a UNIQUE index.
ghost use Rattle.std.specs.Prelude.{◌≡◌, ◌++◌, ◌↔◌, [], Contains, IsTrue, List, false, flat_map, map, option_map, IfErr, IfOk};
ghost use Rattle.std.specs.List.{AllByRecursion, list_any};
ghost use Rattle.mdc_values.specs.declared.rid.Rid.{Rid};
ghost use Rattle.mdc_values.specs.declared.value.Value.{Value};
ghost use Rattle.mdc_ast.specs.Database.{fits_all};
ghost use Rattle.mdc_ast.specs.TableLimits.{IsTableDef};
ghost use Rattle.statement_meaning.specs.Cause.{DuplicateKey, refusal_of};
ghost use Rattle.statement_meaning.specs.Doing.{twin_causes};
ghost use Rattle.store_api.specs.Causes.{store_fault_in};
ghost use Rattle.store_api.specs.Frame.{NoPage};
ghost use Rattle.store_api.specs.RunsOverPages.{RunsOverPages};
ghost use Rattle.store_api.specs.declared.shape.Shape.{Shape};
ghost use Rattle.extent_map.specs.Damages.{IfFull, store_part_of};
ghost use Rattle.extent_map.specs.declared.kind.Kind.{Kind};
ghost use Rattle.mdc_sound.specs.BlockRules.{AreTableIndexesSound, AreTableKeysSound};
ghost use Rattle.mdc_sound.specs.StandingTable.{StandsTable, TableForests, pages_of, view_of};
ghost use Rattle.mdc_sound.specs.TableRows.{rows_in_table};
ghost use Rattle.unique_keys.specs.Clashes.{AreStaying, BreaksClash, IsClashPage};
ghost use Rattle.script_engine.specs.Inserting.{first_refusal};

use extent_map::SpaceFault;
use mdc_ast::{Name, Refusal, TableDef};
use mdc_values::{List, Memory, Rids, Value};
use row_checks::duplicate_key;
use statement_rows::Turned;
use std::alloc::Global;
use store_api::{Pages, StoreFault};
use unique_keys::{first_clash, rising_places};

/// The refusal of tuples that would go into a table, where two rows would have equal keys.
pub(crate) fn judge_new<P: Pages>(
    alloc: Global,
    def: &TableDef,
    pages: &mut P,
    tuples: &[List<Value>],
) -> Result<Option<Refusal>, SpaceFault>
    requires defined { IsTableDef def.now.number def.now }
    requires fit { AllByRecursion (λ values. IsTrue (fits_all def.now.columns values)) tuples.now }
    requires going { (P.state pages.old).ended ≡ false }
    ensures judges { IfOk result (λ refusal. (shape : Shape) (owners : List Kind) (forests : TableForests) → StandsTable P.Pages shape pages.old def.now owners forests
        → AreTableIndexesSound shape (pages_of P.Pages pages.old) (view_of def.now forests) → AreTableKeysSound shape (pages_of P.Pages pages.old) (view_of def.now forests)
        → (stay : List (List Value)) → AreStaying (rows_in_table shape (pages_of P.Pages pages.old) def.now forests.map) [] stay
        → first_refusal (flat_map (twin_causes (stay ++ tuples.now)) def.now.indexes) ≡ refusal) }
    ensures same { (P.state pages.new).work ≡ (P.state pages.old).work }
    ensures not_full { IfErr result (λ fault. IfFull fault (λ cap. ⊥)) }
    ensures runs { RunsOverPages P.Pages NoPage (IsClashPage P.Pages pages.old def.now) (BreaksClash P.Pages pages.old def.now) pages.old pages.new (store_fault_in store_part_of result) }
{
    if !has_unique(def) {
        return Ok(None);
    }
    let come = tuples_lent(alloc, tuples)?;
    let clash = first_clash(alloc, def, pages, come.as_slice(), &Rids::new(alloc))?;
    refusal(alloc, clash)
}

/// The refusal of rows that would become others, where two rows would have equal keys.
pub(crate) fn judge_turned<P: Pages>(
    alloc: Global,
    def: &TableDef,
    pages: &mut P,
    turned: &[Turned],
) -> Result<Option<Refusal>, SpaceFault>
    requires defined { IsTableDef def.now.number def.now }
    requires fit { AllByRecursion (λ values. IsTrue (fits_all def.now.columns values)) (map (λ one. one.row.values) turned.now) }
    requires going { (P.state pages.old).ended ≡ false }
    ensures judges { IfOk result (λ refusal. (shape : Shape) (owners : List Kind) (forests : TableForests) → StandsTable P.Pages shape pages.old def.now owners forests
        → AreTableIndexesSound shape (pages_of P.Pages pages.old) (view_of def.now forests) → AreTableKeysSound shape (pages_of P.Pages pages.old) (view_of def.now forests)
        → (stay : List (List Value)) → AreStaying (rows_in_table shape (pages_of P.Pages pages.old) def.now forests.map) (map (λ one. one.hit.rid) turned.now) stay
        → first_refusal (flat_map (twin_causes (stay ++ map (λ one. one.row.values) turned.now)) def.now.indexes) ≡ refusal) }
    ensures same { (P.state pages.new).work ≡ (P.state pages.old).work }
    ensures not_full { IfErr result (λ fault. IfFull fault (λ cap. ⊥)) }
    ensures runs { RunsOverPages P.Pages NoPage (IsClashPage P.Pages pages.old def.now) (BreaksClash P.Pages pages.old def.now) pages.old pages.new (store_fault_in store_part_of result) }
{
    if !has_unique(def) {
        return Ok(None);
    }
    let left = places_left(alloc, turned)?;
    let come = rows_lent(alloc, turned)?;
    let clash = first_clash(alloc, def, pages, come.as_slice(), &left)?;
    refusal(alloc, clash)
}

/// The tuples, each lent.
fn tuples_lent<'t>(alloc: Global, tuples: &'t [List<Value>]) -> Result<Vec<&'t List<Value>>, Memory>
    ensures { IfOk result (λ lent. map (λ values. values.now) lent.items ≡ tuples.now) }
{
    let mut lent = Vec::with_capacity(alloc, tuples.len())?;
    for tuple in tuples {
        lent.push(tuple)?;
    }
    Ok(lent)
}

/// The values of the rows that others become, each lent.
fn rows_lent<'t>(alloc: Global, turned: &'t [Turned]) -> Result<Vec<&'t List<Value>>, Memory>
    ensures { IfOk result (λ lent. map (λ values. values.now) lent.items ≡ map (λ one. one.row.values) turned.now) }
{
    let mut lent = Vec::with_capacity(alloc, turned.len())?;
    for one in turned {
        lent.push(&one.row.values)?;
    }
    Ok(lent)
}

/// The places of rows that become others, which they may leave.
fn places_left(alloc: Global, turned: &[Turned]) -> Result<Rids, Memory>
    ensures members { IfOk result (λ places. (rid : Rid) → Contains places rid ↔ Contains (map (λ one. one.hit.rid) turned.now) rid) }
{
    let mut rids = Vec::with_capacity(alloc, turned.len())?;
    for one in turned {
        rids.push(one.hit.rid)?;
    }
    rising_places(alloc, rids)
}

/// Whether a table has a UNIQUE index.
fn has_unique(def: &TableDef) -> bool
    ensures { result ≡ list_any (λ index. index.unique) def.now.indexes }
{
    def.indexes.as_slice().iter().any(|index| index.unique)
}

/// What is said of the index in which two rows would have equal keys.
fn refusal(alloc: Global, clash: Option<&Name>) -> Result<Option<Refusal>, SpaceFault>
    ensures said { IfOk result (λ refusal. refusal ≡ option_map (λ name. refusal_of (DuplicateKey name.now)) clash.entry) }
    ensures memory { IfErr result (λ fault. fault ≡ SpaceFault.Store StoreFault.Memory) }
{
    match clash {
        Some(name) => Ok(Some(duplicate_key(alloc, name)?)),
        None => Ok(None),
    }
}

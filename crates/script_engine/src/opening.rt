// An engine on the pages of a store, as they are at its opening.
ghost use Rattle.std.specs.Prelude.{◌≡◌, ◌<◌, false, true, is_none, IsTrue, IfErr, IfOk, List, MatchOption, MatchResult, None, Some};
ghost use Rattle.std.specs.List.{list_all};
ghost use Rattle.mdc_words.specs.Faults.{CountsFault};
ghost use Rattle.store_api.specs.Fetching.{BringsOnly};
ghost use Rattle.store_api.specs.Works.{Rests};
ghost use Rattle.store_api.specs.declared.fault.Damage.{Damage};
ghost use Rattle.extent_map.specs.Owners.{AreRightNotes};
ghost use Rattle.extent_map.specs.declared.kind.Kind.{Kind};
ghost use Rattle.mdc_sound.specs.SoundDatabase.{IsSoundDatabase};
ghost use Rattle.statement_rows.specs.RowsOfStatement.{AnyPage};
ghost use Rattle.stored_catalog.specs.StoredDefinitions.{AreStored, AreWithinLimits, IsAnyTablePage};
ghost use Rattle.script_engine.specs.Breaking.{IsExactDamage};
ghost use Rattle.script_engine.specs.NotedRooms.{AreForgotten};
ghost use Rattle.script_engine.specs.OnAnyPages.{IsGoingEngine};
ghost use Rattle.script_engine.specs.Opening.{IsSoundStore, KeepsPages};
ghost use Rattle.statement_meaning.specs.Built.{are_built, is_built_place};
ghost use Rattle.statement_meaning.specs.Session.{first_settings};
ghost use Rattle.script_engine.specs.Serving.{IsReadyEngine, MayCall};
ghost use Rattle.script_engine.specs.Turns.{IsServedByForms};

use crate::damage::load_exactly;
use crate::engine::Engine;
use crate::table_rooms::TableRooms;
use crate::tables::Tables;
use catalog::Catalog;
use extent_map::SpaceNotes;
use mdc_ast::{ColumnDef, TableDef};
use statement_meaning::{Pass, Settings};
use std::alloc::Global;
use store_api::layout::TABLE_PLACES;
use store_api::{Shape, Store, StoreFault};

/// Why no engine was opened, and the store.
#[derive(Drop)]
pub struct Stopped<S: Store> {
    pub stop: StoreFault,
    pub store: S,
}

impl<S: Store> Engine<S> {
    /// An engine on a store, whose extents are of this shape, with the definitions of its table pages, and no other page comes to hand for
    /// them, nor where it stops over sound pages. No page is changed. `Damaged` names the first rule that the pages break, with the lowest page that breaks it.
    pub fn open(alloc: Global, store: S, shape: Shape) -> Result<Engine<S>, Stopped<S>>
        requires going { (S.state store).ended ≡ false }
        requires unmarked { (S.state store).marked ≡ None }
        ensures may { IfOk result (λ engine. MayCall S.Pages engine) }
        ensures ready { IfOk result (λ engine. IsSoundStore S.Pages shape store → IsReadyEngine S.Pages engine) }
        ensures opened { IfOk result (λ engine. (S.state store).base ≡ (S.state store).work → IsGoingEngine S.Pages engine) }
        ensures stored { IfOk result (λ engine. IsTrue (S.state store).is_told → AreStored (S.state store).work engine.tables.catalog) }
        ensures built { IfOk result (λ engine. IsServedByForms engine) }
        ensures closed { IfOk result (λ engine. engine.is_open ≡ false) }
        ensures settings { IfOk result (λ engine. engine.tables.settings ≡ first_settings) }
        ensures pass { IfOk result (λ engine. engine.pass ≡ Pass.Idle) }
        ensures shape { IfOk result (λ engine. engine.tables.shape ≡ shape) }
        ensures pages { MatchResult result (λ engine. KeepsPages S.Pages store engine.store) (λ stopped. KeepsPages S.Pages store stopped.store) }
        ensures brings { MatchResult result (λ engine. BringsOnly S.Pages IsAnyTablePage store engine.store)
            (λ stopped. IsTrue (S.state store).is_told → IsSoundDatabase shape (S.state store).work → BringsOnly S.Pages IsAnyTablePage store stopped.store) }
        ensures log { MatchResult result (λ engine. BringsOnly S.Pages AnyPage store engine.store) (λ stopped. BringsOnly S.Pages AnyPage store stopped.store) }
        ensures ended { IfErr result (λ stopped. (S.state stopped.store).ended ≡ (S.state store).ended) }
        ensures disk_faults { IfOk result (λ engine. S.disk_faults engine.store ≡ S.disk_faults store) }
        ensures device { IfErr result (λ stopped. CountsFault (stopped.stop ≡ StoreFault.Device) (S.disk_faults store) (S.disk_faults stopped.store)) }
        ensures damaged { IfErr result (λ stopped. (damage : Damage) → stopped.stop ≡ StoreFault.Damaged damage → IsTrue (S.state store).is_told → IsSoundDatabase shape (S.state store).work → ⊥) }
        ensures breaks { IfErr result (λ stopped. (damage : Damage) → stopped.stop ≡ StoreFault.Damaged damage → IsExactDamage S.Pages shape store damage) }
        ensures rests { MatchResult result (λ engine. Rests S.Pages store → Rests S.Pages engine.store) (λ stopped. Rests S.Pages store → Rests S.Pages stopped.store) }
    {
        let mut store = store;
        match load_exactly(alloc, shape, &mut store) {
            Ok(catalog) => Ok(engine_on(alloc, store, shape, catalog)),
            Err(stop) => Err(Stopped { stop, store }),
        }
    }
}

/// An engine on a store whose catalog is this.
fn engine_on<S: Store>(alloc: Global, store: S, shape: Shape, catalog: Catalog) -> Engine<S>
    requires limits { AreWithinLimits catalog }
    ensures is { result ≡ record { store = store; tables = result.tables; served = are_built catalog; is_open = false; pass = Pass.Idle } }
    ensures catalog { result.tables.catalog ≡ catalog }
    ensures shape { result.tables.shape ≡ shape }
    ensures settings { result.tables.settings ≡ first_settings }
    ensures notes { (owners : List Kind) → AreRightNotes result.tables.shape result.tables.notes owners }
    ensures rooms { AreForgotten result.tables.rooms }
{
    let served = are_served(&catalog);
    let tables = Tables {
        alloc,
        shape,
        notes: SpaceNotes::new(),
        catalog,
        rooms: TableRooms::new(alloc),
        settings: Settings::first(),
    };
    Engine {
        store,
        tables,
        served,
        is_open: false,
        pass: Pass::Idle,
    }
}

/// Whether no table has a generated column.
pub(crate) fn are_served(catalog: &Catalog) -> bool
    requires limits { AreWithinLimits catalog.now }
    ensures { result ≡ are_built catalog.now }
{
    for place in 0..TABLE_PLACES {
        if !is_served(catalog.def(place)) {
            return false;
        }
    }
    true
}

/// Whether a table, where there is one, has no generated column.
fn is_served(def: Option<&TableDef>) -> bool
    ensures { MatchOption def.entry (result ≡ true) (λ def. result ≡ is_built_place (Some def.now)) }
{
    match def {
        Some(def) => has_no_generated(def.columns.as_slice()),
        None => true,
    }
}

/// Whether no column is generated.
fn has_no_generated(columns: &[ColumnDef]) -> bool
    ensures { result ≡ list_all (λ column. is_none column.made) columns.now }
{
    columns.iter().all(|column| column.made.is_none())
}

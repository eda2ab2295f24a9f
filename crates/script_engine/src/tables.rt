// What is kept of a database in memory, beside the pages of its store.
ghost use Rattle.std.specs.Prelude.{◌≡◌};

use crate::table_rooms::TableRooms;
use catalog::Catalog;
use extent_map::SpaceNotes;
use statement_meaning::Settings;
use std::alloc::Global;
use store_api::Shape;

/// The definitions of a database, its shape, the notes of its free space, and those of where rows of each table find room; and what
/// the run is set to, by which statements on them are done.
#[derive(Drop)]
pub struct Tables {
    pub(crate) alloc: Global,
    pub(crate) shape: Shape,
    pub(crate) notes: SpaceNotes,
    pub(crate) catalog: Catalog,
    pub(crate) rooms: TableRooms,
    pub(crate) settings: Settings,
}

impl Tables {
    ghost use Rattle.std.specs.Prelude.{◌≡◌, List};
    ghost use Rattle.extent_map.specs.declared.kind.Kind.{Kind};
    ghost use Rattle.extent_map.specs.Owners.{AreRightNotes};
    ghost use Rattle.script_engine.specs.NotedRooms.{AreForgotten};

    /// Forgets the notes, as whoever goes back to earlier pages has to.
    pub(crate) fn forget(&mut self)
        ensures catalog { self.new.catalog ≡ self.old.catalog }
        ensures shape { self.new.shape ≡ self.old.shape }
        ensures settings { self.new.settings ≡ self.old.settings }
        ensures notes { (owners : List Kind) → AreRightNotes self.new.shape self.new.notes owners }
        ensures rooms { AreForgotten self.new.rooms }
    {
        self.notes.forget();
        self.rooms.forget();
    }
}

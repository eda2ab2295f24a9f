// The notes of where rows of each table find room.
ghost use Rattle.std.specs.Prelude.{◌≡◌, ◌<◌};
ghost use Rattle.free_space.specs.RoomNotes.{IsForgotten, no_note};

use mdc_table::Rooms;
use std::alloc::Global;
use std::array;
use store_api::layout::TABLE_PLACES;

/// How many places for tables there are.
const PLACES: usize = TABLE_PLACES as usize;

/// For the table in each of the 16 places, the notes of where its rows find room.
#[derive(Debug, Drop)]
pub(crate) struct TableRooms {
    pub(crate) by_table: [Rooms; PLACES],
}

impl TableRooms {
    ghost use Rattle.std.specs.Prelude.{◌≡◌, ◌<◌};
    ghost use Rattle.free_space.specs.RoomNotes.{no_note};
    ghost use Rattle.script_engine.specs.NotedRooms.{AreForgotten, KeepsOtherRooms, rooms_at};

    /// No notes. It takes no memory.
    pub(crate) fn new(alloc: Global) -> TableRooms
        ensures { AreForgotten result }
    {
        TableRooms {
            by_table: array::from_fn(
                |_|
                    ensures { IsForgotten result }
                { Rooms::new(alloc) },
            ),
        }
    }

    /// Forgets the notes of all tables.
    pub(crate) fn forget(&mut self)
        ensures { AreForgotten self.new }
    {
        for table in 0..PLACES {
            self.by_table[table].forget();
        }
    }

    /// Forgets the notes of one table.
    pub(crate) fn forget_table(&mut self, table: u8)
        requires { table < 16 }
        ensures forgotten { (key : _) → rooms_at self.new table key ≡ no_note }
        ensures others { KeepsOtherRooms self.old self.new table }
    {
        self.by_table[table as usize].forget();
    }
}

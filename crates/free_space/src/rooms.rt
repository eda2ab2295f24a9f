// The notes of which block of a cell may be the first with room.
ghost use Rattle.std.specs.Prelude.{◌≡◌, ◌≤◌, IsTrue};
ghost use Rattle.std.specs.HashMap.{hash_map_len};

use std::alloc::Global;
use std::collections::HashMap;

/// The most cells that have a note.
const MOST_CELLS: usize = 4096;

/// What is noted of a cell: no block of it below `first` has room. `is_of_cell` where `first` is known to be a Used block of it.
#[derive(Clone, Copy, Debug, PartialEq, Eq)]
pub struct Room {
    pub first: u32,
    pub is_of_cell: bool,
}

/// For each cell, by its key, what is noted of its room: of 4,096 cells at most. Where the work goes back, by `undo` or
/// `rollback`, the notes have to be forgotten.
#[derive(Debug, Drop)]
pub struct Rooms {
    alloc: Global,
    rooms: HashMap<Vec<u8>, Room>,
    ghost few: { hash_map_len rooms ≤ 4096 },
}

impl Rooms {
    ghost use Rattle.free_space.specs.RoomNotes.{IsForgotten, IsNoted, Lowers, Notes, found_at, note_of, room_of};

    /// No notes. It takes no memory.
    pub fn new(alloc: Global) -> Rooms
        ensures { IsForgotten result }
    {
        Rooms {
            alloc,
            rooms: HashMap::new(alloc),
        }
    }

    /// Forgets all notes.
    pub fn forget(&mut self)
        ensures { IsForgotten self.new }
    {
        self.rooms.clear();
    }

    /// What is noted of a cell. Where nothing is, any block of it may have room.
    pub fn of(&self, key: &[u8]) -> Room
        ensures { note_of result ≡ room_of self.now key.now }
    {
        self.rooms.get(key).copied().unwrap_or(Room {
            first: 0,
            is_of_cell: false,
        })
    }

    /// Notes that the block is a Used one of the cell, and that none of its blocks below has room. All notes may be lost, as where
    /// memory runs out, or a cell more than the most comes.
    pub fn note(&mut self, key: &[u8], block: u32)
        ensures { Notes key.now (found_at block) self.old self.new }
    {
        self.put_or_forget(
            key,
            Room {
                first: block,
                is_of_cell: true,
            },
        );
    }

    /// Notes that a row was taken out of this block of the cell: the block may have room now, and it may be none of the cell any
    /// more. All notes may be lost.
    pub fn lower(&mut self, key: &[u8], block: u32)
        ensures { Lowers key.now block self.old self.new }
    {
        let room = self.of(key);
        if block < room.first || (block == room.first && room.is_of_cell) {
            self.put_or_forget(
                key,
                Room {
                    first: block,
                    is_of_cell: false,
                },
            );
        }
    }

    // Notes this of a cell, or loses all notes.
    fn put_or_forget(&mut self, key: &[u8], room: Room)
        ensures { Notes key.now (note_of room) self.old self.new }
    {
        if !self.put(key, room) {
            self.forget();
        }
    }

    // Notes this of a cell. Whether there was memory and a place for it.
    fn put(&mut self, key: &[u8], room: Room) -> bool
        ensures { IsTrue result → IsNoted key.now (note_of room) self.old self.new }
    {
        if let Some(noted) = self.rooms.get_mut(key) {
            *noted = room;
            return true;
        }
        if self.rooms.len() == MOST_CELLS {
            return false;
        }
        let Ok(key) = Vec::from_slice(self.alloc, key) else {
            return false;
        };
        self.rooms.insert(key, room).is_ok()
    }
}

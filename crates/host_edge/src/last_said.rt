// What was said last.
ghost use Rattle.std.specs.Prelude.{◌≡◌, ◌<◌, ◌≤◌, [], length};

use std::marker::Model;

// How many bytes the line of a stop has at most, with room to spare.
const ROOM: usize = 64;

/// The bytes of the last reply, if they are few enough to be the line of a stop.
#[derive(Drop)]
pub struct LastSaid {
    bytes: [u8; ROOM],
    size: usize,
}

impl Model for LastSaid {
    ghost use Rattle.std.specs.Prelude.{◌≤◌, ℕ, List, take};

    ghost Value = { List ℕ };

    ghost view = { λ said. take said.size said.bytes };

    ghost invariant = { λ said. said.size ≤ 64 };
}

impl LastSaid {
    /// Nothing is said yet.
    pub fn new() -> LastSaid
        ensures { result ≡ [] }
    {
        LastSaid {
            bytes: [0; ROOM],
            size: 0,
        }
    }

    /// Keeps the bytes of a reply, or none where they are too many.
    pub fn keep(&mut self, reply: &[u8])
        ensures short { length reply.now ≤ 64 → self.new ≡ reply.now }
        ensures long { 64 < length reply.now → self.new ≡ [] }
    {
        self.size = 0;
        if reply.len() <= ROOM {
            self.size = reply.len();
            self.bytes[..reply.len()].copy_from_slice(reply);
        }
    }

    /// Lends them.
    pub fn bytes(&self) -> &[u8]
        ensures bytes { result.now ≡ self.now }
        ensures short { length result.now ≤ 64 }
    {
        &self.bytes[..self.size]
    }
}

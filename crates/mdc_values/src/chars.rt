// A text as the list of its bytes.
ghost use Rattle.std.specs.Prelude.{◌≡◌, IfOk};

use crate::Memory;
use std::alloc::Global;
use std::marker::Model;

/// A list of bytes, as a name or a text of SQL. It never changes.
#[derive(Debug, Drop)]
pub struct Chars {
    bytes: Vec<u8>,
}

impl Model for Chars {
    ghost use Rattle.std.specs.Prelude.{List, ℕ};
    ghost use Rattle.std.specs.Coded.{coded_list, coded_ℕ};

    ghost Value = { List ℕ };

    ghost coded = { coded_list coded_ℕ };

    ghost view = { λ chars. chars.bytes.items };
}

impl Chars {
    /// A copy of the bytes.
    pub fn of(alloc: Global, bytes: &[u8]) -> Result<Chars, Memory>
        ensures { IfOk result (λ chars. chars ≡ bytes.now) }
    {
        let bytes = Vec::from_slice(alloc, bytes)?;
        Ok(Chars { bytes })
    }

    /// The bytes of a vector, which are moved and not copied.
    pub fn from_vec(bytes: Vec<u8>) -> Chars
        ensures { result ≡ bytes.items }
    {
        Chars { bytes }
    }

    /// Lends the bytes.
    pub fn bytes(&self) -> &[u8]
        ensures { result.now ≡ self.now }
    {
        &self.bytes
    }
}

// A rising list of slots of a block.
ghost use Rattle.std.specs.Prelude.{◌≡◌, ◌<◌, [], ◌∷◌, ◌++◌, length, slice_get, OnOk, OnErr};
ghost use Rattle.mdc_values.specs.Rising.{IsLower, IsRising, LastIsBefore};

use mdc_values::Memory;
use std::alloc::Global;
use std::marker::Model;

/// Slots of a block by rising number.
#[derive(Debug, Drop)]
pub struct Slots {
    numbers: Vec<u16>,
}

impl Model for Slots {
    ghost use Rattle.std.specs.Prelude.{List, ℕ};
    ghost use Rattle.mdc_values.specs.Rising.{IsLower, IsRising};

    ghost Value = { List ℕ };

    ghost view = { λ list. list.numbers.items };

    ghost invariant = { λ list. IsRising IsLower list.numbers.items };
}

impl Slots {
    /// An empty list. It takes no memory.
    pub fn new(alloc: Global) -> Slots
        ensures { result ≡ [] }
    {
        Slots {
            numbers: Vec::new(alloc),
        }
    }

    pub fn len(&self) -> usize
        ensures { result ≡ length self.now }
    {
        self.numbers.len()
    }

    /// Lends the element at a place, counted from 0.
    pub fn at(&self, i: usize) -> &u16
        requires { i < length self.now }
        ensures { slice_get self.now i ≡ Some result.now }
    {
        &self.numbers[i]
    }

    /// Lends all elements, which rise.
    pub fn as_slice(&self) -> &[u16]
        ensures value { result.now ≡ self.now }
        ensures rising { IsRising IsLower result.now }
    {
        self.numbers.as_slice()
    }

    /// Puts an element last, which stands behind the last so far. After `Memory` the list is as before.
    pub fn push(&mut self, element: u16) -> Result<(), Memory>
        requires { LastIsBefore IsLower element self.old }
        ensures ok { OnOk result (self.new ≡ self.old ++ element ∷ []) }
        ensures err { OnErr result (self.new ≡ self.old) }
    {
        self.numbers.push(element)?;
        Ok(())
    }
}

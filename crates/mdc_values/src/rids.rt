// A rising list of places of rows.
ghost use Rattle.std.specs.Prelude.{◌≡◌, ◌<◌, [], ◌∷◌, ◌++◌, length, slice_get, OnOk, OnErr};
ghost use Rattle.mdc_values.specs.Rising.{IsEarlier, IsRising, LastIsBefore};

use crate::{Memory, Rid};
use std::alloc::Global;
use std::marker::Model;

/// Places of rows by rising block, and in a block by rising slot.
#[derive(Debug, Drop)]
pub struct Rids {
    rids: Vec<Rid>,
}

impl Model for Rids {
    ghost use Rattle.std.specs.Prelude.{List};
    ghost use Rattle.mdc_values.specs.Rising.{IsEarlier, IsRising};
    ghost use Rattle.mdc_values.specs.declared.rid.Rid.{Rid};

    ghost Value = { List Rid };

    ghost view = { λ list. list.rids.items };

    ghost invariant = { λ list. IsRising IsEarlier list.rids.items };
}

impl Rids {
    /// An empty list. It takes no memory.
    pub fn new(alloc: Global) -> Rids
        ensures { result ≡ [] }
    {
        Rids {
            rids: Vec::new(alloc),
        }
    }

    pub fn len(&self) -> usize
        ensures { result ≡ length self.now }
    {
        self.rids.len()
    }

    /// Lends the element at a place, counted from 0.
    pub fn at(&self, i: usize) -> &Rid
        requires { i < length self.now }
        ensures { slice_get self.now i ≡ Some result.now }
    {
        &self.rids[i]
    }

    /// Lends all elements, which rise.
    pub fn as_slice(&self) -> &[Rid]
        ensures value { result.now ≡ self.now }
        ensures rising { IsRising IsEarlier result.now }
    {
        self.rids.as_slice()
    }

    /// Puts an element last, which stands behind the last so far. After `Memory` the list is as before.
    pub fn push(&mut self, element: Rid) -> Result<(), Memory>
        requires { LastIsBefore IsEarlier element self.old }
        ensures ok { OnOk result (self.new ≡ self.old ++ element ∷ []) }
        ensures err { OnErr result (self.new ≡ self.old) }
    {
        self.rids.push(element)?;
        Ok(())
    }
}

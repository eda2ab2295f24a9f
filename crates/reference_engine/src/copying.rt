// Equal values of what a table is made of.
use mdc_ast::{ColumnDef, IndexDef, KeyPart, Name, Roots, Row, TableDef};
use mdc_values::{Chars, List, Memory, Value};
use std::alloc::Global;

/// What can be made once more.
pub trait Copied: Sized + Drop {
    ghost use Rattle.std.specs.Prelude.{◌≡◌, IfOk};

    /// An equal value.
    fn copied(&self, alloc: Global) -> Result<Self, Memory>
        ensures { IfOk result (λ copy. copy ≡ self.now) };
}

impl<T: Copied> Copied for List<T> {
    fn copied(&self, alloc: Global) -> Result<List<T>, Memory> {
        let mut copies = List::new(alloc);
        let items = self.as_slice();
        for item in items {
            copies.push(item.copied(alloc)?)?;
        }
        Ok(copies)
    }
}

impl Copied for u8 {
    fn copied(&self, _alloc: Global) -> Result<u8, Memory> {
        Ok(*self)
    }
}

impl Copied for u32 {
    fn copied(&self, _alloc: Global) -> Result<u32, Memory> {
        Ok(*self)
    }
}

impl Copied for KeyPart {
    fn copied(&self, _alloc: Global) -> Result<KeyPart, Memory> {
        Ok(*self)
    }
}

impl Copied for Name {
    fn copied(&self, alloc: Global) -> Result<Name, Memory> {
        Ok(Name(Chars::of(alloc, self.0.bytes())?))
    }
}

impl Copied for Value {
    fn copied(&self, alloc: Global) -> Result<Value, Memory> {
        self.copy(alloc)
    }
}

impl Copied for ColumnDef {
    fn copied(&self, alloc: Global) -> Result<ColumnDef, Memory> {
        Ok(ColumnDef {
            name: self.name.copied(alloc)?,
            ty: self.ty,
            not_null: self.not_null,
            made: self.made,
        })
    }
}

impl Copied for IndexDef {
    fn copied(&self, alloc: Global) -> Result<IndexDef, Memory> {
        Ok(IndexDef {
            name: self.name.copied(alloc)?,
            unique: self.unique,
            parts: self.parts.copied(alloc)?,
            root: self.root,
        })
    }
}

impl Copied for Roots {
    fn copied(&self, alloc: Global) -> Result<Roots, Memory> {
        Ok(Roots {
            map: self.map,
            composite: self.composite,
            dims: self.dims.copied(alloc)?,
        })
    }
}

impl Copied for TableDef {
    fn copied(&self, alloc: Global) -> Result<TableDef, Memory> {
        Ok(TableDef {
            number: self.number,
            name: self.name.copied(alloc)?,
            columns: self.columns.copied(alloc)?,
            dims: self.dims.copied(alloc)?,
            indexes: self.indexes.copied(alloc)?,
            next: self.next,
            roots: self.roots.copied(alloc)?,
        })
    }
}

impl Copied for Row {
    fn copied(&self, alloc: Global) -> Result<Row, Memory> {
        Ok(Row {
            number: self.number,
            values: self.values.copied(alloc)?,
        })
    }
}

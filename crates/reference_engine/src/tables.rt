// Tables in memory: what each is, and its rows.
ghost use Rattle.std.specs.Prelude.{◌≡◌, ◌<◌, [], None, Some, IfOk, IfSome, IsSome, OnErr, OnOk, option_map};
ghost use Rattle.mdc_ast.specs.Database.{changed_at, defs_of, empty_database, table_at, with_place};
ghost use Rattle.mdc_ast.specs.Definitions.{empty_place};
ghost use Rattle.statement_meaning.specs.Built.{IsBuiltDatabase};
ghost use Rattle.statement_meaning.specs.Doing.{entered, indexed_table, unindexed_table};
ghost use Rattle.row_checks.specs.Executing.{IsThere, MayDropIndex};
ghost use Rattle.reference_engine.specs.Tables.{with_next, with_rows};

use crate::copying::Copied;
use catalog::Catalog;
use mdc_ast::{IndexDef, Row, TableDef};
use mdc_values::{List, Memory};
use std::alloc::Global;
use std::marker::Model;
use std::mem;

const PLACES: usize = 16;

/// The tables of a database. Contracts see the plain database: 16 places, each empty or with a table.
#[derive(Debug, Drop)]
pub struct Tables {
    alloc: Global,
    catalog: Catalog,
    // The rows of each place.
    rows: Vec<List<Row>>,
}

/// A table as it is lent: what it is, and its rows by rising row number.
#[derive(Clone, Copy, Debug)]
pub struct TableRef<'t> {
    pub def: &'t TableDef,
    pub rows: &'t [Row],
}

impl Model for Tables {
    ghost use Rattle.mdc_ast.specs.Database.{Database};
    ghost use Rattle.reference_engine.specs.Tables.{AreTables, tables_of};

    ghost Value = { Database };

    ghost view = { λ tables. tables_of tables.catalog tables.rows.items };

    ghost invariant = { λ tables. AreTables tables.catalog tables.rows.items };
}

impl Tables {
    /// No tables.
    pub fn empty(alloc: Global) -> Result<Tables, Memory>
        ensures { IfOk result (λ tables. tables ≡ empty_database) }
    {
        let catalog = Catalog::empty(alloc)?;
        let mut rows = Vec::with_capacity(alloc, PLACES)?;
        for _ in 0..PLACES {
            rows.push(List::new(alloc))?;
        }
        Ok(Tables {
            alloc,
            catalog,
            rows,
        })
    }

    /// The definitions of the tables.
    pub fn catalog(&self) -> &Catalog
        ensures { result.now ≡ defs_of self.now }
    {
        &self.catalog
    }

    /// Lends the table at a place.
    pub fn table(&self, place: u8) -> TableRef<'_>
        requires { IsSome (table_at self.now place) }
        ensures { table_at self.now place ≡ Some (record { def = result.def.now; rows = result.rows.now }) }
    {
        let Some(def) = self.catalog.def(place) else {
            unreachable!()
        };
        TableRef {
            def,
            rows: self.rows[place as usize].as_slice(),
        }
    }

    /// Puts a table without rows into the lowest empty place. It takes no memory.
    pub fn enter(&mut self, def: TableDef)
        requires { IsSome (empty_place (defs_of self.old)) }
        ensures { self.new ≡ entered self.old (empty_place (defs_of self.old)) def }
    {
        let _place = self.catalog.enter(def);
    }

    /// Empties a place.
    pub fn leave(&mut self, place: u8)
        requires { IsSome (table_at self.old place) }
        ensures { self.new ≡ with_place self.old place None }
    {
        self.catalog.leave(place);
        self.rows[place as usize] = List::new(self.alloc);
    }

    /// Gives the rows of a table away, which has none then.
    pub fn take_rows(&mut self, place: u8) -> Vec<Row>
        requires { IsSome (table_at self.old place) }
        ensures taken { option_map (λ table. table.rows) (table_at self.old place) ≡ Some result.items }
        ensures left { self.new ≡ changed_at self.old place (with_rows []) }
    {
        mem::replace(&mut self.rows[place as usize], List::new(self.alloc)).into_vec()
    }

    /// Gives a table other rows. It takes no memory.
    pub fn put_rows(&mut self, place: u8, rows: Vec<Row>)
        requires { IsSome (table_at self.old place) }
        ensures { self.new ≡ changed_at self.old place (with_rows rows.items) }
    {
        self.rows[place as usize] = List::from_vec(rows);
    }

    /// Numbers the next row of a table. It takes no memory.
    pub fn number_from(&mut self, place: u8, next: u64)
        requires there { IsSome (table_at self.old place) }
        requires numbered { IfSome (table_at self.old place) (λ table. table.def.number ≡ place) }
        ensures { self.new ≡ changed_at self.old place (with_next next) }
    {
        let Some(mut def) = self.catalog.take(place) else {
            unreachable!()
        };
        def.next = next;
        self.catalog.put(place, def);
    }

    /// Gives a table one record index more, behind its others. After `Memory` nothing has changed.
    pub fn add_index(&mut self, place: u8, index: IndexDef) -> Result<(), Memory>
        requires there { IsSome (table_at self.old place) }
        requires numbered { IfSome (table_at self.old place) (λ table. table.def.number ≡ place) }
        ensures ok { OnOk result (self.new ≡ changed_at self.old place (indexed_table index)) }
        ensures err { OnErr result (self.new ≡ self.old) }
    {
        let Some(mut def) = self.catalog.take(place) else {
            unreachable!()
        };
        let added = def.indexes.push(index);
        self.catalog.put(place, def);
        added
    }

    /// Takes a record index of a table out; those behind it move up. It takes no memory.
    pub fn remove_index(&mut self, place: u8, index: u8)
        requires there { IsThere (table_at self.old place) (MayDropIndex index) }
        requires numbered { IfSome (table_at self.old place) (λ table. table.def.number ≡ place) }
        ensures { self.new ≡ changed_at self.old place (unindexed_table index) }
    {
        let Some(mut def) = self.catalog.take(place) else {
            unreachable!()
        };
        def.indexes.remove(index as usize);
        self.catalog.put(place, def);
    }

    /// The same tables once more.
    pub fn copied(&self) -> Result<Tables, Memory>
        requires { IsBuiltDatabase self.now }
        ensures { IfOk result (λ copy. copy ≡ self.now) }
    {
        let mut copy = Tables::empty(self.alloc)?;
        for place in 0..PLACES {
            self.copy_place(place as u8, &mut copy)?;
        }
        Ok(copy)
    }

    // Puts the table at a place once more into that place of others, which is empty.
    fn copy_place(&self, place: u8, into: &mut Tables) -> Result<(), Memory>
        requires within { place < 16 }
        requires valid { IsBuiltDatabase self.now }
        requires empty { table_at into.old place ≡ None }
        ensures { OnOk result (into.new ≡ with_place into.old place (table_at self.now place)) }
    {
        if self.catalog.def(place).is_none() {
            return Ok(());
        }
        let lent = self.table(place);
        let def = lent.def.copied(self.alloc)?;
        let rows = self.rows[place as usize].copied(self.alloc)?;
        into.put_table(place, def, rows);
        Ok(())
    }

    // Puts a table that has the number of a place into that place. It takes no memory.
    fn put_table(&mut self, place: u8, def: TableDef, rows: List<Row>)
        requires { (place < 16) × (def.number ≡ place) }
        ensures { self.new ≡ with_place self.old place (Some (record { def = def; rows = rows })) }
    {
        self.catalog.put(place, def);
        self.rows[place as usize] = rows;
    }
}

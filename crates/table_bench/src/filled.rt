// A table that is being filled.
ghost use Rattle.std.specs.Prelude.{◌≡◌, false, None, IfOk, OnOk};
ghost use Rattle.block_rows.specs.HeldRows.{HasReadValues};
ghost use Rattle.table_bench.specs.TableW.{AreRootsOfW, IsTableW};

use crate::pages::{commit, is_zero_page, write_over};
use crate::row_values::{Which, changed, row_of};
use crate::stop::Stop;
use crate::table_w::{COMPOSITE_WIDTH, FIRST_WIDTH, MAP_WIDTH, SECOND_WIDTH, table_w};
use cell_change::{change_row, delete_row, insert_row};
use checked_table::{Account, Rooms, account_of, row_at};
use entry_tree::Tree;
use extent_map::SpaceNotes;
use mdc_ast::{Roots, Row, TableDef};
use mdc_values::{List, Rid};
use std::alloc::Global;
use store_api::{Pages, Shape, Store, blank_page};
use table_page::def_page;

// The page of the table in place 0.
const TABLE_PAGE: u32 = 1;

// After how many changes they are committed.
const COMMIT: u32 = 1000;

// How many rows a table may have had.
const MOST_NUMBERS: u64 = 1 << 32;

/// A table W that is being filled from a seed, with the notes of free space and rooms, the number of the next row as its page has
/// it, and how many changes aren't committed.
#[derive(Debug, Drop)]
pub struct Filled {
    alloc: Global,
    seed: u32,
    def: TableDef,
    shape: Shape,
    notes: SpaceNotes,
    rooms: Rooms,
    next_on_page: u64,
    changes: u32,
    ghost within: { IsTableW def },
}

impl Filled {
    /// Makes the table, in place 0, which has to be free.
    pub fn make<S: Pages>(
        alloc: Global,
        seed: u32,
        shape: Shape,
        store: &mut S,
    ) -> Result<Filled, Stop>
        requires going { (S.state store.old).ended ≡ false }
        ensures going { (S.state store.new).ended ≡ false }
        ensures marked { (S.state store.new).marked ≡ (S.state store.old).marked }
    {
        if !is_zero_page(store, TABLE_PAGE)? {
            return Err(Stop::Taken);
        }
        let mut notes = SpaceNotes::new();
        let roots = make_roots(alloc, shape, &mut notes, store)?;
        let def = table_w(alloc, roots)?;
        write_definition(&def, store)?;
        Ok(Filled {
            alloc,
            seed,
            def,
            shape,
            notes,
            rooms: Rooms::new(alloc),
            next_on_page: 0,
            changes: 0,
        })
    }

    /// Puts the row of the next number, and answers where it lies.
    pub fn insert<S: Pages>(&mut self, store: &mut S) -> Result<Rid, Stop>
        requires going { (S.state store.old).ended ≡ false }
        requires unmarked { (S.state store.old).marked ≡ None }
        ensures going { (S.state store.new).ended ≡ false }
        ensures unmarked { (S.state store.new).marked ≡ None }
    {
        let number = self.def.next;
        if number >= MOST_NUMBERS {
            return Err(Stop::TooMany);
        }
        let row = row_of(self.alloc, self.seed, number, Which::First)?;
        let rid = insert_row(
            self.alloc,
            &mut self.def,
            self.shape,
            &mut self.notes,
            &mut self.rooms,
            store,
            &row,
        )?;
        Ok(rid)
    }

    /// Changes the row in a place, and answers where it lies then.
    pub fn change<S: Pages>(&mut self, store: &mut S, rid: Rid) -> Result<Rid, Stop>
        requires going { (S.state store.old).ended ≡ false }
        requires unmarked { (S.state store.old).marked ≡ None }
        ensures going { (S.state store.new).ended ≡ false }
        ensures unmarked { (S.state store.new).marked ≡ None }
    {
        let was = self.row(store, rid)?;
        let is = row_of(self.alloc, self.seed, was.number, changed(was.number))?;
        let to = change_row(
            self.alloc,
            &self.def,
            self.shape,
            &mut self.notes,
            &mut self.rooms,
            store,
            None,
            rid,
            &was,
            &is,
        )?;
        Ok(to)
    }

    /// Deletes the row in a place.
    pub fn delete<S: Pages>(&mut self, store: &mut S, rid: Rid) -> Result<(), Stop>
        requires going { (S.state store.old).ended ≡ false }
        requires unmarked { (S.state store.old).marked ≡ None }
        ensures going { (S.state store.new).ended ≡ false }
        ensures unmarked { (S.state store.new).marked ≡ None }
    {
        let row = self.row(store, rid)?;
        delete_row(
            self.alloc,
            &self.def,
            self.shape,
            &mut self.notes,
            &mut self.rooms,
            store,
            rid,
            &row,
        )?;
        Ok(())
    }

    // The row in a place.
    fn row<S: Pages>(&self, store: &mut S, rid: Rid) -> Result<Row, Stop>
        requires going { (S.state store.old).ended ≡ false }
        requires unmarked { (S.state store.old).marked ≡ None }
        ensures read { IfOk result (HasReadValues self.now.def.columns) }
        ensures going { (S.state store.new).ended ≡ false }
        ensures unmarked { (S.state store.new).marked ≡ None }
    {
        match row_at(self.alloc, &self.def, self.shape, store, rid)? {
            Some(row) => Ok(row),
            None => Err(Stop::NoRow),
        }
    }

    /// Counts a change, and commits each thousand of them.
    pub fn count_change<S: Store>(&mut self, store: &mut S) -> Result<(), Stop>
        requires going { (S.state store.old).ended ≡ false }
        requires unmarked { (S.state store.old).marked ≡ None }
        ensures going { OnOk result ((S.state store.new).ended ≡ false) }
        ensures unmarked { OnOk result ((S.state store.new).marked ≡ None) }
    {
        self.changes = self.changes.saturating_add(1);
        if self.changes < COMMIT {
            return Ok(());
        }
        self.commit(store)
    }

    /// Commits what was changed. The page of the table is written where its next number is another.
    pub fn commit<S: Store>(&mut self, store: &mut S) -> Result<(), Stop>
        requires going { (S.state store.old).ended ≡ false }
        requires unmarked { (S.state store.old).marked ≡ None }
        ensures going { OnOk result ((S.state store.new).ended ≡ false) }
        ensures unmarked { OnOk result ((S.state store.new).marked ≡ None) }
    {
        if self.def.next != self.next_on_page {
            write_definition(&self.def, store)?;
            self.next_on_page = self.def.next;
        }
        self.changes = 0;
        commit(store)
    }

    /// How many of its blocks are in each state.
    pub fn account<S: Pages>(&self, store: &mut S) -> Result<Account, Stop>
        requires going { (S.state store.old).ended ≡ false }
        requires unmarked { (S.state store.old).marked ≡ None }
    {
        Ok(account_of(self.alloc, &self.def, self.shape, store)?)
    }
}

// Makes the trees of the table, without entries.
fn make_roots<S: Pages>(
    alloc: Global,
    shape: Shape,
    notes: &mut SpaceNotes,
    store: &mut S,
) -> Result<Roots, Stop>
    requires going { (S.state store.old).ended ≡ false }
    ensures roots { IfOk result AreRootsOfW }
    ensures going { (S.state store.new).ended ≡ false }
    ensures marked { (S.state store.new).marked ≡ (S.state store.old).marked }
{
    let map = Tree::make(alloc, shape, notes, store, MAP_WIDTH)?.root;
    let composite = Tree::make(alloc, shape, notes, store, COMPOSITE_WIDTH)?.root;
    let first = Tree::make(alloc, shape, notes, store, FIRST_WIDTH)?.root;
    let second = Tree::make(alloc, shape, notes, store, SECOND_WIDTH)?.root;
    let mut dims = List::new(alloc);
    dims.push(first)?;
    dims.push(second)?;
    Ok(Roots {
        map,
        composite,
        dims,
    })
}

// Writes the page of the table.
fn write_definition<S: Pages>(def: &TableDef, store: &mut S) -> Result<(), Stop>
    requires table { IsTableW def.now }
    requires going { (S.state store.old).ended ≡ false }
    ensures going { (S.state store.new).ended ≡ false }
    ensures marked { (S.state store.new).marked ≡ (S.state store.old).marked }
{
    let mut page = *blank_page();
    def_page(def, &mut page);
    write_over(store, TABLE_PAGE, &page)
}

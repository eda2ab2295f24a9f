// A catalog in memory.
ghost use Rattle.std.specs.Prelude.{◌≡◌, ◌<◌, length, None, Some, IfOk, IfSome, IsSome, MatchOption, is_none};
ghost use Rattle.std.specs.List.{position_from};
ghost use Rattle.mdc_ast.specs.Definitions.{def_at, def_named, empty_place, index_in, index_place_of, is_defined, is_same, no_tables, place_of, with_def, without_def};

use mdc_ast::{IndexDef, Name, TableDef};
use mdc_values::Memory;
use std::alloc::Global;
use std::marker::Model;

const PLACES: usize = 16;

/// The definitions of tables. Contracts see 16 places, each empty or with a definition that has the number of its place.
#[derive(Debug, Drop)]
pub struct Catalog {
    places: Vec<Option<TableDef>>,
}

impl Model for Catalog {
    ghost use Rattle.std.specs.Prelude.{◌≡◌, length};
    ghost use Rattle.mdc_ast.specs.Definitions.{Definitions};
    ghost use Rattle.catalog.specs.Places.{AreNumberedFrom};

    ghost Value = { Definitions };

    ghost view = { λ catalog. catalog.places.items };

    ghost invariant = { λ catalog. (length catalog.places.items ≡ 16) × AreNumberedFrom 0 catalog.places.items };
}

impl Catalog {
    /// A catalog of no tables.
    pub fn empty(alloc: Global) -> Result<Catalog, Memory>
        ensures { IfOk result (λ catalog. catalog ≡ no_tables) }
    {
        let mut places = Vec::with_capacity(alloc, PLACES)?;
        for _ in 0..PLACES {
            places.push(None)?;
        }
        Ok(Catalog { places })
    }

    /// Lends the definition at a place, of 16. It is None exactly where the place is empty.
    pub fn def(&self, table: u8) -> Option<&TableDef>
        requires { table < 16 }
        ensures { MatchOption result (def_at self.now table ≡ None) (λ def. def_at self.now table ≡ Some def.now) }
    {
        self.places[table as usize].as_ref()
    }

    /// Lends the definition of that name, whose number is its place. It is None exactly where no table has the name.
    pub fn table(&self, name: &Name) -> Option<&TableDef>
        ensures found { MatchOption result
            (def_named self.now name.now ≡ None)
            (λ def. def_named self.now name.now ≡ Some def.now) }
        ensures place { MatchOption result
            (place_of self.now name.now ≡ None)
            (λ def. (place_of self.now name.now ≡ Some def.now.number) × (def.now.number < 16)) }
    {
        // The invariant, by which the number is the place, is known where a field is used.
        let _places = &self.places;
        let place = self.place_of(name)?;
        self.def(place)
    }

    // The place of the table of that name.
    fn place_of(&self, name: &Name) -> Option<u8>
        ensures place { result ≡ place_of self.now name.now }
        ensures there { IfSome result (λ place. place < 16) }
    {
        for place in 0..PLACES {
            if has_name(&self.places[place], name) {
                return Some(place as u8);
            }
        }
        None
    }

    /// Where the record index of that name is: the place of its table, and its own place among that table's. It is None exactly
    /// where no table has one.
    pub fn index(&self, name: &Name) -> Option<(u8, usize)>
        ensures found { result ≡ index_place_of self.now name.now }
        ensures place { IfSome result (λ found. found.0 < 16) }
    {
        for table in 0..PLACES {
            if let Some(index) = index_in(&self.places[table], name) {
                return Some((table as u8, index));
            }
        }
        None
    }

    /// Puts a definition in the lowest empty place, under the number of that place, and answers that place. It needs an
    /// empty one, and takes no memory.
    pub fn enter(&mut self, def: TableDef) -> u8
        requires { IsSome (empty_place self.old) }
        ensures lowest { empty_place self.old ≡ Some result }
        ensures entered { self.new ≡ with_def self.old result def }
    {
        let Some(place) = self.lowest_empty() else {
            unreachable!()
        };
        let mut def = def;
        def.number = place;
        self.places[place as usize] = Some(def);
        place
    }

    /// Moves the definition at a place out, and leaves the place empty. It is None exactly where the place is empty.
    pub fn take(&mut self, table: u8) -> Option<TableDef>
        requires { table < 16 }
        ensures taken { result ≡ def_at self.old table }
        ensures left { self.new ≡ without_def self.old table }
    {
        self.places[table as usize].take()
    }

    /// Puts a definition in the place that it has the number of. What was there is dropped. It takes no memory.
    pub fn put(&mut self, table: u8, def: TableDef)
        requires { (table < 16) × (def.number ≡ table) }
        ensures { self.new ≡ with_def self.old table def }
    {
        self.places[table as usize] = Some(def);
    }

    /// Empties a place. What was there is dropped.
    pub fn leave(&mut self, table: u8)
        requires { table < 16 }
        ensures { self.new ≡ without_def self.old table }
    {
        self.places[table as usize] = None;
    }

    /// Whether no place is empty.
    pub fn is_full(&self) -> bool
        ensures { result ≡ is_none (empty_place self.now) }
    {
        self.lowest_empty().is_none()
    }

    fn lowest_empty(&self) -> Option<u8>
        ensures lowest { result ≡ empty_place self.now }
        ensures there { IfSome result (λ place. place < 16) }
    {
        for place in 0..PLACES {
            if self.places[place].is_none() {
                return Some(place as u8);
            }
        }
        None
    }
}

// Whether the table in a place has that name.
fn has_name(place: &Option<TableDef>, name: &Name) -> bool
    ensures { result ≡ is_defined name.now place.now }
{
    match place {
        Some(def) => def.name.0.bytes() == name.0.bytes(),
        None => false,
    }
}

// The place of the record index of that name among those of the table in a place.
fn index_in(place: &Option<TableDef>, name: &Name) -> Option<usize>
    ensures { result ≡ index_in name.now place.now }
{
    match place {
        Some(def) => place_among(def.indexes.as_slice(), name),
        None => None,
    }
}

// The place of the record index of that name among these.
fn place_among(indexes: &[IndexDef], name: &Name) -> Option<usize>
    ensures { result ≡ position_from (λ index. is_same index.name name.now) 0 indexes.now }
{
    indexes
        .iter()
        .position(|index| index.name.0.bytes() == name.0.bytes())
}

use crate::Catalog;
use mdc_ast::{IndexDef, Name, Roots, TableDef};
use mdc_values::{Chars, List, Memory};
use std::alloc::Global;
use std::test::Fail;

fn named(alloc: Global, name: &[u8]) -> Result<Name, Memory> {
    Ok(Name(Chars::of(alloc, name)?))
}

fn table(alloc: Global, name: &[u8]) -> Result<TableDef, Memory> {
    Ok(TableDef {
        number: 0,
        name: named(alloc, name)?,
        columns: List::new(alloc),
        dims: List::new(alloc),
        indexes: List::new(alloc),
        next: 0,
        roots: Roots {
            map: 0,
            composite: 0,
            dims: List::new(alloc),
        },
    })
}

/// The place that a table took, if there was one.
fn entered(catalog: &mut Catalog, def: TableDef) -> Option<u8> {
    if catalog.is_full() {
        return None;
    }
    Some(catalog.enter(def))
}

fn number_of(catalog: &Catalog, name: &Name) -> Option<u8> {
    catalog.table(name).map(|def| def.number)
}

#[test]
fn a_table_takes_the_lowest_empty_place(rt: HostRuntime) -> Result<(), Fail> {
    let alloc = rt.alloc();
    let mut catalog = Catalog::empty(alloc)?;
    assert_eq!(rt; entered(&mut catalog, table(alloc, b"T")?), Some(0));
    assert_eq!(rt; entered(&mut catalog, table(alloc, b"U")?), Some(1));
    catalog.leave(0);
    assert!(rt; catalog.def(0).is_none());
    assert_eq!(rt; number_of(&catalog, &named(alloc, b"T")?), None);
    assert_eq!(rt; number_of(&catalog, &named(alloc, b"U")?), Some(1));
    assert_eq!(rt; entered(&mut catalog, table(alloc, b"V")?), Some(0));
    Ok(())
}

/// A record index of that name, of no parts.
fn index(alloc: Global, name: &[u8]) -> Result<IndexDef, Memory> {
    Ok(IndexDef {
        name: named(alloc, name)?,
        unique: false,
        parts: List::new(alloc),
        root: 0,
    })
}

/// A table of that name with two record indexes.
fn indexed(alloc: Global, name: &[u8], one: &[u8], other: &[u8]) -> Result<TableDef, Memory> {
    let mut def = table(alloc, name)?;
    def.indexes.push(index(alloc, one)?)?;
    def.indexes.push(index(alloc, other)?)?;
    Ok(def)
}

/// A catalog of two tables with two record indexes each.
fn four_indexes(alloc: Global) -> Result<Catalog, Memory> {
    let mut catalog = Catalog::empty(alloc)?;
    let first = indexed(alloc, b"T", b"I", b"J")?;
    let second = indexed(alloc, b"U", b"K", b"L")?;
    entered(&mut catalog, first);
    entered(&mut catalog, second);
    Ok(catalog)
}

fn found(alloc: Global, name: &[u8]) -> Result<Option<(u8, usize)>, Memory> {
    Ok(four_indexes(alloc)?.index(&named(alloc, name)?))
}

#[test]
fn an_index_is_found_with_its_table(rt: HostRuntime) -> Result<(), Fail> {
    let alloc = rt.alloc();
    assert_eq!(rt; found(alloc, b"J")?, Some((0, 1)));
    assert_eq!(rt; found(alloc, b"K")?, Some((1, 0)));
    assert_eq!(rt; found(alloc, b"T")?, None);
    Ok(())
}

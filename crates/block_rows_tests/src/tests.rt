// Each call on the rows of a block once, over a store in memory: rows without columns, of which a page has 402.
ghost use Rattle.std.specs.Prelude.{◌≡◌, ◌<◌, [], IfOk, false};

use block_rows::{clear_slot, put_first, put_slot, row_in_slot, rows_of_block, wipe_block};
use mdc_ast::{Name, Roots, Row, TableDef};
use mdc_values::{Chars, List, Memory, Rid};
use std::alloc::Global;
use std::test::Fail;
use store_api::{MemStore, Pages, Shape, StoreFault, blank_page};

/// The extent that is the block here.
const BLOCK: u32 = 1;

/// What is seen of a block.
#[derive(Clone, Copy)]
struct Seen {
    /// The slots of the rows that were put into the lowest.
    put: [Option<u16>; 3],
    /// How many rows there are, and the number of the last.
    rows: usize,
    last: Option<u64>,
    /// The numbers of the row on the second page, and of that in a slot which was emptied.
    on_second: Option<u64>,
    emptied: Option<u64>,
    /// Whether a row lay in the slot as it was emptied, and as it was emptied again.
    lay: [bool; 2],
}

/// A table without columns.
fn table_of(alloc: Global) -> Result<TableDef, Memory>
    ensures { IfOk result (λ def. def.columns ≡ []) }
{
    Ok(TableDef {
        number: 0,
        name: Name(Chars::of(alloc, b"T")?),
        columns: List::new(alloc),
        dims: List::new(alloc),
        indexes: List::new(alloc),
        next: 0,
        roots: Roots {
            map: 0,
            composite: 0,
            dims: List::new(alloc),
        },
    })
}

/// The number of a row, if there is one.
fn number_of(row: &Option<Row>) -> Option<u64> {
    match row {
        Some(row) => Some(row.number),
        None => None,
    }
}

/// Two rows put into a block, one put into the first slot of its second page, the first taken out twice, and one put again.
fn fill_and_look<P: Pages>(
    alloc: Global,
    def: &TableDef,
    shape: Shape,
    pages: &mut P,
) -> Result<Seen, StoreFault>
    requires no_columns { def.now.columns ≡ [] }
    requires below { BLOCK < shape.extents }
    requires two { shape.extent_pages ≡ 2 }
    requires going { (P.state pages.old).ended ≡ false }
{
    wipe_block(def, shape, pages, BLOCK)?;
    let row = row_of(alloc, 7);
    let first = put_first(def, shape, pages, BLOCK, &row)?;
    let second = put_first(def, shape, pages, BLOCK, &row)?;
    let over = row_of(alloc, 8);
    put_slot(def, shape, pages, rid(402), &over)?;
    let lay = clear_slot(def, shape, pages, rid(0))?;
    let lay_again = clear_slot(def, shape, pages, rid(0))?;
    let in_second = row_in_slot(alloc, def, shape, pages, rid(402))?;
    let in_emptied = row_in_slot(alloc, def, shape, pages, rid(0))?;
    let third = put_first(def, shape, pages, BLOCK, &row)?;
    let hits = rows_of_block(alloc, def, shape, pages, BLOCK)?;
    let rows = hits.len();
    Ok(Seen {
        put: [first, second, third],
        rows,
        last: if rows > 0 {
            Some(hits[rows - 1].row.number)
        } else {
            None
        },
        on_second: number_of(&in_second),
        emptied: number_of(&in_emptied),
        lay: [lay, lay_again],
    })
}

/// A row without values.
fn row_of(alloc: Global, number: u64) -> Row
    ensures { result.values ≡ [] }
{
    Row {
        number,
        values: List::new(alloc),
    }
}

/// A slot of the block.
fn rid(slot: u16) -> Rid
    ensures block { result.block ≡ BLOCK }
    ensures slot { result.slot ≡ slot }
{
    Rid { block: BLOCK, slot }
}

#[test]
fn a_block_is_filled_changed_and_read(rt: HostRuntime) -> Result<(), Fail> {
    let alloc = rt.alloc();
    let def = table_of(alloc)?;
    let shape = Shape::new(4, 2).expect(&rt, "a shape");
    let pages = vec![in alloc; *blank_page(); 26]?;
    let mut store = MemStore::new(alloc, pages);
    let seen = fill_and_look(alloc, &def, shape, &mut store)
        .ok()
        .expect(&rt, "rows");
    assert_eq!(rt; seen.put, [Some(0), Some(1), Some(0)]);
    assert_eq!(rt; seen.rows, 3);
    assert_eq!(rt; seen.last, Some(8));
    assert_eq!(rt; seen.on_second, Some(8));
    assert_eq!(rt; seen.emptied, None);
    assert_eq!(rt; seen.lay, [true, false]);
    Ok(())
}

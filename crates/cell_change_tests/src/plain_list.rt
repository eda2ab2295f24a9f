// A plain list of the rows that should be in a table, and where placing says that the next one goes.
use crate::changes::Held;
use crate::rows::{cell_of, slots_of};
use crate::tables::TableKind;
use mdc_values::Rid;
use std::alloc::Global;
use std::test::Fail;

/// The rows that should be in a table, and all blocks that it has had, which rise. None is ever given back.
#[derive(Drop)]
pub struct PlainList {
    pub kind: TableKind,
    pub rows: Vec<Held>,
    blocks: Vec<u32>,
}

/// A list without rows.
pub fn no_rows(alloc: Global, kind: TableKind) -> PlainList {
    PlainList {
        kind,
        rows: Vec::new(alloc),
        blocks: Vec::new(alloc),
    }
}

/// A row of the list by any number, if there is one.
pub fn any_row(list: &PlainList, any: u64) -> Option<usize> {
    let many = list.rows.len();
    if many == 0 {
        return None;
    }
    Some((any % many as u64) as usize)
}

/// Takes a row out.
pub fn take_out(list: &mut PlainList, i: usize) -> Result<Held, Fail> {
    if i >= list.rows.len() {
        return Err(Fail::new("no such row"));
    }
    Ok(list.rows.remove(i))
}

/// Puts a row last that was put into a table. It fails where placing says another place.
pub fn put_last(list: &mut PlainList, held: Held) -> Result<(), Fail> {
    match place_for(list, held.seed) {
        Some(place) => {
            if held.rid != place {
                return Err(Fail::new("another place"));
            }
        }
        None => note_block(list, held.rid)?,
    }
    list.rows.push(held)?;
    Ok(())
}

// Notes a block of which a row took the first slot, above all blocks before it.
fn note_block(list: &mut PlainList, rid: Rid) -> Result<(), Fail> {
    if rid.slot != 0 || list.blocks.iter().any(|block| *block >= rid.block) {
        return Err(Fail::new("no new block"));
    }
    list.blocks.push(rid.block)?;
    Ok(())
}

// Where a row of a seed goes, or None where it takes a block that the table hasn't had.
fn place_for(list: &PlainList, seed: u64) -> Option<Rid> {
    let cell = cell_of(list.kind, seed);
    for block in &list.blocks {
        if has_cell(list, *block, cell)
            && let Some(slot) = empty_slot(list, *block)
        {
            return Some(Rid {
                block: *block,
                slot,
            });
        }
    }
    for block in &list.blocks {
        if !list.rows.iter().any(|held| held.rid.block == *block) {
            return Some(Rid {
                block: *block,
                slot: 0,
            });
        }
    }
    None
}

// Whether a row of a block is of a cell.
fn has_cell(list: &PlainList, block: u32, cell: u64) -> bool {
    for held in &list.rows {
        if held.rid.block == block && cell_of(list.kind, held.seed) == cell {
            return true;
        }
    }
    false
}

// The lowest slot of a block in which no row lies.
fn empty_slot(list: &PlainList, block: u32) -> Option<u16> {
    for slot in 0..slots_of(list.kind) {
        let rid = Rid { block, slot };
        if !list.rows.iter().any(|held| held.rid == rid) {
            return Some(slot);
        }
    }
    None
}

/// The row that lies in a place.
pub fn row_in(list: &PlainList, rid: Rid) -> Option<Held> {
    for held in &list.rows {
        if held.rid == rid {
            return Some(*held);
        }
    }
    None
}

/// The row of a number.
pub fn row_numbered(list: &PlainList, number: u64) -> Option<Held> {
    for held in &list.rows {
        if held.number == number {
            return Some(*held);
        }
    }
    None
}

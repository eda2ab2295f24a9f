// The tables of a file.
use crate::setup::{opened, shape_of};
use crate::stop::Stop;
use crate::table_text::append_table;
use mdc_outside::Host;
use reference_reader::{ReadTable, read_database};
use std::alloc::Global;

/// Shows the tables of a file, in order of their places.
pub fn show<H: Host + Drop>(alloc: Global, host: H, path: &str) -> Result<(), Stop> {
    let mut store = opened(alloc, host, path)?;
    let shape = shape_of(&store)?;
    let tables = read_database(alloc, shape, &mut store)?;
    let mut host = store.close().host;
    for (place, table) in tables.as_slice().iter().enumerate() {
        if let Some(table) = table {
            say_table(alloc, &mut host, place, table)?;
        }
    }
    Ok(())
}

// Says the lines of a table.
fn say_table<H: Host>(
    alloc: Global,
    host: &mut H,
    place: usize,
    table: &ReadTable,
) -> Result<(), Stop> {
    let mut text = Vec::new(alloc);
    append_table(place, table, &mut text)?;
    host.say(&text)?;
    Ok(())
}

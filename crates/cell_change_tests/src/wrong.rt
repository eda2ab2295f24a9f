// What makes a test fail.
use mdc_table::Account;
use mdc_values::Rid;

/// What a test sees and shouldn't.
#[derive(Clone, Copy, Debug)]
pub enum Wrong {
    /// The place of a row that came or became another one, or its number.
    Row(Rid, u64),
    /// What lies in a place.
    Place(Rid),
    /// How many blocks are in each state.
    Blocks(Account),
    /// What a row met where there are so many extents.
    Extents(u32),
}

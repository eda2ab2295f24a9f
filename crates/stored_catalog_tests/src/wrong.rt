// What makes a test fail.
use mdc_values::Rid;

/// What a test sees and shouldn't.
#[derive(Clone, Copy, Debug)]
pub enum Wrong {
    /// The place of a catalog where another table is seen, or where one came that should have come elsewhere.
    Table(u8),
    /// The place of a row that came.
    Row(Rid),
    /// The bytes of a page.
    Page(u32),
    /// How many pages there are.
    Count(u32),
    /// What is named of a store of which a page was patched from a place on.
    Damage(u32, usize),
}

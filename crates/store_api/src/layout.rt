// Where things lie among the pages of a database, and how many bytes they have (docs/FORMAT.md, "Pages", "Extents").

/// How many bytes a page has.
pub const PAGE_BYTES: usize = 4096;

/// The version of the format, which the root page states.
pub const VERSION: u32 = 1;

/// The root page, which states how many pages there are.
pub const ROOT_PAGE: u32 = 0;

/// The first table page, behind the root page: each place for a table has one.
pub const FIRST_TABLE_PAGE: u32 = 1;

/// How many places for tables there are.
pub const TABLE_PLACES: u8 = 16;

/// The first page of the extent map, behind the table pages.
pub const FIRST_MAP_PAGE: u32 = 17;

/// How many extents stand on a page of the extent map.
pub const MAP_PAGE_EXTENTS: u32 = 512;

/// How many bytes an extent has in the extent map.
pub const EXTENT_ENTRY_BYTES: usize = 8;

/// How many bytes a block has in a block map: its number, its state and how many rows it has.
pub const BLOCK_MAP_WIDTH: u16 = 7;

/// How many bytes stand behind the key in an entry of a block index: the number of a block.
pub const BLOCK_BYTES: u16 = 4;

/// How many bytes stand behind the key in an entry of a record index: the number of a block and a slot.
pub const ROW_PLACE_BYTES: u16 = 6;

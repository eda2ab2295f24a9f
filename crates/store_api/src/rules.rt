// The numbers of the rules that make a file sound, as damage names them (docs/FORMAT.md, "Rules").

/// The root page has its form and states how many pages there are, and none is missing.
pub const ROOT_PAGE_RULE: u16 = 1;

/// Each entry of the extent map has its form, names a table that is there, and lies within the pages.
pub const EXTENTS_RULE: u16 = 2;

/// Each table page is a definition, whose roots are pages of index extents, and no two names are equal.
pub const TABLE_PAGES_RULE: u16 = 3;

/// Each page of a tree is a node, and its entries are in order and within the separators.
pub const TREES_RULE: u16 = 4;

/// Each used index page is in one tree, and no other page is in any.
pub const TREE_PAGES_RULE: u16 = 5;

/// A block map names each block that the extent map gives its table once, with a state, and no other.
pub const BLOCK_MAPS_RULE: u16 = 6;

/// Each row page of a Used block is one, and each row on it fits its table.
pub const ROW_PAGES_RULE: u16 = 7;

/// A Used block has a row, and as many as its block map says, and a block that isn't Used has none in the block map.
pub const ROW_COUNTS_RULE: u16 = 8;

/// All rows of a Used block have one cell.
pub const CELLS_RULE: u16 = 9;

/// A block index has exactly the Used blocks under the values of their cells.
pub const BLOCK_INDEXES_RULE: u16 = 10;

/// A record index has an entry for each row, and each entry that it has names a row with its key or a Pending block.
pub const RECORD_INDEXES_RULE: u16 = 11;

/// Row numbers differ and are below the next one, and no two rows have equal keys in a UNIQUE index.
pub const KEYS_RULE: u16 = 12;

// Where the parts of a table page stand, and how long they are.
ghost use Rattle.std.specs.Prelude.{◌≡◌, ◌≤◌, ◌+◌, length};
ghost use Rattle.node_page.specs.Node.{bytes_in};

/// The first byte of a table page.
pub const MARK: u8 = 0x54;

/// Where the name stands.
pub const NAME: usize = 1;

/// Where the numbers of columns, dimensions and indexes stand.
pub const COUNTS: usize = 19;

/// Where the next row number stands.
pub const NEXT: usize = 22;

/// Where the root of the block map stands.
pub const MAP: usize = 30;

/// Where the root of the composite index stands.
pub const COMPOSITE: usize = 34;

/// Where the roots of the dimension indexes begin.
pub const DIM_ROOTS: usize = 38;

/// Where the columns begin.
pub const COLUMNS: usize = 54;

/// Where the dimensions begin.
pub const DIMS: usize = 550;

/// Where the indexes begin.
pub const INDEXES: usize = 618;

/// Where the zeros begin that fill the page.
pub const FILL: usize = 1066;

/// How many bytes a name has.
pub const NAME_BYTES: usize = 18;

/// How many bytes a root has.
pub const ROOT_BYTES: usize = 4;

/// How many bytes a column has, and what it is made from.
pub const COLUMN_BYTES: usize = 31;

pub const MADE_BYTES: usize = 10;

/// How many bytes a dimension has.
pub const DIM_BYTES: usize = 17;

/// How many bytes an index has, all of its parts, and each of them.
pub const INDEX_BYTES: usize = 56;

pub const PARTS_BYTES: usize = 32;

pub const PART_BYTES: usize = 2;

/// How many columns, dimensions and indexes a table has at most, and parts a key.
pub const MOST_COLUMNS: usize = 16;

pub const MOST_DIMS: usize = 4;

pub const MOST_INDEXES: usize = 8;

pub const MOST_PARTS: usize = 16;

/// Lends some bytes from a place on.
pub fn part(bytes: &[u8], at: usize, size: usize) -> &[u8]
    requires { at + size ≤ length bytes.now }
    ensures bytes { result.now ≡ bytes_in at size bytes.now }
    ensures long { length result.now ≡ size }
{
    &bytes[at..at + size]
}

// Where things lie in the file.

/// How many bytes a page has.
pub const PAGE_BYTES: u64 = 4096;

/// The file page of the store's page 0. The pages before it are no pages of the store.
pub const FIRST_PAGE: u64 = 66;

/// Where the byte of the journal's gate stands in the file.
pub const GATE: u64 = 512;

/// Where the file page at which the journal starts stands in the file, in four bytes. The number of its images stands
/// in the four bytes behind it.
pub const HEADER: u64 = 1024;

/// How many bytes these two numbers have.
pub const HEADER_BYTES: u64 = 8;

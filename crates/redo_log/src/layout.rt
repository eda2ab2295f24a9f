// Where the log lies in the file.
use page_file::FIRST_PAGE;

/// Where the byte of the log's first gate stands in the file. The others stand behind it.
pub const LOG_GATES: u64 = 2048;

/// How many gates the log has.
pub const GATE_COUNT: u32 = 32;

/// Where the gates end in the file.
pub(crate) const GATES_END: u64 = LOG_GATES + GATE_COUNT as u64;

/// A gate that is open: its record counts, where all gates below it are open too.
pub(crate) const OPEN: u8 = 0x4f;

/// A gate that is closed, as it is written. Every other byte counts as closed too.
pub(crate) const CLOSED: u8 = 0;

/// Where the header of the log's first record stands in the file: the file page at which the record starts and the number
/// of its images, in four bytes each. The others stand behind it.
pub const LOG_HEADERS: u64 = 3072;

/// How many bytes these two numbers have.
pub const LOG_HEADER_BYTES: u64 = 8;

/// The first file page of the log.
pub const FIRST_LOG_PAGE: u32 = 2;

/// The file page behind the log.
pub const LOG_END: u32 = FIRST_PAGE as u32;

// Why a file has no verdict.

/// Why a file has no verdict.
#[derive(Clone, Copy, Debug, PartialEq, Eq)]
pub enum Unjudged {
    /// The file isn't made as a database.
    Unmade,
    /// The file isn't a database's.
    NotMdc,
    /// The file is of another version.
    Version(u32),
    /// A call of the disk failed.
    Device,
    /// Want of memory.
    Memory,
}

// Calls at a place of a stream. Each goes on after a signal that cuts it short.
use std::io::{self, Read, Seek, SeekFrom, Write};

/// Answers where the stream ends.
pub fn len(stream: &mut impl Seek) -> io::Result<u64> {
    stream.seek(SeekFrom::End(0))
}

/// Fills `out` with the bytes from a place on. It fails where the stream ends before that.
pub fn read_at(stream: &mut (impl Read + Seek), at: u64, out: &mut [u8]) -> io::Result<()> {
    stream.seek(SeekFrom::Start(at))?;
    stream.read_exact(out)
}

/// Writes all of the bytes from a place on.
pub fn write_at(stream: &mut (impl Write + Seek), at: u64, bytes: &[u8]) -> io::Result<()> {
    stream.seek(SeekFrom::Start(at))?;
    stream.write_all(bytes)
}

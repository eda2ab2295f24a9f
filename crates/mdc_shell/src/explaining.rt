// Why a call of the program stopped, in one line for standard error.
ghost use Rattle.std.specs.Prelude.{◌≡◌, ◌<◌, ◌≤◌, ◌++◌, codes, OnOk};
ghost use Rattle.std.specs.Io.KnownBytes.{Appends};

use crate::status::Status;
use host_edge::{FileHost, StdinSource};
use mdc_outside::{Disk, Host, Source};
use std::fmt::InlineText;
use std::io::{self, Read, Write};
use std::rt::Files;
use std::str;

// How many bytes there are room for of what the system says, and of its number.
const TEXT_SIZE: usize = 256;

/// Says why a call of the program ended with a status from 3 on: of which file or stream what was said, on a line. For any other
/// nothing is said. It fails where the line can't be written.
pub fn explain<R: Files + Drop, O: Write + Drop, I: Read + Drop, W: Write>(
    errors: &mut W,
    status: Status,
    words: &[String],
    host: &FileHost<R, O>,
    input: &StdinSource<I>,
) -> io::Result<()>
    requires disk { status.0 ≡ 3 → 0 < ⟦<FileHost<R, O> as Disk>⟧.disk_faults host.now }
    requires reads { status.0 ≡ 4 → 0 < ⟦<StdinSource<I> as Source>⟧.read_faults input.now }
    requires says { status.0 ≡ 5 → 0 < ⟦<FileHost<R, O> as Host>⟧.say_faults host.now }
    ensures quiet { status.0 ≤ 2 → errors.new ≡ errors.old }
    ensures too_long { status.0 ≡ 7 → OnOk result (Appends (W.contents errors.old) (W.contents errors.new) (codes "mdc: standard input: more than 67108864 bytes\n")) }
    ensures memory { status.0 ≡ 8 → OnOk result (Appends (W.contents errors.old) (W.contents errors.new) (codes "mdc: out of memory\n")) }
{
    match status {
        Status::DISK_FAILED => say_error(errors, file_of(words), host.disk_error().unwrap()),
        Status::UNREAD => say_error(errors, "standard input", input.read_error().unwrap()),
        Status::UNSAID => say_error(errors, "standard output", host.say_error().unwrap()),
        Status::FILE_REFUSED | Status::DAMAGED => say_of(
            errors,
            file_of(words),
            line_in(host.last_said()),
        ),
        Status::TOO_LONG => say_of(errors, "standard input", "more than 67108864 bytes"),
        Status::MEMORY => writeln!(errors, "mdc: out of memory"),
        _ => Ok(()),
    }
}

// The file that the words name, as a line calls it.
fn file_of(words: &[String]) -> &str {
    match words.get(1) {
        Some(word) if word.as_str() == "-" => "scratch file",
        Some(word) => word.as_str(),
        None => "no file",
    }
}

// The text of a line, without its line feed.
fn line_in(said: &[u8]) -> &str {
    let line = said.strip_suffix(b"\n").unwrap_or(said);
    str::from_utf8(line).unwrap_or("")
}

/// Says what the system said of a file or a stream.
pub fn say_error<W: Write>(errors: &mut W, place: &str, error: io::Error) -> io::Result<()> {
    let text = InlineText::<TEXT_SIZE>::of(error);
    say_of(errors, place, without_number(text.as_str()))
}

// What the system said, without the number that `io::Error` puts behind it.
fn without_number(text: &str) -> &str {
    match text.split_once(" (os error ") {
        Some((words, _)) => words,
        None => text,
    }
}

// Says something of a file or a stream.
fn say_of<W: Write>(errors: &mut W, place: &str, said: &str) -> io::Result<()>
    ensures { OnOk result (Appends (W.contents errors.old) (W.contents errors.new) (codes "mdc: " ++ place.now ++ codes ": " ++ said.now ++ codes "\n")) }
{
    writeln!(errors, "mdc: {place}: {said}")
}

// Bytes put behind other bytes, all of them or none.
ghost use Rattle.std.specs.Prelude.{◌≡◌, ◌++◌, decimal, take, OnOk, OnErr};

use itoa::Buffer;
use mdc_values::Memory;

/// Appends the bytes. After `Memory` the output is as before.
pub fn append(bytes: &[u8], out: &mut Vec<u8>) -> Result<(), Memory>
    ensures ok { OnOk result (out.new.items ≡ out.old.items ++ bytes.now) }
    ensures err { OnErr result (out.new.items ≡ out.old.items) }
{
    out.extend_from_slice(bytes)?;
    Ok(())
}

/// Appends a number in decimal. After `Memory` the output is as before.
pub fn append_number(number: u64, out: &mut Vec<u8>) -> Result<(), Memory>
    ensures ok { OnOk result (out.new.items ≡ out.old.items ++ decimal number) }
    ensures err { OnErr result (out.new.items ≡ out.old.items) }
{
    append(Buffer::new().format(number).as_bytes(), out)
}

/// Appends a number and the words behind it. After `Memory` the output is as before.
pub fn append_count(count: u64, words: &[u8], out: &mut Vec<u8>) -> Result<(), Memory>
    ensures ok { OnOk result (out.new.items ≡ out.old.items ++ (decimal count ++ words.now)) }
    ensures err { OnErr result (out.new.items ≡ out.old.items) }
{
    let start = out.len();
    append_number(count, out)?;
    let written = append(words, out);
    kept_if_written(written, start, out)
}

/// Cuts the output back to where it began if writing stopped half way.
pub fn kept_if_written(
    written: Result<(), Memory>,
    start: usize,
    out: &mut Vec<u8>,
) -> Result<(), Memory>
    ensures same { result ≡ written }
    ensures ok { OnOk result (out.new.items ≡ out.old.items) }
    ensures err { OnErr result (out.new.items ≡ take start out.old.items) }
{
    if written.is_err() {
        out.truncate(start);
    }
    written
}

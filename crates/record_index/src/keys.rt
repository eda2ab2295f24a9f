// The key of a row in an index, and its entry.
ghost use Rattle.std.specs.Prelude.{◌≡◌, ◌≤◌, ◌+◌, length, take};
ghost use Rattle.key_codec.specs.Keys.{ArePartsOf, key_bytes};
ghost use Rattle.table_trees.specs.TableTrees.{record_entry};
ghost use Rattle.record_index.specs.RecordIndexes.{HaveKeysIn};

use crate::places::{RID_BYTES, rid_number};
use byteorder::{BigEndian, ByteOrder};
use entry_tree::{Entry, MAX_WIDTH};
use key_codec::{KEY_LIMIT, part_width, put_part};
use mdc_ast::{ColumnDef, KeyPart};
use mdc_values::{List, Rid, Value};

/// The key of a row of these values in an index of these parts. It takes no memory.
pub(crate) fn row_key(
    columns: &List<ColumnDef>,
    parts: &List<KeyPart>,
    values: &List<Value>,
) -> Entry
    requires parts { ArePartsOf columns.now parts.now }
    requires values { HaveKeysIn columns.now parts.now values.now }
    ensures { result ≡ key_bytes columns.now parts.now values.now }
{
    let mut key = [0; KEY_LIMIT];
    let end = put_row_key(&mut key, columns, parts, values);
    Entry::of(&key[..end])
}

/// The entry of a row of these values in a place, in an index of these parts. It takes no memory.
pub(crate) fn row_entry(
    columns: &List<ColumnDef>,
    parts: &List<KeyPart>,
    values: &List<Value>,
    rid: Rid,
) -> Entry
    requires parts { ArePartsOf columns.now parts.now }
    requires values { HaveKeysIn columns.now parts.now values.now }
    ensures { result ≡ record_entry columns.now parts.now values.now rid }
{
    let mut entry = [0; MAX_WIDTH];
    let end = put_row_entry(&mut entry, columns, parts, values, rid);
    Entry::of(&entry[..end])
}

/// Writes the entry of a row to the front of `out`. Answers where it ends.
fn put_row_entry(
    out: &mut [u8],
    columns: &List<ColumnDef>,
    parts: &List<KeyPart>,
    values: &List<Value>,
    rid: Rid,
) -> usize
    requires parts { ArePartsOf columns.now parts.now }
    requires values { HaveKeysIn columns.now parts.now values.now }
    requires room { length (key_bytes columns.now parts.now values.now) + 6 ≤ length out.old }
    ensures entry { take result out.new ≡ record_entry columns.now parts.now values.now rid }
    ensures end { result ≡ length (key_bytes columns.now parts.now values.now) + 6 }
{
    let end = put_row_key(out, columns, parts, values);
    BigEndian::write_uint(&mut out[end..], rid_number(rid), RID_BYTES);
    end + RID_BYTES
}

/// Writes the key of a row to the front of `out`. Answers where it ends.
fn put_row_key(
    out: &mut [u8],
    columns: &List<ColumnDef>,
    parts: &List<KeyPart>,
    values: &List<Value>,
) -> usize
    requires parts { ArePartsOf columns.now parts.now }
    requires values { HaveKeysIn columns.now parts.now values.now }
    requires room { length (key_bytes columns.now parts.now values.now) ≤ length out.old }
    ensures key { take result out.new ≡ key_bytes columns.now parts.now values.now }
    ensures end { result ≡ length (key_bytes columns.now parts.now values.now) }
{
    let mut end = 0;
    for part in parts.as_slice() {
        let place = usize::from(part.column);
        let ty = columns.at(place).ty;
        put_part(&mut out[end..], ty, part.descending, values.at(place));
        end += usize::from(part_width(ty));
    }
    end
}

// Where in a script a byte stands, and the scan for a semicolon that cuts.
ghost use Rattle.std.specs.Prelude.{◌≡◌, ◌≤◌, ◌<◌, length, take, slice_index, Some};
ghost use Rattle.sql_reader.specs.Scan.{behind_plain, place_after, place_behind};
ghost use Rattle.sql_reader.specs.declared.place.Place.TheVariants.{Outside};

use memchr::memchr3;

/// Where in a script a byte stands.
#[derive(Clone, Copy, Debug, PartialEq, Eq)]
pub(crate) enum Place {
    Outside,
    /// Behind one dash, in no text and no comment.
    Dash,
    Text,
    Comment,
}

impl Place {
    /// The place behind a byte, or `None` where the byte is a semicolon that cuts.
    fn after(self, byte: u8) -> Option<Place>
        ensures { result ≡ place_after self byte }
    {
        match self {
            Place::Outside => behind_plain(byte, Place::Dash),
            Place::Dash => behind_plain(byte, Place::Comment),
            Place::Text if byte == b'\'' => Some(Place::Outside),
            Place::Comment if byte == b'\n' => Some(Place::Outside),
            Place::Text | Place::Comment => Some(self),
        }
    }
}

/// The place behind a byte of no text and no comment, where a dash leads to `dashed`.
fn behind_plain(byte: u8, dashed: Place) -> Option<Place>
    ensures { result ≡ behind_plain dashed byte }
{
    match byte {
        b'\'' => Some(Place::Text),
        b';' => None,
        b'-' => Some(dashed),
        _ => Some(Place::Outside),
    }
}

/// How many bytes a scan went over, and the place that it came to.
#[derive(Clone, Copy, Debug, PartialEq, Eq)]
pub(crate) struct Reach {
    pub(crate) count: usize,
    pub(crate) place: Place,
}

/// Scans to the next semicolon that cuts, or to the end.
pub(crate) fn scan(bytes: &[u8], from: Place) -> Reach
    ensures within { result.count ≤ length bytes.now }
    ensures came { place_behind from (take result.count bytes.now) ≡ Some result.place }
    ensures stopped { result.count < length bytes.now → place_after result.place (slice_index bytes.now result.count) ≡ None }
{
    let mut place = from;
    for count in quiet_front(from, bytes)..bytes.len() {
        match place.after(bytes[count]) {
            Some(next) => place = next,
            None => return Reach { count, place },
        }
    }
    Reach {
        count: bytes.len(),
        place,
    }
}

/// How many bytes at the front a scan can pass at once, since they leave it where it is.
fn quiet_front(from: Place, bytes: &[u8]) -> usize
    ensures within { result ≤ length bytes.now }
    ensures stays { place_behind from (take result bytes.now) ≡ Some from }
{
    match from {
        Place::Outside => quiet_len(bytes),
        Place::Dash | Place::Text | Place::Comment => 0,
    }
}

/// How many bytes at the front lead nowhere else, as most bytes do.
fn quiet_len(bytes: &[u8]) -> usize
    ensures within { result ≤ length bytes.now }
    ensures stays { place_behind Outside (take result bytes.now) ≡ Some Outside }
{
    memchr3(b';', b'\'', b'-', bytes).unwrap_or(bytes.len())
}

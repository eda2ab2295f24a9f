// Days of the calendar: which dates exist, and the texts that name them.
ghost use Rattle.std.specs.Prelude.{◌≡◌, ◌+◌, ◌<◌, pos, length, slice_index, IsTrue};
ghost use Rattle.mdc_values.specs.Calendar.{day_named, day_of, is_day_text, is_digit, two_digits_at};

use jiff::civil::Date;

/// The day yyyymmdd of a date. It is None exactly where no such date exists from year 1 to 9999.
pub fn day(year: i16, month: i8, day: i8) -> Option<u32>
    ensures { result ≡ day_of year month day }
{
    if year < 1 || Date::new(year, month, day).is_err() {
        return None;
    }
    Some(10_000 * year as u32 + 100 * month as u32 + day as u32)
}

/// The day that a text YYYY-MM-DD names, if there is one.
pub fn read_day(text: &[u8]) -> Option<u32>
    ensures { result ≡ day_named text.now }
{
    if !is_day_text(text) {
        return None;
    }
    let year = 100 * two_digits(text, 0) as i16 + two_digits(text, 2) as i16;
    day(year, two_digits(text, 5), two_digits(text, 8))
}

fn is_day_text(text: &[u8]) -> bool
    ensures { result ≡ is_day_text text.now }
{
    text.len() == 10
        && text[4] == b'-'
        && text[7] == b'-'
        && text[0].is_ascii_digit()
        && text[1].is_ascii_digit()
        && text[2].is_ascii_digit()
        && text[3].is_ascii_digit()
        && text[5].is_ascii_digit()
        && text[6].is_ascii_digit()
        && text[8].is_ascii_digit()
        && text[9].is_ascii_digit()
}

/// The number of two digits.
fn two_digits(text: &[u8], place: usize) -> i8
    requires within { place + 1 < length text.now }
    requires tens { IsTrue (is_digit (slice_index text.now place)) }
    requires ones { IsTrue (is_digit (slice_index text.now (place + 1))) }
    ensures value { result ≡ pos (two_digits_at text.now place) }
{
    10 * (text[place] - b'0') as i8 + (text[place + 1] - b'0') as i8
}

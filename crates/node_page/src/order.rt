// Byte strings that are compared by words.
ghost use Rattle.std.specs.Prelude.{◌≡◌, ◌+◌, ◌<◌, ◌≤◌, length, take, drop, IfSome};
ghost use Rattle.std.specs.Ordering.{nat_cmp};
ghost use Rattle.std.specs.Cmp.Lexicographic.{slice_cmp};
ghost use Rattle.std.specs.Slice.Scan.{big_endian};
ghost use Rattle.mdc_words.specs.ByteOrder.{below};
ghost use Rattle.node_page.specs.Entries.{IsFirstWord};

use std::cmp::Ordering;

const WORD: usize = 8;

const HALF: usize = 4;

/// Whether a byte string comes before another.
#[tactic(auto, unfolding(mdc_words::specs::ByteOrder::below))]
pub fn is_below(a: &[u8], b: &[u8]) -> bool
    ensures { result ≡ below a.now b.now }
{
    compare(a, b, first_word(b, a.len())).is_lt()
}

/// The first eight bytes of a byte string as a number, where it has this width and so many.
pub fn first_word(s: &[u8], width: usize) -> Option<u64>
    ensures { IfSome result (IsFirstWord width s.now) }
{
    if s.len() == width && WORD <= width {
        Some(word(s, 0))
    } else {
        None
    }
}

/// How a byte string compares to another, whose first word is given where the two have one width and it has one.
pub fn compare(a: &[u8], b: &[u8], first: Option<u64>) -> Ordering
    requires { IfSome first (IsFirstWord (length a.now) b.now) }
    ensures { result ≡ slice_cmp nat_cmp a.now b.now }
{
    if let Some(first) = first {
        return compare_by_words(a, b, first);
    }
    if a.len() == b.len() && HALF <= a.len() && a.len() <= WORD {
        return compare_by_halves(a, b);
    }
    a.cmp(b)
}

// By words of eight bytes, of which the other's first is given.
fn compare_by_words(a: &[u8], b: &[u8], first: u64) -> Ordering
    requires { IsFirstWord (length a.now) b.now first }
    ensures { result ≡ slice_cmp nat_cmp a.now b.now }
{
    let x = word(a, 0);
    if x != first {
        return x.cmp(&first);
    }
    compare_behind(a, b)
}

// The same where the first eight bytes of both are the same. The last eight may overlap those before them.
fn compare_behind(a: &[u8], b: &[u8]) -> Ordering
    requires same { length a.now ≡ length b.now }
    requires long { WORD ≤ length a.now }
    requires alike { big_endian 0 (take WORD a.now) ≡ big_endian 0 (take WORD b.now) }
    ensures { result ≡ slice_cmp nat_cmp a.now b.now }
{
    let last = a.len() - WORD;
    let mut at = next_word(0, last);
    while at < last {
        let x = word(a, at);
        let y = word(b, at);
        if x != y {
            return x.cmp(&y);
        }
        at = next_word(at, last);
    }
    word(a, last).cmp(&word(b, last))
}

// Where the word behind the one at a place begins, or the last one.
fn next_word(at: usize, last: usize) -> usize
    requires { at ≤ last }
    ensures within { result ≤ last }
    ensures behind { result ≤ at + WORD }
    ensures farther { at < last → at < result }
{
    if last - at < WORD { last } else { at + WORD }
}

// By the first four bytes and the last four.
fn compare_by_halves(a: &[u8], b: &[u8]) -> Ordering
    requires same { length a.now ≡ length b.now }
    requires long { HALF ≤ length a.now }
    requires short { length a.now ≤ WORD }
    ensures { result ≡ slice_cmp nat_cmp a.now b.now }
{
    let last = a.len() - HALF;
    let x = half(a, 0);
    let y = half(b, 0);
    if x != y {
        return x.cmp(&y);
    }
    half(a, last).cmp(&half(b, last))
}

// The eight bytes from a place on, as a number.
fn word(s: &[u8], at: usize) -> u64
    requires { at + WORD ≤ length s.now }
    ensures { result ≡ big_endian 0 (take WORD (drop at s.now)) }
{
    u64::from_be_bytes([
        s[at],
        s[at + 1],
        s[at + 2],
        s[at + 3],
        s[at + 4],
        s[at + 5],
        s[at + 6],
        s[at + 7],
    ])
}

// The four bytes from a place on, as a number.
fn half(s: &[u8], at: usize) -> u32
    requires { at + HALF ≤ length s.now }
    ensures { result ≡ big_endian 0 (take HALF (drop at s.now)) }
{
    u32::from_be_bytes([s[at], s[at + 1], s[at + 2], s[at + 3]])
}

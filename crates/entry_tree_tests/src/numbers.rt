// Entries by their numbers, and the orders in which they come.
ghost use Rattle.std.specs.Prelude.{◌≡◌, ◌<◌, length};

use entry_tree::{Entry, MAX_WIDTH, Tree};

/// How many entries there are for the trees of these tests.
pub const NUMBERS: usize = 4096;

// How many of them name different blocks.
const BLOCKS: usize = 16;

/// In what order entries come.
#[derive(Clone, Copy, Debug)]
pub enum Order {
    Rising,
    Falling,
    Shuffled,
}

/// The number that comes as the i-th of so many. In shuffled order none comes twice where there are a power of two.
pub fn number_at(order: Order, i: usize, many: usize) -> usize
    requires { i < many }
    ensures { result < many }
{
    match order {
        Order::Rising => i,
        Order::Falling => many - 1 - i,
        Order::Shuffled => i.wrapping_mul(2731) % many,
    }
}

/// The block that the entry of a number names, in its last four bytes.
pub fn block_of(n: usize) -> u32 {
    (n % BLOCKS) as u32
}

/// The entry of a number below `NUMBERS`, which lies above that of each lower number.
pub fn entry_of(tree: &Tree, n: usize) -> Entry
    ensures { length result ≡ tree.now.width }
{
    let mut bytes = [0; MAX_WIDTH];
    let width = usize::from(tree.width);
    bytes[0] = (n / BLOCKS % 256) as u8;
    bytes[width - 4..width].copy_from_slice(&block_of(n).to_be_bytes());
    Entry::of(&bytes[..width])
}

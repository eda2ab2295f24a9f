// The entries that are put into a tree.

/// The number of bytes of an entry.
pub const WIDTH: u16 = 15;

/// The bytes of an entry.
pub type Bytes = [u8; 15];

/// In what order entries come.
#[derive(Clone, Copy, Debug)]
pub enum Order {
    Shuffled,
    Rising,
}

/// The entry that comes as the i-th in an order. No two are the same.
pub fn entry(order: Order, i: u32) -> Bytes {
    let number = match order {
        Order::Shuffled => shuffled(i),
        Order::Rising => i,
    };
    let mut bytes = [0; 15];
    bytes[..4].copy_from_slice(&number.to_be_bytes());
    bytes[11..].copy_from_slice(&i.to_be_bytes());
    bytes
}

// Another number for each number, far from those of its neighbours.
fn shuffled(i: u32) -> u32 {
    let mixed = (i ^ i >> 16).wrapping_mul(0x85eb_ca6b);
    let mixed = (mixed ^ mixed >> 13).wrapping_mul(0xc2b2_ae35);
    mixed ^ mixed >> 16
}

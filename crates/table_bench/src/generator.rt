// Numbers that look like chance, the same ones each time.
ghost use Rattle.std.specs.Prelude.{◌<◌};

/// Numbers that come one after the other.
#[derive(Clone, Copy, Debug)]
pub struct Numbers {
    state: u64,
}

impl Numbers {
    /// The numbers of a row, by the seed of a table and which of its rows it is.
    pub fn of_row(seed: u32, number: u64, which: u64) -> Numbers {
        let start = u64::from(seed).wrapping_mul(0x9e37_79b9_7f4a_7c15);
        let row = number.wrapping_mul(0xd1b5_4a32_d192_ed03);
        Numbers {
            state: start.wrapping_add(row).wrapping_add(which),
        }
    }

    /// The next number, which is below a bound.
    pub fn below(&mut self, bound: u64) -> u64
        requires { 0 < bound }
        ensures { result < bound }
    {
        self.next() % bound
    }

    // The next number.
    fn next(&mut self) -> u64 {
        self.state = self.state.wrapping_add(0x9e37_79b9_7f4a_7c15);
        let mixed = (self.state ^ self.state >> 30).wrapping_mul(0xbf58_476d_1ce4_e5b9);
        let mixed = (mixed ^ mixed >> 27).wrapping_mul(0x94d0_49bb_1331_11eb);
        mixed ^ mixed >> 31
    }
}

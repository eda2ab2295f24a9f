// Numbers without a pattern, which are the same for the same seed.

/// The last number.
#[derive(Clone, Copy, Debug)]
pub struct Dice {
    pub number: u64,
}

impl Dice {
    /// The next of so many numbers, from 0 on.
    pub fn roll(&mut self, sides: usize) -> usize {
        self.number = self
            .number
            .wrapping_mul(6_364_136_223_846_793_005)
            .wrapping_add(1_442_695_040_888_963_407);
        let any = (self.number >> 33) as usize;
        if sides == 0 { 0 } else { any % sides }
    }

    /// One of these texts.
    pub fn pick<'t>(&mut self, texts: &[&'t [u8]]) -> &'t [u8] {
        let at = self.roll(texts.len());
        match texts.get(at) {
            Some(text) => text,
            None => b"",
        }
    }
}

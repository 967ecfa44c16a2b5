//! Numbers from a seed, by the published generator SplitMix64 (Steele, Lea and Flood, 2014).
ghost use Rattle.std.specs.Prelude.{◌<◌};

/// A source of numbers. The same seed gives the same numbers.
#[derive(Drop)]
pub struct Random {
    state: u64,
}

impl Random {
    pub fn new(seed: u64) -> Random {
        Random { state: seed }
    }

    /// The next number.
    pub fn next(&mut self) -> u64 {
        self.state = self.state.wrapping_add(0x9E37_79B9_7F4A_7C15);
        let mixed = (self.state ^ (self.state >> 30)).wrapping_mul(0xBF58_476D_1CE4_E5B9);
        let mixed = (mixed ^ (mixed >> 27)).wrapping_mul(0x94D0_49BB_1331_11EB);
        mixed ^ (mixed >> 31)
    }

    /// A number below the bound.
    pub fn below(&mut self, bound: u64) -> u64
        requires { 0 < bound }
        ensures { result < bound }
    {
        self.next() % bound
    }

    /// Whether one of as many equal chances comes.
    pub fn one_in(&mut self, chances: u64) -> bool
        requires { 0 < chances }
    {
        self.below(chances) == 0
    }

    /// One of the texts, or the empty one if there is none.
    pub fn pick<'t>(&mut self, texts: &[&'t str]) -> &'t str {
        match texts {
            [] => "",
            _ => texts[self.below(texts.len() as u64) as usize],
        }
    }
}

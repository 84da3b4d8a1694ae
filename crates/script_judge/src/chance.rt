// Numbers that look like chance.

ghost use Rattle.std.specs.Prelude.{◌<◌, length};

/// A linear congruential generator of 64 bits. The same seed gives the same numbers.
#[derive(Clone, Copy)]
pub(crate) struct Chance {
    state: u64,
}

impl Chance {
    pub(crate) fn new(seed: u64) -> Chance {
        Chance { state: seed }
    }

    /// A number below this one, of the upper bits.
    pub(crate) fn below(&mut self, count: u64) -> u64
        requires { 0 < count }
        ensures { result < count }
    {
        self.state = self
            .state
            .wrapping_mul(6_364_136_223_846_793_005)
            .wrapping_add(1_442_695_040_888_963_407);
        (self.state >> 33) % count
    }

    /// Once in so many draws.
    pub(crate) fn once_in(&mut self, count: u64) -> bool
        requires { 0 < count }
    {
        self.below(count) == 0
    }

    /// One of the words.
    pub(crate) fn pick(&mut self, words: &[&'static str]) -> &'static str
        requires { 0 < length words.now }
    {
        words[self.below(words.len() as u64) as usize]
    }
}

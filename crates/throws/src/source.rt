ghost use Rattle.std.specs.Prelude.{◌≡◌, ℕ, List};
ghost use Rattle.throws.specs.Sources.{listed, generated};
ghost use Rattle.throws.specs.Words.{TookWord, generator};

/// A source of 32-bit words. Its meaning is the list of those that wait in it.
pub trait Source {
    ghost waiting: { Self → List ℕ };

    /// Takes the first waiting word off and answers it; none exactly where nothing waits.
    fn word(&mut self) -> Option<u32>
        ensures { TookWord result (waiting self.old) (waiting self.new) };
}

/// The words of the caller's list that are left, in its order.
#[derive(Drop)]
pub struct Listed<'a> {
    words: &'a [u32],
}

impl<'a> Listed<'a> {
    /// All words of the list wait.
    pub fn new(words: &'a [u32]) -> Listed<'a>
        ensures { ⟦<Listed<'a> as Source>⟧.waiting result ≡ words.now }
    {
        Listed { words }
    }
}

impl Source for Listed<'_> {
    ghost waiting = { listed };

    fn word(&mut self) -> Option<u32> {
        let (first, rest) = self.words.split_first()?;
        self.words = rest;
        Some(*first)
    }
}

/// The xorshift32 generator, in which a given count of words waits.
#[derive(Drop)]
pub struct Xorshift32 {
    state: u32,
    count: u32,
}

impl Xorshift32 {
    /// The generator at this seed, with so many words; with seed 0 nothing waits.
    pub fn new(seed: u32, count: u32) -> Xorshift32
        ensures { ⟦<Xorshift32 as Source>⟧.waiting result ≡ generator seed count }
    {
        let count = if seed == 0 { 0 } else { count };
        Xorshift32 { state: seed, count }
    }
}

impl Source for Xorshift32 {
    ghost waiting = { generated };

    fn word(&mut self) -> Option<u32> {
        let left = self.count.checked_sub(1)?;
        let a = self.state ^ (self.state << 13);
        let b = a ^ (a >> 17);
        let w = b ^ (b << 5);
        self.state = w;
        self.count = left;
        Some(w)
    }
}

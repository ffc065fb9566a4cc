// A question as it was read: the codes of its symbols.
ghost use Rattle.std.specs.Prelude.{◌≡◌, ◌≤◌, take};

// The most symbols that a question has: as its head's number, and as a length.
pub const MOST: u8 = 32;

pub const MOST_SYMBOLS: usize = MOST as usize;

// How many symbols a question has, and their codes, with 0 after them.
#[derive(Clone, Copy, PartialEq, Eq)]
pub struct Question {
    pub count: usize,
    pub codes: [u8; MOST_SYMBOLS],
    ghost few: { count ≤ 32 },
}

impl Question {
    // The codes of its symbols.
    pub fn symbols(&self) -> &[u8]
        ensures { result.now ≡ take self.now.count self.now.codes }
    {
        &self.codes[..self.count]
    }
}

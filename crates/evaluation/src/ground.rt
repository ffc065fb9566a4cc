// What an evaluation stands on: a register's file in rows, and the symbols of a path.

ghost use Rattle.std.specs.Prelude.{◌≡◌, true, ◌*◌, ◌≤◌, length};
ghost use Rattle.theory.specs.Postfix.{path_of};
ghost use Rattle.theory.specs.Words.{row_words};
ghost use Rattle.evaluation.specs.Grounded.{symbols_of, path?};

use register::Register;

// What a number of records is rounded up by.
const ROUND_UP: usize = rows::BITS - 1;

// A register in rows: how many words a row has, with a bit for each of its records.
#[derive(Clone, Copy)]
pub struct Ground<'a> {
    pub register: Register<'a>,
    pub words: usize,
    pub ghost wide: { row_words register.records ≡ words },
}

// Symbols as arrays have them, no more than a member's: of each its number, and the set of a join through one.
#[derive(Clone, Copy)]
pub struct Symbols<'a> {
    pub numbers: &'a [u8],
    pub sets: &'a [u64],
    pub ghost paired: { length sets.now ≡ length numbers.now },
    pub ghost few: { length numbers.now ≤ 48 },
}

// Symbols that make a path.
#[derive(Clone, Copy)]
pub struct Path<'a> {
    pub symbols: Symbols<'a>,
    pub ghost whole: { path? (path_of (symbols_of symbols.numbers.now symbols.sets.now)) ≡ true },
}

// The words of a row of n records.
pub fn row_words(n: usize) -> usize
    requires { n ≤ 1024 }
    ensures { result ≡ row_words n }
{
    (n + ROUND_UP) / rows::BITS
}

impl<'a> Ground<'a> {
    // The ground of a register.
    pub fn new(register: Register<'a>) -> Ground<'a>
        ensures { result.register ≡ register.entry }
    {
        let words = row_words(register.records);
        Ground { register, words }
    }

    // The words of a relation.
    pub fn size(&self) -> usize
        ensures { (result ≡ self.now.register.records * self.now.words) × (result ≤ 16384) }
    {
        self.register.records * self.words
    }
}

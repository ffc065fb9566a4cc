// Rows of bits in words that are lent: bit t of the row at word r is bit t mod 64 of word r + t div 64.
#![tactic(auto)]

ghost use Rattle.std.specs.Prelude.{◌≡◌, refl, Bool, ℕ, ◌&&◌, ◌||◌, not, ◌+◌, ◌*◌, ◌/◌, ◌<◌, ◌≤◌, eqb, length};
ghost use Rattle.std.specs.Int.Bits.{bit_or, bit_and, bit_xor};
ghost use Rattle.std.specs.Iterator.{YieldsFirst, item_count};
ghost use Rattle.theory.specs.Lists.{some?, range};
ghost use Rattle.bits.specs.Bit.{bit_of};
ghost use Rattle.rows.specs.Kept.{Wrote};
ghost use Rattle.rows.specs.Row.{row_bit, Row, Put, common, Found};
ghost use Rattle.rows.specs.BitList.{ones};
ghost use Rattle.rows.specs.Merged.{excluded_bits};
ghost use Rattle.bits.proofs.Bits.{bit_of_or, bit_of_and};

// The bits of a word.
pub const BITS: usize = 64;

// The words of the widest rows, and the most records of a row.
pub const WIDEST: usize = 16;

pub const RECORDS: usize = BITS * WIDEST;

// Bit t of the row at r.
pub fn has(words: &[u64], r: usize, t: usize) -> bool
    requires { r + t / 64 < length words.now }
    ensures { result ≡ row_bit words.now r t }
{
    bits::bit(words[r + t / BITS], t % BITS)
}

// Sets bit t of the row at d.
pub fn set(words: &mut [u64], d: usize, t: usize)
    requires { d + t / 64 < length words.old }
    ensures { Put d t (λ j. row_bit words.old d j || eqb j t) words.old words.new }
{
    let a = d + t / BITS;
    words[a] = bits::with_bit(words[a], t % BITS);
}

// Clears bit t of the row at d.
pub fn unset(words: &mut [u64], d: usize, t: usize)
    requires { d + t / 64 < length words.old }
    ensures { Put d t (λ j. row_bit words.old d j && not (eqb j t)) words.old words.new }
{
    let a = d + t / BITS;
    words[a] = bits::without_bit(words[a], t % BITS);
}

// Sets bit t of the row at the start, if b is true.
pub fn set_if(words: &mut [u64], t: usize, b: bool)
    requires { t / 64 < length words.old }
    ensures { Put 0 t (λ j. row_bit words.old 0 j || (b && eqb j t)) words.old words.new }
{
    if b {
        set(words, 0, t);
    }
}

// The n words from d on become 0.
pub fn clear(words: &mut [u64], d: usize, n: usize)
    requires { d + n ≤ length words.old }
    ensures { Wrote d n (λ j. 0) words.old words.new }
{
    words[d..d + n].fill(0);
}

// How many of the numbers from g on, below n, a word has: 64, or all that are left.
pub fn in_word(n: usize, g: usize) -> usize
    requires { g ≤ n }
    ensures { (result ≤ 64) × (g + result ≤ n) × (result < 64 → g + result ≡ n) }
{
    (n - g).min(BITS)
}

// Whether the row of n words at r has a bit. The loop unites the words: with no early exit it can be vectorised.
pub fn any(words: &[u64], r: usize, n: usize) -> bool
    requires { r + n ≤ length words.now }
    ensures { result ≡ some? (row_bit words.now r) (range (64 * n)) }
{
    let mut v = 0;
    for x in &words[r..r + n] {
        v |= *x;
    }
    v != 0
}

// The first bit that the row of n words at r and both masks have.
pub fn first(words: &[u64], r: usize, a: &[u64], b: &[u64], n: usize) -> Option<usize>
    requires { (r + n ≤ length words.now) × (n ≤ length a.now) × (n ≤ length b.now) × (n ≤ 16) }
    ensures { Found (common words.now r a.now b.now) (64 * n) result }
{
    // By index: three slices zipped and numbered are no plainer.
    for i in 0..n {
        let v = words[r + i] & (a[i] & b[i]);
        if v != 0 {
            return Some(BITS * i + bits::lowest(v));
        }
    }
    None
}

// The bits of a word, the lowest first.
#[derive(Clone, Copy)]
pub struct Ones(pub u64);

impl Iterator for Ones {
    type Item = usize;

    ghost next_gives = { YieldsFirst (λ s. ones s.0) };

    ghost remaining = { item_count (λ s. ones s.0) };

    fn next(&mut self) -> Option<usize> {
        let v = self.0;
        if v == 0 {
            return None;
        }
        self.0 = v & (v - 1);
        Some(bits::lowest(v))
    }
}

// What becomes of a word, and of each of its bits, that another one is merged into.
pub trait Merge {
    ghost word: { ℕ → ℕ → ℕ };

    ghost bit: { Bool → Bool → Bool };

    fn merged(x: u64, y: u64) -> u64
        ensures { result ≡ word x y };

    // A merged word has the merged bits.
    ghost bits: { (x y k : ℕ) → bit_of (word x y) k ≡ bit (bit_of x k) (bit_of y k) };
}

// It becomes the other.
pub struct Copied;

impl Merge for Copied {
    ghost word = { λ x y. y };

    ghost bit = { λ a b. b };

    fn merged(_x: u64, y: u64) -> u64 {
        y
    }

    ghost bits = { λ x y k. refl };
}

// It takes in the other's bits.
pub struct United;

impl Merge for United {
    ghost word = { bit_or };

    ghost bit = { ◌||◌ };

    fn merged(x: u64, y: u64) -> u64 {
        x | y
    }

    ghost bits = { bit_of_or };
}

// It loses the bits that the other lacks.
pub struct Restricted;

impl Merge for Restricted {
    ghost word = { bit_and };

    ghost bit = { ◌&&◌ };

    fn merged(x: u64, y: u64) -> u64 {
        x & y
    }

    ghost bits = { bit_of_and };
}

// It loses the other's bits.
pub struct Excluded;

impl Merge for Excluded {
    ghost word = { λ x y. bit_and x (bit_xor x y) };

    ghost bit = { λ a b. a && not b };

    fn merged(x: u64, y: u64) -> u64 {
        x & (x ^ y)
    }

    ghost bits = { excluded_bits };
}

// The row of n words at s is merged into the one at d. The loop is short, so that it is inlined at each call. Loops that write words go by
// index: nothing is known of words that were written through `iter_mut`.
fn merge_into<M: Merge>(to: &mut [u64], d: usize, from: &[u64], s: usize, n: usize)
    requires { (d + n ≤ length to.old) × (s + n ≤ length from.now) }
    ensures { Row d n (λ t. M.bit (row_bit to.old d t) (row_bit from.now s t)) to.old to.new }
{
    for j in 0..n {
        to[d + j] = M::merged(to[d + j], from[s + j]);
    }
}

// The row of n words at d becomes the one at s. By index, not `copy_from_slice`, for the reason beside `triples::copy`.
pub fn copy(to: &mut [u64], d: usize, from: &[u64], s: usize, n: usize)
    requires { (d + n ≤ length to.old) × (s + n ≤ length from.now) }
    ensures { Row d n (row_bit from.now s) to.old to.new }
{
    merge_into::<Copied>(to, d, from, s, n);
}

// The row of n words at d takes in the bits of the one at s.
pub fn unite(to: &mut [u64], d: usize, from: &[u64], s: usize, n: usize)
    requires { (d + n ≤ length to.old) × (s + n ≤ length from.now) }
    ensures { Row d n (λ t. row_bit to.old d t || row_bit from.now s t) to.old to.new }
{
    merge_into::<United>(to, d, from, s, n);
}

// The row of n words at d loses the bits that the one at s lacks.
pub fn restrict(to: &mut [u64], d: usize, from: &[u64], s: usize, n: usize)
    requires { (d + n ≤ length to.old) × (s + n ≤ length from.now) }
    ensures { Row d n (λ t. row_bit to.old d t && row_bit from.now s t) to.old to.new }
{
    merge_into::<Restricted>(to, d, from, s, n);
}

// The row of n words at d loses the bits of the one at s.
pub fn exclude(to: &mut [u64], d: usize, from: &[u64], s: usize, n: usize)
    requires { (d + n ≤ length to.old) × (s + n ≤ length from.now) }
    ensures { Row d n (λ t. row_bit to.old d t && not (row_bit from.now s t)) to.old to.new }
{
    merge_into::<Excluded>(to, d, from, s, n);
}

// The row of n words at d takes in those bits of the one at s that the mask has.
pub fn unite_masked(to: &mut [u64], d: usize, from: &[u64], s: usize, mask: &[u64], n: usize)
    requires { (d + n ≤ length to.old) × (s + n ≤ length from.now) × (n ≤ length mask.now) }
    ensures { Row d n (λ t. row_bit to.old d t || (row_bit from.now s t && row_bit mask.now 0 t))
        to.old to.new }
{
    for j in 0..n {
        to[d + j] |= from[s + j] & mask[j];
    }
}

// The n words at s are merged into those at d, which lie before them in the same words.
pub fn merge_within<M: Merge>(words: &mut [u64], d: usize, s: usize, n: usize)
    requires { (d + n ≤ s) × (s + n ≤ length words.old) }
    ensures { Row d n (λ t. M.bit (row_bit words.old d t) (row_bit words.old s t)) words.old words.new }
{
    for j in 0..n {
        words[d + j] = M::merged(words[d + j], words[s + j]);
    }
}

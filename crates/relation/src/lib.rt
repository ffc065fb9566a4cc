// Relations on up to 1,024 records in words that are lent: n rows of w words, the relation at word b.
// An operation of two relations leaves its result in the first one's place and changes no other word.
// Where a relation lies is told by numbers, since public functions keep their signatures.
#![tactic(auto)]

ghost use Rattle.std.specs.Prelude.{◌≡◌, true, ◌&&◌, ◌||◌, ℕ, ◌+◌, ◌*◌, ◌<◌, ◌≤◌, eqb, length};
ghost use Rattle.bits.specs.Bit.{bit_of};
ghost use Rattle.theory.specs.Lists.{some?, range};
ghost use Rattle.theory.specs.PathExpr.{union, conjunction, branch_right, branch_left};
ghost use Rattle.theory.specs.Evaluation.{join?, op?};
ghost use Rattle.rows.specs.Row.{row_bit, Row, mask_of, Word};
ghost use Rattle.relation.specs.Pairs.{pair_at, Made, Combined, Clean, CleanRow, taken, taken_row, followed};

use rows::{Copied, Ones, Restricted, United};

// Adds the pair (s, t) to the relation at b.
pub fn set_pair(work: &mut [u64], b: usize, n: usize, w: usize, s: usize, t: usize)
    requires { (b + n * w ≤ length work.old) × (n ≤ 64 * w) × (s < n) × (t < n) }
    ensures { Made b n w (λ i j. pair_at work.old b w i j || (eqb i s && eqb j t)) work.old work.new }
{
    rows::set(work, b + s * w, t);
}

// As `take_word`, by a loop over the bits.
fn take_bits(row: &mut [u64], work: &[u64], q: usize, n: usize, w: usize, g: usize, v: u64)
    requires { (w ≤ length row.old) × (q + n * w ≤ length work.now) × ((i : ℕ) → bit_of v i ≡ true → g + i < n) }
    ensures { Row 0 w (taken row.old work.now q w g v 64) row.old row.new }
{
    for k in Ones(v) {
        rows::unite(row, 0, work, q + (g + k) * w, w);
    }
}

// As `take_word`, by way of a row of its own, which nothing else can reach: it stays in registers while the rows come to it.
fn take_aside(row: &mut [u64], work: &[u64], q: usize, n: usize, w: usize, g: usize, v: u64)
    requires { (w ≤ length row.old) × (w ≤ 16) × (q + n * w ≤ length work.now) × ((i : ℕ) → bit_of v i ≡ true → g + i < n) }
    ensures { Row 0 w (taken row.old work.now q w g v 64) row.old row.new }
{
    let mut all = [0u64; rows::WIDEST];
    take_bits(&mut all, work, q, n, w, g, v);
    rows::unite(row, 0, &all, 0, w);
}

// As `take_word`, for a word of many bits: where rows are as long as most are, by loops of constant length.
pub fn gather(row: &mut [u64], work: &[u64], q: usize, n: usize, w: usize, g: usize, v: u64)
    requires { (w ≤ length row.old) × (q + n * w ≤ length work.now) × ((i : ℕ) → bit_of v i ≡ true → g + i < n) }
    ensures { Row 0 w (taken row.old work.now q w g v 64) row.old row.new }
{
    match w {
        1 => take_aside(row, work, q, n, 1, g, v),
        2 => take_aside(row, work, q, n, 2, g, v),
        4 => take_aside(row, work, q, n, 4, g, v),
        8 => take_aside(row, work, q, n, 8, g, v),
        rows::WIDEST => take_aside(row, work, q, n, rows::WIDEST, g, v),
        _ => take_bits(row, work, q, n, w, g, v),
    }
}

// The row takes in row g + i of the relation at q, for each bit i of v. The loop for rows of 16 words, those of the largest registers, is
// inlined where it is called.
pub fn take_word(row: &mut [u64], work: &[u64], q: usize, n: usize, w: usize, g: usize, v: u64)
    requires { (w ≤ length row.old) × (q + n * w ≤ length work.now) × ((i : ℕ) → bit_of v i ≡ true → g + i < n) }
    ensures { Row 0 w (taken row.old work.now q w g v 64) row.old row.new }
{
    if w == rows::WIDEST {
        take_bits(row, work, q, n, rows::WIDEST, g, v);
        return;
    }
    gather(row, work, q, n, w, g, v);
}

// As `take_word`; most words have no bit, which is tested first.
fn take_some(row: &mut [u64], work: &[u64], q: usize, n: usize, w: usize, g: usize, v: u64)
    requires { (w ≤ length row.old) × (q + n * w ≤ length work.now) × ((i : ℕ) → bit_of v i ≡ true → g + i < n) }
    ensures { Row 0 w (taken row.old work.now q w g v 64) row.old row.new }
{
    if v != 0 {
        take_word(row, work, q, n, w, g, v);
    }
}

// The row takes in row z of the relation at q, for each z that the row at d of `from` and the one at m of the mask have.
pub fn take_row(
    row: &mut [u64],
    from: &[u64],
    d: usize,
    work: &[u64],
    q: usize,
    n: usize,
    w: usize,
    mask: &[u64],
    m: usize,
)
    requires { (w ≤ length row.old) × (d + w ≤ length from.now) × (q + n * w ≤ length work.now) × (w ≤ 16) × (m + w ≤ length mask.now) × CleanRow from.now d n w }
    ensures { Row 0 w (taken_row row.old from.now d work.now q w mask.now m (64 * w)) row.old row.new }
{
    for i in 0..w {
        let v = from[d + i] & mask[m + i];
        take_some(row, work, q, n, w, rows::BITS * i, v);
    }
}

// The row becomes the union of the rows z of the relation at q, for each z that it and the row at m of the mask have.
pub fn follow(row: &mut [u64], work: &[u64], q: usize, n: usize, w: usize, mask: &[u64], m: usize)
    requires { (w ≤ length row.old) × (q + n * w ≤ length work.now) × (w ≤ 16) × (n ≤ 64 * w) × (m + w ≤ length mask.now) × CleanRow row.old 0 n w }
    ensures { Row 0 w (followed row.old 0 work.now q n w mask.now m) row.old row.new }
{
    let mut next = [0u64; rows::WIDEST];
    take_row(&mut next, row, 0, work, q, n, w, mask, m);
    rows::copy(row, 0, &next, 0, w);
}

// The row at d becomes the union of the rows z of the relation at q, for each z that it and the mask have.
fn follow_row(work: &mut [u64], d: usize, q: usize, n: usize, w: usize, mask: &[u64])
    requires { (d + w ≤ q) × (q + n * w ≤ length work.old) × (w ≤ 16) × (n ≤ 64 * w) × (w ≤ length mask.now) × CleanRow work.old d n w }
    ensures { Row d w (followed work.old d work.old q n w mask.now 0) work.old work.new }
{
    let mut joined = [0u64; rows::WIDEST];
    take_row(&mut joined, work, d, work, q, n, w, mask, 0);
    rows::copy(work, d, &joined, 0, w);
}

// As `follow_row`; an empty row stays, which is tested first.
fn join_row(work: &mut [u64], d: usize, q: usize, n: usize, w: usize, mask: &[u64])
    requires { (d + w ≤ q) × (q + n * w ≤ length work.old) × (w ≤ 16) × (n ≤ 64 * w) × (w ≤ length mask.now) × CleanRow work.old d n w }
    ensures { Row d w (followed work.old d work.old q n w mask.now 0) work.old work.new }
{
    if rows::any(work, d, w) {
        follow_row(work, d, q, n, w, mask);
    }
}

// The relation at p becomes its join with the one at q, through the records that the mask has. Its bits are taken from these two as they
// came, row by row, with no spare relation: no word outside the one at p changes (`kept` of `Made`).
pub fn join(work: &mut [u64], p: usize, q: usize, n: usize, w: usize, mask: &[u64])
    requires { (p + n * w ≤ q) × (q + n * w ≤ length work.old) × (w ≤ 16) × (n ≤ 64 * w) × (w ≤ length mask.now) × Clean work.old p n w }
    ensures { Combined (join? n (row_bit mask.now 0)) p q n w work.old work.new }
{
    for s in 0..n {
        join_row(work, p + s * w, q, n, w, mask);
    }
}

// The relation at p takes in the pairs of the one at q.
pub fn union(work: &mut [u64], p: usize, q: usize, n: usize, w: usize)
    requires { (p + n * w ≤ q) × (q + n * w ≤ length work.old) × (w ≤ 16) }
    ensures { Combined (op? n union) p q n w work.old work.new }
{
    rows::merge_within::<United>(work, p, q, n * w);
}

// The relation at p loses the pairs that the one at q lacks.
pub fn intersection(work: &mut [u64], p: usize, q: usize, n: usize, w: usize)
    requires { (p + n * w ≤ q) × (q + n * w ≤ length work.old) × (w ≤ 16) }
    ensures { Combined (op? n conjunction) p q n w work.old work.new }
{
    rows::merge_within::<Restricted>(work, p, q, n * w);
}

// The word of a mask for the m records from g on: those from which a pair of the relation at q leads.
fn source_word(work: &[u64], q: usize, n: usize, w: usize, g: usize, m: usize) -> u64
    requires { (q + n * w ≤ length work.now) × (n ≤ 64 * w) × Clean work.now q n w × (g + m ≤ n) × (m ≤ 64) }
    ensures { Word (λ i. some? (pair_at work.now q w (g + i)) (range n)) m result }
{
    let mut v = 0;
    for i in 0..m {
        if rows::any(work, q + (g + i) * w, w) {
            v = bits::with_bit(v, i);
        }
    }
    v
}

// The mask becomes the records from which a pair of the relation at q leads, word by word; g is the first record of word i, or n where all
// records are done.
pub fn sources(mask: &mut [u64], work: &[u64], q: usize, n: usize, w: usize)
    requires { (w ≤ length mask.old) × (q + n * w ≤ length work.now) × (n ≤ 64 * w) × Clean work.now q n w }
    ensures { Row 0 w (mask_of (λ t. some? (pair_at work.now q w t) (range n)) n) mask.old mask.new }
{
    let mut g = 0;
    for i in 0..w {
        let m = rows::in_word(n, g);
        mask[i] = source_word(work, q, n, w, g, m);
        g = g + m;
    }
}

// The relation at b loses the pairs that lead to a record that the mask lacks.
fn keep_targets(work: &mut [u64], b: usize, n: usize, w: usize, mask: &[u64])
    requires { (b + n * w ≤ length work.old) × (w ≤ length mask.now) }
    ensures { Made b n w (λ s t. pair_at work.old b w s t && row_bit mask.now 0 t) work.old work.new }
{
    for s in 0..n {
        rows::restrict(work, b + s * w, mask, 0, w);
    }
}

// The relation at p loses the pairs (s, t) where no pair of the one at q leads from t.
pub fn branch_right(work: &mut [u64], p: usize, q: usize, n: usize, w: usize)
    requires { (p + n * w ≤ q) × (q + n * w ≤ length work.old) × (w ≤ 16) × (n ≤ 64 * w) × Clean work.old p n w × Clean work.old q n w }
    ensures { Combined (op? n branch_right) p q n w work.old work.new }
{
    let mut mask = [0u64; rows::WIDEST];
    sources(&mut mask, work, q, n, w);
    keep_targets(work, p, n, w, &mask);
}

// The row at d becomes the one at s, unless it is empty.
fn branch_row(work: &mut [u64], d: usize, s: usize, n: usize, w: usize)
    requires { (d + w ≤ s) × (s + w ≤ length work.old) × (w ≤ 16) × (n ≤ 64 * w) × CleanRow work.old d n w }
    ensures { Row d w (λ t. row_bit work.old s t && some? (row_bit work.old d) (range n)) work.old work.new }
{
    if rows::any(work, d, w) {
        rows::merge_within::<Copied>(work, d, s, w);
    }
}

// The relation at p becomes the pairs (s, t) of the one at q where some pair of its own led from s.
pub fn branch_left(work: &mut [u64], p: usize, q: usize, n: usize, w: usize)
    requires { (p + n * w ≤ q) × (q + n * w ≤ length work.old) × (w ≤ 16) × (n ≤ 64 * w) × Clean work.old p n w }
    ensures { Combined (op? n branch_left) p q n w work.old work.new }
{
    for s in 0..n {
        branch_row(work, p + s * w, q + s * w, n, w);
    }
}

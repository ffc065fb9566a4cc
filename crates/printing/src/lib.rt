// What the program prints, as bytes in an area that is lent. Not by Display: a fmt, derived or written, ensures nothing that a proof can use,
// and `paths_main::run` promises each byte (Prints).
#![tactic(auto)]

ghost use Rattle.std.specs.Prelude.{◌≡◌, ◌++◌, ◌+◌, ◌*◌, ◌≤◌, length};
ghost use Rattle.theory.specs.Lists.{filter, range};
ghost use Rattle.theory.specs.Words.{row_words};
ghost use Rattle.rows.specs.Row.{row_bit};
ghost use Rattle.relation.specs.Pairs.{pair_at};
ghost use Rattle.fields.specs.Contract.{number_of, place_of};
ghost use Rattle.encode.specs.BytesWritten.{BytesWritten};
ghost use Rattle.printing.specs.Text.{decimal, line, row_lines, lines, count, answer_text, in_source, refusal_text};

use fields::{Refusal, Source};
use itoa::Buffer;

// The bytes of s.
fn put_text(out: &mut [u8], at: usize, s: &[u8]) -> usize
    requires { at + length s.now ≤ length out.old }
    ensures { BytesWritten out.old out.new at result s.now }
{
    let mut a = at;
    for &b in s {
        a = encode::put_byte(out, a, b);
    }
    a
}

// The decimal digits of n.
fn put_decimal(out: &mut [u8], at: usize, n: u64) -> usize
    requires { at + length (decimal n) ≤ length out.old }
    ensures { BytesWritten out.old out.new at result (decimal n) }
{
    let mut digits = Buffer::new();
    put_text(out, at, digits.format(n).as_bytes())
}

// The bytes of s, and then the decimal digits of n.
fn put_number(out: &mut [u8], at: usize, s: &[u8], n: u64) -> usize
    requires { at + length (s.now ++ decimal n) ≤ length out.old }
    ensures { BytesWritten out.old out.new at result (s.now ++ decimal n) }
{
    let a = put_text(out, at, s);
    put_decimal(out, a, n)
}

// The line of the pair (s, t).
fn put_line(out: &mut [u8], at: usize, s: usize, t: usize) -> usize
    requires { at + length (line s t) ≤ length out.old }
    ensures { BytesWritten out.old out.new at result (line s t) }
{
    let a = put_decimal(out, at, s as u64);
    let b = put_number(out, a, b" ", t as u64);
    put_text(out, b, b"\n")
}

// A line for each pair from s: the row of n bits at r.
fn put_row(out: &mut [u8], at: usize, words: &[u64], r: usize, s: usize, n: usize) -> usize
    requires { (r + row_words n ≤ length words.now) × (at + length (row_lines (row_bit words.now r) s n) ≤ length out.old) }
    ensures { BytesWritten out.old out.new at result (row_lines (row_bit words.now r) s n) }
{
    let mut a = at;
    for t in 0..n {
        if rows::has(words, r, t) {
            a = put_line(out, a, s, t);
        }
    }
    a
}

// A line for each pair of n records, by the words of an answer, w to a row.
fn put_pairs(out: &mut [u8], at: usize, words: &[u64], n: usize, w: usize) -> usize
    requires { (w ≡ row_words n) × (n ≤ 1024) × (n * w ≤ length words.now) × (at + length (lines (pair_at words.now 0 w) n) ≤ length out.old) }
    ensures { BytesWritten out.old out.new at result (lines (pair_at words.now 0 w) n) }
{
    let mut a = at;
    for s in 0..n {
        a = put_row(out, a, words, s * w, s, n);
    }
    a
}

// How many of the n bits of the row at r are set.
fn count_row(words: &[u64], r: usize, n: usize) -> usize
    requires { (n ≤ 1024) × (r + row_words n ≤ length words.now) }
    ensures { (result ≡ length (filter (row_bit words.now r) (range n))) × (result ≤ n) }
{
    (0..n).filter(|&t| rows::has(words, r, t)).count()
}

// How many pairs of n records the words of an answer have.
fn count_pairs(words: &[u64], n: usize, w: usize) -> usize
    requires { (w ≡ row_words n) × (n ≤ 1024) × (n * w ≤ length words.now) }
    ensures { result ≡ count (pair_at words.now 0 w) n }
{
    (0..n).map(|s| count_row(words, s * w, n)).sum()
}

// What is printed of an answer on n records: the number of members, that of pairs, and the pairs.
pub fn put_answer(
    out: &mut [u8],
    at: usize,
    members: usize,
    words: &[u64],
    n: usize,
    w: usize,
) -> usize
    requires { (w ≡ row_words n) × (n ≤ 1024) × (n * w ≤ length words.now) × (at + length (answer_text members (pair_at words.now 0 w) n) ≤ length out.old) }
    ensures { BytesWritten out.old out.new at result (answer_text members (pair_at words.now 0 w) n) }
{
    let a = put_number(out, at, b"members ", members as u64);
    let b = put_number(out, a, b" pairs ", count_pairs(words, n, w) as u64);
    let c = put_text(out, b, b"\n");
    put_pairs(out, c, words, n, w)
}

// ` in ` and the name of what a refusal is about.
fn source_text(source: Source) -> &'static [u8]
    ensures { result.now ≡ in_source source }
{
    match source {
        Source::Sheet => b" in sheet",
        Source::Question => b" in question",
        Source::Narrowed => b" in narrowed",
        Source::Register => b" in register",
        Source::Work => b" in work",
    }
}

// What is printed of a refusal.
pub fn put_refusal(out: &mut [u8], at: usize, source: Source, r: Refusal) -> usize
    requires { at + length (refusal_text source (number_of r) (place_of r)) ≤ length out.old }
    ensures { BytesWritten out.old out.new at result (refusal_text source (number_of r) (place_of r)) }
{
    let a = put_number(out, at, b"refused ", u64::from(r.number()));
    let b = put_text(out, a, source_text(source));
    let c = put_number(out, b, b" at ", r.place() as u64);
    put_text(out, c, b"\n")
}

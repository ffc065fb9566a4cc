// Puts fields into the caller's area: those of a path's symbols, and those of a narrowed question. Each function takes the place and gives the
// next: a cursor that holds the area would have to be told in each clause by the same two (`BytesWritten`), and is no plainer.
#![tactic(auto, using(crate::proofs::Along::wrote_more), unfolding(fields::specs::Table::field_size, fields::specs::Table::tag_length, fields::specs::Table::rows))]

ghost use Rattle.std.specs.Prelude.{◌≡◌, [], ◌∷◌, ◌++◌, ◌+◌, ◌≤◌, ◌<◌, length};
ghost use Rattle.std.proofs.lemmas.List.Edits.{sets};
ghost use Rattle.fields.specs.Table.{field_size};
ghost use Rattle.narrowed_question.specs.Form.{flat};
ghost use Rattle.fields.specs.Writing.{two_bytes, eight_bytes, field_bytes};
ghost use Rattle.symbols.specs.Contract.{direction_said};
ghost use Rattle.symbols.specs.Writing.{direction_number, symbol_bytes, symbols_bytes};
ghost use Rattle.narrowed_question.specs.Writing.{member_bytes, encode};
ghost use Rattle.symbols.specs.Symbols.{symbol_given, symbols_given};
ghost use Rattle.narrowed_question.specs.ArrayMembers.{given};
ghost use Rattle.encode.specs.Size.{symbol_size};
ghost use Rattle.encode.specs.BytesWritten.{BytesWritten, Few};

use fields::Link;
use narrowed_question::Members;
use symbols::{Direction, Symbol, Via};

// The bytes of a narrowed question's head, and of a member's.
pub const NARROWED_BYTES: usize = fields::HEAD + fields::NARROWED_LENGTH as usize;

pub const MEMBER_BYTES: usize = fields::HEAD + fields::MEMBER_LENGTH as usize;

// The bytes of the fields of a step, of an operator, of a join through a set.
const STEP_BYTES: usize = fields::HEAD + fields::STEP_LENGTH as usize;

const OPERATOR_BYTES: usize = fields::HEAD + fields::OPERATOR_LENGTH as usize;

const THROUGH_BYTES: usize = fields::HEAD + fields::THROUGH_LENGTH as usize;

// The bytes of a symbol's field.
#[tactic(auto, unfolding(crate::specs::Size::symbol_size, fields::specs::Table::field_size, fields::specs::Table::tag_length, fields::specs::Table::rows))]
pub fn symbol_size(number: u8) -> usize
    ensures { (result ≡ symbol_size number) × (result ≤ 11) }
{
    match symbols::decode(number, 0) {
        Symbol::Step(_, _) => STEP_BYTES,
        Symbol::Join(Via::Through(_)) => THROUGH_BYTES,
        Symbol::Join(Via::Any) | Symbol::Op(_) | Symbol::Closure => OPERATOR_BYTES,
    }
}

// Puts bytes from a place on; the place after them.
pub fn put_bytes(out: &mut [u8], at: usize, bytes: &[u8]) -> usize
    requires { at + length bytes.now ≤ length out.old }
    ensures { BytesWritten out.old out.new at result bytes.now }
{
    let next = at + bytes.len();
    out[at..next].copy_from_slice(bytes);
    next
}

pub fn put_byte(out: &mut [u8], at: usize, b: u8) -> usize
    requires { at + 1 ≤ length out.old }
    ensures { BytesWritten out.old out.new at result (b ∷ []) }
{
    out[at] = b;
    at + 1
}

// Two bytes, the high one first.
#[tactic(auto, using(crate::proofs::Bytes::two_is))]
fn put_two(out: &mut [u8], at: usize, n: u16) -> usize
    requires { at + 2 ≤ length out.old }
    ensures { BytesWritten out.old out.new at result (two_bytes n) }
{
    put_bytes(out, at, &n.to_be_bytes())
}

#[tactic(auto, using(crate::proofs::Bytes::eight_is))]
fn put_eight(out: &mut [u8], at: usize, n: u64) -> usize
    requires { at + 8 ≤ length out.old }
    ensures { BytesWritten out.old out.new at result (eight_bytes n) }
{
    put_bytes(out, at, &n.to_be_bytes())
}

// A field's tag and the length of its body.
pub fn put_head(out: &mut [u8], at: usize, tag: u8, len: u16) -> usize
    requires { at + 3 ≤ length out.old }
    ensures { BytesWritten out.old out.new at result (tag ∷ two_bytes len) }
{
    let a = put_byte(out, at, tag);
    put_two(out, a, len)
}

// 41: the number of members.
pub fn put_count(out: &mut [u8], at: usize, n: u16) -> usize
    requires { at + field_size 0x41 ≤ length out.old }
    ensures { BytesWritten out.old out.new at result (field_bytes 0x41 (two_bytes n)) }
{
    let a = put_head(out, at, fields::NARROWED_TAG, fields::NARROWED_LENGTH);
    put_two(out, a, n)
}

// 42: the number of symbols and the two sets.
fn put_open(out: &mut [u8], at: usize, n: u8, from: u64, to: u64) -> usize
    requires { at + field_size 0x42 ≤ length out.old }
    ensures { BytesWritten out.old out.new at result (field_bytes 0x42 (n ∷ (eight_bytes from ++ eight_bytes to))) }
{
    let a = put_head(out, at, fields::MEMBER_TAG, fields::MEMBER_LENGTH);
    let b = put_byte(out, a, n);
    let c = put_eight(out, b, from);
    put_eight(out, c, to)
}

// 43: direction and link.
fn put_step(out: &mut [u8], at: usize, direction: Direction, link: Link) -> usize
    requires { at + field_size 0x43 ≤ length out.old }
    ensures { BytesWritten out.old out.new at result (field_bytes 0x43 (direction_number (direction_said direction) ∷ link.0 ∷ [])) }
{
    let a = put_head(out, at, fields::STEP_TAG, fields::STEP_LENGTH);
    let b = put_byte(out, a, u8::from(direction));
    put_byte(out, b, link.0)
}

// 44: an operator.
fn put_operator(out: &mut [u8], at: usize, o: u8) -> usize
    requires { at + field_size 0x44 ≤ length out.old }
    ensures { BytesWritten out.old out.new at result (field_bytes 0x44 (o ∷ [])) }
{
    let a = put_head(out, at, fields::OPERATOR_TAG, fields::OPERATOR_LENGTH);
    put_byte(out, a, o)
}

// 45: a join through a set.
fn put_through(out: &mut [u8], at: usize, set: u64) -> usize
    requires { at + field_size 0x45 ≤ length out.old }
    ensures { BytesWritten out.old out.new at result (field_bytes 0x45 (eight_bytes set)) }
{
    let a = put_head(out, at, fields::THROUGH_TAG, fields::THROUGH_LENGTH);
    put_eight(out, a, set)
}

// A symbol, by its number.
fn put_symbol(out: &mut [u8], at: usize, number: u8, set: u64) -> usize
    requires { at + length (symbol_bytes (symbol_given number set)) ≤ length out.old }
    ensures { BytesWritten out.old out.new at result (symbol_bytes (symbol_given number set)) }
{
    match symbols::decode(number, set) {
        Symbol::Step(direction, link) => put_step(out, at, direction, link),
        Symbol::Join(Via::Through(set)) => put_through(out, at, set),
        Symbol::Join(Via::Any) | Symbol::Op(_) | Symbol::Closure => put_operator(out, at, number),
    }
}

// n symbols from the k-th on.
#[tactic(auto, using(crate::proofs::Symbols::symbols_start, crate::proofs::Symbols::symbols_next, crate::proofs::Symbols::symbols_end, crate::proofs::Along::along_length))]
pub fn put_symbols(
    out: &mut [u8],
    at: usize,
    numbers: &[u8],
    sets: &[u64],
    k: usize,
    n: u8,
) -> usize
    requires { (k + n ≤ length numbers.now) × ((k + n ≤ length sets.now) × (at + length (symbols_bytes (symbols_given numbers.now sets.now n k)) ≤ length out.old)) }
    ensures { BytesWritten out.old out.new at result (symbols_bytes (symbols_given numbers.now sets.now n k)) }
{
    let mut a = at;
    // By the index, which both arrays share with their callers' (a zip of two parts is no plainer).
    for i in k..k + usize::from(n) {
        a = put_symbol(out, a, numbers[i], sets[i]);
    }
    a
}

// A member: its 42, and its n symbols from the k-th on.
pub fn put_member(
    out: &mut [u8],
    at: usize,
    numbers: &[u8],
    sets: &[u64],
    k: usize,
    n: u8,
    from: u64,
    to: u64,
) -> usize
    requires { (k + n ≤ length numbers.now) × ((k + n ≤ length sets.now) × (at + length (member_bytes (flat from to (symbols_given numbers.now sets.now n k))) ≤ length out.old)) }
    ensures { BytesWritten out.old out.new at result (member_bytes (flat from to (symbols_given numbers.now sets.now n k))) }
{
    let a = put_open(out, at, n, from, to);
    put_symbols(out, a, numbers, sets, k, n)
}

// The file of the members, from the area's start on; the number of its bytes.
#[tactic(auto, using(crate::proofs::Members::placed_small, crate::proofs::Members::placed_next, crate::proofs::Along::wrote_length, crate::proofs::Along::along_length))]
pub fn put_members(q: &Members, out: &mut [u8]) -> usize
    requires { Few q.now × (length (encode (given q.now)) ≤ length out.old) }
    ensures { (out.new ≡ sets out.old 0 (encode (given q.now))) × (result ≡ length (encode (given q.now))) }
{
    let mut a = put_count(out, 0, q.count as u16);
    let mut k = 0;
    // By the index: a zip of three arrays is no plainer.
    for i in 0..q.count {
        let n = q.sizes[i];
        a = put_member(out, a, &q.numbers, &q.sets, k, n, q.from[i], q.to[i]);
        k += usize::from(n);
    }
    a
}

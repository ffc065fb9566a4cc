// Writes a narrowed question's file: the members that it is given are judged as the file they would make.
#![tactic(auto)]

ghost use Rattle.std.specs.Prelude.{◌≡◌, ◌≤◌, ◌<◌, length, take};
ghost use Rattle.fields.specs.Contract.{read_said};
ghost use Rattle.symbols.specs.Contract.{push_said};
ghost use Rattle.narrowed_question.specs.ArrayMembers.{given};
ghost use Rattle.narrowed_writer.specs.Outcome.{Writes};
ghost use Rattle.narrowed_writer.specs.Verdict.{offered, path_verdict, member_verdict, verdict};

use fields::Refusal;
use narrowed_question::Members;
use symbols::Stack;

// The most symbols of a member.
const MOST: u8 = fields::MEMBER_SYMBOLS as u8;

// Judges a symbol, by its number, at a place: refusals 3 and 6.
#[tactic(auto, unfolding(crate::specs::Verdict::offered))]
fn offer(q: Stack, at: usize, number: u8) -> Result<Stack, Refusal>
    requires { (0 < q.left) × ((q.depth < 255) × (at < 1000000)) }
    ensures { push_said result ≡ offered q at number }
{
    if !symbols::is_symbol(number) {
        return Err(Refusal::OutOfRange(at));
    }
    q.push(
        at,
        at + encode::symbol_size(number),
        symbols::operands(number),
    )
}

// Judges a path's symbols, the first at a place; the place after them.
fn judge_path(numbers: &[u8], at: usize) -> Result<usize, Refusal>
    requires { (length numbers.now ≤ 48) × (at < 100000) }
    ensures { read_said (λ n. n) result ≡ path_verdict (record { left = length numbers.now; depth = 0 }) at numbers.now }
{
    let mut q = Stack {
        left: numbers.len() as u8,
        depth: 0,
    };
    let mut place = at;
    for number in numbers {
        q = offer(q, place, *number)?;
        place += encode::symbol_size(*number);
    }
    Ok(place)
}

// Judges a member of n symbols, the first of those that are left, its 42 at a place; the place after it.
#[tactic(auto, unfolding(crate::specs::Verdict::member_verdict, fields::specs::Table::field_size, fields::specs::Table::tag_length, fields::specs::Table::rows))]
fn judge_member(left: &[u8], n: u8, at: usize) -> Result<usize, Refusal>
    requires { (48 ≤ length left.now) × (at < 90000) }
    ensures { read_said (λ n. n) result ≡ member_verdict at n (take n left.now) }
{
    if n < 1 || MOST < n {
        return Err(Refusal::OutOfRange(at));
    }
    judge_path(&left[..usize::from(n)], at + encode::MEMBER_BYTES)
}

// Judges members as the file they would make; the number of its bytes.
fn judge(q: &Members) -> Result<usize, Refusal>
    ensures { read_said (λ n. n) result ≡ verdict (given q.now) }
{
    if fields::MEMBERS < q.count {
        return Err(Refusal::OutOfRange(0));
    }
    let numbers: &[u8] = &q.numbers;
    let mut at = encode::NARROWED_BYTES;
    let mut prev = 0;
    let mut first = 0;
    for n in &q.sizes[..q.count] {
        let next = judge_member(&numbers[first..], *n, at)?;
        let end = first + usize::from(*n);
        if !narrowed_question::earlier(&numbers[prev..first], &numbers[first..end]) {
            return Err(Refusal::NotAscending(at));
        }
        prev = first;
        first = end;
        at = next;
    }
    Ok(at)
}

// Writes the members that it is given, of any contents, as a narrowed question's file; the number of bytes written.
pub fn write(q: &Members, out: &mut [u8]) -> Result<usize, Refusal>
    ensures { Writes q.now out.old result out.new }
{
    let n = judge(q)?;
    if out.len() < n {
        return Err(Refusal::AreaShort(n));
    }
    Ok(encode::put_members(q, out))
}

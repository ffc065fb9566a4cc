// Reads a narrowed question's file: its members, into a struct that is lent or by value.
#![tactic(auto)]

ghost use Rattle.std.specs.Prelude.{◌≡◌, ◌<◌, map, length};
ghost use Rattle.theory.specs.PathExpr.{before?};
ghost use Rattle.fields.specs.Table.{tag_length};
ghost use Rattle.fields.specs.Reading.{read as read_file};
ghost use Rattle.symbols.specs.Symbols.{symbol_length, order_code};
ghost use Rattle.narrowed_question.specs.Form.{narrowed_form, count_of, open_of, member_symbol, narrowed_format};
ghost use Rattle.narrowed_question.specs.Contract.{ReadsNarrowed, Blank, Zeroed, ReadsInto};
ghost use Rattle.narrowed_question.specs.Internal.{BodyReady, judged_said, head_kept, symbol_kept};

use field_reader::Reader;
use fields::{Due, File, Found, Refusal};
use symbols::{Numbered, Stack};

// The most symbols of all members.
pub const SYMBOLS: usize = fields::MEMBERS * fields::MEMBER_SYMBOLS;

const MOST_MEMBERS: u16 = fields::MEMBERS as u16;

const MOST_SIZE: u8 = fields::MEMBER_SYMBOLS as u8;

// Places in bodies: in 41 the number of members, in 42 the number of symbols, from set and to set.
const MEMBERS_IN: usize = 0;

const SIZE_IN: usize = 0;

const FROM_IN: usize = 1;

const TO_IN: usize = 9;

// Members one after the other: of each the number of symbols, from set and to set; of each symbol, through all members, its number
// (255 for a join through a set) and its set. 0 past them. An array of each, since a symbol with its set in one element would take
// 16 bytes for 9: 98 KB for 55 KB, and this lies in callers' frames (fixed memory, no heap).
#[derive(Clone, Copy)]
pub struct Members {
    pub count: usize,
    pub sizes: [u8; fields::MEMBERS],
    pub from: [u64; fields::MEMBERS],
    pub to: [u64; fields::MEMBERS],
    pub numbers: [u8; SYMBOLS],
    pub sets: [u64; SYMBOLS],
}

impl Members {
    // No members.
    #[tactic(auto, unfolding(fields::specs::Padded::padded))]
    pub fn blank() -> Members
        ensures { Blank result }
    {
        Members {
            count: 0,
            sizes: [0; fields::MEMBERS],
            from: [0; fields::MEMBERS],
            to: [0; fields::MEMBERS],
            numbers: [0; SYMBOLS],
            sets: [0; SYMBOLS],
        }
    }

    // Puts in the i-th member's number of symbols and sets.
    fn keep_head(&mut self, i: usize, n: u8, from: u64, to: u64)
        requires { i < 128 }
        ensures { self.new ≡ head_kept self.old i n from to }
    {
        self.sizes[i] = n;
        self.from[i] = from;
        self.to[i] = to;
    }

    // Puts in the i-th symbol.
    fn keep(&mut self, i: usize, x: Numbered)
        requires { i < 6144 }
        ensures { self.new ≡ symbol_kept self.old i x }
    {
        self.numbers[i] = x.number;
        self.sets[i] = x.set;
    }
}

// Where the reading stands: at the head; before a member, with the members left; within one, with those left, its 42's place and its stack.
#[derive(Clone, Copy)]
pub enum Standing {
    Head,
    Between(u8),
    Within(u8, usize, Stack),
}

// What a field hands over: nothing; a member's number of symbols and its sets; a symbol; a member's last symbol, with the place of its 42.
#[derive(Clone, Copy)]
pub enum Item {
    Nothing,
    Opens(u8, u64, u64),
    Symbol(Numbered),
    Last(Numbered, usize),
}

// 41: the number of members; refusal 3.
#[tactic(auto, unfolding(fields::specs::Table::tag_length, fields::specs::Table::rows, crate::specs::Form::count_of))]
fn count(f: Found<'_>) -> Result<(Standing, Item), Refusal>
    requires { length f.body.now ≡ tag_length 0x41 }
    ensures { judged_said result ≡ count_of f.entry.at f.entry.body.now }
{
    let n = fields::two(f.body, MEMBERS_IN);
    if MOST_MEMBERS < n {
        return Err(Refusal::OutOfRange(f.at));
    }
    Ok((Standing::Between(n as u8), Item::Nothing))
}

// 42: the number of symbols and the two sets; refusal 3.
#[tactic(auto, unfolding(fields::specs::Table::tag_length, fields::specs::Table::rows, crate::specs::Form::open_of))]
fn open_member(left: u8, f: Found<'_>) -> Result<(Standing, Item), Refusal>
    requires { (length f.body.now ≡ tag_length 0x42) × (0 < left) }
    ensures { judged_said result ≡ open_of left f.entry.at f.entry.body.now }
{
    let n = f.body[SIZE_IN];
    if n < 1 || MOST_SIZE < n {
        return Err(Refusal::OutOfRange(f.at));
    }
    let st = Standing::Within(left - 1, f.at, Stack { left: n, depth: 0 });
    let from = fields::eight_at(f.body, FROM_IN);
    let to = fields::eight_at(f.body, TO_IN);
    Ok((st, Item::Opens(n, from, to)))
}

// 43, 44 or 45: a symbol; refusals 3 and 6.
#[tactic(auto, unfolding(crate::specs::Form::member_symbol))]
fn grow(left: u8, place: usize, q: Stack, f: Found<'_>) -> Result<(Standing, Item), Refusal>
    requires { (length f.body.now ≡ symbol_length f.tag) × ((0 < q.left) × (q.depth < 255)) }
    ensures { judged_said result ≡ member_symbol left place q f.entry.at f.entry.next f.entry.tag f.entry.body.now }
{
    let x = symbols::symbol_in(f.at, f.tag, f.body)?;
    let q = q.push(f.at, f.next, symbols::operands(x.number))?;
    if q.left == 0 {
        return Ok((Standing::Between(left), Item::Last(x, place)));
    }
    Ok((Standing::Within(left, place, q), Item::Symbol(x)))
}

impl Standing {
    // What is due there.
    #[tactic(auto, unfolding(fields::specs::Table::rows_of, fields::specs::Table::rows))]
    fn due(self) -> Due
        ensures { result ≡ narrowed_format.due self }
    {
        match self {
            Standing::Head => fields::rows_due(File::Narrowed, fields::NARROWED_ROW, false, false),
            Standing::Between(left) => {
                let full = left == 0;
                fields::rows_due(File::Narrowed, fields::MEMBER_ROW, full, full)
            }
            Standing::Within(_, _, q) => symbols::symbols_due(File::Narrowed, q),
        }
    }

    // Where the field leads from there, and what it hands over.
    fn judge(self, f: Found<'_>) -> Result<(Standing, Item), Refusal>
        requires { BodyReady self f.tag (length f.body.now) }
        ensures { judged_said result ≡ narrowed_format.judge self f.entry.at f.entry.next f.entry.tag f.entry.body.now }
    {
        match self {
            Standing::Head => count(f),
            Standing::Between(left) => open_member(left, f),
            Standing::Within(left, place, q) => grow(left, place, q, f),
        }
    }
}

// Whether symbols come before others in the order of members.
pub fn earlier(a: &[u8], b: &[u8]) -> bool
    ensures { result ≡ before? (map order_code a.now) (map order_code b.now) }
{
    for (x, y) in a.iter().zip(b) {
        let x = symbols::order_code(*x);
        let y = symbols::order_code(*y);
        if x != y {
            return x < y;
        }
    }
    a.len() < b.len()
}

// Reads a narrowed question's file into a lent struct whose arrays are zero. Of a refused file they hold what was read, and it counts none.
pub fn read_into(s: &[u8], members: &mut Members) -> Result<(), Refusal>
    requires { Zeroed members.old }
    ensures { ReadsInto (read_file narrowed_form s.now) result members.new }
{
    let mut reader = Reader::new(s);
    let mut st = Standing::Head;
    // The members done, and the symbols; where those of the member before and of the open one begin.
    let mut done = 0;
    let mut used = 0;
    let mut prev = 0;
    let mut first = 0;
    members.count = 0;
    while let Some(f) = reader.next(st.due())? {
        let (next, item) = st.judge(f)?;
        st = next;
        match item {
            Item::Nothing => {}
            Item::Opens(n, from, to) => members.keep_head(done, n, from, to),
            Item::Symbol(x) => {
                members.keep(used, x);
                used += 1;
            }
            Item::Last(x, place) => {
                members.keep(used, x);
                used += 1;
                // A slice first: of an array behind a reference a part with a start gets no proof yet.
                let numbers: &[u8] = &members.numbers;
                if !earlier(&numbers[prev..first], &numbers[first..used]) {
                    return Err(Refusal::NotAscending(place));
                }
                done += 1;
                prev = first;
                first = used;
            }
        }
    }
    members.count = done;
    Ok(())
}

// The same by value.
pub fn read(s: &[u8]) -> Result<Members, Refusal>
    ensures { ReadsNarrowed (read_file narrowed_form s.now) result }
{
    let mut members = Members::blank();
    read_into(s, &mut members)?;
    Ok(members)
}

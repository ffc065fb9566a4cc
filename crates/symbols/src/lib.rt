// The symbols of a path: a symbol as an enum, as a number and as a field, and the counting of operands.
#![tactic(auto)]

ghost use Rattle.std.specs.Prelude.{◌≡◌, ◌<◌, length};
ghost use Rattle.fields.specs.Table.{tag_length};
ghost use Rattle.symbols.specs.Symbols.{symbol_numbered, number_symbol, numbered, symbol?, order_code, operands, arity};
ghost use Rattle.symbols.specs.Symbols.{symbol_length, direction_numbered, step_of, operator_of, symbol_in, push, due_symbols};
ghost use Rattle.theory.specs.PathExpr.{named, s_join, step_code, op_code};
ghost use Rattle.symbols.specs.Writing.{direction_number};
ghost use Rattle.symbols.specs.Contract.{direction_said, DirectionOf, via_said, operator_said, symbol_said, LinkFits, numbered_said, push_said};

use fields::{Due, File, LINKS, Link, Refusal};

// Forward and reverse.
const DIRECTIONS: u8 = 2;

// Numbers below this one are steps: forward ones, and then reverse ones.
const STEPS: u8 = DIRECTIONS * LINKS;

// The codes of operators by name.
pub const JOIN: u8 = STEPS;

pub const UNION: u8 = Operator::Union as u8;

pub const CONJUNCTION: u8 = Operator::Conjunction as u8;

pub const BRANCH_RIGHT: u8 = Operator::BranchRight as u8;

pub const BRANCH_LEFT: u8 = Operator::BranchLeft as u8;

pub const CLOSURE: u8 = 133;

// The number of a join through a set.
pub const THROUGH: u8 = 255;

// Along a link, or against it: the numbers are those in a step's field.
#[derive(Clone, Copy, PartialEq, Eq)]
pub enum Direction {
    Forward = 0,
    Reverse = 1,
}

impl From<Direction> for u8 {
    ghost from_gives = { λ direction number. number ≡ direction_number (direction_said direction) };

    fn from(direction: Direction) -> u8 {
        direction as u8
    }
}

// A number that is no direction's.
#[derive(Clone, Copy, PartialEq, Eq)]
pub struct NoDirection;

impl TryFrom<u8> for Direction {
    type Error = NoDirection;

    ghost try_from_gives = { DirectionOf };

    fn try_from(number: u8) -> Result<Direction, NoDirection> {
        match number {
            0 => Ok(Direction::Forward),
            1 => Ok(Direction::Reverse),
            _ => Err(NoDirection),
        }
    }
}

// What a join passes through: any record (a plain join), or those whose kind is in a set. An Option would read no plainer: the definitions
// name the two as `any` and `through`.
#[derive(Clone, Copy, PartialEq, Eq)]
pub enum Via {
    Any,
    Through(u64),
}

// The other operators of two operands: the numbers are their codes.
#[derive(Clone, Copy, PartialEq, Eq)]
pub enum Operator {
    Union = 129,
    Conjunction = 130,
    BranchRight = 131,
    BranchLeft = 132,
}

impl From<Operator> for u8 {
    ghost from_gives = { λ o number. number ≡ op_code (operator_said o) };

    fn from(o: Operator) -> u8 {
        o as u8
    }
}

// A symbol.
#[derive(Clone, Copy, PartialEq, Eq)]
pub enum Symbol {
    Step(Direction, Link),
    Join(Via),
    Op(Operator),
    Closure,
}

// A symbol as arrays have it: its code, and 255 for a join through a set; and the set, 0 where there is none.
#[derive(Clone, Copy, PartialEq, Eq)]
pub struct Numbered {
    pub number: u8,
    pub set: u64,
}

// The symbol of a number and a set. A number that is no symbol's counts as a closure. This and `encode` stay functions, and no `From`, since
// docs/PROVING.md names them, and `encode` asks that a step's link has a number.
#[tactic(auto, unfolding(crate::specs::Symbols::symbol_numbered))]
pub fn decode(number: u8, set: u64) -> Symbol
    ensures { symbol_said result ≡ symbol_numbered number set }
{
    match number {
        0..LINKS => Symbol::Step(Direction::Forward, Link(number)),
        LINKS..STEPS => Symbol::Step(Direction::Reverse, Link(number - LINKS)),
        JOIN => Symbol::Join(Via::Any),
        UNION => Symbol::Op(Operator::Union),
        CONJUNCTION => Symbol::Op(Operator::Conjunction),
        BRANCH_RIGHT => Symbol::Op(Operator::BranchRight),
        BRANCH_LEFT => Symbol::Op(Operator::BranchLeft),
        THROUGH => Symbol::Join(Via::Through(set)),
        _ => Symbol::Closure,
    }
}

// The number of a step.
fn step_number(direction: Direction, link: Link) -> u8
    requires { link.0 < 64 }
    ensures { result ≡ step_code (direction_said direction) (named link.0) }
{
    match direction {
        Direction::Forward => link.0,
        Direction::Reverse => LINKS + link.0,
    }
}

// A number without a set.
fn plain(number: u8) -> Numbered
    ensures { result ≡ numbered number 0 }
{
    Numbered { number, set: 0 }
}

// The number of a join, and its set.
fn join_number(via: Via) -> Numbered
    ensures { result ≡ number_symbol (s_join (via_said via)) }
{
    match via {
        Via::Any => plain(JOIN),
        Via::Through(set) => Numbered {
            number: THROUGH,
            set,
        },
    }
}

// The number of a symbol, and its set.
pub fn encode(x: Symbol) -> Numbered
    requires { LinkFits x }
    ensures { result ≡ number_symbol (symbol_said x) }
{
    match x {
        Symbol::Step(direction, link) => plain(step_number(direction, link)),
        Symbol::Join(via) => join_number(via),
        Symbol::Op(o) => plain(u8::from(o)),
        Symbol::Closure => plain(CLOSURE),
    }
}

// Places in bodies: in 43 direction and link, in 44 the code of the operator, in 45 the set.
const DIRECTION_IN: usize = 0;

const LINK_IN: usize = 1;

const CODE_IN: usize = 0;

const SET_IN: usize = 0;

// A step: refusal 3 where there is no such direction or link.
#[tactic(auto, unfolding(crate::specs::Symbols::step_of, fields::specs::Table::tag_length, fields::specs::Table::rows))]
fn step_in(at: usize, b: &[u8]) -> Result<Numbered, Refusal>
    requires { length b.now ≡ tag_length 0x43 }
    ensures { numbered_said result ≡ step_of at b.now }
{
    match Direction::try_from(b[DIRECTION_IN]) {
        Ok(direction) if b[LINK_IN] < LINKS => {
            Ok(encode(Symbol::Step(direction, Link(b[LINK_IN]))))
        }
        _ => Err(Refusal::OutOfRange(at)),
    }
}

// An operator's code, that of the plain join and of the closure among them; all else is refusal 3.
#[tactic(auto, unfolding(crate::specs::Symbols::operator_of, fields::specs::Table::tag_length, fields::specs::Table::rows))]
fn operator_in(at: usize, b: &[u8]) -> Result<Numbered, Refusal>
    requires { length b.now ≡ tag_length 0x44 }
    ensures { numbered_said result ≡ operator_of at b.now }
{
    match b[CODE_IN] {
        code @ JOIN..=CLOSURE => Ok(plain(code)),
        _ => Err(Refusal::OutOfRange(at)),
    }
}

// The symbol in a field's body, by its tag; refusal 3.
#[tactic(auto, unfolding(crate::specs::Symbols::symbol_in, fields::specs::Table::tag_length, fields::specs::Table::rows))]
pub fn symbol_in(at: usize, tag: u8, b: &[u8]) -> Result<Numbered, Refusal>
    requires { length b.now ≡ symbol_length tag }
    ensures { numbered_said result ≡ symbol_in at tag b.now }
{
    match tag {
        fields::STEP_TAG => step_in(at, b),
        fields::OPERATOR_TAG => operator_in(at, b),
        _ => Ok(join_number(Via::Through(fields::eight_at(b, SET_IN)))),
    }
}

impl Symbol {
    // How many paths it takes.
    pub fn operands(self) -> u8
        ensures { result ≡ operands (symbol_said self) }
    {
        match self {
            Symbol::Step(_, _) => 0,
            Symbol::Join(_) | Symbol::Op(_) => 2,
            Symbol::Closure => 1,
        }
    }
}

// How many paths the symbol of a number takes.
#[tactic(auto, unfolding(crate::specs::Symbols::arity))]
pub fn operands(number: u8) -> u8
    ensures { result ≡ arity number }
{
    decode(number, 0).operands()
}

// The code by which members are compared.
#[tactic(auto, unfolding(crate::specs::Symbols::order_code))]
pub fn order_code(number: u8) -> u8
    ensures { result ≡ order_code number }
{
    match number {
        THROUGH => JOIN,
        _ => number,
    }
}

// Whether it is the number of a symbol: the one that the symbol has.
pub fn is_symbol(number: u8) -> bool
    ensures { result ≡ symbol? number }
{
    encode(decode(number, 0)).number == number
}

// A path being read: the symbols still due, and the paths that stand on the stack.
#[derive(Clone, Copy, PartialEq, Eq)]
pub struct Stack {
    pub left: u8,
    pub depth: u8,
}

impl Stack {
    // Pushes one symbol, which takes k paths; its field lies from `at` to `next`: refusal 6.
    #[tactic(auto, unfolding(crate::specs::Symbols::push))]
    pub fn push(self, at: usize, next: usize, k: u8) -> Result<Stack, Refusal>
        requires { (0 < self.left) × (self.depth < 255) }
        ensures { push_said result ≡ push self at next k }
    {
        if self.depth < k {
            return Err(Refusal::Operands(at));
        }
        let depth = self.depth - k + 1;
        if self.left == 1 && depth != 1 {
            return Err(Refusal::Operands(next));
        }
        Ok(Stack {
            left: self.left - 1,
            depth,
        })
    }
}

// What is due within a path: its symbols, and nothing after them.
#[tactic(auto, unfolding(fields::specs::Table::rows_of, fields::specs::Table::rows))]
pub fn symbols_due(file: File, q: Stack) -> Due
    ensures { result ≡ due_symbols file q }
{
    let full = q.left == 0;
    fields::rows_due(file, fields::SYMBOL_ROWS, full, full)
}

// Questions shortened beforehand: the five simplifications, applied until none fits.
#![tactic(auto)]

ghost use Rattle.std.specs.Prelude.{◌≡◌, ◌≤◌, drop};
ghost use Rattle.fields.specs.Call.{Gives};
ghost use Rattle.fields.specs.Contract.{written_said};
ghost use Rattle.shortening.specs.Call.{shortened_codes, shorten_call};
ghost use Rattle.symbols.specs.Contract.{symbol_said};
ghost use Rattle.shortening.specs.Pass.{turned, kept, first_context, second_context, OfQuestion};

use fields::{Failure, Size, Source};
use symbols::{Operator, Symbol, Via};

// Where an operand stands: right under a closure, as a branch's test, or elsewhere.
#[derive(Clone, Copy, PartialEq, Eq)]
pub enum Context {
    Elsewhere,
    Closure,
    Test,
}

// What a symbol becomes: as a test a plain join is a branch right.
fn turn(context: Context, x: Symbol) -> Symbol
    ensures { symbol_said result ≡ turned context (symbol_said x) }
{
    match (context, x) {
        (Context::Test, Symbol::Join(Via::Any)) => Symbol::Op(Operator::BranchRight),
        _ => x,
    }
}

// How many codes are left of a symbol: a closure goes right under a closure and as a test.
fn keep(context: Context, x: Symbol) -> usize
    ensures { result ≡ kept context (symbol_said x) }
{
    match (context, x) {
        (Context::Closure | Context::Test, Symbol::Closure) => 0,
        _ => 1,
    }
}

// Where the first operand of a symbol stands; that of a closure that goes, where the closure stood.
fn first_context(context: Context, x: Symbol) -> Context
    ensures { result ≡ first_context context (symbol_said x) }
{
    match (context, x) {
        (_, Symbol::Op(Operator::BranchLeft)) => Context::Test,
        (Context::Test, Symbol::Closure) => Context::Test,
        (_, Symbol::Closure) => Context::Closure,
        _ => Context::Elsewhere,
    }
}

// Where the second operand of a symbol stands.
fn second_context(x: Symbol) -> Context
    ensures { result ≡ second_context (symbol_said x) }
{
    match x {
        Symbol::Op(Operator::BranchRight) => Context::Test,
        _ => Context::Elsewhere,
    }
}

// Codes at the end of an array, from a start on.
#[derive(Clone, Copy, PartialEq, Eq)]
pub struct Shortened {
    pub codes: [u8; question::MOST_SYMBOLS],
    pub start: usize,
    ghost within: { start ≤ 32 },
}

impl Shortened {
    // The codes.
    pub fn symbols(&self) -> &[u8]
        ensures { result.now ≡ drop self.now.start self.now.codes }
    {
        &self.codes[self.start..]
    }
}

// The operands that are still to come are at most as many as the codes; one place more spares a test, which a vector would make.
const STACK: usize = question::MOST_SYMBOLS + 1;

// The codes of a question, shortened: from the last to the first, with a stack of where the operands stand that are still to come.
fn shorten_codes(codes: &[u8]) -> Shortened
    requires { OfQuestion codes.now }
    ensures { drop result.start result.codes ≡ shortened_codes codes.now }
{
    let mut out = [0u8; question::MOST_SYMBOLS];
    let mut contexts = [Context::Elsewhere; STACK];
    let mut depth = 1;
    let mut start = question::MOST_SYMBOLS;
    for &code in codes.iter().rev() {
        depth -= 1;
        let context = contexts[depth];
        let x = turn(context, symbols::decode(code, 0));
        contexts[depth] = first_context(context, x);
        contexts[depth + 1] = second_context(x);
        depth += usize::from(x.operands());
        out[start - 1] = symbols::encode(x).number;
        start -= keep(context, x);
    }
    Shortened { codes: out, start }
}

// Shortens a question, and writes the file of the shortened one; tells the numbers of its symbols and of its bytes.
pub fn shorten(question: &[u8], file: &mut [u8]) -> Result<Size, Failure>
    ensures { Gives (shorten_call question.now file.old) (written_said result) file.new }
{
    let q = fields::about(Source::Question, question::read(question))?;
    let short = shorten_codes(q.symbols());
    question_writer::write(short.symbols(), file)
}

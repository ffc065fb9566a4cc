// The triples of a question, symbol by symbol, over the table of nodes.
#![tactic(auto)]

ghost use Rattle.std.specs.Prelude.{◌≡◌};
ghost use Rattle.symbols.specs.Contract.{symbol_said};
ghost use Rattle.inference.specs.Turns.{TurnAsks, TurnMakes, origin_of};
ghost use Rattle.inference.specs.Questions.{Asking, Infers};

use fields::Refusal;
use rules::{Excess, PairOperator};
use sheet::Sheet;
use symbols::Symbol;
use triples::Span;

// A part of the question: its nodes, and where its symbols start.
#[derive(Clone, Copy)]
pub struct Operand {
    pub nodes: Span,
    pub from: usize,
}

// The parts that a question can have on its stack, and a place to spare: each symbol looks at a second part, also where there is none, which a
// vector would have to ask.
const STACK: usize = question::MOST_SYMBOLS + 1;

// No part yet.
const NONE: Operand = Operand {
    nodes: Span { start: 0, end: 0 },
    from: 0,
};

// The rule of symbol i, which is k, on the parts x and y (a closure: x alone); its part's nodes start at `used`.
fn rule(
    words: &mut [u64],
    question: &[u8],
    sheet: &Sheet,
    k: Symbol,
    used: usize,
    i: usize,
    x: Operand,
    y: Operand,
) -> Result<usize, Excess>
    requires { TurnAsks question.now words.old sheet.now.kinds (symbol_said k) used i x y }
    ensures { TurnMakes question.now words.old words.new sheet.now.table sheet.now.kinds (symbol_said k) used i x y result }
{
    match k {
        Symbol::Step(direction, link) => {
            rules::step_rule(words, question, sheet, direction, link, used)
        }
        Symbol::Join(_) => {
            rules::pair_rule(words, question, PairOperator::Join, used, x.nodes, y.nodes)
        }
        Symbol::Op(o) => rules::op_rule(words, question, o, used, x.nodes, y.nodes),
        Symbol::Closure => {
            closure_rule::closure_rule(words, question, used, x.nodes, x.from, i - x.from)
        }
    }
}

// Where the symbols of the new part start: a step's here, an operator's where those of its first operand do.
fn origin(k: Symbol, i: usize, x: Operand) -> usize
    ensures { result ≡ origin_of (symbol_said k) i x }
{
    match k {
        Symbol::Step(_, _) => i,
        Symbol::Join(_) | Symbol::Op(_) | Symbol::Closure => x.from,
    }
}

// The nodes of the triples of a question, which is its symbols' codes, by a sheet; or 12 or 13 at the first symbol that has either.
pub fn infer(words: &mut [u64], question: &[u8], sheet: &Sheet) -> Result<Span, Refusal>
    requires { Asking question.now words.old sheet.now.kinds }
    ensures { Infers question.now words.old words.new sheet.now.table sheet.now.kinds result }
{
    // One place more than symbols: every symbol looks at a second part.
    let mut parts = [NONE; STACK];
    let mut depth = 0;
    let mut used = 0;
    for (i, &c) in question.iter().enumerate() {
        let k = symbols::decode(c, 0);
        let b = depth - usize::from(k.operands());
        let x = parts[b];
        let made = rule(words, question, sheet, k, used, i, x, parts[b + 1]);
        let n = made.map_err(|e| e.at(i))?;
        let nodes = Span {
            start: used,
            end: used + n,
        };
        parts[b] = Operand {
            nodes,
            from: origin(k, i, x),
        };
        depth = b + 1;
        used += n;
    }
    let q = parts[0];
    Ok(q.nodes)
}

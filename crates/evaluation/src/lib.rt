// The pairs of a path on a register's file, evaluated symbol by symbol on a stack of relations in the work words.
#![tactic(auto)]

ghost use Rattle.std.specs.Prelude.{◌≡◌, ◌||◌, ◌+◌, ◌*◌, ◌<◌, ◌≤◌, length};
ghost use Rattle.std.proofs.Math.Option.{some};
ghost use Rattle.theory.specs.KindSet.{has};
ghost use Rattle.theory.specs.PathExpr.{PathExpr, named, any, through, s_join};
ghost use Rattle.theory.specs.Register.{kind};
ghost use Rattle.theory.specs.Evaluation.{step?, op?};
ghost use Rattle.symbols.specs.Symbols.{symbol_numbered};
ghost use Rattle.symbols.specs.Contract.{direction_said, via_said, operator_said};
ghost use Rattle.register.specs.LinksAhead.{edge_said};
ghost use Rattle.register.specs.Form.{register_in};
ghost use Rattle.rows.specs.Row.{Row, mask_of, Word};
ghost use Rattle.relation.specs.Pairs.{pair_at, Made, Combined, Clean};
ghost use Rattle.evaluation.specs.Grounded.{leads?};
ghost use Rattle.evaluation.specs.Standing.{register_on, size, path_in};
ghost use Rattle.evaluation.specs.Stack.{binary?, Applicable, Applied, Evaluated};

mod ground;

use fields::Link;
pub use ground::{Ground, Path, Symbols, row_words};
use register::{Edge, Register};
use symbols::{Direction, Operator, Symbol, Via};

// The word of a mask for the m records from g on: those whose kind is in the set, found without a branch.
fn kind_word(register: &Register<'_>, g: usize, m: usize, set: u64) -> u64
    requires { (g + m ≤ register.now.records) × (m ≤ 64) }
    ensures { Word (λ i. has set (kind (register_in register.now.file.now) (g + i))) m result }
{
    let mut v = 0;
    for i in 0..m {
        let k = usize::from(register.kind_at(g + i).0);
        v |= ((set >> k) % 2) << i;
    }
    v
}

// The mask becomes the records whose kind is in the set.
pub fn kind_mask(mask: &mut [u64], ground: &Ground<'_>, set: u64)
    requires { ground.now.words ≤ length mask.old }
    ensures { Row 0 ground.now.words (mask_of (λ t. has set (kind (register_on ground.now) t)) ground.now.register.records) mask.old mask.new }
{
    // By index: of words written through `iter_mut` nothing would be known.
    for i in 0..ground.words {
        let g = rows::BITS * i;
        mask[i] = kind_word(
            &ground.register,
            g,
            rows::in_word(ground.register.records, g),
            set,
        );
    }
}

// The relation at b takes in the pair of one link, if that is named l.
fn add_link(work: &mut [u64], b: usize, ground: &Ground<'_>, direction: Direction, l: Link, e: Edge)
    requires { (b + size ground.now ≤ length work.old) × (e.from < ground.now.register.records) × (e.to < ground.now.register.records) }
    ensures { Made b ground.now.register.records ground.now.words
        (λ i j. pair_at work.old b ground.now.words i j || leads? (direction_said direction) l.0 (edge_said e) i j) work.old work.new }
{
    if e.link != l {
        return;
    }
    let n = ground.register.records;
    let w = ground.words;
    match direction {
        Direction::Forward => relation::set_pair(work, b, n, w, e.from, e.to),
        Direction::Reverse => relation::set_pair(work, b, n, w, e.to, e.from),
    }
}

// The relation at b takes in the pairs of a step, in one pass over the links.
fn add_links(work: &mut [u64], b: usize, ground: &Ground<'_>, direction: Direction, l: Link)
    requires { b + size ground.now ≤ length work.old }
    ensures { Made b ground.now.register.records ground.now.words
        (λ i j. pair_at work.old b ground.now.words i j || step? (register_on ground.now) (direction_said direction) (named l.0) i j) work.old work.new }
{
    for e in ground.register.links() {
        add_link(work, b, ground, direction, l, e);
    }
}

// The relation at b becomes the pairs of a step.
pub fn step(work: &mut [u64], b: usize, ground: &Ground<'_>, direction: Direction, l: Link)
    requires { b + size ground.now ≤ length work.old }
    ensures { Made b ground.now.register.records ground.now.words (step? (register_on ground.now) (direction_said direction) (named l.0)) work.old work.new }
{
    rows::clear(work, b, ground.size());
    add_links(work, b, ground, direction, l);
}

// The relation at p becomes its plain join with the one at q, both as they were at entry. It needs no spare relation: no word outside
// the one at p changes (`kept` of `Made`).
fn join(work: &mut [u64], p: usize, q: usize, ground: &Ground<'_>)
    requires { (p + size ground.now ≤ q) × (q + size ground.now ≤ length work.old) × Clean work.old p ground.now.register.records ground.now.words }
    ensures { Combined (binary? (register_on ground.now) (s_join any)) p q ground.now.register.records ground.now.words work.old work.new }
{
    let mask = [u64::MAX; rows::WIDEST];
    relation::join(work, p, q, ground.register.records, ground.words, &mask);
}

// The relation at p becomes its join with the one at q through the records whose kind is in the set.
fn join_through(work: &mut [u64], p: usize, q: usize, ground: &Ground<'_>, set: u64)
    requires { (p + size ground.now ≤ q) × (q + size ground.now ≤ length work.old) × Clean work.old p ground.now.register.records ground.now.words }
    ensures { Combined (binary? (register_on ground.now) (s_join (through set))) p q ground.now.register.records ground.now.words work.old work.new }
{
    let mut mask = [0u64; rows::WIDEST];
    kind_mask(&mut mask, ground, set);
    relation::join(work, p, q, ground.register.records, ground.words, &mask);
}

// The relation at p becomes its join with the one at q, by what the join passes through.
fn join_via(work: &mut [u64], p: usize, q: usize, ground: &Ground<'_>, via: Via)
    requires { (p + size ground.now ≤ q) × (q + size ground.now ≤ length work.old) × Clean work.old p ground.now.register.records ground.now.words }
    ensures { Combined (binary? (register_on ground.now) (s_join (via_said via))) p q ground.now.register.records ground.now.words work.old work.new }
{
    match via {
        Via::Any => join(work, p, q, ground),
        Via::Through(set) => join_through(work, p, q, ground, set),
    }
}

// The relation at p becomes what another operator of two operands makes of it and the one at q.
fn operate(work: &mut [u64], p: usize, q: usize, n: usize, w: usize, o: Operator)
    requires { (p + n * w ≤ q) × (q + n * w ≤ length work.old) × (w ≤ 16) × (n ≤ 64 * w) × Clean work.old p n w × Clean work.old q n w }
    ensures { Combined (op? n (operator_said o)) p q n w work.old work.new }
{
    match o {
        Operator::Union => relation::union(work, p, q, n, w),
        Operator::Conjunction => relation::intersection(work, p, q, n, w),
        Operator::BranchRight => relation::branch_right(work, p, q, n, w),
        Operator::BranchLeft => relation::branch_left(work, p, q, n, w),
    }
}

// Applies one symbol to the stack, which ends at word b; returns where it ends then.
fn apply(work: &mut [u64], b: usize, ground: &Ground<'_>, number: u8, set: u64) -> usize
    requires { Applicable (register_on ground.now) work.old ground.now.register.records ground.now.words b (symbol_numbered number set) }
    ensures { Applied (register_on ground.now) ground.now.register.records ground.now.words b (symbol_numbered number set) result work.old work.new }
{
    let z = ground.size();
    match symbols::decode(number, set) {
        Symbol::Step(direction, link) => {
            step(work, b, ground, direction, link);
            b + z
        }
        Symbol::Join(via) => {
            let a = b - z;
            join_via(work, a - z, a, ground, via);
            a
        }
        Symbol::Op(o) => {
            let a = b - z;
            operate(work, a - z, a, ground.register.records, ground.words, o);
            a
        }
        Symbol::Closure => {
            transitive_closure::closure(work, b - z, ground.register.records, ground.words);
            b
        }
    }
}

// The relation at 0 becomes the pairs of the path.
pub fn evaluate(work: &mut [u64], ground: &Ground<'_>, path: &Path<'_>)
    requires { 24 * size ground.now ≤ length work.old }
    ensures { (p : PathExpr) → path_in path.now.symbols ≡ some p → Evaluated (register_on ground.now) ground.now.register.records ground.now.words work.old work.new p }
{
    let symbols = path.symbols;
    let mut b = 0;
    for (number, set) in symbols.numbers.iter().zip(symbols.sets) {
        b = apply(work, b, ground, *number, *set);
    }
}

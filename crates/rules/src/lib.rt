// The rules of inference that make a part of the table of nodes: of a sheet's table, and of parts of the table.
#![tactic(auto)]

ghost use Rattle.std.specs.Prelude.{◌≡◌, ◌+◌, ◌<◌, ◌≤◌, length};
ghost use Rattle.theory.specs.Inference.{distinct};
ghost use Rattle.theory.specs.Narrowing.{short?};
ghost use Rattle.theory.specs.PathExpr.{reverse, union};
ghost use Rattle.symbols.specs.Contract.{direction_said, operator_said};
ghost use Rattle.triples.specs.Paths.{Has};
ghost use Rattle.triples.specs.Parts.{triples_in};
ghost use Rattle.rules.specs.PairRules.{pair_code, fitting, giving, ends_of, pair_node, pair_short?};
ghost use Rattle.rules.specs.Outcome.{refusal_at, few_of, Ruled, Adds};
ghost use Rattle.rules.specs.Requirements.{Lies, pair_of, row_in, rows_in, op_in, Pairing, AddPair, AddRow, AddNewRow, TwoParts, Unite, AddCopies};
ghost use Rattle.rules.specs.Repeated.{Alike, StandsAlike, Repeats};
ghost use Rattle.rules.specs.EdgeTriples.{edge_at, edges_from, edges_of, leaf_path, AddEdge, AddEdges};
ghost use Rattle.rules.specs.StepTriples.{of_marks, StepRow, StepMatrix, Stepping};

use fields::{Kind, Link, Refusal};
use sheet::Sheet;
use symbols::{Direction, Operator, Symbol};
use triples::{Node, Nodes, Span};

// Why a rule makes no part.
#[derive(Clone, Copy, PartialEq, Eq)]
pub enum Excess {
    // 12: over 128 triples
    Many,
    // 13: a path over 48 symbols long
    Long,
}

impl Excess {
    // The refusal at symbol i.
    pub fn at(self, i: usize) -> Refusal
        ensures { result ≡ refusal_at self i }
    {
        match self {
            Excess::Many => Refusal::TooMany(i),
            Excess::Long => Refusal::TooLong(i),
        }
    }
}

// The number of a part's triples, unless it has too many.
pub fn few(count: usize) -> Result<usize, Excess>
    ensures { result ≡ few_of count }
{
    if triples::MOST < count {
        return Err(Excess::Many);
    }
    Ok(count)
}

// ---- two nodes under an operator

// An operator that makes a triple of each pair that fits. It is data, which the definitions decide by cases; a closure for each would only
// move the cases to the callers.
#[derive(Clone, Copy)]
pub enum PairOperator {
    Join,
    Conjunction,
    BranchRight,
    BranchLeft,
}

impl PairOperator {
    // Its code.
    fn code(self) -> u8
        ensures { result ≡ pair_code self }
    {
        match self {
            PairOperator::Join => symbols::JOIN,
            PairOperator::Conjunction => symbols::CONJUNCTION,
            PairOperator::BranchRight => symbols::BRANCH_RIGHT,
            PairOperator::BranchLeft => symbols::BRANCH_LEFT,
        }
    }

    // Whether two triples fit under it.
    fn fits(self, x: Node, y: Node) -> bool
        ensures { result ≡ fitting self (ends_of x) (ends_of y) }
    {
        match self {
            PairOperator::Join | PairOperator::BranchRight => x.to == y.from,
            PairOperator::Conjunction => x.from == y.from && x.to == y.to,
            PairOperator::BranchLeft => x.from == y.from,
        }
    }

    // The to kind of a pair's triple.
    fn last(self, x: Node, y: Node) -> Kind
        ensures { result.0 ≡ (giving self (ends_of x) (ends_of y)).to }
    {
        match self {
            PairOperator::Join | PairOperator::BranchLeft => y.to,
            PairOperator::Conjunction => x.to,
            PairOperator::BranchRight => x.to,
        }
    }

    // The node of a pair.
    fn pair(self, i: usize, j: usize, x: Node, y: Node) -> Node
        requires { (x.size < 64) × (y.size < 64) }
        ensures { result ≡ pair_node self i j x y }
    {
        Node {
            made: self.code(),
            left: i,
            right: j,
            size: x.size + y.size + 1,
            from: x.from,
            to: self.last(x, y),
        }
    }

    // Whether the path of the pair, if it fits, has at most 48 symbols.
    fn short(self, x: Node, y: Node) -> bool
        requires { (x.size < 64) × (y.size < 64) }
        ensures { result ≡ pair_short? self x y }
    {
        !self.fits(x, y) || x.size + y.size + 1 <= fields::MEMBER_SYMBOLS
    }
}

// ---- sizes: 13

// Whether each path that node i gives with the nodes ys has at most 48 symbols.
fn row_short(nodes: Nodes, o: PairOperator, i: usize, ys: Span) -> bool
    requires { Pairing nodes.question.now nodes.words.now nodes.used × (i < nodes.used) × Lies nodes.used ys }
    ensures { result ≡ short? (row_in nodes.entry.question.now nodes.entry.words.now o i ys) }
{
    let x = triples::load(nodes.words, i);
    for j in ys.start..ys.end {
        let y = triples::load(nodes.words, j);
        if !o.short(x, y) {
            return false;
        }
    }
    true
}

// The same for each of the nodes xs in place of i.
fn rows_short(nodes: Nodes, o: PairOperator, xs: Span, ys: Span) -> bool
    requires { Pairing nodes.question.now nodes.words.now nodes.used × Lies nodes.used xs × Lies nodes.used ys }
    ensures { result ≡ short? (rows_in nodes.entry.question.now nodes.entry.words.now o xs ys) }
{
    for i in xs.start..xs.end {
        if !row_short(nodes, o, i, ys) {
            return false;
        }
    }
    true
}

// ---- rows that repeat

// Whether nodes i and j have the same from kind and the same path.
fn alike(nodes: Nodes, i: usize, j: usize) -> bool
    requires { Has nodes.question.now nodes.words.now nodes.used i × Has nodes.question.now nodes.words.now nodes.used j }
    ensures { Alike nodes.entry.question.now nodes.entry.words.now i j result }
{
    triples::load(nodes.words, i).from == triples::load(nodes.words, j).from
        && nodes.same_path(i, j)
}

// Whether one of the nodes p to i, i left out, has the from kind and the path of node i. The newest are tried first,
// since such nodes mostly stand side by side.
fn stands_alike(nodes: Nodes, p: usize, i: usize) -> bool
    requires { Has nodes.question.now nodes.words.now nodes.used i × (p ≤ i) }
    ensures { StandsAlike nodes.entry.question.now nodes.entry.words.now p i result }
{
    for j in (p..i).rev() {
        if alike(nodes, i, j) {
            return true;
        }
    }
    false
}

// Whether one of the nodes p to i, i left out, gives the same row as node i. A branch left drops the to kind of its left
// triple, so nodes that differ only there do.
fn repeats(nodes: Nodes, o: PairOperator, p: usize, i: usize) -> bool
    requires { Has nodes.question.now nodes.words.now nodes.used i × (p ≤ i) }
    ensures { Repeats nodes.entry.question.now nodes.entry.words.now o p i result }
{
    matches!(o, PairOperator::BranchLeft) && stands_alike(nodes, p, i)
}

// ---- triples: 12. The parts that grow keep their words and numbers as parameters: the nodes are read and written in the same lent words,
// so that no struct can hold one part while another is added to (no heap).

// Adds what node i gives with node j, where they fit; the new count.
fn add_pair(
    words: &mut [u64],
    question: &[u8],
    o: PairOperator,
    s: usize,
    count: usize,
    i: usize,
    j: usize,
) -> usize
    requires { AddPair question.now words.old o s count i j }
    ensures { Adds question.now words.old words.new s count result (pair_of question.now words.old o i j) }
{
    let x = triples::load(words, i);
    let y = triples::load(words, j);
    if !o.fits(x, y) {
        return count;
    }
    triples::add(words, question, s, count, o.pair(i, j, x, y))
}

// Adds what node i gives with each of the nodes ys, up to the 129th; the new count.
pub fn add_row(
    words: &mut [u64],
    question: &[u8],
    o: PairOperator,
    s: usize,
    start: usize,
    i: usize,
    ys: Span,
) -> usize
    requires { AddRow question.now words.old o s start i ys }
    ensures { Adds question.now words.old words.new s start result (row_in question.now words.old o i ys) }
{
    let mut count = start;
    for j in ys.start..ys.end {
        count = add_pair(words, question, o, s, count, i, j);
        if triples::MOST < count {
            return count;
        }
    }
    count
}

// The same if the rows of nodes p to i are already in the part: a row that repeats one of them is skipped.
fn add_new_row(
    words: &mut [u64],
    question: &[u8],
    o: PairOperator,
    s: usize,
    count: usize,
    p: usize,
    i: usize,
    ys: Span,
) -> usize
    requires { AddNewRow question.now words.old o s count p i ys }
    ensures { Adds question.now words.old words.new s count result (row_in question.now words.old o i ys) }
{
    let nodes = Nodes {
        words,
        used: s + count,
        question,
    };
    if repeats(nodes, o, p, i) {
        return count;
    }
    add_row(words, question, o, s, count, i, ys)
}

// The rule of the operator o for the nodes xs and ys: its part is made from s on.
pub fn pair_rule(
    words: &mut [u64],
    question: &[u8],
    o: PairOperator,
    s: usize,
    xs: Span,
    ys: Span,
) -> Result<usize, Excess>
    requires { TwoParts question.now words.old s xs ys }
    ensures { Ruled question.now words.old words.new s (distinct (rows_in question.now words.old o xs ys)) result }
{
    let nodes = Nodes {
        words,
        used: s,
        question,
    };
    if !rows_short(nodes, o, xs, ys) {
        return Err(Excess::Long);
    }
    let mut count = 0;
    for i in xs.start..xs.end {
        count = few(add_new_row(words, question, o, s, count, xs.start, i, ys))?;
    }
    Ok(count)
}

// ---- union

// Adds a copy of each of the nodes ys, up to the 129th; the new count.
fn add_copies(words: &mut [u64], question: &[u8], s: usize, start: usize, ys: Span) -> usize
    requires { AddCopies question.now words.old s start ys }
    ensures { Adds question.now words.old words.new s start result (triples_in question.now words.old ys) }
{
    let mut count = start;
    for j in ys.start..ys.end {
        let n = triples::load(words, j);
        count = triples::add(words, question, s, count, n);
        if triples::MOST < count {
            return count;
        }
    }
    count
}

// The rule of union for the nodes xs and ys: its part is made from s on.
fn union_rule(
    words: &mut [u64],
    question: &[u8],
    s: usize,
    xs: Span,
    ys: Span,
) -> Result<usize, Excess>
    requires { Unite question.now words.old s xs ys }
    ensures { Ruled question.now words.old words.new s (distinct (op_in question.now words.old union xs ys)) result }
{
    let a = few(add_copies(words, question, s, 0, xs))?;
    let b = add_copies(words, question, s, a, ys);
    few(b)
}

// The rule of an operator other than join.
pub fn op_rule(
    words: &mut [u64],
    question: &[u8],
    o: Operator,
    s: usize,
    xs: Span,
    ys: Span,
) -> Result<usize, Excess>
    requires { Unite question.now words.old s xs ys }
    ensures { Ruled question.now words.old words.new s (distinct (op_in question.now words.old (operator_said o) xs ys)) result }
{
    match o {
        Operator::Union => union_rule(words, question, s, xs, ys),
        Operator::Conjunction => {
            pair_rule(words, question, PairOperator::Conjunction, s, xs, ys)
        }
        Operator::BranchRight => {
            pair_rule(words, question, PairOperator::BranchRight, s, xs, ys)
        }
        Operator::BranchLeft => { pair_rule(words, question, PairOperator::BranchLeft, s, xs, ys) }
    }
}

// ---- a matrix of kinds: bit b of word a says that a path leads from kind a to kind b

// Adds the node from kind a to kind b, where the matrix has the bit; the new count.
fn add_edge(
    words: &mut [u64],
    question: &[u8],
    matrix: &[u64],
    node: Node,
    s: usize,
    count: usize,
    a: Kind,
    b: Kind,
) -> usize
    requires { AddEdge question.now words.old matrix.now node s count a.0 b.0 }
    ensures { Adds question.now words.old words.new s count result (edge_at matrix.now (leaf_path question.now node) a.0 b.0) }
{
    if !rows::has(matrix, usize::from(a.0), usize::from(b.0)) {
        return count;
    }
    let n = Node {
        from: a,
        to: b,
        ..node
    };
    triples::add(words, question, s, count, n)
}

// The same from kind a to each of the kinds, up to the 129th; the new count. Most words of a matrix are 0.
fn add_edges_from(
    words: &mut [u64],
    question: &[u8],
    matrix: &[u64],
    kinds: u8,
    node: Node,
    s: usize,
    start: usize,
    a: Kind,
) -> usize
    requires { AddEdges question.now words.old matrix.now kinds node s start × (a.0 < kinds) }
    ensures { Adds question.now words.old words.new s start result (edges_from matrix.now (leaf_path question.now node) kinds a.0) }
{
    if matrix[usize::from(a.0)] == 0 {
        return start;
    }
    let mut count = start;
    for b in 0..kinds {
        count = add_edge(words, question, matrix, node, s, count, a, Kind(b));
        if triples::MOST < count {
            return count;
        }
    }
    count
}

// The same from each of the kinds.
pub fn add_edges(
    words: &mut [u64],
    question: &[u8],
    matrix: &[u64],
    kinds: u8,
    node: Node,
    s: usize,
    start: usize,
) -> usize
    requires { AddEdges question.now words.old matrix.now kinds node s start }
    ensures { Adds question.now words.old words.new s start result (edges_of matrix.now (leaf_path question.now node) kinds) }
{
    let mut count = start;
    for a in 0..kinds {
        count = add_edges_from(words, question, matrix, kinds, node, s, count, Kind(a));
        if triples::MOST < count {
            return count;
        }
    }
    count
}

// ---- a step

// The kinds to which a reverse step along the link leads from kind a, by a sheet.
fn reverse_row(sheet: &Sheet, link: Link, a: Kind) -> u64
    requires { (link.0 < 64) × (sheet.now.kinds ≤ 64) × (a.0 < 64) }
    ensures { StepRow sheet.now.table reverse link.0 a.0 sheet.now.kinds result }
{
    let mut v = 0;
    for b in 0..sheet.kinds {
        if sheet.permits(Kind(b), link, a) {
            v = bits::with_bit(v, usize::from(b));
        }
    }
    v
}

// The kinds to which a step leads from kind a: a forward step has a word of the table for them.
fn step_row(sheet: &Sheet, direction: Direction, link: Link, a: Kind) -> u64
    requires { (link.0 < 64) × (sheet.now.kinds ≤ 64) × (a.0 < 64) }
    ensures { StepRow sheet.now.table (direction_said direction) link.0 a.0 sheet.now.kinds result }
{
    match direction {
        Direction::Forward => sheet.leads_to(a, link),
        Direction::Reverse => reverse_row(sheet, link, a),
    }
}

// The matrix becomes that of a step.
fn step_matrix(matrix: &mut [u64], sheet: &Sheet, direction: Direction, link: Link)
    requires { (length matrix.old ≡ 64) × (link.0 < 64) × (sheet.now.kinds ≤ 64) }
    ensures { StepMatrix sheet.now.table (direction_said direction) link.0 sheet.now.kinds sheet.now.kinds matrix.new }
{
    for a in 0..sheet.kinds {
        matrix[usize::from(a)] = step_row(sheet, direction, link, Kind(a));
    }
}

// The rule of a step, by a sheet: its part is made from s on.
pub fn step_rule(
    words: &mut [u64],
    question: &[u8],
    sheet: &Sheet,
    direction: Direction,
    link: Link,
    s: usize,
) -> Result<usize, Excess>
    requires { Stepping question.now words.old sheet.now.kinds link.0 s }
    ensures { Ruled question.now words.old words.new s (distinct (of_marks sheet.now.table sheet.now.kinds (direction_said direction) link.0)) result }
{
    let mut matrix = [0u64; fields::KINDS as usize];
    step_matrix(&mut matrix, sheet, direction, link);
    let node = Node {
        made: symbols::encode(Symbol::Step(direction, link)).number,
        left: 0,
        right: 0,
        size: 1,
        from: Kind(0),
        to: Kind(0),
    };
    few(add_edges(words, question, &matrix, sheet.kinds, node, s, 0))
}

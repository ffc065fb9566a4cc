// A table of nodes in lent words: a word holds a node, and a node stands for a triple.
#![tactic(auto)]

ghost use Rattle.std.specs.Prelude.{◌≡◌, [], ◌∷◌, ◌+◌, ◌-◌, ◌<◌, ◌≤◌, length, set, take, drop, replicate};
ghost use Rattle.theory.specs.Lists.{some?};
ghost use Rattle.theory.specs.Inference.{triple?};
ghost use Rattle.triples.specs.Table.{word_of, InRange, Loaded};
ghost use Rattle.triples.specs.Paths.{triple_of, Has};
ghost use Rattle.triples.specs.Tests.{Decides};
ghost use Rattle.triples.specs.Expansion.{PathWritten, Expanded, Expandable};
ghost use Rattle.triples.specs.Parts.{part_of, Candidate, Added};

use fields::Kind;
use symbols::Symbol;

// The most triples of a part.
pub const MOST: usize = 128;

// How many numbers the fields of a node's word have room for: its kinds, its size, its operands, its code.
const KINDS: usize = fields::KINDS as usize;

const SIZES: usize = 64;

const PLACES: usize = 4096;

const CODES: usize = 256;

// made: the code of the path's last symbol. left and right: the operands' nodes (of a kept chain: where its operand
// starts in the question, and its number of symbols). size: the path's number of symbols.
#[derive(Clone, Copy)]
pub struct Node {
    pub made: u8,
    pub left: usize,
    pub right: usize,
    pub size: usize,
    pub from: Kind,
    pub to: Kind,
}

// The nodes from `start` on, up to `end`, which is left out. Not std's Range, which is not Copy: its clone can fail here, and a span is used more than once.
#[derive(Clone, Copy)]
pub struct Span {
    pub start: usize,
    pub end: usize,
}

// A node is packed into one word of the lent area, whose size is fixed, and so not a struct in an array of its own.
pub fn load(words: &[u64], i: usize) -> Node
    requires { i < length words.now }
    ensures { Loaded words.now i result }
{
    let x = words[i] as usize;
    Node {
        made: (x / KINDS / KINDS / SIZES / PLACES / PLACES % CODES) as u8,
        left: x / KINDS / KINDS / SIZES / PLACES % PLACES,
        right: x / KINDS / KINDS / SIZES % PLACES,
        size: x / KINDS / KINDS % SIZES,
        from: Kind((x / KINDS % KINDS) as u8),
        to: Kind((x % KINDS) as u8),
    }
}

pub fn store(words: &mut [u64], i: usize, n: Node)
    requires { (i < length words.old) × InRange n }
    ensures { words.new ≡ set words.old i (word_of n) }
{
    let x = ((((usize::from(n.made) * PLACES + n.left) * PLACES + n.right) * SIZES + n.size) * KINDS
        + usize::from(n.from.0))
        * KINDS
        + usize::from(n.to.0);
    words[i] = x as u64;
}

// Writes a code and a set at `at`, and gives the place after it.
fn mark(codes: &mut [u8], vias: &mut [u64], at: usize, code: u8, via: u64) -> usize
    requires { (at < length codes.old) × (at < length vias.old) }
    ensures { PathWritten at (code ∷ []) (via ∷ []) codes.old vias.old codes.new vias.new result }
{
    codes[at] = code;
    vias[at] = via;
    at + 1
}

// Copies n symbols of the question from s on, with no sets. By index: where the compiler cannot see that two slices lie apart,
// `copy_from_slice` becomes a call of memmove, which the library for C needs for nothing else.
fn copy(question: &[u8], s: usize, n: usize, codes: &mut [u8], vias: &mut [u64], at: usize) -> usize
    requires { (s + n ≤ length question.now) × (at + n ≤ length codes.old) × (at + n ≤ length vias.old) }
    ensures { PathWritten at (take n (drop s question.now)) (replicate n 0) codes.old vias.old codes.new vias.new result }
{
    for j in 0..n {
        codes[at + j] = question[s + j];
    }
    vias[at..at + n].fill(0);
    at + n
}

// Whether n symbols of the question from s on equal m symbols from t on.
fn same_codes(question: &[u8], s: usize, n: usize, t: usize, m: usize) -> bool
    requires { (s + n ≤ length question.now) × (t + m ≤ length question.now) }
    ensures { Decides (take n (drop s question.now) ≡ take m (drop t question.now)) result }
{
    question[s..s + n] == question[t..t + m]
}

// A table of nodes and the question that its kept chains lie in: the first `used` nodes are in use.
// Its methods take it by reference: by value, each call of a walk over the nodes copies it.
#[derive(Clone, Copy)]
pub struct Nodes<'a> {
    pub words: &'a [u64],
    pub used: usize,
    pub question: &'a [u8],
}

impl Nodes<'_> {
    // Writes the codes and the join sets of node i's path from `at` on, and gives the place after them.
    pub fn expand(&self, i: usize, codes: &mut [u8], vias: &mut [u64], at: usize) -> usize
        requires { Expandable self.now.question.now self.now.words.now self.now.used i at codes.old vias.old }
        ensures { Expanded (triple_of self.now.question.now self.now.words.now i).path at codes.old vias.old codes.new vias.new result }
    {
        let n = load(self.words, i);
        match symbols::decode(n.made, 0) {
            Symbol::Step(_, _) => mark(codes, vias, at, n.made, 0),
            Symbol::Join(_) => {
                let mid = self.expand(n.left, codes, vias, at);
                let end = self.expand(n.right, codes, vias, mid);
                let k = load(self.words, n.left).to.0;
                mark(codes, vias, end, n.made, 1 << k)
            }
            Symbol::Op(_) => {
                let mid = self.expand(n.left, codes, vias, at);
                let end = self.expand(n.right, codes, vias, mid);
                mark(codes, vias, end, n.made, 0)
            }
            Symbol::Closure => {
                let end = copy(self.question, n.left, n.right, codes, vias, at);
                mark(codes, vias, end, n.made, 0)
            }
        }
    }

    // Whether nodes a and b have the same path. Paths share their operands, so that most comparisons end where two nodes
    // are one; the last symbols of the right operands come first, since a chain of joins often differs there.
    pub fn same_path(&self, a: usize, b: usize) -> bool
        requires { Has self.now.question.now self.now.words.now self.now.used a × Has self.now.question.now self.now.words.now self.now.used b }
        ensures { Decides ((triple_of self.now.question.now self.now.words.now a).path ≡ (triple_of self.now.question.now self.now.words.now b).path) result }
    {
        if a == b {
            return true;
        }
        let x = load(self.words, a);
        let y = load(self.words, b);
        if x.made != y.made {
            return false;
        }
        match symbols::decode(x.made, 0) {
            Symbol::Step(_, _) => true,
            Symbol::Join(_) => {
                load(self.words, x.right).made == load(self.words, y.right).made
                    && load(self.words, x.left).to == load(self.words, y.left).to
                    && self.same_path(x.left, y.left)
                    && self.same_path(x.right, y.right)
            }
            Symbol::Op(_) => {
                load(self.words, x.right).made == load(self.words, y.right).made
                    && self.same_path(x.left, y.left)
                    && self.same_path(x.right, y.right)
            }
            Symbol::Closure => same_codes(self.question, x.left, x.right, y.left, y.right),
        }
    }

    // Whether the triples at nodes a and b are equal.
    pub fn same(&self, a: usize, b: usize) -> bool
        requires { Has self.now.question.now self.now.words.now self.now.used a × Has self.now.question.now self.now.words.now self.now.used b }
        ensures { result ≡ triple? (triple_of self.now.question.now self.now.words.now a) (triple_of self.now.question.now self.now.words.now b) }
    {
        let x = load(self.words, a);
        let y = load(self.words, b);
        x.from == y.from && x.to == y.to && self.same_path(a, b)
    }

    // Whether the triple of node u is among those of nodes s to u - 1. The newest come first: under a branch right a triple
    // repeats the one just added.
    fn stands(&self, s: usize, u: usize) -> bool
        requires { Has self.now.question.now self.now.words.now self.now.used u × (s ≤ u) }
        ensures { result ≡ some? (triple? (triple_of self.now.question.now self.now.words.now u)) (part_of self.now.question.now self.now.words.now s (u - s)) }
    {
        for j in (s..u).rev() {
            if self.same(u, j) {
                return true;
            }
        }
        false
    }
}

// Puts node n at the end of the part of `count` nodes from s on, unless its triple stands there already; the new count.
pub fn add(words: &mut [u64], question: &[u8], s: usize, count: usize, n: Node) -> usize
    requires { Candidate question.now words.old s count n }
    ensures { Added question.now words.old words.new s count n result }
{
    let u = s + count;
    store(words, u, n);
    let nodes = Nodes {
        words,
        used: u + 1,
        question,
    };
    if nodes.stands(s, u) {
        return count;
    }
    count + 1
}

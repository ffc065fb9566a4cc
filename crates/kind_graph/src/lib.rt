// What the rule of a closure asks of the graph of a part's kinds, and whether its walks are short.
#![tactic(auto)]

ghost use Rattle.std.specs.Prelude.{◌≡◌, ◌<◌, ◌≤◌, length};
ghost use Rattle.theory.specs.Narrowing.{short?};
ghost use Rattle.rows.specs.Row.{row_bit, Row, mask_of};
ghost use Rattle.triples.specs.Tests.{Decides};
ghost use Rattle.triples.specs.Parts.{triples_in};
ghost use Rattle.kind_graph.specs.Kinds.{Edges, KindGraph, TellsAcyclic};
ghost use Rattle.kind_graph.specs.Sizes.{Part, all_walks, extended, size_of, weight, Raised, Raising, AtMost, Small};

use fields::Kind;
use triples::Span;

// How many kinds there are: a graph of them has a word for each.
pub const KINDS: usize = fields::KINDS as usize;

// The words of a graph and of what is asked of it.
pub const GRAPH: usize = 2 * KINDS;

// The most triples of a walk whose size is still asked for, but the first: one of more has more than 48 symbols.
const ROUNDS: usize = 24;

// The most symbols of a member's path.
const MOST: u64 = fields::MEMBER_SYMBOLS as u64;

// Sets bit (from, to) for each triple of the nodes xs.
fn edges(words: &[u64], question: &[u8], xs: Span, work: &mut [u64])
    requires { (xs.start ≤ xs.end) × (xs.end ≤ length words.now) × (length work.old ≡ 128) }
    ensures { Edges (triples_in question.now words.now xs) work.new }
{
    rows::clear(work, 0, KINDS);
    for i in xs.start..xs.end {
        let x = triples::load(words, i);
        relation::set_pair(
            work,
            0,
            KINDS,
            1,
            usize::from(x.from.0),
            usize::from(x.to.0),
        );
    }
}

// The mask becomes the kinds from which a walk leads back.
fn cyclic(mask: &mut [u64], work: &[u64])
    requires { (length mask.old ≡ 1) × (length work.now ≡ 128) }
    ensures { Row 0 1 (mask_of (λ z. row_bit work.now z z) 64) mask.old mask.new }
{
    rows::clear(mask, 0, 1);
    for z in 0..KINDS {
        let b = rows::has(work, z, z);
        rows::set_if(mask, z, b);
    }
}

// Copies the first half to the second.
fn double(work: &mut [u64])
    requires { length work.old ≡ 128 }
    ensures { Row 64 64 (row_bit work.old 0) work.old work.new }
{
    work.copy_within(0..KINDS, KINDS);
}

// Word 64 + a: the kinds to which a walk over the nodes xs leads from kind a.
// Word a: those to which one leads that meets a cyclic kind.
pub fn graph(words: &[u64], question: &[u8], xs: Span, work: &mut [u64])
    requires { (xs.start ≤ xs.end) × (xs.end ≤ length words.now) × (length work.old ≡ 128) }
    ensures { KindGraph (triples_in question.now words.now xs) work.new }
{
    let mut mask = [0u64];
    edges(words, question, xs, work);
    transitive_closure::closure(work, 0, KINDS, 1);
    cyclic(&mut mask, work);
    double(work);
    relation::join(work, 0, KINDS, KINDS, 1, &mask);
}

// Whether neither kind is cyclic.
pub fn acyclic(work: &[u64], a: Kind, b: Kind) -> bool
    requires { (length work.now ≡ 128) × (a.0 < 64) × (b.0 < 64) }
    ensures { TellsAcyclic work.now a.0 b.0 result }
{
    let i = usize::from(a.0);
    let j = usize::from(b.0);
    !rows::has(work, KINDS + i, i) && !rows::has(work, KINDS + j, j)
}

// Raises the number at k to v, where it is less.
fn raise(best: &mut [u64], k: Kind, v: u64)
    requires { k.0 < length best.old }
    ensures { Raised k.0 v best.old best.new }
{
    let i = usize::from(k.0);
    best[i] = best[i].max(v);
}

// The size of a walk of size m (0: no walk) joined with a triple.
fn extend(m: u64, size: usize) -> u64
    requires { (m ≤ 48) × (size < 64) }
    ensures { result ≡ extended m size }
{
    if m == 0 {
        return 0;
    }
    m + (size as u64) + 1
}

// The largest path of the nodes xs, for each kind that they end in.
fn first_round(words: &[u64], question: &[u8], xs: Span, next: &mut [u64])
    requires { Part question.now words.now xs × (length next.old ≡ 64) }
    ensures { Raising size_of (triples_in question.now words.now xs) next.old next.new }
{
    for i in xs.start..xs.end {
        let x = triples::load(words, i);
        raise(next, x.to, x.size as u64);
    }
}

// The same of walks with one triple more, by the sizes in `best` of those without.
fn round(words: &[u64], question: &[u8], xs: Span, best: &[u64], next: &mut [u64])
    requires { Part question.now words.now xs × (length best.now ≡ 64) × (length next.old ≡ 64) × Small best.now }
    ensures { Raising (weight best.now) (triples_in question.now words.now xs) next.old next.new }
{
    for i in xs.start..xs.end {
        let x = triples::load(words, i);
        let k = usize::from(x.from.0);
        raise(next, x.to, extend(best[k], x.size));
    }
}

// Whether each number is at most m.
fn at_most(best: &[u64], m: u64) -> bool
    ensures { Decides (AtMost m best.now) result }
{
    best.iter().all(|&size| size <= m)
}

// Whether each walk over the nodes xs has a path of at most 48 symbols. A walk of more than 25 triples has a longer one; and where there
// is no walk of n triples, there is none of more.
pub fn walks_short(words: &[u64], question: &[u8], xs: Span) -> bool
    requires { Part question.now words.now xs }
    ensures { result ≡ short? (all_walks (triples_in question.now words.now xs)) }
{
    let mut best = [0u64; KINDS];
    first_round(words, question, xs, &mut best);
    if !at_most(&best, MOST) {
        return false;
    }
    for _ in 0..ROUNDS {
        if at_most(&best, 0) {
            return true;
        }
        let mut next = [0u64; KINDS];
        round(words, question, xs, &best, &mut next);
        if !at_most(&next, MOST) {
            return false;
        }
        best = next;
    }
    true
}

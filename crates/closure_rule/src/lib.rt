// The rule of inference of a closure over the table of nodes: walks that meet no cyclic kind, and closures that are kept.
#![tactic(auto)]

ghost use Rattle.std.specs.Prelude.{◌≡◌, ◌+◌, ◌≤◌};
ghost use Rattle.theory.specs.Inference.{distinct, free};
ghost use Rattle.triples.specs.Parts.{part_of, triples_in};
ghost use Rattle.rules.specs.Outcome.{Ruled, Done};
ghost use Rattle.kind_graph.specs.Sizes.{all_walks};
ghost use Rattle.closure_rule.specs.Requirements.{Closing, CopyAcyclic, GrowWalks, kept_node, closed_in};

use fields::Kind;
use rules::{Excess, PairOperator};
use triples::{Node, Span};

// ---- walks that meet no cyclic kind

// Copies the nodes xs whose kinds are not cyclic to a part from s on; their number.
fn copy_acyclic(words: &mut [u64], question: &[u8], work: &[u64], s: usize, xs: Span) -> usize
    requires { CopyAcyclic question.now words.old work.now s xs }
    ensures { Done question.now words.old words.new s s result (distinct (free 64 (triples_in question.now words.old xs))) × (result ≤ 128) }
{
    let mut count = 0;
    for j in xs.start..xs.end {
        let x = triples::load(words, j);
        if kind_graph::acyclic(work, x.from, x.to) {
            count = triples::add(words, question, s, count, x);
        }
    }
    count
}

// Adds all walks over the f nodes from s on, up to the 129th: each node of the growing part is joined with each of the f. The new count.
fn grow_walks(words: &mut [u64], question: &[u8], s: usize, f: usize) -> usize
    requires { GrowWalks question.now words.old s f }
    ensures { Done question.now words.old words.new (s + f) s result (distinct (all_walks (part_of question.now words.old s f))) }
{
    let first = Span {
        start: s,
        end: s + f,
    };
    let mut count = f;
    let mut i = s;
    // the part grows while it is walked, so that its end is not a range's
    while i < s + count {
        count = rules::add_row(words, question, PairOperator::Join, s, count, i, first);
        if triples::MOST < count {
            return count;
        }
        i += 1;
    }
    count
}

// ---- the rule

// The node of a kept closure of n symbols of the question from o on; its kinds are still to come.
fn kept_node(o: usize, n: usize) -> Node
    requires { n ≤ 47 }
    ensures { result ≡ kept_node o n }
{
    Node {
        made: symbols::CLOSURE,
        left: o,
        right: n,
        size: n + 1,
        from: Kind(0),
        to: Kind(0),
    }
}

// The rule of closure for the nodes xs, whose original part is n symbols of the question from o on: its part is made from s on.
pub fn closure_rule(
    words: &mut [u64],
    question: &[u8],
    s: usize,
    xs: Span,
    o: usize,
    n: usize,
) -> Result<usize, Excess>
    requires { Closing question.now words.old s xs o n }
    ensures { Ruled question.now words.old words.new s (distinct (closed_in question.now words.old xs o n)) result }
{
    let mut work = [0u64; kind_graph::GRAPH];
    kind_graph::graph(words, question, xs, &mut work);
    let f = copy_acyclic(words, question, &work, s, xs);
    let first = Span {
        start: s,
        end: s + f,
    };
    if !kind_graph::walks_short(words, question, first) {
        return Err(Excess::Long);
    }
    let w = rules::few(grow_walks(words, question, s, f))?;
    let node = kept_node(o, n);
    let k = rules::add_edges(words, question, &work, fields::KINDS, node, s, w);
    rules::few(k)
}

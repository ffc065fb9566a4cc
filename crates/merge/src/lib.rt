// The nodes of a part in the order of their codes, and the members that runs of equal codes make.
#![tactic(auto)]

ghost use Rattle.std.specs.Prelude.{◌≡◌, ◌<◌, ◌≤◌, length};
ghost use Rattle.merge.specs.Arranging.{earlier?, Usable, Placing, Placed, Arranging, Arranged};
ghost use Rattle.merge.specs.Runs.{Singles, Ored, Taking, Taken, Running, Ran};

use triples::Nodes;

// The kinds of a node, as sets.
#[derive(Clone, Copy)]
struct Ends {
    from: u64,
    to: u64,
}

// A member: its number of symbols, from set and to set, and the place after its run.
#[derive(Clone, Copy)]
pub struct Group {
    pub size: usize,
    pub from: u64,
    pub to: u64,
    pub next: usize,
}

// Whether the codes of node i come before those of node j.
fn before(nodes: Nodes, i: usize, j: usize) -> bool
    requires { Usable nodes.question.now nodes.words.now nodes.used i × Usable nodes.question.now nodes.words.now nodes.used j }
    ensures { result ≡ earlier? nodes.entry.question.now nodes.entry.words.now i j }
{
    let mut a = [0u8; fields::MEMBER_SYMBOLS];
    let mut b = [0u8; fields::MEMBER_SYMBOLS];
    let mut vias = [0u64; fields::MEMBER_SYMBOLS];
    let n = nodes.expand(i, &mut a, &mut vias, 0);
    let m = nodes.expand(j, &mut b, &mut vias, 0);
    a[..n] < b[..m]
}

// Puts node t among the sorted nodes behind i of the array, which then start at i.
fn place(nodes: Nodes, order: &mut [usize], i: usize, t: usize)
    requires { Placing nodes.question.now nodes.words.now order.old nodes.used i (length order.old) t }
    ensures { Placed nodes.entry.question.now nodes.entry.words.now order.old order.new nodes.entry.used i (length order.old) t }
{
    // k is where t comes to stand, and so outlives the loop
    let mut k = i;
    while k + 1 < order.len() && before(nodes, order[k + 1], t) {
        order[k] = order[k + 1];
        k += 1;
    }
    order[k] = t;
}

// Fills the array with as many nodes from s on, sorted by their codes. Not by std's sorts: the stable one takes heap, the other
// leaves the order of equal codes open, which `Arranged` fixes.
pub fn arrange(nodes: Nodes, order: &mut [usize], s: usize)
    requires { Arranging nodes.question.now nodes.words.now order.old nodes.used s (length order.old) }
    ensures { Arranged nodes.entry.question.now nodes.entry.words.now order.old order.new nodes.entry.used s (length order.old) 0 }
{
    for i in (0..order.len()).rev() {
        place(nodes, order, i, s + i);
    }
}

fn kinds(words: &[u64], i: usize) -> Ends
    requires { i < length words.now }
    ensures { Singles words.now i result }
{
    let n = triples::load(words, i);
    Ends {
        from: 1 << n.from.0,
        to: 1 << n.to.0,
    }
}

// ORs the sets of `from` into the first of `into`.
fn or_sets(into: &mut [u64], from: &[u64])
    requires { length from.now ≤ length into.old }
    ensures { Ored from.now into.old into.new (length from.now) }
{
    // by index, since nothing is known of elements that were written through an iterator
    for (j, set) in from.iter().enumerate() {
        into[j] |= *set;
    }
}

// ORs node i's join sets into the first of `sets`, if it has these codes.
fn take_in(nodes: Nodes, i: usize, codes: &[u8], sets: &mut [u64]) -> bool
    requires { Taking nodes.question.now nodes.words.now nodes.used i codes.now sets.old }
    ensures { Taken nodes.entry.question.now nodes.entry.words.now i codes.now sets.old sets.new result }
{
    let mut own = [0u8; fields::MEMBER_SYMBOLS];
    let mut vias = [0u64; fields::MEMBER_SYMBOLS];
    let m = nodes.expand(i, &mut own, &mut vias, 0);
    if codes != &own[..m] {
        return false;
    }
    or_sets(sets, &vias[..m]);
    true
}

// The member of the run of equal codes that starts at k of the sorted nodes; its codes and join sets.
pub fn run(nodes: Nodes, order: &[usize], k: usize, codes: &mut [u8], sets: &mut [u64]) -> Group
    requires { Running nodes.question.now nodes.words.now order.now nodes.used (length order.now) k codes.old sets.old }
    ensures { Ran nodes.entry.question.now nodes.entry.words.now order.now (length order.now) k codes.new sets.new result }
{
    let i = order[k];
    let size = nodes.expand(i, codes, sets, 0);
    let e = kinds(nodes.words, i);
    let mut from = e.from;
    let mut to = e.to;
    // `next` is handed out, and so outlives the loop
    let mut next = k + 1;
    while next < order.len() && take_in(nodes, order[next], &codes[..size], sets) {
        let f = kinds(nodes.words, order[next]);
        from |= f.from;
        to |= f.to;
        next += 1;
    }
    Group {
        size,
        from,
        to,
        next,
    }
}

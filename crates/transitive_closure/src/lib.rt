// The transitive closure of a relation in lent words, at the cost of its rows. Rows are finished one after the other: a row takes in the
// rows of the records that it has. A finished row brings with it all that its own records lead to, so that these need not be gone through.
// Any order is right. The rows are finished as a depth-first search leaves them, so that most find finished ones to take in.
#![tactic(auto)]

ghost use Rattle.std.specs.Prelude.{◌≡◌, true, ◌&&◌, ◌||◌, false, ℕ, IfSome, ◌+◌, ◌*◌, ◌/◌, ◌%◌, ◌<◌, ◌≤◌, eqb, length};
ghost use Rattle.bits.specs.Bit.{bit_of};
ghost use Rattle.theory.specs.TransitiveClosure.{look, closure?};
ghost use Rattle.rows.specs.Row.{row_bit};
ghost use Rattle.relation.specs.Pairs.{pair_at, Made, Clean};
ghost use Rattle.transitive_closure.specs.Finishing.{in_word, Ahead};
ghost use Rattle.transitive_closure.specs.Standing.{Ready, TookIn, Grows, GrownTo, StepTo, Reached, StageTo, Walking, WalkedTo};

use arrayvec::ArrayVec;
use rows::{BITS, RECORDS, WIDEST};

type Row = [u64; WIDEST];

// Where the relation lies: n rows of w words, from word b on.
#[derive(Clone, Copy)]
struct Place {
    b: usize,
    n: usize,
    w: usize,
}

impl Place {
    // The word at which row k begins.
    fn row(self, k: usize) -> usize
        requires { self.b + k * self.w ≤ usize.MAX }
        ensures { result ≡ self.b + k * self.w }
    {
        self.b + k * self.w
    }
}

// What is known of the rows: live ones are not empty, pending ones are not finished yet.
#[derive(Drop)]
struct Marks {
    live: Row,
    pending: Row,
    finished: Row,
}

// Row s on its way to the closure's, and the rows that it has still to take in where it has them.
#[derive(Drop)]
struct Growth {
    row: Row,
    left: Row,
    s: usize,
}

impl Growth {
    // Takes in row k, which lies at d and is not finished; k is no longer left.
    fn take_pending(&mut self, work: &[u64], d: usize, w: usize, k: usize)
        requires { (w ≤ 16) × (d + w ≤ length work.now) × (k / 64 < w) }
        ensures { TookIn w (row_bit work.now d) (λ t. eqb t k) self.old self.new }
    {
        rows::unite(&mut self.row, 0, work, d, w);
        rows::unset(&mut self.left, 0, k);
    }

    // Takes in row k, which lies at d and is finished; neither k nor what row k has is left.
    fn take_finished(&mut self, work: &[u64], d: usize, w: usize, k: usize)
        requires { (w ≤ 16) × (d + w ≤ length work.now) × (k / 64 < w) }
        ensures { TookIn w (row_bit work.now d) (λ t. row_bit work.now d t || eqb t k) self.old self.new }
    {
        rows::unite(&mut self.row, 0, work, d, w);
        rows::exclude(&mut self.left, 0, work, d, w);
        rows::unset(&mut self.left, 0, k);
    }

    // Takes in the rows 64 i + j, which are finished, for each bit j of v; neither they nor what they have is left.
    fn take_all_finished(&mut self, work: &[u64], p: Place, i: usize, v: u64)
        requires { (p.b + p.n * p.w ≤ length work.now) × (i < p.w) × (p.w ≤ 16) × ((j : ℕ) → bit_of v j ≡ true → 64 * i + j < p.n) }
        ensures { TookIn p.w (in_word work.now p.b p.w i v)
            (λ t. in_word work.now p.b p.w i v t || (eqb (t / 64) i && bit_of v (t % 64))) self.old self.new }
    {
        let mut all = [0u64; WIDEST];
        relation::gather(&mut all, work, p.b, p.n, p.w, BITS * i, v);
        rows::unite(&mut self.row, 0, &all, 0, p.w);
        rows::exclude(&mut self.left, 0, &all, 0, p.w);
        let x = self.left[i];
        self.left[i] = x & (x ^ v);
    }

    // Takes in the finished rows of word i that it has and that are left, all at once: no test is worth what a row costs.
    fn take_rest(&mut self, work: &[u64], m: &Marks, p: Place, i: usize)
        requires { Ready work.now m.now p × Grows work.now p self.old × (i < p.w) }
        ensures { GrownTo work.now p self.old self.new }
    {
        let v = self.row[i] & (self.left[i] & m.finished[i]);
        if v != 0 {
            self.take_all_finished(work, p, i, v);
        }
    }

    // One step: takes in a finished row that is left, and then the others of its word; where there is none, one that is not finished.
    // False where what the row has is all taken in.
    fn step(&mut self, work: &[u64], m: &Marks, p: Place) -> bool
        requires { Ready work.now m.now p × Grows work.now p self.old }
        ensures { StepTo work.now p self.old self.new result }
    {
        if let Some(k) = rows::first(&self.row, 0, &self.left, &m.finished, p.w) {
            self.take_finished(work, p.row(k), p.w, k);
            self.take_rest(work, m, p, k / BITS);
            return true;
        }
        if let Some(k) = rows::first(&self.row, 0, &self.left, &self.left, p.w) {
            self.take_pending(work, p.row(k), p.w, k);
            return true;
        }
        false
    }

    // The row becomes the closure's.
    fn reach(&mut self, work: &[u64], m: &Marks, p: Place)
        requires { Ready work.now m.now p × Grows work.now p self.old }
        ensures { Reached work.now p self.old self.new }
    {
        while self.step(work, m, p) {}
    }
}

// Row s becomes the closure's. An empty row adds nothing, so that only live ones are left at first.
fn finish(work: &mut [u64], m: &mut Marks, p: Place, s: usize)
    requires { Ready work.old m.old p × (s < p.n) }
    ensures { StageTo p work.old m.old work.new m.new × (row_bit m.new.pending 0 s ≡ false) }
{
    let mut g = Growth {
        row: [0u64; WIDEST],
        left: m.live,
        s,
    };
    rows::copy(&mut g.row, 0, work, p.row(s), p.w);
    g.reach(work, m, p);
    rows::copy(work, p.row(s), &g.row, 0, p.w);
    rows::unset(&mut m.pending, 0, s);
    rows::set(&mut m.finished, 0, s);
}

// A walk over the rows, depth first: those that it has not met, and on the stack those that lead to where it stands. The stack has room for
// all rows, in the value itself.
#[derive(Drop)]
struct Search {
    unseen: Row,
    stack: ArrayVec<usize, RECORDS>,
}

impl Search {
    // A row that the walk has not met, one that the last row on the stack leads to; at its start any.
    fn ahead(&self, work: &[u64], p: Place) -> Option<usize>
        requires { (p.b + p.n * p.w ≤ length work.now) × (p.w ≤ 16) × Walking p self.now }
        ensures { IfSome result (Ahead self.now.unseen p.w) }
    {
        match self.stack.as_slice().last() {
            Some(s) => rows::first(work, p.row(*s), &self.unseen, &self.unseen, p.w),
            None => rows::first(&self.unseen, 0, &self.unseen, &self.unseen, p.w),
        }
    }

    // One turn: down into a row, or, where there is none, back from the last row, which is finished. False at the walk's end.
    fn turn(&mut self, work: &mut [u64], m: &mut Marks, p: Place) -> bool
        requires { Ready work.old m.old p × Walking p self.old }
        ensures { StageTo p work.old m.old work.new m.new × WalkedTo p self.old self.new result }
    {
        if let Some(k) = self.ahead(work, p) {
            rows::unset(&mut self.unseen, 0, k);
            self.stack.push(k);
            return true;
        }
        let Some(s) = self.stack.pop() else {
            return false;
        };
        finish(work, m, p, s);
        true
    }
}

// The rows are finished as a depth-first search over them leaves them.
fn walk(work: &mut [u64], m: &mut Marks, p: Place)
    requires { Ready work.old m.old p }
    ensures { StageTo p work.old m.old work.new m.new }
{
    let mut search = Search {
        unseen: m.pending,
        stack: ArrayVec::new(),
    };
    while search.turn(work, m, p) {}
}

// The relation at b becomes its transitive closure. After the walk no row is pending: with the loop behind it its order is a matter of speed
// alone.
pub fn closure(work: &mut [u64], b: usize, n: usize, w: usize)
    requires { (b + n * w ≤ length work.old) × (n ≤ 64 * w) × (w ≤ 16) × Clean work.old b n w }
    ensures { Made b n w (look (closure? n (pair_at work.old b w))) work.old work.new }
{
    let mut live = [0u64; WIDEST];
    relation::sources(&mut live, work, b, n, w);
    let mut m = Marks {
        live,
        pending: live,
        finished: [0u64; WIDEST],
    };
    let p = Place { b, n, w };
    walk(work, &mut m, p);
    while let Some(s) = rows::first(&m.pending, 0, &m.pending, &m.pending, w) {
        finish(work, &mut m, p, s);
    }
}

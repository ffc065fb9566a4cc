// Members that are chains of steps: a step, and then any number of a step and a join through a set. Each step is loaded once, and held past
// the relations of a stack for the members to come. A chain is then a route over those relations, which is walked record by record from the
// from set: a row goes through all links in a few words, and no relation is made on the way.
#![tactic(auto)]

ghost use Rattle.std.specs.Prelude.{◌≡◌, true, false, ◌&&◌, ◌||◌, ℕ, ◌+◌, ◌*◌, ◌/◌, ◌<◌, ◌≤◌, length, get_or, set, replicate, None, Some, IfSome};
ghost use Rattle.std.proofs.Math.Option.{some};
ghost use Rattle.theory.specs.PathExpr.{PathExpr};
ghost use Rattle.rows.specs.Kept.{Kept};
ghost use Rattle.rows.specs.Row.{row_bit, Row};
ghost use Rattle.relation.specs.Pairs.{pair_at, Made, CleanRow};
ghost use Rattle.evaluation.specs.Standing.{size, path_in};
ghost use Rattle.kind_rows.specs.Kinds.{in_set, OfRecords};
ghost use Rattle.chains.specs.Chain.{IsStep, Chained, HeldOn, StillHeld, LinkLaid, Laid};
ghost use Rattle.chains.specs.Routed.{Routed, between, Gained};

use evaluation::Symbols;
use kind_rows::KindTable;
use rows::{BITS, Ones, WIDEST};
use symbols::Symbol;

// How many steps are held: as many relations as the work words have past those of a stack.
pub const HELD: usize = 4;

// The relations of a stack, past which they lie: as many as a member can have steps.
pub const STACKED: usize = STEPS;

// The most steps of a member, each but the first with an operator, and the words of the masks between them.
pub const STEPS: usize = fields::MEMBER_SYMBOLS / 2;

pub const MASKS: usize = STEPS * WIDEST;

// A route: where its relations lie in the work words, one more than it has links, and the masks through which they are joined.
#[derive(Drop)]
pub struct Route {
    pub bases: [usize; STEPS],
    pub masks: [u64; MASKS],
    pub links: usize,
    pub ghost sized: { (length bases ≡ 24) × (length masks ≡ 384) },
}

// A route over the relations of the work words, each of so many rows of so many words: there is one to walk.
#[derive(Clone, Copy)]
pub struct Walk<'a> {
    pub work: &'a [u64],
    pub route: &'a Route,
    pub records: usize,
    pub words: usize,
    pub ghost routed: { Routed work.now route.now.bases route.now.masks records words route.now.links },
}

// Whether the number is that of a step.
fn is_step(number: u8) -> bool
    ensures { result ≡ true → IsStep number }
{
    matches!(symbols::decode(number, 0), Symbol::Step(..))
}

// Whether the symbols of a member are a chain.
fn chained(numbers: &[u8]) -> bool
    ensures { result ≡ true → (length numbers.now ≡ 2 * (length numbers.now / 2) + 1) × Chained numbers.now (length numbers.now / 2) }
{
    if numbers.len() % 2 == 0 || !is_step(numbers[0]) {
        return false;
    }
    // By index: each pair of `numbers[1..].chunks_exact(2)` would be taken apart by index again.
    for j in 0..numbers.len() / 2 {
        if !is_step(numbers[2 * j + 1]) || numbers[2 * j + 2] != symbols::THROUGH {
            return false;
        }
    }
    true
}

// The first place among those held that has a step, or that has none.
fn place(held: &[Option<u8>; HELD], step: Option<u8>) -> Option<usize>
    ensures { IfSome result (λ k. (k < 4) × (get_or held.now k None ≡ step)) }
{
    held.iter().position(|h| *h == step)
}

// The place of a step among those held, loaded if it is not there yet; none where there is no room for it. The work words, the table and what
// is held go together here and below, but not as a struct that knows so: there is no ghost field beside a `&mut` (the kit's NOT_COVERED).
fn hold(
    work: &mut [u64],
    table: &KindTable<'_>,
    held: &mut [Option<u8>; HELD],
    number: u8,
) -> Option<usize>
    requires { (28 * size table.now.ground ≤ length work.old) × HeldOn table.now held.old work.old × IsStep number }
    ensures found { IfSome result (λ k. (k < 4) × (get_or held.new k None ≡ Some number)) }
    ensures held { HeldOn table.now held.new work.new × StillHeld held.old held.new }
    ensures kept { Kept (24 * size table.now.ground) (28 * size table.now.ground) work.old work.new }
{
    if let Some(k) = place(held, Some(number)) {
        return Some(k);
    }
    let free = place(held, None)?;
    let Symbol::Step(direction, link) = symbols::decode(number, 0) else {
        return None;
    };
    let b = (STACKED + free) * table.ground.size();
    evaluation::step(work, b, &table.ground, direction, link);
    held[free] = Some(number);
    Some(free)
}

impl Route {
    ghost use Rattle.chains.specs.Walked.{RoutedOn, LeadsOn};

    // A route that leads nowhere yet.
    pub fn new() -> Route
        ensures { (result.bases ≡ replicate 24 0) × (result.masks ≡ replicate 384 0) × (result.links ≡ 0) }
    {
        Route {
            bases: [0; STEPS],
            masks: [0; MASKS],
            links: 0,
        }
    }

    // One link more: where its step lies, and the records of the set through which it is joined. False where there is no room to hold the step.
    fn lay_link(
        &mut self,
        work: &mut [u64],
        table: &KindTable<'_>,
        held: &mut [Option<u8>; HELD],
        number: u8,
        set: u64,
        j: usize,
    ) -> bool
        requires { (28 * size table.now.ground ≤ length work.old) × HeldOn table.now held.old work.old × IsStep number × (j < 23) }
        ensures held { HeldOn table.now held.new work.new × StillHeld held.old held.new }
        ensures kept { Kept (24 * size table.now.ground) (28 * size table.now.ground) work.old work.new }
        ensures laid { result ≡ true → LinkLaid table.now.ground.register.records table.now.ground.words table.now.rows.now number set j held.new
            self.old.bases self.new.bases self.old.masks self.new.masks }
    {
        let Some(k) = hold(work, table, held, number) else {
            return false;
        };
        self.bases[j + 1] = (STACKED + k) * table.ground.size();
        let mut mask = [0u64; WIDEST];
        kind_rows::records_of(&mut mask, table.rows, table.ground.words, set);
        rows::copy(&mut self.masks, WIDEST * j, &mask, 0, table.ground.words);
        true
    }

    // Where the steps of a chain of m links lie, and the records of the sets between them. False where there is no room to hold the steps.
    fn lay_links(
        &mut self,
        work: &mut [u64],
        table: &KindTable<'_>,
        held: &mut [Option<u8>; HELD],
        symbols: &Symbols<'_>,
        m: usize,
    ) -> bool
        requires room { 28 * size table.now.ground ≤ length work.old }
        requires held { HeldOn table.now held.old work.old }
        requires chained { Chained symbols.now.numbers.now m × (2 * m < length symbols.now.numbers.now) × (m < 24) }
        ensures held { HeldOn table.now held.new work.new }
        ensures kept { Kept (24 * size table.now.ground) (28 * size table.now.ground) work.old work.new }
        ensures laid { result ≡ true → Laid table.now.ground.register.records table.now.ground.words table.now.rows.now symbols.now.numbers.now symbols.now.sets.now m held.new
            self.new.bases self.new.masks }
    {
        let Some(k) = hold(work, table, held, symbols.numbers[0]) else {
            return false;
        };
        self.bases[0] = (STACKED + k) * table.ground.size();
        for j in 0..m {
            let number = symbols.numbers[2 * j + 1];
            let set = symbols.sets[2 * j + 2];
            if !self.lay_link(work, table, held, number, set, j) {
                return false;
            }
        }
        true
    }

    // Becomes the route of a member, whose links are half as many as its symbols. False where it is no chain, or there is no room to hold its steps.
    pub fn lay(
        &mut self,
        work: &mut [u64],
        table: &KindTable<'_>,
        held: &mut [Option<u8>; HELD],
        symbols: &Symbols<'_>,
    ) -> bool
        requires room { 28 * size table.now.ground ≤ length work.old }
        requires held { HeldOn table.now held.old work.old }
        ensures held { HeldOn table.now held.new work.new }
        ensures kept { Kept (24 * size table.now.ground) (28 * size table.now.ground) work.old work.new }
        ensures links { result ≡ true → self.new.links ≡ length symbols.now.numbers.now / 2 }
        ensures routed { result ≡ true → RoutedOn table.now.ground work.new self.new }
        ensures leads { result ≡ true → (p : PathExpr) → path_in symbols.now ≡ some p → LeadsOn table.now.ground work.new self.new p }
    {
        if !chained(symbols.numbers) {
            return false;
        }
        let m = symbols.numbers.len() / 2;
        if !self.lay_links(work, table, held, symbols, m) {
            return false;
        }
        self.links = m;
        true
    }

    // Becomes the route without a link over the relation at the start.
    pub fn stay(&mut self)
        ensures { (self.new.bases ≡ set self.old.bases 0 0) × (self.new.masks ≡ self.old.masks) × (self.new.links ≡ 0) }
    {
        self.bases[0] = 0;
        self.links = 0;
    }
}

impl Walk<'_> {
    ghost use Rattle.chains.specs.Walked.{walked};

    // The row, which is empty, becomes row s of a route of one link at least: it goes through all of them before the next.
    fn walk_row(&self, row: &mut [u64], s: usize)
        requires { (0 < self.now.route.now.links) × (s < self.now.records) × (self.now.words ≤ length row.old)
            × ((t : ℕ) → t / 64 < self.now.words → row_bit row.old 0 t ≡ false) }
        ensures { Row 0 self.now.words (walked self.now s) row.old row.new }
    {
        let bases = &self.route.bases;
        let masks = &self.route.masks;
        relation::take_row(
            row,
            self.work,
            bases[0] + s * self.words,
            self.work,
            bases[1],
            self.records,
            self.words,
            masks,
            0,
        );
        for j in 1..self.route.links {
            relation::follow(
                row,
                self.work,
                bases[j + 1],
                self.records,
                self.words,
                masks,
                WIDEST * j,
            );
        }
    }

    // Row s of the answer takes in that of the route, as far as the mask has its records.
    fn add_row(&self, answer: &mut [u64], s: usize, to: &[u64])
        requires { (s < self.now.records) × (self.now.records * self.now.words ≤ length answer.old) × (self.now.words ≤ length to.now) }
        ensures { Row (s * self.now.words) self.now.words (λ t. row_bit answer.old (s * self.now.words) t || (walked self.now s t && row_bit to.now 0 t))
            answer.old answer.new }
    {
        let at = s * self.words;
        if self.route.links == 0 {
            rows::unite_masked(
                answer,
                at,
                self.work,
                self.route.bases[0] + at,
                to,
                self.words,
            );
            return;
        }
        let mut row = [0u64; WIDEST];
        self.walk_row(&mut row, s);
        rows::unite_masked(answer, at, &row, 0, to, self.words);
    }

    // The rows of the answer for the records of word i of the mask `from` take in those of the route.
    fn add_word(&self, answer: &mut [u64], from: &[u64], i: usize, to: &[u64])
        requires { (self.now.records * self.now.words ≤ length answer.old) × (i < self.now.words) × (self.now.words ≤ length from.now)
            × CleanRow from.now 0 self.now.records self.now.words × (self.now.words ≤ length to.now) }
        ensures { Gained (64 * i) (64 * i + 64) self.now.records self.now.words (between (walked self.now) from.now to.now) answer.old answer.new }
    {
        for k in Ones(from[i]) {
            self.add_row(answer, BITS * i + k, to);
        }
    }

    // The answer takes in the pairs of the route whose ends the two masks have.
    fn add_rows(&self, answer: &mut [u64], from: &[u64], to: &[u64])
        requires { (self.now.records * self.now.words ≤ length answer.old) × (self.now.words ≤ length from.now)
            × CleanRow from.now 0 self.now.records self.now.words × (self.now.words ≤ length to.now) }
        ensures { Made 0 self.now.records self.now.words
            (λ s t. pair_at answer.old 0 self.now.words s t || between (walked self.now) from.now to.now s t) answer.old answer.new }
    {
        for i in 0..self.words {
            self.add_word(answer, from, i, to);
        }
    }

    // The answer takes in the pairs of the route whose ends are of the kinds of two sets.
    pub fn add_pairs(&self, answer: &mut [u64], kinds: &[u64], from: u64, to: u64)
        requires { (self.now.records * self.now.words ≤ length answer.old) × (64 * self.now.words ≤ length kinds.now) × OfRecords self.now.records self.now.words kinds.now }
        ensures { Made 0 self.now.records self.now.words (λ s t. pair_at answer.old 0 self.now.words s t
            || (walked self.now s t && (in_set kinds.now self.now.words from s && in_set kinds.now self.now.words to t))) answer.old answer.new }
    {
        let mut sources = [0u64; WIDEST];
        let mut targets = [0u64; WIDEST];
        kind_rows::records_of(&mut sources, kinds, self.words, from);
        kind_rows::records_of(&mut targets, kinds, self.words, to);
        self.add_rows(answer, &sources, &targets);
    }
}

// The records of each kind of a register, as rows of a table that is made once: the records of a set of kinds are then the union of a few rows.
#![tactic(auto)]

ghost use Rattle.std.specs.Prelude.{◌*◌, ◌≤◌, length};
ghost use Rattle.rows.specs.Row.{Row};
ghost use Rattle.register.specs.Form.{register_in};
ghost use Rattle.evaluation.specs.Standing.{register_on};
ghost use Rattle.kind_rows.specs.Kinds.{KindRows, in_set};

use evaluation::Ground;

// How many kinds there are.
const KINDS: usize = fields::KINDS as usize;

// The words of a table for the largest registers.
pub const TABLE: usize = KINDS * rows::WIDEST;

// A ground with the table of its kinds.
#[derive(Clone, Copy)]
pub struct KindTable<'a> {
    pub ground: Ground<'a>,
    pub rows: &'a [u64],
    pub ghost filled: { KindRows (register_in ground.register.file.now) ground.register.records ground.words rows.now },
}

// The table becomes that of a register.
pub fn fill(kinds: &mut [u64], ground: &Ground<'_>)
    requires { 64 * ground.now.words ≤ length kinds.old }
    ensures { KindRows (register_on ground.now) ground.now.register.records ground.now.words kinds.new }
{
    rows::clear(kinds, 0, KINDS * ground.words);
    for t in 0..ground.register.records {
        let k = usize::from(ground.register.kind_at(t).0);
        rows::set(kinds, k * ground.words, t);
    }
}

// The mask becomes the records of the kinds in the set.
pub fn records_of(mask: &mut [u64], kinds: &[u64], w: usize, set: u64)
    requires { (w ≤ length mask.old) × (64 * w ≤ length kinds.now) }
    ensures { Row 0 w (in_set kinds.now w set) mask.old mask.new }
{
    rows::clear(mask, 0, w);
    relation::take_word(mask, kinds, 0, KINDS, w, 0, set);
}

// The plain answer and the narrowed answer: the pairs of a question on a register, as words in an area that is lent.
#![tactic(auto)]

ghost use Rattle.std.specs.Prelude.{◌≡◌, ◌*◌, ◌≤◌, length, Ok};
ghost use Rattle.std.proofs.Math.Option.{some};
ghost use Rattle.theory.specs.PathExpr.{PathExpr};
ghost use Rattle.theory.specs.Merging.{member};
ghost use Rattle.theory.specs.Evaluation.{narrowed_answer, member_answer};
ghost use Rattle.theory.specs.Words.{row_words};
ghost use Rattle.narrowed_question.specs.ArrayMembers.{given};
ghost use Rattle.rows.specs.Kept.{Kept};
ghost use Rattle.evaluation.specs.Standing.{register_on, size, path_in};
ghost use Rattle.chains.specs.Chain.{HeldOn};
ghost use Rattle.chains.specs.Walked.{RoutedOn, LeadsOn};
ghost use Rattle.fields.specs.Call.{Returns, performed};
ghost use Rattle.fields.specs.Contract.{outcome_said};
ghost use Rattle.answer.specs.Calls.{answer_task, asked, members_of, plain_call, narrowed_call};
ghost use Rattle.answer.specs.Contract.{Fills, Readable};
ghost use Rattle.answer.specs.Internal.{Adds};

use chains::{HELD, Route, Walk};
use evaluation::{Ground, Path, Symbols};
use fields::{Failure, Refusal, Source};
use kind_rows::KindTable;
use narrowed_question::Members;

// The relations of the work words: those of a stack, and the steps that are held past them.
pub const RELATIONS: usize = chains::STACKED + HELD;

// The words of a row of n records.
pub fn row_words(n: usize) -> usize
    requires { n ≤ 1024 }
    ensures { result ≡ row_words n }
{
    evaluation::row_words(n)
}

// 14; or the pairs of the path, as the answer's words.
fn plain_words(
    path: &Path<'_>,
    ground: &Ground<'_>,
    work: &mut [u64],
    answer: &mut [u64],
) -> Result<(), Failure>
    requires { 28 * size ground.now ≤ length work.old }
    ensures { Fills ground.now.register.records ground.now.words (asked (register_on ground.now) (path_in path.now.symbols))
        result work.old work.new answer.old answer.new }
{
    let need = ground.size();
    if answer.len() < need {
        return Err(Refusal::AreaShort(need).about(Source::Work));
    }
    evaluation::evaluate(work, ground, path);
    rows::copy(answer, 0, work, 0, need);
    Ok(())
}

// 15; or as `plain_words`, and then the work words are zero. `narrowed_in` does the same by `narrowed_words`: as a closure that one function
// takes, either would have to say all of its contract again.
fn plain_in(
    path: &Path<'_>,
    ground: &Ground<'_>,
    work: &mut [u64],
    answer: &mut [u64],
) -> Result<(), Failure>
    ensures { Returns (performed (answer_task (register_on ground.now)
        (asked (register_on ground.now) (path_in path.now.symbols)))
        work.old answer.old) (outcome_said result) work.new answer.new }
{
    let need = RELATIONS * ground.size();
    if work.len() < need {
        return Err(Refusal::WorkShort(need).about(Source::Work));
    }
    let o = plain_words(path, ground, work, answer);
    rows::clear(work, 0, need);
    o
}

// The pairs of a question on a register.
pub fn plain_answer(
    question: &[u8],
    register: &[u8],
    work: &mut [u64],
    answer: &mut [u64],
) -> Result<(), Failure>
    ensures { Returns (plain_call question.now register.now work.old answer.old) (outcome_said result) work.new answer.new }
{
    let q = fields::about(Source::Question, question::read(question))?;
    let register = fields::about(Source::Register, register::read(register))?;
    let numbers = q.symbols();
    let sets = [0u64; question::MOST_SYMBOLS];
    let symbols = Symbols {
        numbers,
        sets: &sets[..numbers.len()],
    };
    plain_in(&Path { symbols }, &Ground::new(register), work, answer)
}

// Makes the route from which a member's pairs are read: over its steps where it is a chain and there is room to hold them, and else without a
// link, over its own relation, which is evaluated at the start.
fn member_route(
    path: &Path<'_>,
    table: &KindTable<'_>,
    held: &mut [Option<u8>; HELD],
    work: &mut [u64],
    route: &mut Route,
)
    requires room { 28 * size table.now.ground ≤ length work.old }
    requires held { HeldOn table.now held.old work.old }
    ensures held { HeldOn table.now held.new work.new }
    ensures kept { Kept 0 (28 * size table.now.ground) work.old work.new }
    ensures routed { RoutedOn table.now.ground work.new route.new }
    ensures leads { (p : PathExpr) → path_in path.now.symbols ≡ some p
        → LeadsOn table.now.ground work.new route.new p }
{
    if route.lay(work, table, held, &path.symbols) {
        return;
    }
    evaluation::evaluate(work, &table.ground, path);
    route.stay();
}

// The answer takes in the pairs of a member.
fn add_member(
    path: &Path<'_>,
    from: u64,
    to: u64,
    table: &KindTable<'_>,
    held: &mut [Option<u8>; HELD],
    work: &mut [u64],
    answer: &mut [u64],
)
    requires room { (28 * size table.now.ground ≤ length work.old) × (size table.now.ground ≤ length answer.old) }
    requires held { HeldOn table.now held.old work.old }
    ensures held { HeldOn table.now held.new work.new }
    ensures adds { (p : PathExpr) → path_in path.now.symbols ≡ some p
        → Adds (register_on table.now.ground) table.now.ground.register.records table.now.ground.words
        (λ s t. member_answer (register_on table.now.ground) s t (member from p to)) work.old work.new answer.old answer.new }
{
    let mut route = Route::new();
    member_route(path, table, held, work, &mut route);
    let walk = Walk {
        work,
        route: &route,
        records: table.ground.register.records,
        words: table.ground.words,
    };
    walk.add_pairs(answer, table.rows, from, to);
}

// The answer takes in the pairs of each member.
fn add_members(members: &Members, ground: &Ground<'_>, work: &mut [u64], answer: &mut [u64])
    requires readable { Readable members.now }
    requires room { (28 * size ground.now ≤ length work.old) × (size ground.now ≤ length answer.old) }
    ensures { Adds (register_on ground.now) ground.now.register.records ground.now.words
        (narrowed_answer (register_on ground.now) (members_of (given members.now))) work.old work.new answer.old answer.new }
{
    let mut kinds = [0u64; kind_rows::TABLE];
    kind_rows::fill(&mut kinds, ground);
    let table = KindTable {
        ground: *ground,
        rows: &kinds,
    };
    let mut held = [None; HELD];
    let mut first = 0;
    // By index: the three arrays zipped, with as many taken as there are members, would be no plainer.
    for i in 0..members.count {
        let next = first + usize::from(members.sizes[i]);
        let symbols = Symbols {
            numbers: &members.numbers[first..next],
            sets: &members.sets[first..next],
        };
        let path = Path { symbols };
        add_member(
            &path,
            members.from[i],
            members.to[i],
            &table,
            &mut held,
            work,
            answer,
        );
        first = next;
    }
}

// The pairs of the members, as the answer's words.
pub fn set_members(members: &Members, ground: &Ground<'_>, work: &mut [u64], answer: &mut [u64])
    requires readable { Readable members.now }
    requires room { (28 * size ground.now ≤ length work.old) × (size ground.now ≤ length answer.old) }
    ensures { Fills ground.now.register.records ground.now.words (narrowed_answer (register_on ground.now) (members_of (given members.now)))
        (Ok tt) work.old work.new answer.old answer.new }
{
    let room = ground.size();
    rows::clear(answer, 0, room);
    add_members(members, ground, work, answer);
}

// 14; or the pairs of the members.
fn narrowed_words(
    members: &Members,
    ground: &Ground<'_>,
    work: &mut [u64],
    answer: &mut [u64],
) -> Result<(), Failure>
    requires readable { Readable members.now }
    requires room { 28 * size ground.now ≤ length work.old }
    ensures { Fills ground.now.register.records ground.now.words (narrowed_answer (register_on ground.now) (members_of (given members.now)))
        result work.old work.new answer.old answer.new }
{
    let room = ground.size();
    if answer.len() < room {
        return Err(Refusal::AreaShort(room).about(Source::Work));
    }
    set_members(members, ground, work, answer);
    Ok(())
}

// 15; or as `narrowed_words`, and then the work words are zero.
fn narrowed_in(
    members: &Members,
    ground: &Ground<'_>,
    work: &mut [u64],
    answer: &mut [u64],
) -> Result<(), Failure>
    requires { Readable members.now }
    ensures { Returns (performed (answer_task (register_on ground.now)
        (narrowed_answer (register_on ground.now) (members_of (given members.now))))
        work.old answer.old) (outcome_said result) work.new answer.new }
{
    let room = RELATIONS * ground.size();
    if work.len() < room {
        return Err(Refusal::WorkShort(room).about(Source::Work));
    }
    let o = narrowed_words(members, ground, work, answer);
    rows::clear(work, 0, room);
    o
}

// The pairs of a narrowed question on a register.
pub fn narrowed_answer(
    narrowed: &[u8],
    register: &[u8],
    work: &mut [u64],
    answer: &mut [u64],
) -> Result<(), Failure>
    ensures { Returns (narrowed_call narrowed.now register.now work.old answer.old) (outcome_said result) work.new answer.new }
{
    let mut members = Members::blank();
    fields::about(
        Source::Narrowed,
        narrowed_question::read_into(narrowed, &mut members),
    )?;
    let register = fields::about(Source::Register, register::read(register))?;
    narrowed_in(&members, &Ground::new(register), work, answer)
}

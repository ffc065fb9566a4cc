// The public calls. Those for programs in C (include/paths.h) hand their areas on and tell the outcome in three numbers: specs/OutcomeNumbers.antt.
// What holds of the calls together is in specs/Agreement.antt (demand 3) and specs/Shortening.antt.
#![tactic(auto)]

ghost use Rattle.std.specs.Prelude.{◌≡◌};
ghost use Rattle.fields.specs.Contract.{number_of, place_of, source_number, outcome_said, written_said};
ghost use Rattle.fields.specs.declared.Source.TheVariants as source;
ghost use Rattle.fields.specs.Reading.{read};
ghost use Rattle.sheet.specs.Form.{sheet_form};
ghost use Rattle.question.specs.Form.{question_form};
ghost use Rattle.narrowed_question.specs.Form.{narrowed_form};
ghost use Rattle.register.specs.Form.{register_form};
ghost use Rattle.narrowed_writer.specs.Outcome.{Writes};
ghost use Rattle.conformance.specs.Check.{check_of};
ghost use Rattle.narrowing.specs.Call.{narrow_call, size_call};
ghost use Rattle.answer.specs.Calls.{plain_call, narrowed_call};
ghost use Rattle.job.specs.Call.{results, job_call};
ghost use Rattle.shortening.specs.Call.{shorten_call};
ghost use Rattle.paths.specs.OutcomeNumbers.{judged, judged_by, tells, no_more, of_size, Tells, TellsOutput, TellsCall, TellsPlain};

use fields::{Failure, Refusal, Size, Source};
use narrowed_question::Members;

// What a call that is accepted returns; every refusal has a number of its own.
const ACCEPTED: u64 = 0;

// Tells a refusal: leaves its place and the number of what it is about, returns its own number.
fn tell_failure(f: Failure, first: &mut u64, second: &mut u64) -> u64
    ensures { tells result first.new second.new ≡ tells (number_of f.refusal) (place_of f.refusal) (source_number f.source) }
{
    *first = f.refusal.place() as u64;
    *second = u64::from(u8::from(f.source));
    u64::from(f.refusal.number())
}

fn tell_file(o: Result<Size, Failure>, first: &mut u64, second: &mut u64) -> u64
    ensures { Tells of_size (written_said o) (tells result first.new second.new) }
{
    match o {
        Ok(size) => {
            *first = size.count as u64;
            *second = size.bytes as u64;
            ACCEPTED
        }
        Err(f) => tell_failure(f, first, second),
    }
}

fn tell(o: Result<(), Failure>, first: &mut u64, second: &mut u64) -> u64
    ensures { Tells no_more (outcome_said o) (tells result first.new second.new) }
{
    match o {
        Ok(()) => tell_file(Ok(Size { count: 0, bytes: 0 }), first, second),
        Err(f) => tell_failure(f, first, second),
    }
}

// ---- how each file is judged, and the writer

// By what its reader gives.
fn judge<T>(source: Source, read: &Result<T, Refusal>) -> Result<(), Failure>
    ensures { outcome_said result ≡ judged_by source read.now }
{
    match read {
        Ok(_) => Ok(()),
        Err(r) => Err(r.about(source)),
    }
}

// Whether the bytes are the file of a sheet.
pub fn judge_sheet(file: &[u8]) -> Result<(), Failure>
    ensures { outcome_said result ≡ judged source.Sheet (read sheet_form file.now) }
{
    judge(Source::Sheet, &sheet::read(file))
}

// Of a question.
pub fn judge_question(file: &[u8]) -> Result<(), Failure>
    ensures { outcome_said result ≡ judged source.Question (read question_form file.now) }
{
    judge(Source::Question, &question::read(file))
}

// Of a narrowed question.
pub fn judge_narrowed(file: &[u8]) -> Result<(), Failure>
    ensures { outcome_said result ≡ judged source.Narrowed (read narrowed_form file.now) }
{
    judge(Source::Narrowed, &narrowed_question::read(file))
}

// Of a register.
pub fn judge_register(file: &[u8]) -> Result<(), Failure>
    ensures { outcome_said result ≡ judged source.Register (read register_form file.now) }
{
    judge(Source::Register, &register::read(file))
}

// Writes members of any contents as a narrowed question's file.
pub fn write(members: &Members, area: &mut [u8]) -> Result<usize, Refusal>
    ensures { Writes members.now area.old result area.new }
{
    narrowed_writer::write(members, area)
}

// ---- check, narrowing, shortening, answers and the whole job, for C

// Whether a register obeys a sheet.
pub fn paths_check(sheet: &[u8], register: &[u8], first: &mut u64, second: &mut u64) -> u64
    ensures { Tells no_more (check_of sheet.now register.now) (tells result first.new second.new) }
{
    tell(conformance::check(sheet, register), first, second)
}

// Narrows a question by a sheet, and writes the file of the narrowed question.
pub fn paths_narrow(
    sheet: &[u8],
    question: &[u8],
    work: &mut [u64],
    file: &mut [u8],
    first: &mut u64,
    second: &mut u64,
) -> u64
    ensures { TellsCall of_size (narrow_call sheet.now question.now work.old file.old)
        (tells result first.new second.new) work.new file.new }
{
    tell_file(
        narrowing::narrowing(sheet, question, work, file),
        first,
        second,
    )
}

// The size of the file that narrowing writes, without any area for it; or the refusal that narrowing gives.
pub fn paths_narrow_bytes(
    sheet: &[u8],
    question: &[u8],
    work: &mut [u64],
    first: &mut u64,
    second: &mut u64,
) -> u64
    ensures { TellsCall of_size (size_call sheet.now question.now work.old)
        (tells result first.new second.new) work.new tt }
{
    tell_file(
        narrowing::narrowed_size(sheet, question, work),
        first,
        second,
    )
}

// Shortens a question, and writes the file of the shortened one.
pub fn paths_shorten(question: &[u8], file: &mut [u8], first: &mut u64, second: &mut u64) -> u64
    ensures { TellsOutput of_size (shorten_call question.now file.old) (tells result first.new second.new) file.new }
{
    tell_file(shortening::shorten(question, file), first, second)
}

// The pairs of a question on a register.
pub fn paths_answer(
    question: &[u8],
    register: &[u8],
    work: &mut [u64],
    answer: &mut [u64],
    first: &mut u64,
    second: &mut u64,
) -> u64
    ensures { TellsCall no_more (plain_call question.now register.now work.old answer.old)
        (tells result first.new second.new) work.new answer.new }
{
    tell(
        answer::plain_answer(question, register, work, answer),
        first,
        second,
    )
}

// The pairs of a narrowed question on a register.
pub fn paths_answer_narrowed(
    narrowed: &[u8],
    register: &[u8],
    work: &mut [u64],
    answer: &mut [u64],
    first: &mut u64,
    second: &mut u64,
) -> u64
    ensures { TellsCall no_more (narrowed_call narrowed.now register.now work.old answer.old)
        (tells result first.new second.new) work.new answer.new }
{
    tell(
        answer::narrowed_answer(narrowed, register, work, answer),
        first,
        second,
    )
}

// Narrows the question by the sheet, checks the register, writes the narrowed file and its answer on the register.
pub fn paths_job(
    sheet: &[u8],
    question: &[u8],
    register: &[u8],
    work: &mut [u64],
    answer: &mut [u64],
    file: &mut [u8],
    first: &mut u64,
    second: &mut u64,
) -> u64
    ensures tells_call { TellsCall of_size (job_call sheet.now question.now register.now work.old answer.old file.old)
        (tells result first.new second.new) work.new (results answer.new file.new) }
    ensures tells_plain { TellsPlain (plain_call question.now register.now work.old answer.old)
        (tells result first.new second.new) answer.new }
{
    tell_file(
        job::whole_job(sheet, question, register, work, answer, file),
        first,
        second,
    )
}

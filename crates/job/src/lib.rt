// The whole job: from the files of a sheet, a question and a register to the file of the narrowed question and its answer.
#![tactic(auto)]

ghost use Rattle.std.specs.Prelude.{◌*◌, ◌≤◌, length};
ghost use Rattle.evaluation.specs.Standing.{size};
ghost use Rattle.fields.specs.Call.{Returns};
ghost use Rattle.fields.specs.Contract.{written_said};
ghost use Rattle.answer.specs.Calls.{plain_call};
ghost use Rattle.job.specs.Call.{results, job_call};
ghost use Rattle.job.specs.Contract.{AnswersPlain};
ghost use Rattle.job.specs.Internal.{HasMembers, AnswersFile, Asked, Roomy, JobFills, Settles};

use evaluation::Ground;
use fields::{Failure, Refusal, Size, Source};
use narrowed_question::Members;
use sheet::Sheet;

// The answer of the file that was written.
fn answer_file(file: &[u8], ground: &Ground<'_>, work: &mut [u64], answer: &mut [u64])
    requires written { HasMembers file.now }
    requires room { (28 * size ground.now ≤ length work.old) × (size ground.now ≤ length answer.old) }
    ensures { AnswersFile file.now ground.now work.old work.new answer.old answer.new }
{
    let mut members = Members::blank();
    // What narrowing wrote is not refused.
    if narrowed_question::read_into(file, &mut members).is_ok() {
        answer::set_members(&members, ground, work, answer);
    }
}

// 14 for the answer; 11, 16, 12 or 13, 14 for the file; or the file and its answer.
fn job_words(
    symbols: &[u8],
    sheet: &Sheet,
    ground: &Ground<'_>,
    work: &mut [u64],
    answer: &mut [u64],
    file: &mut [u8],
) -> Result<Size, Refusal>
    requires asked { Asked symbols.now sheet.now }
    requires roomy { Roomy ground.now work.old }
    ensures { JobFills symbols.now sheet.now ground.now work.old work.new answer.old answer.new file.old file.new result }
{
    let need = ground.size();
    if answer.len() < need {
        return Err(Refusal::AreaShort(need));
    }
    if let Some(i) = narrowing::first_unnamed(symbols, sheet.links) {
        return Err(Refusal::UnnamedLink(i));
    }
    if let Some(i) = conformance::first_breach(&ground.register, sheet) {
        return Err(Refusal::Breach(i));
    }
    let size = narrowing::narrow_named(symbols, sheet, work, file)?;
    answer_file(&file[..size.bytes], ground, work, answer);
    Ok(size)
}

// 15; or as `job_words`, and then the work words are zero.
fn job_in(
    symbols: &[u8],
    sheet: &Sheet,
    ground: &Ground<'_>,
    work: &mut [u64],
    answer: &mut [u64],
    file: &mut [u8],
) -> Result<Size, Refusal>
    requires { Asked symbols.now sheet.now }
    ensures { Settles symbols.now sheet.now ground.now work.old work.new answer.old answer.new file.old file.new result }
{
    // Enough to narrow, and to answer.
    let need = narrowing::NEED.max(answer::RELATIONS * ground.size());
    if work.len() < need {
        return Err(Refusal::WorkShort(need));
    }
    let size = job_words(symbols, sheet, ground, work, answer, file);
    rows::clear(work, 0, need);
    size
}

// Narrows the question by the sheet, checks the register, writes the narrowed file and its answer on the register.
pub fn whole_job(
    sheet: &[u8],
    question: &[u8],
    register: &[u8],
    work: &mut [u64],
    answer: &mut [u64],
    file: &mut [u8],
) -> Result<Size, Failure>
    ensures returns { Returns (job_call sheet.now question.now register.now work.old answer.old file.old)
        (written_said result) work.new (results answer.new file.new) }
    ensures answers_plain { AnswersPlain (plain_call question.now register.now work.old answer.old) result answer.new }
{
    let mut read = Sheet::blank();
    fields::about(Source::Sheet, sheet::read_into(sheet, &mut read))?;
    let q = fields::about(Source::Question, question::read(question))?;
    let r = fields::about(Source::Register, register::read(register))?;
    let ground = Ground::new(r);
    let size = job_in(q.symbols(), &read, &ground, work, answer, file);
    fields::about(Source::Work, size)
}

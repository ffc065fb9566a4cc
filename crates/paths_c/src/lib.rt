// The calls of the library for programs in C, under the names of include/paths.h: each hands on to the call of `paths` of its name.
#![tactic(auto)]

ghost use Rattle.conformance.specs.Check.{check_of};
ghost use Rattle.narrowing.specs.Call.{narrow_call, size_call};
ghost use Rattle.answer.specs.Calls.{plain_call, narrowed_call};
ghost use Rattle.job.specs.Call.{results, job_call};
ghost use Rattle.shortening.specs.Call.{shorten_call};
ghost use Rattle.paths.specs.OutcomeNumbers.{tells, no_more, of_size, Tells, TellsOutput, TellsCall, TellsPlain};

// Whether a register obeys a sheet.
#[unsafe(no_mangle)]
pub extern "C" fn paths_check(
    sheet: &[u8],
    register: &[u8],
    first: &mut u64,
    second: &mut u64,
) -> u64
    ensures { Tells no_more (check_of sheet.now register.now) (tells result first.new second.new) }
{
    paths::paths_check(sheet, register, first, second)
}

// Narrows a question by a sheet, and writes the file of the narrowed question.
#[unsafe(no_mangle)]
pub extern "C" fn paths_narrow(
    sheet: &[u8],
    question: &[u8],
    work: &mut [u64],
    file: &mut [u8],
    first: &mut u64,
    second: &mut u64,
) -> u64
    ensures { TellsCall of_size (narrow_call sheet.now question.now work.old file.old)
        (tells result first.new second.new) work.new file.new }
{
    paths::paths_narrow(sheet, question, work, file, first, second)
}

// The size of the file that narrowing writes, without any area for it; or the refusal that narrowing gives.
#[unsafe(no_mangle)]
pub extern "C" fn paths_narrow_bytes(
    sheet: &[u8],
    question: &[u8],
    work: &mut [u64],
    first: &mut u64,
    second: &mut u64,
) -> u64
    ensures { TellsCall of_size (size_call sheet.now question.now work.old)
        (tells result first.new second.new) work.new tt }
{
    paths::paths_narrow_bytes(sheet, question, work, first, second)
}

// Shortens a question, and writes the file of the shortened one.
#[unsafe(no_mangle)]
pub extern "C" fn paths_shorten(
    question: &[u8],
    file: &mut [u8],
    first: &mut u64,
    second: &mut u64,
) -> u64
    ensures { TellsOutput of_size (shorten_call question.now file.old) (tells result first.new second.new) file.new }
{
    paths::paths_shorten(question, file, first, second)
}

// The pairs of a question on a register.
#[unsafe(no_mangle)]
pub extern "C" fn paths_answer(
    question: &[u8],
    register: &[u8],
    work: &mut [u64],
    answer: &mut [u64],
    first: &mut u64,
    second: &mut u64,
) -> u64
    ensures { TellsCall no_more (plain_call question.now register.now work.old answer.old)
        (tells result first.new second.new) work.new answer.new }
{
    paths::paths_answer(question, register, work, answer, first, second)
}

// The pairs of a narrowed question on a register.
#[unsafe(no_mangle)]
pub extern "C" fn paths_answer_narrowed(
    narrowed: &[u8],
    register: &[u8],
    work: &mut [u64],
    answer: &mut [u64],
    first: &mut u64,
    second: &mut u64,
) -> u64
    ensures { TellsCall no_more (narrowed_call narrowed.now register.now work.old answer.old)
        (tells result first.new second.new) work.new answer.new }
{
    paths::paths_answer_narrowed(narrowed, register, work, answer, first, second)
}

// Narrows the question by the sheet, checks the register, writes the narrowed file and its answer on the register.
#[unsafe(no_mangle)]
pub extern "C" fn paths_job(
    sheet: &[u8],
    question: &[u8],
    register: &[u8],
    work: &mut [u64],
    answer: &mut [u64],
    file: &mut [u8],
    first: &mut u64,
    second: &mut u64,
) -> u64
    ensures tells_call { TellsCall of_size (job_call sheet.now question.now register.now work.old answer.old file.old)
        (tells result first.new second.new) work.new (results answer.new file.new) }
    ensures tells_plain { TellsPlain (plain_call question.now register.now work.old answer.old)
        (tells result first.new second.new) answer.new }
{
    paths::paths_job(sheet, question, register, work, answer, file, first, second)
}

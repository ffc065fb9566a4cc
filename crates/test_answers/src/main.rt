// Makes each call of standard input, and writes a line of what came of it: the check, the plain answer, the narrowed answer.
// tests/test_answers.py makes the calls (stdin) and the lines that are due (stdout) from the reference program.
// Assumed of std's standard input and output: that their calls return, and keep to their buffers.
#![tactic(auto)]

use fields::Failure;
use std::io;
use test_report::Files;

// The tags of calls.
const CHECK: u8 = 5;

const PLAIN: u8 = 6;

const NARROWED: u8 = 7;

// Places in the body of a call for an answer: the words of its work area and of its answer area, two bytes each.
const WORK_IN: usize = 0;

const ANSWER_IN: usize = 2;

// The words that can be lent.
const WORK: usize = 11000;

const ANSWER: usize = 400;

// What a call says: number, file and place of a refusal.
fn outcome(rt: &impl Print, o: Result<(), Failure>) -> io::Result<()> {
    match o {
        Ok(()) => print!(rt; "accepted"),
        Err(f) => test_report::refused(rt, f),
    }
}

fn run_check(rt: &impl Print, files: Files) -> io::Result<()> {
    outcome(rt, conformance::check(files.sheet, files.register))?;
    println!(rt)
}

fn call(tag: u8, files: Files, work: &mut [u64], answer: &mut [u64]) -> Result<(), Failure> {
    if tag == PLAIN {
        answer::plain_answer(files.question, files.register, work, answer)
    } else {
        answer::narrowed_answer(files.narrowed, files.register, work, answer)
    }
}

fn call_in(
    rt: &impl Print,
    tag: u8,
    files: Files,
    work: &mut [u64],
    answer: &mut [u64],
) -> io::Result<()> {
    test_report::mark(work);
    test_report::mark(answer);
    outcome(rt, call(tag, files, work, answer))?;
    print!(rt; " ")?;
    test_report::number(rt, test_report::mix_words(0, work))?;
    test_report::end(rt, test_report::mix_words(0, answer))
}

fn run_answer(rt: &impl Print, tag: u8, files: Files, sizes: &[u8]) -> io::Result<()> {
    let mut work = [0u64; WORK];
    let mut answer = [0u64; ANSWER];
    let n = test_report::lent(test_report::two_at(sizes, WORK_IN), WORK);
    let m = test_report::lent(test_report::two_at(sizes, ANSWER_IN), ANSWER);
    call_in(rt, tag, files, &mut work[..n], &mut answer[..m])
}

fn run(rt: &impl Print, tag: Option<u8>, body: &[u8], files: Files) -> io::Result<()> {
    match tag {
        Some(CHECK) => run_check(rt, files),
        Some(call @ (PLAIN | NARROWED)) => run_answer(rt, call, files, body),
        _ => Ok(()),
    }
}

// Each field is a file, from there on, or a call.
fn main(rt: HostRuntime) -> io::Result<()> {
    test_report::run_all(&rt, |tag, body, files| run(&rt, tag, body, files))
}

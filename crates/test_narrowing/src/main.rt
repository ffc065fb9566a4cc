// Makes each call of narrowing that standard input has, and writes a line of what came of it.
// tests/test_narrowing.py makes the calls (stdin) and the lines that are due (stdout) from the reference program.
// Assumed of std's standard input and output: that their calls return, and keep to their buffers.
#![tactic(auto)]

use fields::{Failure, Size};
use std::io;
use test_report::Files;

// The tag of a call.
const NARROWING: u8 = 5;

// Places in its body: the words of its work area in two bytes, and the bytes of the file's area in twice two.
const WORK_IN: usize = 0;

const FILE_IN: usize = 2;

const FILE_REST_IN: usize = 4;

const TWO_BYTES: usize = fields::TWO_BYTES as usize;

// The words and bytes that can be lent.
const WORK: usize = 8200;

const FILE: usize = 70200;

// What the call says: members and bytes of the file; or number, file and place of a refusal.
fn outcome(rt: &impl Print, o: Result<Size, Failure>) -> io::Result<()> {
    match o {
        Ok(Size { count, bytes }) => print!(rt; "file {count} {bytes}"),
        Err(f) => test_report::refused(rt, f),
    }
}

fn call_in(rt: &impl Print, files: Files, work: &mut [u64], file: &mut [u8]) -> io::Result<()> {
    test_report::mark(work);
    outcome(
        rt,
        narrowing::narrowing(files.sheet, files.question, work, file),
    )?;
    print!(rt; " ")?;
    test_report::number(rt, test_report::mix_words(0, work))?;
    test_report::end(rt, test_report::mix_bytes(0, file))
}

fn run_narrowing(rt: &impl Print, files: Files, sizes: &[u8]) -> io::Result<()> {
    let mut work = [0u64; WORK];
    let mut file = [test_report::LEFT; FILE];
    let n = test_report::lent(test_report::two_at(sizes, WORK_IN), WORK);
    let m = test_report::lent(
        test_report::two_at(sizes, FILE_IN) * TWO_BYTES + test_report::two_at(sizes, FILE_REST_IN),
        FILE,
    );
    call_in(rt, files, &mut work[..n], &mut file[..m])
}

fn run(rt: &impl Print, tag: Option<u8>, body: &[u8], files: Files) -> io::Result<()> {
    if tag == Some(NARROWING) {
        run_narrowing(rt, files, body)?;
    }
    Ok(())
}

// Each field is a file, from there on, or a call.
fn main(rt: HostRuntime) -> io::Result<()> {
    test_report::run_all(&rt, |tag, body, files| run(&rt, tag, body, files))
}

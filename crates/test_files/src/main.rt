// Hands each vector of standard input to its reader or to the writer, and writes a line of what came of it. tests/test_files.py makes the
// vectors (stdin) and the lines that are due (stdout) from the reference program.
// Assumed of std's standard input and output: that their calls return, and keep to their buffers.
#![tactic(auto)]

mod digest;
mod given;
mod line;

use narrowed_question::Members;
use std::io;
use test_report::{NARROWED, QUESTION, REGISTER, SHEET};

// The tag of a vector for the writer; those for a reader have the tags of their files.
const WRITER: u8 = 5;

// The bytes that the writer can be lent, more than two bytes can say.
const SPACE: usize = 65536;

fn run_sheet(rt: &impl Print, s: &[u8]) -> io::Result<()> {
    match &sheet::read(s) {
        Ok(sheet) => {
            line::read(rt, u64::from(sheet.kinds))?;
            test_report::number(rt, u64::from(sheet.links))?;
            test_report::end(rt, test_report::mix_words(0, &sheet.table))
        }
        Err(r) => {
            line::refused(rt, *r)?;
            test_report::end(rt, test_report::mix_words(0, &[0; sheet::TABLE]))
        }
    }
}

fn run_question(rt: &impl Print, s: &[u8]) -> io::Result<()> {
    match question::read(s) {
        Ok(q) => {
            line::read(rt, q.count as u64)?;
            test_report::end(rt, test_report::mix_bytes(0, &q.codes))
        }
        Err(r) => {
            line::refused(rt, r)?;
            test_report::end(rt, test_report::mix_bytes(0, &[0; question::MOST_SYMBOLS]))
        }
    }
}

fn run_register(rt: &impl Print, s: &[u8]) -> io::Result<()> {
    match register::read(s) {
        Ok(register) => {
            line::read(rt, register.records as u64)?;
            test_report::number(rt, register.links as u64)?;
            test_report::end(rt, digest::mix_register(&register))
        }
        Err(r) => {
            line::refused(rt, r)?;
            test_report::end(rt, 0)
        }
    }
}

fn run_narrowed(rt: &impl Print, s: &[u8]) -> io::Result<()> {
    match &narrowed_question::read(s) {
        Ok(members) => {
            line::read(rt, members.count as u64)?;
            test_report::end(rt, digest::mix_members(members))
        }
        Err(r) => {
            line::refused(rt, *r)?;
            test_report::end(rt, digest::mix_members(&Members::blank()))
        }
    }
}

// The area is no longer than the vector says, so that what lies past a file, and an area left untouched, show in its digest.
fn write_into(rt: &impl Print, area: &mut [u8], s: &[u8]) -> io::Result<()> {
    match narrowed_writer::write(&given::given(s), area) {
        Ok(n) => line::wrote(rt, n as u64)?,
        Err(r) => line::refused(rt, r)?,
    }
    test_report::end(rt, test_report::mix_bytes(0, area))
}

fn run_writer(rt: &impl Print, s: &[u8]) -> io::Result<()> {
    let mut space = [test_report::LEFT; SPACE];
    let n = test_report::two_at(s, given::AREA_AT);
    write_into(rt, &mut space[..n], s)
}

fn run(rt: &impl Print, tag: Option<u8>, s: &[u8]) -> io::Result<()> {
    match tag {
        Some(SHEET) => run_sheet(rt, s),
        Some(QUESTION) => run_question(rt, s),
        Some(REGISTER) => run_register(rt, s),
        Some(NARROWED) => run_narrowed(rt, s),
        Some(WRITER) => run_writer(rt, s),
        _ => test_report::end(rt, 0),
    }
}

// A vector is a field: a tag that says which call it is for, a two-byte length, and what is handed in as its body.
fn main(rt: HostRuntime) -> io::Result<()> {
    test_report::run_all(&rt, |tag, body, _| run(&rt, tag, body))
}

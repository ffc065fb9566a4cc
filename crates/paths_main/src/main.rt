// Runs the whole job on the files sheet, question and register of the working directory, and prints what came of it.
// Assumed of std's files and standard output: that their calls return, and keep to their buffers.
#![tactic(auto)]

ghost use Rattle.std.specs.Prelude.{◌≡◌, ◌<◌, ◌≤◌, length, take, IfSome};
ghost use Rattle.register.specs.Form.{register_in};
ghost use Rattle.encode.specs.BytesWritten.{BytesWritten};
ghost use Rattle.paths_main.specs.Output.{copies, printed, Prints, Printable, answer_of};

use fields::Source;
use register::Register;
use std::io::Read;
use std::rt::Files;
use std::{fs, io};

// What is lent: the words of work that narrowing needs, the words of an answer for 128 records, and the bytes for the narrowed file.
const WORK: usize = narrowing::NEED;

const ANSWER: usize = 256;

const FILE: usize = 65536;

// An area that is lent. Its contract keeps a proof from unfolding so long a list.
fn filled<T: Copy, const N: usize>(x: T) -> [T; N]
    ensures all { result ≡ copies x N }
    ensures size { length result ≡ N }
{
    [x; N]
}

// Room for what is printed: 8 bytes for each of the pairs of 128 records, and the first line.
const PAGE: usize = 131128;

// Writes what is printed for an accepted job. Its register is read again for the number of records, and is not refused here.
fn put_answer(out: &mut [u8], members: usize, answer: &[u64], register: &[u8]) -> usize
    requires { Printable register.now answer.now × (131128 ≤ length out.old) }
    ensures { BytesWritten out.old out.new 0 result (answer_of members answer.now (register_in register.now)) }
{
    match register::read(register) {
        Ok(Register { records, .. }) => printing::put_answer(
            out,
            0,
            members,
            answer,
            records,
            answer::row_words(records),
        ),
        Err(r) => printing::put_refusal(out, 0, Source::Register, r),
    }
}

// Writes what is printed for the three files to the start of out, and returns its number of bytes.
fn run(sheet: &[u8], question: &[u8], register: &[u8], out: &mut [u8]) -> usize
    requires { 131128 ≤ length out.old }
    ensures { Prints (printed sheet.now question.now register.now) result out.new }
{
    let mut work: [u64; WORK] = filled(0);
    let mut answer: [u64; ANSWER] = filled(0);
    let mut file: [u8; FILE] = filled(0);
    match job::whole_job(sheet, question, register, &mut work, &mut answer, &mut file) {
        Ok(size) => put_answer(out, size.count, &answer, register),
        Err(f) => printing::put_refusal(out, 0, f.source, f.refusal),
    }
}

// The most bytes of a file that are read.
const ROOM: usize = 65536;

// Reads a file to its end, up to the room's length, and returns the number of bytes; 0 where a read fails. `read_to_end` takes a vector: no heap.
fn contents<R: Read>(file: &mut R, room: &mut [u8]) -> usize
    ensures within { result ≤ length room.new }
    ensures bytes { 0 < result → IfSome (R.remaining file.old) (λ xs. take result room.new ≡ take (length room.new) xs) }
{
    let mut at = 0;
    while at < room.len() {
        match file.read(&mut room[at..]) {
            Ok(0) => return at,
            Ok(more) => at += more,
            Err(_) => return 0,
        }
    }
    at
}

// The first bytes of a file, up to the room's length; none of one that cannot be opened or read.
fn load<R: Files>(rt: &R, name: &str, room: &mut [u8]) -> usize
    ensures { result ≤ length room.new }
{
    match fs::open(rt, name) {
        Ok(mut file) => contents(&mut file, room),
        Err(_) => 0,
    }
}

fn main(rt: HostRuntime) -> io::Result<()> {
    let mut sheet: [u8; ROOM] = filled(0);
    let mut question: [u8; ROOM] = filled(0);
    let mut register: [u8; ROOM] = filled(0);
    let s = load(&rt, "sheet", &mut sheet);
    let q = load(&rt, "question", &mut question);
    let r = load(&rt, "register", &mut register);
    let mut out: [u8; PAGE] = filled(0);
    let n = run(&sheet[..s], &question[..q], &register[..r], &mut out);
    rt.write_all(&out[..n])
}

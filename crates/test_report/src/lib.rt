// What the programs that run stored vectors share: room for their input, its fields and the numbers in them, areas that they lend, the
// words and numbers of a line, and digests.
#![tactic(auto)]

ghost use Rattle.std.specs.Prelude.{◌≡◌, ◌<◌, ◌≤◌, length};

use fields::{Failure, Raw};
use std::io;
use std::io::Read;

// The most bytes of all vectors.
const ROOM: usize = 1048576;

// Room for them. Its contract keeps the proof of a `main` from unfolding so long a list. The program has its own such function, since it does
// not stand on a test crate.
pub fn room() -> [u8; ROOM]
    ensures { 1048576 ≡ length result }
{
    [0; ROOM]
}

// Reads until the room is full, the input ends or a read fails, and returns how many bytes it put at the start of the room (no heap: no
// `read_to_end`).
pub fn fill<R: Read>(from: &mut R, room: &mut [u8]) -> usize
    ensures { result ≤ length room.new }
{
    let mut done = 0;
    while done < room.len() {
        match from.read(&mut room[done..]) {
            Ok(more) if more > 0 => done += more,
            _ => break,
        }
    }
    done
}

// The tags of fields that are files; a program has others for its calls.
pub const SHEET: u8 = 1;

pub const QUESTION: u8 = 2;

pub const REGISTER: u8 = 3;

pub const NARROWED: u8 = 4;

// A field of the input: its tag, its body, and what comes after it.
#[derive(Clone, Copy)]
struct Field<'a> {
    tag: Option<u8>,
    body: &'a [u8],
    rest: &'a [u8],
}

// The first field; where no whole one stands there it has no tag and no body, and nothing comes after it.
fn first_field(s: &[u8]) -> Field<'_>
    requires { 0 < length s.now }
    ensures { length result.rest.now < length s.now }
{
    match fields::step_at(s, 0) {
        Raw::Whole(tag, len) => Field {
            tag: Some(tag),
            body: fields::body_at(s, 0),
            rest: &s[fields::HEAD + len as usize..],
        },
        _ => Field {
            tag: None,
            body: &[],
            rest: &[],
        },
    }
}

// The files of the next call, each empty where no field has set it.
#[derive(Clone, Copy)]
pub struct Files<'a> {
    pub sheet: &'a [u8],
    pub question: &'a [u8],
    pub register: &'a [u8],
    pub narrowed: &'a [u8],
}

impl<'a> Files<'a> {
    // With the body of a field as a file, if its tag says that it is one.
    fn with(self, tag: Option<u8>, body: &'a [u8]) -> Files<'a> {
        match tag {
            Some(SHEET) => Files {
                sheet: body,
                ..self
            },
            Some(QUESTION) => Files {
                question: body,
                ..self
            },
            Some(REGISTER) => Files {
                register: body,
                ..self
            },
            Some(NARROWED) => Files {
                narrowed: body,
                ..self
            },
            _ => self,
        }
    }
}

// Hands each field of standard input to a call, by its tag and body, with the files that came before it and with it.
pub fn run_all<F: FnMut(Option<u8>, &[u8], Files<'_>) -> io::Result<()>>(
    rt: &impl Input,
    mut run: F,
) -> io::Result<()>
    requires { F.IsAlwaysCallable run }
{
    let mut space = room();
    let n = fill(&mut rt.reader(), &mut space);
    let mut files = Files {
        sheet: &[],
        question: &[],
        register: &[],
        narrowed: &[],
    };
    let mut rest = &space[..n];
    while !rest.is_empty() {
        let field = first_field(rest);
        files = files.with(field.tag, field.body);
        run(field.tag, field.body, files)?;
        rest = field.rest;
    }
    Ok(())
}

// The number in two bytes of a vector, 0 where it has too few.
pub fn two_at(s: &[u8], at: usize) -> usize
    ensures { result < 65536 }
{
    match s.get(at..) {
        Some([high, low, ..]) => usize::from(u16::from_be_bytes([*high, *low])),
        _ => 0,
    }
}

// How long an area a call is lent: as long as it says, and no longer than there is.
pub fn lent(n: usize, most: usize) -> usize
    ensures { result ≤ most }
{
    n.min(most)
}

// What bytes are before a call, so that those that are left show in a digest.
pub const LEFT: u8 = 165;

// What words are before it: none is 0 and no two are equal, so that words that are left, cleared or written all show.
pub fn mark(area: &mut [u64]) {
    for (i, word) in area.iter_mut().enumerate() {
        *word = u64::MAX - i as u64;
    }
}

// A number of a line, and its last.
pub fn number(rt: &impl Print, n: u64) -> io::Result<()> {
    print!(rt; "{n} ")
}

pub fn end(rt: &impl Print, n: u64) -> io::Result<()> {
    println!(rt; "{n}")
}

// A call's refusal: its number, file and place.
pub fn refused(rt: &impl Print, f: Failure) -> io::Result<()> {
    let number = f.refusal.number();
    let file = u8::from(f.source);
    let place = f.refusal.place();
    print!(rt; "refused {number} {file} {place}")
}

const HALF: u64 = 4294967296;

// A prime above HALF, so that a half that differs shows.
const MODULUS: u64 = 4294967311;

const FACTOR: u64 = 1000003;

// A digest with one number more, by its two halves.
pub fn mix(d: u64, x: u64) -> u64 {
    let high = (d % MODULUS * FACTOR + x / HALF) % MODULUS;
    (high * FACTOR + x % HALF) % MODULUS
}

pub fn mix_words(d: u64, s: &[u64]) -> u64 {
    s.iter().fold(d, |e, &word| mix(e, word))
}

pub fn mix_bytes(d: u64, s: &[u8]) -> u64 {
    s.iter().fold(d, |e, &byte| mix(e, u64::from(byte)))
}

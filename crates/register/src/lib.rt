// Reads a register's file, and hands on its kinds and links from where they lie.
#![tactic(auto)]

ghost use Rattle.std.specs.Prelude.{◌≡◌, true, ◌<◌, ◌≤◌, length, IfOk};
ghost use Rattle.std.specs.Iterator.{YieldsFirstBy, item_count};
ghost use Rattle.fields.specs.Reading.{read};
ghost use Rattle.fields.specs.Contract.{read_said};
ghost use Rattle.theory.specs.Register.{kind};
ghost use Rattle.register.specs.Form.{head_of, kind_of, link_of, entry_of, advance, key, register_format, register_form, register_in};
ghost use Rattle.register.specs.Contract.{sizes, sized};
ghost use Rattle.register.specs.Internal.{BodyReady};
ghost use Rattle.register.specs.Passed.{KindAt, NumberAt, Passes, Passed};
ghost use Rattle.register.specs.LinksAhead.{Accepted, OnLinks, to_come, edge_said};

use field_reader::{Reader, Standing};
use fields::{Due, File, HEAD, KIND_LENGTH, Kind, LINK_LENGTH, Link, REGISTER_LENGTH, Refusal};

// The bytes of a whole field of a kind, and of a link.
const KIND_BYTES: usize = HEAD + KIND_LENGTH as usize;

const LINK_BYTES: usize = HEAD + LINK_LENGTH as usize;

// The most records of a register, and its most links.
const MOST_RECORDS: u16 = 1024;

const MOST_LINKS: u16 = 4096;

// Places in bodies: in 31 the numbers of records and of links, in 32 the kind, in 33 from record, link and to record.
const RECORDS_IN: usize = 0;

const LINKS_IN: usize = 2;

const KIND_IN: usize = 0;

const FROM_IN: usize = 0;

const LABEL_IN: usize = 2;

const TO_IN: usize = 3;

// Where the file has its numbers of records and of links, the field of its first kind, and that kind itself.
const RECORD_COUNT_AT: usize = HEAD + RECORDS_IN;

const LINK_COUNT_AT: usize = HEAD + LINKS_IN;

const KINDS_AT: usize = HEAD + REGISTER_LENGTH as usize;

const FIRST_KIND_AT: usize = KINDS_AT + HEAD + KIND_IN;

// How many numbers the byte of a link can hold, and how many of them are links.
const LABELS: u64 = fields::BYTE as u64;

const LINKS: u64 = fields::LINKS as u64;

// A key is from, link and to as one number: what link and from weigh in it, and what every key is below.
const LABEL_WEIGHT: u64 = fields::TWO_BYTES;

const FROM_WEIGHT: u64 = LABEL_WEIGHT * LABELS;

const KEYS: u64 = FROM_WEIGHT * fields::TWO_BYTES;

// A link's field as one number, but for its key: tag and length above the bits of the key.
const LINK_NUMBER: u64 = (fields::LINK_TAG as u64 * fields::TWO_BYTES + LINK_LENGTH as u64) * KEYS;

// How far the reading has come: the numbers of records and links, of records whose kind is due, of links left, and the least key allowed next.
#[derive(Clone, Copy)]
pub struct Progress {
    pub records: u16,
    pub links: u16,
    pub kindless: u16,
    pub left: u16,
    pub floor: u64,
}

fn judge_head(at: usize, b: &[u8]) -> Result<Progress, Refusal>
    requires { length b.now ≡ REGISTER_LENGTH }
    ensures { read_said (λ q. q) result ≡ head_of at b.now }
{
    let records = fields::two(b, RECORDS_IN);
    let links = fields::two(b, LINKS_IN);
    if MOST_RECORDS < records || MOST_LINKS < links {
        return Err(Refusal::OutOfRange(at));
    }
    Ok(Progress {
        records,
        links,
        kindless: records,
        left: links,
        floor: 0,
    })
}

fn judge_kind(q: Progress, at: usize, b: &[u8]) -> Result<Progress, Refusal>
    requires { (length b.now ≡ KIND_LENGTH) × (0 < q.kindless) }
    ensures { read_said (λ q. q) result ≡ kind_of q at b.now }
{
    if fields::KINDS <= b[KIND_IN] {
        return Err(Refusal::OutOfRange(at));
    }
    Ok(Progress {
        kindless: q.kindless - 1,
        ..q
    })
}

// From, link and to as one number, by which links ascend.
fn key_of(b: &[u8]) -> u64
    requires { length b.now ≡ LINK_LENGTH }
    ensures { (result ≡ key b.now) × (result < 1099511627776) }
{
    u64::from_be_bytes([0, 0, 0, b[0], b[1], b[2], b[3], b[4]])
}

fn judge_link(q: Progress, at: usize, b: &[u8]) -> Result<Progress, Refusal>
    requires { (length b.now ≡ LINK_LENGTH) × (0 < q.left) }
    ensures { read_said (λ q. q) result ≡ link_of q at b.now }
{
    let from = fields::two(b, FROM_IN);
    let to = fields::two(b, TO_IN);
    if q.records <= from || fields::LINKS <= b[LABEL_IN] || q.records <= to {
        return Err(Refusal::OutOfRange(at));
    }
    let key = key_of(b);
    if key < q.floor {
        return Err(Refusal::NotAscending(at));
    }
    Ok(Progress {
        left: q.left - 1,
        floor: key + 1,
        ..q
    })
}

fn judge_entry(q: Progress, at: usize, b: &[u8]) -> Result<Progress, Refusal>
    requires { BodyReady (Standing.Within q) (length b.now) }
    ensures { read_said (λ q. q) result ≡ entry_of q at b.now }
{
    if q.kindless == 0 {
        judge_link(q, at, b)
    } else {
        judge_kind(q, at, b)
    }
}

fn judge(st: Standing<Progress>, at: usize, b: &[u8]) -> Result<Progress, Refusal>
    requires { BodyReady st (length b.now) }
    ensures { read_said (λ q. q) result ≡ advance st at b.now }
{
    match st {
        Standing::Head => judge_head(at, b),
        Standing::Within(q) => judge_entry(q, at, b),
    }
}

fn due_at(st: Standing<Progress>) -> Due
    ensures { result ≡ register_format.due st }
{
    match st {
        Standing::Head => fields::rows_due(File::Register, fields::REGISTER_ROW, false, false),
        Standing::Within(q) if q.kindless == 0 => {
            let full = q.left == 0;
            fields::rows_due(File::Register, fields::LINK_ROW, full, full)
        }
        Standing::Within(_) => fields::rows_due(File::Register, fields::KIND_ROW, false, false),
    }
}

// A place, and how far the reading has come there.
#[derive(Clone, Copy)]
pub struct Reached {
    pub at: usize,
    pub progress: Progress,
}

// Whether a kind is due there and a whole field of one is there.
fn kind_lies(s: &[u8], r: Reached) -> bool
    requires { r.at ≤ length s.now }
    ensures { result ≡ true → KindAt s.now r.progress r.at }
{
    r.progress.kindless != 0
        && KIND_BYTES <= s.len() - r.at
        && s[r.at] == fields::KIND_TAG
        && fields::two(s, r.at + 1) == KIND_LENGTH
}

// The number in the bytes of a link's field, which are eight, at a place; or 0 where there are fewer. An Option was tried in place of the 0,
// and is slower: each link then takes some 22 instructions, and not 18.
fn number_at(s: &[u8], at: usize) -> u64
    requires { at ≤ length s.now }
    ensures { 0 < result → NumberAt s.now at result }
{
    if s.len() - at < LINK_BYTES {
        return 0;
    }
    fields::eight_at(s, at)
}

// Whether a link is due and v is the number of a valid one: not below `floor`, below `top`, its link below 64, its to record one of the register's.
fn link_passes(v: u64, left: u16, floor: u64, top: u64, records: u64) -> bool
    ensures { result ≡ true → Passes v left floor top records }
{
    left != 0
        && floor <= v
        && v < top
        && v / LABEL_WEIGHT % LABELS < LINKS
        && v % LABEL_WEIGHT < records
}

// Passes over valid kinds in a quick loop of their own; whatever else lies there is left to the general loop. An iterator over pieces of four
// bytes would be no plainer: whether a kind is due changes with each, so that it would carry the same value from turn to turn.
fn past_kinds(s: &[u8], start: Reached) -> Reached
    requires { start.at ≤ length s.now }
    ensures { Passed s.now start.progress start.at result.progress result.at }
{
    let mut r = start;
    while kind_lies(s, r) {
        let next = r.at + KIND_BYTES;
        let Ok(progress) = judge_kind(r.progress, r.at, &s[r.at + HEAD..next]) else {
            break;
        };
        r = Reached { at: next, progress };
    }
    r
}

// The same of links, each as the number in its eight bytes: tag and length above the key, so that two bounds settle tag, length, from and
// order. A turn ends with the next number: the compiler splits one that is used at once into bytes again. A floor above
// every key, which no file leads to, is left to the general loop.
fn past_links(s: &[u8], start: Reached) -> Reached
    requires { start.at ≤ length s.now }
    ensures { Passed s.now start.progress start.at result.progress result.at }
{
    let q = start.progress;
    if q.kindless != 0 || KEYS < q.floor {
        return start;
    }
    let records = u64::from(q.records);
    let top = LINK_NUMBER + records * FROM_WEIGHT;
    let mut at = start.at;
    let mut left = q.left;
    let mut floor = LINK_NUMBER + q.floor;
    let mut v = number_at(s, at);
    while link_passes(v, left, floor, top, records) {
        at += LINK_BYTES;
        left -= 1;
        floor = v + 1;
        v = number_at(s, at);
    }
    Reached {
        at,
        progress: Progress {
            left,
            floor: floor - LINK_NUMBER,
            ..q
        },
    }
}

fn past(s: &[u8], start: Reached) -> Reached
    requires { start.at ≤ length s.now }
    ensures { Passed s.now start.progress start.at result.progress result.at }
{
    past_links(s, past_kinds(s, start))
}

// A register whose file is accepted, where it lies, and its numbers of records and links.
#[derive(Clone, Copy)]
pub struct Register<'a> {
    pub file: &'a [u8],
    pub records: usize,
    pub links: usize,
    ghost accepted: { Accepted file.now },
    ghost counted: { records ≡ length (register_in file.now).kinds },
    ghost linked: { links ≡ length (register_in file.now).links },
}

pub fn read(s: &[u8]) -> Result<Register<'_>, Refusal>
    ensures said { read_said (λ r. sizes r.records r.links) result ≡ sized (read register_form s.now) }
    ensures file { IfOk result (λ r. r.file.now ≡ s.now) }
{
    let mut st = Standing::Head;
    let mut reader = Reader::new(s);
    while let Some(f) = reader.next(due_at(st))? {
        let progress = judge(st, f.at, f.body)?;
        let r = past(
            s,
            Reached {
                at: f.next,
                progress,
            },
        );
        st = Standing::Within(r.progress);
        reader.at = r.at;
    }
    // No file ends before its head.
    let Standing::Within(q) = st else {
        unreachable!();
    };
    Ok(Register {
        file: s,
        records: usize::from(q.records),
        links: usize::from(q.links),
    })
}

// A link of a register, from a record to a record.
#[derive(Clone, Copy, PartialEq, Eq)]
pub struct Edge {
    pub from: usize,
    pub link: Link,
    pub to: usize,
}

// The links still to come of an accepted file: the place of the next one, or the file's end where none is left, and their number.
#[derive(Clone, Copy)]
pub struct Links<'a> {
    pub file: &'a [u8],
    pub at: usize,
    pub left: usize,
    ghost on: { OnLinks file.now at left },
}

impl<'a> Register<'a> {
    // The register in a file that was accepted before, with the numbers of its head; `read` is for any other.
    pub fn from_accepted(file: &'a [u8]) -> Register<'a>
        requires { Accepted file.now }
        ensures { result.file.now ≡ file.now }
    {
        Register {
            file,
            records: usize::from(fields::two(file, RECORD_COUNT_AT)),
            links: usize::from(fields::two(file, LINK_COUNT_AT)),
        }
    }

    // The kind of record i.
    pub fn kind_at(&self, i: usize) -> Kind
        requires { i < self.now.records }
        ensures { result.0 ≡ kind (register_in self.now.file.now) i }
    {
        Kind(self.file[FIRST_KIND_AT + KIND_BYTES * i])
    }

    // Its links, in their order.
    pub fn links(&self) -> Links<'a>
        ensures file { result.file.now ≡ self.now.file.now }
        ensures left { result.left ≡ self.now.links }
        ensures all { to_come result.file.now result.left ≡ (register_in self.now.file.now).links }
    {
        Links {
            file: self.file,
            at: KINDS_AT + KIND_BYTES * self.records,
            left: self.links,
        }
    }
}

impl Iterator for Links<'_> {
    type Item = Edge;

    // The links come from one file, the first of those still to come each time.
    ghost next_gives = { λ c r next. YieldsFirstBy edge_said (λ x. to_come x.file.now x.left) c r next × (next.file ≡ c.file) };

    ghost remaining = { item_count (λ c. to_come c.file.now c.left) };

    fn next(&mut self) -> Option<Edge> {
        if self.left == 0 {
            return None;
        }
        let body = self.at + HEAD;
        let e = Edge {
            from: usize::from(fields::two(self.file, body + FROM_IN)),
            link: Link(self.file[body + LABEL_IN]),
            to: usize::from(fields::two(self.file, body + TO_IN)),
        };
        self.at += LINK_BYTES;
        self.left -= 1;
        Some(e)
    }
}

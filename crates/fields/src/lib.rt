// Fields of a file: why one is refused, the table of tags, and the field at a place.
#![tactic(auto)]

ghost use Rattle.std.specs.Prelude.{◌≡◌, ◌+◌, ◌<◌, length, IfOk, IfSome};
ghost use Rattle.fields.specs.Table.{allowed, row_of};
ghost use Rattle.fields.specs.Reading.{due_row?, rows_due, wrong, field_at, word, eight};
ghost use Rattle.fields.specs.Raw.{fit_number, raw_at, body_in};
ghost use Rattle.fields.specs.Contract.{number_of, place_of, source_number, fit_said, failure, about_of, AboutRef, Refused, field_said, FoundAt};

// Why a file or a call is refused: the numbers 1 to 6 and 11 to 16 of SPECIFICATION, Refusals, each with its place.
#[derive(Clone, Copy, PartialEq, Eq)]
pub enum Refusal {
    Truncated(usize),
    Unexpected(usize),
    OutOfRange(usize),
    NotAscending(usize),
    WrongEnd(usize),
    Operands(usize),
    UnnamedLink(usize),
    TooMany(usize),
    TooLong(usize),
    AreaShort(usize),
    WorkShort(usize),
    Breach(usize),
}

impl Refusal {
    // Its number.
    pub fn number(self) -> u8
        ensures { result ≡ number_of self }
    {
        match self {
            Refusal::Truncated(_) => 1,
            Refusal::Unexpected(_) => 2,
            Refusal::OutOfRange(_) => 3,
            Refusal::NotAscending(_) => 4,
            Refusal::WrongEnd(_) => 5,
            Refusal::Operands(_) => 6,
            Refusal::UnnamedLink(_) => 11,
            Refusal::TooMany(_) => 12,
            Refusal::TooLong(_) => 13,
            Refusal::AreaShort(_) => 14,
            Refusal::WorkShort(_) => 15,
            Refusal::Breach(_) => 16,
        }
    }

    // Its place.
    pub fn place(self) -> usize
        ensures { result ≡ place_of self }
    {
        match self {
            Refusal::Truncated(p)
            | Refusal::Unexpected(p)
            | Refusal::OutOfRange(p)
            | Refusal::NotAscending(p)
            | Refusal::WrongEnd(p)
            | Refusal::Operands(p)
            | Refusal::UnnamedLink(p)
            | Refusal::TooMany(p)
            | Refusal::TooLong(p)
            | Refusal::AreaShort(p)
            | Refusal::WorkShort(p)
            | Refusal::Breach(p) => p,
        }
    }

    // The same with what it is about.
    pub fn about(self, source: Source) -> Failure
        ensures { result ≡ failure source self }
    {
        Failure {
            source,
            refusal: self,
        }
    }
}

// What a call's refusal is about: one of its files, or, for 11 to 16, the work at hand. Callers in C get its number.
#[derive(Clone, Copy, PartialEq, Eq)]
pub enum Source {
    Sheet = 1,
    Question,
    Narrowed,
    Register,
    Work,
}

impl From<Source> for u8 {
    ghost from_gives = { λ source number. number ≡ source_number source };

    fn from(source: Source) -> u8 {
        source as u8
    }
}

// Why a call is refused, and what that is about.
#[derive(Clone, Copy, PartialEq, Eq)]
pub struct Failure {
    pub source: Source,
    pub refusal: Refusal,
}

// A reader's result, with what it is about.
pub fn about<T>(source: Source, read: Result<T, Refusal>) -> Result<T, Failure>
    ensures { result ≡ about_of source read }
{
    read.map_err(|r| r.about(source))
}

// The same of a result that stays where it is, as a large one should.
pub fn about_ref<T>(source: Source, read: &Result<T, Refusal>) -> Result<&T, Failure>
    ensures { AboutRef source read.now result }
{
    match read {
        Ok(x) => Ok(x),
        Err(r) => Err(r.about(source)),
    }
}

// The size of a file that a call writes or tells of: the number of its members (of a question: its symbols), and of its bytes.
#[derive(Clone, Copy, PartialEq, Eq)]
pub struct Size {
    pub count: usize,
    pub bytes: usize,
}

// Kind numbers and link numbers are two numberings, and both begin at 0.
#[derive(Clone, Copy, PartialEq, Eq)]
pub struct Kind(pub u8);

#[derive(Clone, Copy, PartialEq, Eq)]
pub struct Link(pub u8);

// The four kinds of file.
#[derive(Clone, Copy, PartialEq, Eq)]
pub enum File {
    Sheet,
    Question,
    Register,
    Narrowed,
}

// How many kinds, and how many link names, there are at most.
pub const KINDS: u8 = 64;

pub const LINKS: u8 = 64;

// The most members of a narrowed question, and the most symbols of a member.
pub const MEMBERS: usize = 128;

pub const MEMBER_SYMBOLS: usize = 48;

// The bytes of a field's head: its tag, and the length of its body.
pub const HEAD: usize = 3;

// How many numbers a byte has, and two bytes: what the bytes above them weigh.
pub const BYTE: u16 = 256;

pub const TWO_BYTES: u64 = BYTE as u64 * BYTE as u64;

// A tag, its length, whether a sheet, a question, a register, a narrowed question may have it, and the row's bit in a set of rows.
// The columns have no names, since with them the formatter makes 88 lines of the table's 11.
#[derive(Clone, Copy, PartialEq, Eq)]
pub struct Row(
    pub u8,
    pub u16,
    pub bool,
    pub bool,
    pub bool,
    pub bool,
    pub u16,
);

const ROWS: [Row; 11] = [
    Row(0x11, 2, true, false, false, false, 1),
    Row(0x12, 3, true, false, false, false, 2),
    Row(0x21, 1, false, true, false, false, 4),
    Row(0x31, 4, false, false, true, false, 8),
    Row(0x32, 1, false, false, true, false, 16),
    Row(0x33, 5, false, false, true, false, 32),
    Row(0x41, 2, false, false, false, true, 64),
    Row(0x42, 17, false, false, false, true, 128),
    Row(0x43, 2, false, true, false, true, 256),
    Row(0x44, 1, false, true, false, true, 512),
    Row(0x45, 8, false, false, false, true, 1024),
];

// The tags of the table by name, and the lengths that code elsewhere counts with.
pub const SHEET_TAG: u8 = ROWS[0].0;

pub const TRIPLE_TAG: u8 = ROWS[1].0;

pub const QUESTION_TAG: u8 = ROWS[2].0;

pub const REGISTER_TAG: u8 = ROWS[3].0;

pub const KIND_TAG: u8 = ROWS[4].0;

pub const LINK_TAG: u8 = ROWS[5].0;

pub const NARROWED_TAG: u8 = ROWS[6].0;

pub const MEMBER_TAG: u8 = ROWS[7].0;

pub const STEP_TAG: u8 = ROWS[8].0;

pub const OPERATOR_TAG: u8 = ROWS[9].0;

pub const THROUGH_TAG: u8 = ROWS[10].0;

pub const QUESTION_LENGTH: u16 = ROWS[2].1;

pub const REGISTER_LENGTH: u16 = ROWS[3].1;

pub const KIND_LENGTH: u16 = ROWS[4].1;

pub const LINK_LENGTH: u16 = ROWS[5].1;

pub const NARROWED_LENGTH: u16 = ROWS[6].1;

pub const MEMBER_LENGTH: u16 = ROWS[7].1;

pub const STEP_LENGTH: u16 = ROWS[8].1;

pub const OPERATOR_LENGTH: u16 = ROWS[9].1;

pub const THROUGH_LENGTH: u16 = ROWS[10].1;

// The rows by name, as sets of one row; `|` makes larger sets.
pub const SHEET_ROW: u16 = ROWS[0].6;

pub const TRIPLE_ROW: u16 = ROWS[1].6;

pub const QUESTION_ROW: u16 = ROWS[2].6;

pub const REGISTER_ROW: u16 = ROWS[3].6;

pub const KIND_ROW: u16 = ROWS[4].6;

pub const LINK_ROW: u16 = ROWS[5].6;

pub const NARROWED_ROW: u16 = ROWS[6].6;

pub const MEMBER_ROW: u16 = ROWS[7].6;

pub const STEP_ROW: u16 = ROWS[8].6;

pub const OPERATOR_ROW: u16 = ROWS[9].6;

pub const THROUGH_ROW: u16 = ROWS[10].6;

// Any symbol's row.
pub const SYMBOL_ROWS: u16 = STEP_ROW | OPERATOR_ROW | THROUGH_ROW;

const NO_ROWS: u16 = 0;

fn allows(row: Row, file: File) -> bool
    ensures { result ≡ allowed row file }
{
    match file {
        File::Sheet => row.2,
        File::Question => row.3,
        File::Register => row.4,
        File::Narrowed => row.5,
    }
}

// The row of a tag, or one that allows no file. Each tag names its row by a constant, since a row at an index that is only known when it
// runs costs a copy of the whole table. Where a tag gets a second row, that row comes from a function like this one, with an arm for each
// such tag, and `fit_of` asks of both rows.
#[inline]
fn row_of(tag: u8) -> Row
    ensures { result ≡ row_of tag }
{
    let rows = ROWS;
    match tag {
        SHEET_TAG => rows[0],
        TRIPLE_TAG => rows[1],
        QUESTION_TAG => rows[2],
        REGISTER_TAG => rows[3],
        KIND_TAG => rows[4],
        LINK_TAG => rows[5],
        NARROWED_TAG => rows[6],
        MEMBER_TAG => rows[7],
        STEP_TAG => rows[8],
        OPERATOR_TAG => rows[9],
        THROUGH_TAG => rows[10],
        _ => Row(0, 0, false, false, false, false, NO_ROWS),
    }
}

// What is due at a place: the rows of a set, as far as the file may have them. Where the file is complete it may end; where what is due is
// closing nothing else may follow, and a byte that is no tag of it is refusal 5.
#[derive(Clone, Copy, PartialEq, Eq)]
pub struct Due {
    pub file: File,
    pub rows: u16,
    pub complete: bool,
    pub closing: bool,
}

// The rows of a set, until the file is full; then nothing, and any byte is refusal 5.
pub fn rows_due(file: File, rows: u16, complete: bool, full: bool) -> Due
    ensures { result ≡ rows_due file rows complete full }
{
    let rows = if full { NO_ROWS } else { rows };
    Due {
        file,
        rows,
        complete,
        closing: full,
    }
}

// Whether a row is due.
#[inline]
fn row_due(due: Due, row: Row) -> bool
    ensures { result ≡ due_row? due row }
{
    due.rows & row.6 != 0 && allows(row, due.file)
}

// The number in two bytes, the high one first.
pub fn two(s: &[u8], at: usize) -> u16
    requires { at + 1 < length s.now }
    ensures { result ≡ word s.now at }
{
    u16::from_be_bytes([s[at], s[at + 1]])
}

// The number in eight bytes, the high one first.
pub fn eight_at(s: &[u8], at: usize) -> u64
    requires { at + 7 < length s.now }
    ensures { result ≡ eight s.now at }
{
    u64::from_be_bytes([
        s[at],
        s[at + 1],
        s[at + 2],
        s[at + 3],
        s[at + 4],
        s[at + 5],
        s[at + 6],
        s[at + 7],
    ])
}

// The field at a place, whatever is due: its tag and length, the same with the body cut short, the tag of a head cut short, or the file's end.
#[derive(Clone, Copy, PartialEq, Eq)]
pub enum Raw {
    Whole(u8, u16),
    Short(u8, u16),
    Cut(u8),
    End,
}

pub fn step_at(s: &[u8], at: usize) -> Raw
    ensures { result ≡ raw_at s.now at }
{
    if s.len() <= at {
        return Raw::End;
    }
    if s.len() < at + HEAD {
        return Raw::Cut(s[at]);
    }
    let len = two(s, at + 1);
    if s.len() < at + HEAD + usize::from(len) {
        return Raw::Short(s[at], len);
    }
    Raw::Whole(s[at], len)
}

// The body of the field at a place, as that part of the file; an empty part where there is no whole field.
pub fn body_at(s: &[u8], at: usize) -> &[u8]
    ensures { result.now ≡ body_in s.now at }
{
    let Raw::Whole(_, len) = step_at(s, at) else {
        return &s[..0];
    };
    let body = at + HEAD;
    &s[body..body + usize::from(len)]
}

// A field that was found: its place, its tag, its body as that part of the file, and the place after it.
#[derive(Clone, Copy)]
pub struct Found<'a> {
    pub at: usize,
    pub tag: u8,
    pub body: &'a [u8],
    pub next: usize,
}

// What a tag and a length are to what is due. It is told in a register, and not through memory, since no variant has a place.
#[derive(Clone, Copy, PartialEq, Eq)]
enum Fit {
    Fits,
    Unexpected,
    WrongEnd,
}

// What this tag and length are to what is due. Neither this nor `refused` is taken in by `field`, which each reader takes in.
#[inline(never)]
fn fit_of(due: Due, tag: u8, len: u16) -> Fit
    ensures { fit_said result ≡ fit_number due tag len }
{
    let row = row_of(tag);
    if row_due(due, row) {
        if row.1 == len {
            return Fit::Fits;
        }
        return Fit::Unexpected;
    }
    if due.closing {
        return Fit::WrongEnd;
    }
    Fit::Unexpected
}

// Why there is no field that is due: the refusals 5, 1 for the head, 2, 1 for the body, in that order.
#[cold]
#[inline(never)]
fn refused(s: &[u8], at: usize, due: Due) -> Refusal
    requires { Refused due s.now at }
    ensures { wrong (number_of result) (place_of result) ≡ field_at due s.now at }
{
    match step_at(s, at) {
        Raw::End => Refusal::WrongEnd(at),
        Raw::Cut(tag) => match fit_of(due, tag, 0) {
            Fit::WrongEnd => Refusal::WrongEnd(at),
            _ => Refusal::Truncated(at),
        },
        Raw::Short(tag, len) | Raw::Whole(tag, len) => match fit_of(due, tag, len) {
            Fit::Fits => Refusal::Truncated(at),
            Fit::Unexpected => Refusal::Unexpected(at),
            Fit::WrongEnd => Refusal::WrongEnd(at),
        },
    }
}

// The field at a place where something is due, or none at the file's end.
#[inline]
pub fn field(s: &[u8], at: usize, due: Due) -> Result<Option<Found<'_>>, Refusal>
    ensures said { field_said result ≡ field_at due s.now at }
    ensures part { IfOk result (λ r. IfSome r (FoundAt s.now at)) }
{
    match step_at(s, at) {
        Raw::Whole(tag, len) if fit_of(due, tag, len) == Fit::Fits => {
            let next = at + HEAD + usize::from(len);
            let body = &s[at + HEAD..next];
            Ok(Some(Found {
                at,
                tag,
                body,
                next,
            }))
        }
        Raw::End if due.complete => Ok(None),
        _ => Err(refused(s, at, due)),
    }
}

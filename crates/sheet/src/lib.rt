// Reads a sheet's file: its numbers of kinds and links, and the table of permitted kinds, into a struct that is lent or by value.
#![tactic(auto)]

ghost use Rattle.std.specs.Prelude.{◌≡◌, [], ◌<◌, ◌&&◌, leb, length, get_or};
ghost use Rattle.fields.specs.Table.{tag_length};
ghost use Rattle.fields.specs.Reading.{read as read_file};
ghost use Rattle.sheet.specs.Form.{sheet_format, sheet_form, head_of, next, edge_of};
ghost use Rattle.sheet.specs.Table.{cell, tabled?, table_of};
ghost use Rattle.sheet.specs.Contract.{ReadsSheet, Blank, ReadsInto};
ghost use Rattle.sheet.specs.Internal.{BodyReady, head_said, triple_said, turn_said};

use field_reader::{Reader, Standing};
use fields::{Due, File, Found, Kind, Link, Refusal};

// The words of the table of permitted triples: one for each link and from kind, with a bit for each to kind.
pub const TABLE: usize = fields::LINKS as usize * ROW;

const ROW: usize = fields::KINDS as usize;

// The most triples of a sheet.
const MOST_TRIPLES: u16 = 512;

// Places in bodies: in 11 the numbers of kinds and of links, in 12 from kind, link and to kind.
const KINDS_IN: usize = 0;

const LINKS_IN: usize = 1;

const FROM_IN: usize = 0;

const LABEL_IN: usize = 1;

const TO_IN: usize = 2;

// What link and from weigh in a triple's key.
const LABEL_WEIGHT: u64 = fields::BYTE as u64;

const FROM_WEIGHT: u64 = fields::TWO_BYTES;

// A sheet: its numbers of kinds and of links, and the permitted kinds: bit `to` of word link * 64 + from.
#[derive(Clone, Copy)]
pub struct Sheet {
    pub kinds: u8,
    pub links: u8,
    pub table: [u64; TABLE],
}

impl Sheet {
    // No kinds, no links, nothing permitted.
    #[tactic(auto, unfolding(crate::specs::Table::table_of))]
    pub fn blank() -> Sheet
        ensures { Blank result }
    {
        Sheet {
            kinds: 0,
            links: 0,
            table: [0; TABLE],
        }
    }

    // The kinds to which a link leads from a kind: a word with a bit for each.
    pub fn leads_to(&self, from: Kind, link: Link) -> u64
        requires { (from.0 < 64) × (link.0 < 64) }
        ensures { result ≡ get_or self.now.table (cell from.0 link.0) 0 }
    {
        self.table[word_of(from, link)]
    }

    // Whether it permits a triple.
    pub fn permits(&self, from: Kind, link: Link, to: Kind) -> bool
        requires { (from.0 < 64) × (link.0 < 64) × (to.0 < 64) }
        ensures { result ≡ tabled? self.now.table from.0 link.0 to.0 }
    {
        bits::bit(self.leads_to(from, link), usize::from(to.0))
    }
}

// The numbers of kinds, of links, of triples so far, and the least key that is above the triple before.
#[derive(Clone, Copy)]
pub struct Triples {
    pub kinds: u8,
    pub links: u8,
    pub count: u16,
    pub floor: u64,
}

#[derive(Clone, Copy)]
pub struct Triple {
    pub from: Kind,
    pub link: Link,
    pub to: Kind,
}

fn due(st: Standing<Triples>) -> Due
    ensures { result ≡ sheet_format.due st }
{
    match st {
        Standing::Head => fields::rows_due(File::Sheet, fields::SHEET_ROW, false, false),
        Standing::Within(q) => {
            fields::rows_due(
                File::Sheet,
                fields::TRIPLE_ROW,
                true,
                q.count == MOST_TRIPLES,
            )
        }
    }
}

// A number of kinds or of links is from 1 to the most that there may be.
fn is_number(n: u8, most: u8) -> bool
    ensures { result ≡ leb 1 n && leb n most }
{
    (1..=most).contains(&n)
}

// 11: the numbers of kinds and of links; refusal 3.
fn head(f: Found<'_>) -> Result<Triples, Refusal>
    requires { length f.body.now ≡ tag_length 0x11 }
    ensures { head_said result ≡ head_of f.entry.at f.entry.body.now }
{
    let kinds = f.body[KINDS_IN];
    let links = f.body[LINKS_IN];
    if !is_number(kinds, fields::KINDS) || !is_number(links, fields::LINKS) {
        return Err(Refusal::OutOfRange(f.at));
    }
    Ok(Triples {
        kinds,
        links,
        count: 0,
        floor: 0,
    })
}

// 12: a triple; refusals 3 and 4.
fn grow(q: Triples, f: Found<'_>) -> Result<(Triple, Triples), Refusal>
    requires { BodyReady (Standing.Within q) (length f.body.now) }
    ensures { triple_said result ≡ sheet_format.judge (Standing.Within q) f.entry.at 0 0 f.entry.body.now }
{
    let from = f.body[FROM_IN];
    let link = f.body[LABEL_IN];
    let to = f.body[TO_IN];
    if q.kinds <= from || q.links <= link || q.kinds <= to {
        return Err(Refusal::OutOfRange(f.at));
    }
    let key = u64::from(from) * FROM_WEIGHT + u64::from(link) * LABEL_WEIGHT + u64::from(to);
    let x = Triple {
        from: Kind(from),
        link: Link(link),
        to: Kind(to),
    };
    if key < q.floor {
        return Err(Refusal::NotAscending(f.at));
    }
    Ok((
        x,
        Triples {
            count: q.count + 1,
            floor: key + 1,
            ..q
        },
    ))
}

fn judge(st: Standing<Triples>, f: Found<'_>) -> Result<(Option<Triple>, Triples), Refusal>
    requires { BodyReady st (length f.body.now) }
    ensures { turn_said result ≡ sheet_format.judge st f.entry.at 0 0 f.entry.body.now }
{
    match st {
        Standing::Head => Ok((None, head(f)?)),
        Standing::Within(q) => {
            let (x, q) = grow(q, f)?;
            Ok((Some(x), q))
        }
    }
}

// The word of a link and a from kind.
fn word_of(from: Kind, link: Link) -> usize
    requires { (from.0 < 64) × (link.0 < 64) }
    ensures { (result ≡ cell from.0 link.0) × (result < 4096) }
{
    usize::from(link.0) * ROW + usize::from(from.0)
}

// Reads a sheet's file into a struct that is lent, nothing permitted: by value its 32 KB are copied. Of a refused file it may hold triples.
pub fn read_into(s: &[u8], sheet: &mut Sheet) -> Result<(), Refusal>
    requires { sheet.old.table ≡ table_of [] }
    ensures { ReadsInto (read_file sheet_form s.now) result sheet.new }
{
    let mut st = Standing::Head;
    let mut reader = Reader::new(s);
    while let Some(f) = reader.next(due(st))? {
        let (triple, q) = judge(st, f)?;
        if let Some(x) = triple {
            let i = word_of(x.from, x.link);
            sheet.table[i] = bits::with_bit(sheet.table[i], usize::from(x.to.0));
        }
        st = Standing::Within(q);
    }
    let (kinds, links) = match st {
        Standing::Head => (0, 0),
        Standing::Within(q) => (q.kinds, q.links),
    };
    sheet.kinds = kinds;
    sheet.links = links;
    Ok(())
}

// The same by value.
pub fn read(s: &[u8]) -> Result<Sheet, Refusal>
    ensures { ReadsSheet (read_file sheet_form s.now) result }
{
    let mut sheet = Sheet::blank();
    read_into(s, &mut sheet)?;
    Ok(sheet)
}

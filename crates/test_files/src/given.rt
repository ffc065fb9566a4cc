// What the writer is given by a vector: the bytes of its area (2), the number of members (8), the number of rows (2); rows of size (1),
// from set (8), to set (8); to the end, of each symbol its number (1) and set (8). 0 past them.
ghost use Rattle.std.specs.Prelude.{◌<◌};

use fields::MEMBERS;
use narrowed_question::{Members, SYMBOLS};

// Where these stand; the bytes of a row and of a symbol; where the first row has its sets.
pub const AREA_AT: usize = 0;

const COUNT_AT: usize = 2;

const ROW_COUNT_AT: usize = 10;

const ROWS_AT: usize = 12;

const ROW: usize = 17;

const SYMBOL: usize = 9;

const FROM_AT: usize = ROWS_AT + 1;

const TO_AT: usize = ROWS_AT + 9;

fn byte_at(s: &[u8], at: usize) -> u8 {
    s.get(at).copied().unwrap_or(0)
}

fn long_at(s: &[u8], at: usize) -> u64 {
    match s.get(at..) {
        Some([a, b, c, d, e, f, g, h, ..]) => u64::from_be_bytes([*a, *b, *c, *d, *e, *f, *g, *h]),
        _ => 0,
    }
}

fn put_rows(members: &mut Members, s: &[u8], rows: usize) {
    for i in 0..rows.min(MEMBERS) {
        members.sizes[i] = byte_at(s, ROWS_AT + ROW * i);
        members.from[i] = long_at(s, FROM_AT + ROW * i);
        members.to[i] = long_at(s, TO_AT + ROW * i);
    }
}

fn put_symbols(members: &mut Members, s: &[u8], from: usize)
    requires { from < 4294967296 }
{
    for i in 0..SYMBOLS {
        members.numbers[i] = byte_at(s, from + SYMBOL * i);
        members.sets[i] = long_at(s, from + SYMBOL * i + 1);
    }
}

pub fn given(s: &[u8]) -> Members {
    let rows = test_report::two_at(s, ROW_COUNT_AT);
    let mut members = Members::blank();
    members.count = long_at(s, COUNT_AT) as usize;
    put_rows(&mut members, s, rows);
    put_symbols(&mut members, s, ROWS_AT + ROW * rows);
    members
}

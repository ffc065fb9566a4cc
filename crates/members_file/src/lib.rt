// The file of the members that the sorted nodes make: its length, and its bytes.
#![tactic(auto)]

ghost use Rattle.std.specs.Prelude.{◌≡◌, ◌≤◌, length};
ghost use Rattle.merge.specs.Runs.{Running};
ghost use Rattle.members_file.specs.Files.{number_of, Numbering, Next, Measuring, Measured, Filing, Filed};

use fields::Size;
use merge::Group;
use symbols::Symbol;
use triples::Nodes;

// A member, and the bytes of its fields.
#[derive(Clone, Copy)]
struct Entry {
    group: Group,
    bytes: usize,
}

// The number of a symbol: its code, and 255 for a join through a set.
fn number(code: u8, set: u64) -> u8
    ensures { result ≡ number_of code set }
{
    if matches!(symbols::decode(code, 0), Symbol::Join(_)) && set != 0 {
        return symbols::THROUGH;
    }
    code
}

// Turns n symbols' codes into numbers; the bytes of their fields.
fn number_symbols(codes: &mut [u8], sets: &[u64], n: usize) -> usize
    requires { (n ≤ length codes.old) × (n ≤ length sets.now) × (n ≤ 48) }
    ensures { Numbering codes.old sets.now codes.new n result }
{
    let mut total = 0;
    for j in 0..n {
        let c = number(codes[j], sets[j]);
        codes[j] = c;
        total += encode::symbol_size(c);
    }
    total
}

// The member whose run starts at k; its symbols in the two arrays.
fn next_member(nodes: Nodes, order: &[usize], k: usize, codes: &mut [u8], sets: &mut [u64]) -> Entry
    requires { Running nodes.question.now nodes.words.now order.now nodes.used (length order.now) k codes.old sets.old }
    ensures { Next nodes.entry.question.now nodes.entry.words.now order.now (length order.now) k codes.new sets.new result }
{
    let group = merge::run(nodes, order, k, codes, sets);
    let b = number_symbols(codes, sets, group.size);
    Entry {
        group,
        bytes: encode::MEMBER_BYTES + b,
    }
}

// The size of the file of the members that the sorted nodes make.
pub fn measure(nodes: Nodes, order: &[usize]) -> Size
    requires { Measuring nodes.question.now nodes.words.now order.now nodes.used (length order.now) }
    ensures { Measured nodes.entry.question.now nodes.entry.words.now order.now (length order.now) result }
{
    let mut codes = [0u8; fields::MEMBER_SYMBOLS];
    let mut sets = [0u64; fields::MEMBER_SYMBOLS];
    let mut count = 0;
    let mut bytes = encode::NARROWED_BYTES;
    let mut k = 0;
    // a turn takes a whole run, so that k is not the counter of a range
    while k < order.len() {
        let m = next_member(nodes, order, k, &mut codes, &mut sets);
        count += 1;
        bytes += m.bytes;
        k = m.group.next;
    }
    Size { count, bytes }
}

// Writes the file of the members that the sorted nodes make, `count` of them; the number of its bytes.
pub fn put_file(nodes: Nodes, order: &[usize], count: usize, out: &mut [u8]) -> usize
    requires { Filing nodes.question.now nodes.words.now order.now nodes.used (length order.now) count out.old }
    ensures { Filed nodes.entry.question.now nodes.entry.words.now order.now (length order.now) out.old out.new result }
{
    let mut codes = [0u8; fields::MEMBER_SYMBOLS];
    let mut sets = [0u64; fields::MEMBER_SYMBOLS];
    let mut at = encode::put_count(out, 0, count as u16);
    let mut k = 0;
    // by runs, as in `measure`
    while k < order.len() {
        let m = next_member(nodes, order, k, &mut codes, &mut sets);
        let g = m.group;
        at = encode::put_member(out, at, &codes, &sets, 0, g.size as u8, g.from, g.to);
        k = g.next;
    }
    at
}

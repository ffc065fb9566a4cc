// Narrowing: from the files of a sheet and a question to the file of the narrowed question, or to its size alone.
#![tactic(auto)]

ghost use Rattle.std.specs.Prelude.{◌≡◌, [], ◌≤◌, length};
ghost use Rattle.theory.specs.Merging.{members};
ghost use Rattle.rules.specs.Requirements.{part};
ghost use Rattle.fields.specs.Call.{Returns};
ghost use Rattle.fields.specs.Contract.{written_said};
ghost use Rattle.sheet.specs.Table.{table_of};
ghost use Rattle.narrowing.specs.Call.{narrow_need, narrow_call, size_call};
ghost use Rattle.narrowing.specs.Contract.{FirstUnnamed, Narrowable, InfersFile};
ghost use Rattle.narrowing.specs.Internal.{TellsUnnamed, Listed, Counts, Known, CountsNamed, CountsSymbols, Puts, PutsSymbols, Ready, Settles};

use fields::{Failure, Refusal, Size, Source};
use question::Question;
use sheet::Sheet;
use symbols::Symbol;
use triples::{Nodes, Span};

// The work words that narrowing needs.
pub const NEED: usize = 8192;

// The members of a question before a byte of their file is written: how many they are and the bytes of their file; the nodes of their
// triples in the members' order, and how many (an array with its length: no heap); and how many nodes are in use.
#[derive(Clone, Copy)]
struct Counted {
    size: Size,
    order: [usize; triples::MOST],
    triples: usize,
    nodes: usize,
}

// Whether the code is that of a step whose link is not below `links`.
fn unnamed(code: u8, links: u8) -> bool
    ensures { TellsUnnamed links code result }
{
    match symbols::decode(code, 0) {
        Symbol::Step(_, link) => links <= link.0,
        Symbol::Join(_) | Symbol::Op(_) | Symbol::Closure => false,
    }
}

// 11: the first of the symbols whose link is not below `links`.
pub fn first_unnamed(symbols: &[u8], links: u8) -> Option<usize>
    ensures { FirstUnnamed links symbols.now result }
{
    symbols.iter().position(|&code| unnamed(code, links))
}

// The members of the nodes of a span.
fn count_members(words: &[u64], symbols: &[u8], span: Span) -> Counted
    requires { Listed symbols.now words.now span }
    ensures { Counts symbols.now words.now (members (part symbols.now words.now span.start span.end)) result }
{
    let nodes = Nodes {
        words,
        used: span.end,
        question: symbols,
    };
    let triples = span.end - span.start;
    let mut order = [0; triples::MOST];
    merge::arrange(nodes, &mut order[..triples], span.start);
    let size = members_file::measure(nodes, &order[..triples]);
    Counted {
        size,
        order,
        triples,
        nodes: span.end,
    }
}

// Refusal 12 or 13, or the members, by a sheet.
fn count_named(symbols: &[u8], sheet: &Sheet, work: &mut [u64]) -> Result<Counted, Refusal>
    requires { Narrowable symbols.now sheet.now.table sheet.now.kinds × (narrow_need ≤ length work.old) }
    ensures { CountsNamed symbols.now work.old work.new sheet.now.table sheet.now.kinds result }
{
    let span = inference::infer(work, symbols, sheet)?;
    Ok(count_members(work, symbols, span))
}

// Refusal 11, or what `count_named` finds.
fn count_symbols(symbols: &[u8], sheet: &Sheet, work: &mut [u64]) -> Result<Counted, Refusal>
    requires { Narrowable symbols.now sheet.now.table sheet.now.kinds × (narrow_need ≤ length work.old) }
    ensures { CountsSymbols symbols.now work.old work.new sheet.now.table sheet.now.kinds sheet.now.links result }
{
    match first_unnamed(symbols, sheet.links) {
        Some(i) => Err(Refusal::UnnamedLink(i)),
        None => count_named(symbols, sheet, work),
    }
}

// 14, or the file of the members.
fn put_members(
    words: &[u64],
    symbols: &[u8],
    counted: &Counted,
    file: &mut [u8],
) -> Result<Size, Refusal>
    requires { Known symbols.now words.now counted.now }
    ensures { Puts symbols.now words.now counted.now file.old file.new result }
{
    let size = counted.size;
    if file.len() < size.bytes {
        return Err(Refusal::AreaShort(size.bytes));
    }
    let nodes = Nodes {
        words,
        used: counted.nodes,
        question: symbols,
    };
    let order = &counted.order[..counted.triples];
    let bytes = members_file::put_file(nodes, order, size.count, file);
    Ok(Size { bytes, ..size })
}

// Refusal 12, 13 or 14, or the file, by a sheet.
pub fn narrow_named(
    symbols: &[u8],
    sheet: &Sheet,
    work: &mut [u64],
    file: &mut [u8],
) -> Result<Size, Refusal>
    requires { Narrowable symbols.now sheet.now.table sheet.now.kinds × (narrow_need ≤ length work.old) }
    ensures { InfersFile symbols.now work.old work.new sheet.now.table sheet.now.kinds file.old file.new result }
{
    let counted = count_named(symbols, sheet, work)?;
    put_members(work, symbols, &counted, file)
}

// Refusal 11 before that.
fn narrow_symbols(
    symbols: &[u8],
    sheet: &Sheet,
    work: &mut [u64],
    file: &mut [u8],
) -> Result<Size, Refusal>
    requires { Narrowable symbols.now sheet.now.table sheet.now.kinds × (narrow_need ≤ length work.old) }
    ensures { PutsSymbols symbols.now work.old work.new sheet.now.table sheet.now.kinds sheet.now.links file.old file.new result }
{
    let counted = count_symbols(symbols, sheet, work)?;
    put_members(work, symbols, &counted, file)
}

// Reads the sheet into a struct that is lent, nothing permitted, and the question; or their refusals, and 15.
fn ready(sheet: &[u8], question: &[u8], work: &[u64], read: &mut Sheet) -> Result<Question, Failure>
    requires { read.old.table ≡ table_of [] }
    ensures { Ready sheet.now question.now work.now read.new result }
{
    fields::about(Source::Sheet, sheet::read_into(sheet, read))?;
    let question = fields::about(Source::Question, question::read(question))?;
    if work.len() < NEED {
        return Err(Refusal::WorkShort(NEED).about(Source::Work));
    }
    Ok(question)
}

// What is told once the work words that were used are zero.
fn settle(work: &mut [u64], words: usize, size: Result<Size, Refusal>) -> Result<Size, Failure>
    requires { words ≤ length work.old }
    ensures { Settles work.old work.new words size result }
{
    rows::clear(work, 0, words);
    fields::about(Source::Work, size)
}

// Narrows a question by a sheet, and writes the file of the narrowed question.
pub fn narrowing(
    sheet: &[u8],
    question: &[u8],
    work: &mut [u64],
    file: &mut [u8],
) -> Result<Size, Failure>
    ensures { Returns (narrow_call sheet.now question.now work.old file.old) (written_said result) work.new file.new }
{
    let mut read = Sheet::blank();
    let q = ready(sheet, question, work, &mut read)?;
    let put = narrow_symbols(q.symbols(), &read, work, file);
    settle(work, NEED, put)
}

// The size of the file that narrowing writes where its area is long enough; or the refusal that it gives in any area.
pub fn narrowed_size(sheet: &[u8], question: &[u8], work: &mut [u64]) -> Result<Size, Failure>
    ensures { Returns (size_call sheet.now question.now work.old) (written_said result) work.new tt }
{
    let mut read = Sheet::blank();
    let q = ready(sheet, question, work, &mut read)?;
    let counted = count_symbols(q.symbols(), &read, work);
    settle(work, NEED, counted.map(|c| c.size))
}

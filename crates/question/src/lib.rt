// Reads a question's file: the codes of its symbols, by value.
#![tactic(auto)]

ghost use Rattle.std.specs.Prelude.{◌≡◌, length};
ghost use Rattle.fields.specs.Table.{tag_length};
ghost use Rattle.fields.specs.Reading.{read as read_file};
ghost use Rattle.fields.specs.Contract.{read_said};
ghost use Rattle.field_reader.specs.declared.Standing.TheVariants as standing;
ghost use Rattle.question.specs.Form.{question_format, question_form};
ghost use Rattle.question.specs.Contract.{ReadsQuestion};
ghost use Rattle.question.specs.Internal.{BodyReady, begun, grown, turned};

mod codes;

use codes::MOST;
pub use codes::{MOST_SYMBOLS, Question};
use field_reader::{Reader, Standing};
use fields::{Due, File, Found, Refusal};
use symbols::Stack;

// The place in the body of 21: the number of symbols.
const SYMBOLS_IN: usize = 0;

// What is due: the head, or within the path what its stack says.
#[tactic(auto, unfolding(fields::specs::Table::rows_of, fields::specs::Table::rows))]
fn due(st: Standing<Stack>) -> Due
    ensures { result ≡ question_format.due st }
{
    match st {
        Standing::Head => fields::rows_due(File::Question, fields::QUESTION_ROW, false, false),
        Standing::Within(q) => symbols::symbols_due(File::Question, q),
    }
}

// 21: the number of symbols; refusal 3.
#[tactic(auto, unfolding(crate::specs::Form::head_of, fields::specs::Table::tag_length, fields::specs::Table::rows))]
fn head(f: Found<'_>) -> Result<Stack, Refusal>
    requires { length f.body.now ≡ tag_length 0x21 }
    ensures { read_said begun result ≡ question_format.judge standing.Head f.entry.at f.entry.next f.entry.tag f.entry.body.now }
{
    match f.body[SYMBOLS_IN] {
        left @ 1..=MOST => Ok(Stack { left, depth: 0 }),
        _ => Err(Refusal::OutOfRange(f.at)),
    }
}

// 43 or 44: a symbol; refusals 3 and 6.
fn grow(q: Stack, f: Found<'_>) -> Result<(u8, Stack), Refusal>
    requires { BodyReady (standing.Within q) f.tag (length f.body.now) }
    ensures { read_said grown result ≡ question_format.judge (standing.Within q) f.entry.at f.entry.next f.entry.tag f.entry.body.now }
{
    let x = symbols::symbol_in(f.at, f.tag, f.body)?;
    let left = q.push(f.at, f.next, symbols::operands(x.number))?;
    Ok((x.number, left))
}

// What a field leads to: the code of its symbol, none at the head, and what is left of the path.
fn judge(st: Standing<Stack>, f: Found<'_>) -> Result<(Option<u8>, Stack), Refusal>
    requires { BodyReady st f.tag (length f.body.now) }
    ensures { read_said turned result ≡ question_format.judge st f.entry.at f.entry.next f.entry.tag f.entry.body.now }
{
    match st {
        Standing::Head => Ok((None, head(f)?)),
        Standing::Within(q) => {
            let (code, left) = grow(q, f)?;
            Ok((Some(code), left))
        }
    }
}

// Reads a question's file.
pub fn read(s: &[u8]) -> Result<Question, Refusal>
    ensures { ReadsQuestion (read_file question_form s.now) result }
{
    let mut codes = [0u8; MOST_SYMBOLS];
    let mut count = 0;
    let mut st = Standing::Head;
    let mut reader = Reader::new(s);
    while let Some(f) = reader.next(due(st))? {
        let (code, left) = judge(st, f)?;
        if let Some(c) = code {
            codes[count] = c;
            count += 1;
        }
        st = Standing::Within(left);
    }
    Ok(Question { count, codes })
}

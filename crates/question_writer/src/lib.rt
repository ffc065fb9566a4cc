// Writes a question's file, by the codes of its symbols.
#![tactic(auto)]

ghost use Rattle.std.specs.Prelude.{◌≡◌, [], ◌∷◌, ◌≤◌, length};
ghost use Rattle.std.proofs.lemmas.List.Edits.{sets};
ghost use Rattle.fields.specs.Table.{field_size};
ghost use Rattle.fields.specs.Writing.{field_bytes};
ghost use Rattle.fields.specs.Call.{Gives, file_in};
ghost use Rattle.fields.specs.Contract.{written_said};
ghost use Rattle.encode.specs.BytesWritten.{BytesWritten};
ghost use Rattle.question.specs.Writing.{question_bytes};

use fields::{Failure, Refusal, Size, Source};

// The bytes of a question's head.
const QUESTION_BYTES: usize = fields::HEAD + fields::QUESTION_LENGTH as usize;

// 21: the number of symbols.
#[tactic(auto, using(encode::proofs::Along::wrote_more), unfolding(fields::specs::Table::field_size, fields::specs::Table::tag_length, fields::specs::Table::rows))]
fn put_count(out: &mut [u8], n: u8) -> usize
    requires { field_size 0x21 ≤ length out.old }
    ensures { BytesWritten out.old out.new 0 result (field_bytes 0x21 (n ∷ [])) }
{
    let a = encode::put_head(out, 0, fields::QUESTION_TAG, fields::QUESTION_LENGTH);
    encode::put_byte(out, a, n)
}

// The codes of a question's symbols, few enough for its head.
#[derive(Clone, Copy)]
struct Codes<'a> {
    codes: &'a [u8],
    ghost few: { length codes.now ≤ 32 },
}

impl Codes<'_> {
    // The number of the file's bytes.
    fn measure(self) -> usize
        ensures { result ≡ length (question_bytes self.entry.codes.now) }
    {
        let symbols: usize = self
            .codes
            .iter()
            .map(|&code| encode::symbol_size(code))
            .sum();
        QUESTION_BYTES + symbols
    }

    // The file, from the area's start on; the number of its bytes. No symbol of a question has a set.
    fn put(self, out: &mut [u8]) -> usize
        requires { length (question_bytes self.codes.now) ≤ length out.old }
        ensures { (out.new ≡ sets out.old 0 (question_bytes self.entry.codes.now)) × (result ≡ length (question_bytes self.entry.codes.now)) }
    {
        let n = self.codes.len() as u8;
        let no_sets = [0u64; question::MOST_SYMBOLS];
        let a = put_count(out, n);
        encode::put_symbols(out, a, self.codes, &no_sets, 0, n)
    }
}

// 14, or the file; tells the numbers of its symbols and of its bytes.
pub fn write(codes: &[u8], file: &mut [u8]) -> Result<Size, Failure>
    requires { length codes.now ≤ 32 }
    ensures { Gives (file_in (length codes.now) (question_bytes codes.now) file.old) (written_said result) file.new }
{
    let question = Codes { codes };
    let n = question.measure();
    if file.len() < n {
        return Err(Refusal::AreaShort(n).about(Source::Work));
    }
    Ok(Size {
        count: codes.len(),
        bytes: question.put(file),
    })
}

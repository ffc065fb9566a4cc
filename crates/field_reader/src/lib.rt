// A reader of fields: it holds a file that it does not own, and the place of its next field. `fields` says what lies there.
#![tactic(auto)]

ghost use Rattle.std.specs.Prelude.{◌≡◌, IfOk, IfSome};
ghost use Rattle.fields.specs.Reading.{field_at};
ghost use Rattle.fields.specs.Contract.{field_said, FoundAt};
ghost use Rattle.field_reader.specs.Reader.{next_place};

use fields::{Due, Found, Refusal};

// Where the reading of a file stands: at its head, or within what comes after it, with what is known there. An Option would not say which.
#[derive(Clone, Copy, PartialEq, Eq)]
pub enum Standing<T> {
    Head,
    Within(T),
}

// The file, and the place of its next field.
#[derive(Clone, Copy)]
pub struct Reader<'a> {
    pub src: &'a [u8],
    pub at: usize,
}

impl<'a> Reader<'a> {
    // At the file's start.
    pub fn new(src: &'a [u8]) -> Reader<'a>
        ensures { (result.src ≡ src.entry) × (result.at ≡ 0) }
    {
        Reader { src, at: 0 }
    }

    // The field at its place, which it then goes past; none at the file's end.
    pub fn next(&mut self, due: Due) -> Result<Option<Found<'a>>, Refusal>
        ensures said { field_said result ≡ field_at due self.old.src.now self.old.at }
        ensures part { IfOk result (λ r. IfSome r (FoundAt self.old.src.now self.old.at)) }
        ensures file { self.new.src ≡ self.old.src }
        ensures place { self.new.at ≡ next_place self.old.at result }
    {
        let found = fields::field(self.src, self.at, due)?;
        if let Some(f) = found {
            self.at = f.next;
        }
        Ok(found)
    }
}

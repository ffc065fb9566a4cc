// Whether a register obeys a sheet.
#![tactic(auto)]

ghost use Rattle.std.specs.Prelude.{◌≡◌};
ghost use Rattle.fields.specs.Contract.{outcome_said};
ghost use Rattle.register.specs.Form.{register_in};
ghost use Rattle.conformance.specs.Check.{check_of};
ghost use Rattle.conformance.specs.Contract.{failing_said, first_unknown, first_forbidden, first_breach};

use fields::{Failure, Refusal, Source};
use register::Register;
use sheet::Sheet;

// The first record whose kind is not one of the sheet's.
fn first_unknown(register: &Register<'_>, kinds: u8) -> Option<usize>
    ensures { failing_said result ≡ first_unknown kinds (register_in register.now.file.now) }
{
    for i in 0..register.records {
        if kinds <= register.kind_at(i).0 {
            return Some(i);
        }
    }
    None
}

// The first link that the sheet does not permit, counted from the number of records.
fn first_forbidden(register: &Register<'_>, sheet: &Sheet) -> Option<usize>
    ensures { failing_said result ≡ first_forbidden sheet.now.table (register_in register.now.file.now) }
{
    for (i, e) in register.links().enumerate() {
        let from = register.kind_at(e.from);
        let to = register.kind_at(e.to);
        if !sheet.permits(from, e.link, to) {
            return Some(register.records + i);
        }
    }
    None
}

// The place of 16: a record's number, or the number of records more than a link's.
pub fn first_breach(register: &Register<'_>, sheet: &Sheet) -> Option<usize>
    ensures { failing_said result ≡ first_breach sheet.now.kinds sheet.now.table (register_in register.now.file.now) }
{
    // With `or_else` the closure would have to say again, as a clause, what `first_forbidden` promises.
    match first_unknown(register, sheet.kinds) {
        None => first_forbidden(register, sheet),
        found => found,
    }
}

// Ok where the register obeys; else a file's refusal, or 16 with its place.
pub fn check(sheet: &[u8], register: &[u8]) -> Result<(), Failure>
    ensures { outcome_said result ≡ check_of sheet.now register.now }
{
    let mut read = Sheet::blank();
    fields::about(Source::Sheet, sheet::read_into(sheet, &mut read))?;
    let register = fields::about(Source::Register, register::read(register))?;
    match first_breach(&register, &read) {
        Some(i) => Err(Refusal::Breach(i).about(Source::Work)),
        None => Ok(()),
    }
}

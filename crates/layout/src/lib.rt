// The record's 26 fields: widths, starts, and a field as a part of the caller's record.
#![tactic(auto)]

ghost use Rattle.std.specs.Prelude.{◌≡◌, ◌-◌, ◌≤◌, length};
ghost use Rattle.layout.specs.Widths.{cut};
ghost use Rattle.layout.specs.Layout.{widths, is_field, Width, Field, FieldAnswered};

use text::Refusal;

// The widths of the 26 fields, 399 bytes together.
pub const WIDTHS: [usize; 26] = [
    13, 8, 8, 30, 5, 2, 40, 40, 40, 6, 6, 20, 50, 12, 6, 12, 12, 30, 2, 10, 10, 13, 2, 2, 10, 10,
];

// Where each field starts: behind the widths before it. A table of its own, so that no call adds up.
const STARTS: [usize; 26] = [
    0, 13, 21, 29, 59, 64, 66, 106, 146, 186, 192, 198, 218, 268, 280, 286, 298, 310, 340, 342,
    352, 362, 375, 377, 379, 389,
];

fn is_field(n: usize) -> bool
    ensures { result ≡ is_field n }
{
    (1..=26).contains(&n)
}

// How wide field n is; 0 where there is no such field: `field` gives no byte of it either.
pub fn width(n: usize) -> usize
    ensures { Width n result }
{
    if is_field(n) { WIDTHS[n - 1] } else { 0 }
}

// Field n of a record whose length has been tested: a part of the caller's slice, and of no array made of it.
fn cut_out(rec: &[u8], n: usize) -> &[u8]
    requires { (length rec.now ≡ 399) × (1 ≤ n) × (n ≤ 26) }
    ensures { result.now ≡ cut widths rec.now (n - 1) }
{
    let start = STARTS[n - 1];
    let end = start + WIDTHS[n - 1];
    &rec[start..end]
}

// Field n as a part of the record: empty where the record has another length or no such field.
pub fn field(rec: &[u8], n: usize) -> &[u8]
    ensures { Field rec.now n result.now }
{
    if rec.len() == 399 && is_field(n) {
        cut_out(rec, n)
    } else {
        &rec[..0]
    }
}

// Whether the record has 399 bytes, and a field n.
pub fn field_answer(rec: &[u8], n: usize) -> Result<(), Refusal>
    ensures { FieldAnswered rec.now n result }
{
    if rec.len() != 399 {
        return Err(Refusal::WrongLength);
    }
    if !is_field(n) {
        return Err(Refusal::Malformed(0));
    }
    Ok(())
}

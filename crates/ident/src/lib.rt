// The identifier of 13 bytes: whether it is right, its parts, whose it is, writing one, comparing two.
#![tactic(auto)]

mod consignor;

ghost use Rattle.std.specs.Prelude.{◌≡◌, true, false, ◌+◌, ◌%◌, ◌^◌, ◌≤◌, ◌<◌, cond, length, reverse, ltb, bytes_eq, MatchOption};
ghost use Rattle.std.specs.List.{list_all, zip};
ghost use Rattle.ident.specs.Identifier.{Row, last_of, right_prefix, weights_for, weighted, check_digit, passes_at, ends_right, right_id};
ghost use Rattle.text.specs.Answers.{answered};
ghost use Rattle.text.specs.Promises.{Gives};
ghost use Rattle.text.specs.Bytes.{all_digits};
ghost use Rattle.text.specs.Lists.{part};
ghost use Rattle.text.specs.Numbers.{number_of};
ghost use Rattle.ident.specs.Consignor.{whose, consignor_in};
ghost use Rattle.ident.specs.Calls.{parts_of, can_write, written, Checked, Read, Written, Compared};

pub use consignor::{Consignor, another};
use text::Refusal;

// How many digits consignor and posting number have, by the last byte; in specs none and none where no row has it.
#[derive(Clone, Copy)]
pub struct Shape {
    pub consignor: usize,
    pub posting: usize,
}

// What an identifier says: two bytes of prefix, the last byte, consignor (0 for CZ) and posting number.
#[derive(Clone, Copy, Debug, PartialEq, Eq)]
pub struct Parts {
    pub first: u8,
    pub second: u8,
    pub last: u8,
    pub consignor: u64,
    pub posting: u64,
}

impl Parts {
    // Whose an identifier with these parts is: its last byte is the consignor's type, and CZ names nobody.
    pub fn whose(self) -> Option<Consignor>
        ensures { Gives (whose self) result }
    {
        if self.last == b'Z' {
            None
        } else {
            Some(Consignor {
                kind: self.last,
                number: self.consignor,
            })
        }
    }
}

const WEIGHTS: [u8; 9] = [1, 8, 6, 4, 2, 3, 5, 9, 7];

// The paper's table, row by row; None where no row has the byte.
#[tactic(auto, unfolding(crate::specs::Identifier::shape_of))]
fn shape_of(last: u8) -> Option<Shape>
    ensures { Row last result }
{
    let (consignor, posting) = match last {
        b'F' | b'E' | b'P' => (2, 7),
        b'U' | b'T' => (3, 6),
        b'C' | b'B' => (4, 5),
        b'M' | b'L' => (5, 4),
        b'Z' => (0, 8),
        _ => return None,
    };
    Some(Shape { consignor, posting })
}

fn right_prefix(a: u8, b: u8) -> bool
    ensures { result ≡ right_prefix a b }
{
    text::is_capital(a) && (text::is_capital(b) || b == b' ')
}

// The weighted sum of digits, under the last of the weights.
fn weighted_sum(digits: &[u8]) -> u64
    requires { length digits.now ≤ 9 }
    ensures { result ≡ weighted (weights_for (length digits.now)) digits.now }
{
    let weights = &WEIGHTS[9 - digits.len()..];
    let mut sum = 0;
    for (weight, digit) in weights.iter().zip(digits) {
        sum += u64::from(*weight) * text::digit_value(*digit);
    }
    sum
}

fn check_digit(remainder: u64) -> u64
    requires { remainder < 11 }
    ensures { (result ≡ check_digit remainder) × (result < 10) }
{
    match remainder {
        0 => 5,
        1 => 0,
        other => 11 - other,
    }
}

// The byte behind digits that is their check digit.
fn check_byte(digits: &[u8]) -> u8
    requires { length digits.now ≤ 9 }
    ensures { result ≡ 48 + check_digit (weighted (weights_for (length digits.now)) digits.now % 11) }
{
    b'0' + check_digit(weighted_sum(digits) % 11) as u8
}

// The digit behind the n digits from place 2 is their check digit.
fn check_digit_fits(id: &[u8; 13], n: usize) -> bool
    requires { n ≤ 9 }
    ensures { result ≡ passes_at id.now n }
{
    id[n + 2] == check_byte(&id[2..n + 2])
}

// Whether the n bytes from place 2 and the one behind them are digits: by eights, some of them for the second time, since the compiler takes
// bytes at once where it knows how many there are.
fn digits_at(id: &[u8; 13], n: usize) -> bool
    requires { (8 ≤ n) × (n ≤ 9) }
    ensures { result ≡ all_digits (part id.now 2 (n + 3)) }
{
    text::all_digits(&id[2..10]) && text::all_digits(&id[n - 5..n + 3])
}

#[tactic(auto, unfolding(crate::specs::Calls::parts_of))]
fn parts_of(id: &[u8; 13], shape: Shape) -> Parts
    requires { Row (last_of id.now) (Some shape) }
    ensures { result ≡ parts_of id.now }
{
    let m = shape.consignor + 2;
    let e = m + shape.posting;
    Parts {
        first: id[0],
        second: id[1],
        last: id[12],
        consignor: text::number(&id[2..m]),
        posting: text::number(&id[m..e]),
    }
}

// Whether a digit above 0 is among these bytes: then they write a number above 0. From the last one on, since numbers begin with zeros.
fn some_above_0(digits: &[u8]) -> bool
    ensures { result ≡ ltb 0 (number_of digits.now) }
{
    digits.iter().rev().any(|digit| b'0' < *digit)
}

// The postfix CZ; or consignor and posting number, which are at least 1: their digits tell, so that `check` reads no number.
#[tactic(auto, unfolding(crate::specs::Identifier::ends_right))]
fn ends_right(id: &[u8; 13], shape: Shape) -> bool
    requires { Row (last_of id.now) (Some shape) }
    ensures { result ≡ ends_right id.now }
{
    if id[12] == b'Z' {
        id[11] == b'C'
    } else {
        let m = shape.consignor + 2;
        let e = m + shape.posting;
        some_above_0(&id[2..m]) && some_above_0(&id[m..e])
    }
}

// A right identifier, and its shape.
#[tactic(auto, unfolding(crate::specs::Identifier::right_id))]
fn right(id: &[u8]) -> Option<(&[u8; 13], Shape)>
    ensures { MatchOption result (right_id id.now ≡ false) (λ r. (right_id id.now ≡ true) × (r.0.now ≡ id.now) × Row (last_of id.now) (Some r.1)) }
{
    let id = id.as_array::<13>()?;
    let shape = shape_of(id[12])?;
    let n = shape.consignor + shape.posting;
    if !(right_prefix(id[0], id[1]) && digits_at(id, n) && check_digit_fits(id, n)) {
        return None;
    }
    ends_right(id, shape).then_some((id, shape))
}

// Whether an identifier is right; else code 1, place 1.
pub fn check(id: &[u8]) -> Result<(), Refusal>
    ensures { Checked id.now (answered result) }
{
    if right(id).is_some() {
        Ok(())
    } else {
        Err(Refusal::WrongIdentifier)
    }
}

// The parts of a right identifier, which say whose it is; else code 1, place 1.
pub fn read(id: &[u8]) -> Result<Parts, Refusal>
    ensures { Read id.now result }
{
    let (id, shape) = right(id).ok_or(Refusal::WrongIdentifier)?;
    Ok(parts_of(id, shape))
}

fn power(k: usize) -> u64
    requires { k < 10 }
    ensures { result ≡ 10 ^ k }
{
    10u64.pow(k as u32)
}

// The shape of an identifier of these parts, if some right identifier has them.
#[tactic(auto, unfolding(crate::specs::Calls::can_write))]
fn can_write(p: Parts) -> Option<Shape>
    ensures { MatchOption result (can_write p ≡ false) (λ h. (can_write p ≡ true) × Row p.last (Some h)) }
{
    let shape = shape_of(p.last)?;
    let fits = p.consignor < power(shape.consignor) && p.posting < power(shape.posting);
    let numbered = p.last == b'Z' || 0 < p.consignor && 0 < p.posting;
    (right_prefix(p.first, p.second) && fits && numbered).then_some(shape)
}

// Over a slice of 13 bytes: `write` has asked how long it is, and a `&mut [u8; 13]` of it would need a second way out there.
fn fill(id: &mut [u8], p: Parts, shape: Shape)
    requires { (length id.old ≡ 13) × (can_write p ≡ true) × Row p.last (Some shape) }
    ensures { id.new ≡ written p }
{
    let m = shape.consignor + 2;
    let e = m + shape.posting;
    text::put_digits(&mut id[2..m], p.consignor);
    text::put_digits(&mut id[m..e], p.posting);
    let check = check_byte(&id[2..e]);
    id[0] = p.first;
    id[1] = p.second;
    id[11] = b'C';
    id[e] = check;
    id[12] = p.last;
}

// Writes the identifier of these parts into the lent part, if some right identifier has them.
pub fn write(part: &mut [u8], p: Parts) -> Result<(), Refusal>
    ensures { Written part.old p (answered result) part.new }
{
    if part.len() != 13 {
        return Err(Refusal::WrongLength);
    }
    let shape = can_write(p).ok_or(Refusal::WrongIdentifier)?;
    fill(part, p, shape);
    Ok(())
}

// Whether the same bytes stand in both, eight by eight from the last on.
fn same_eights(a: &[[u8; 8]], b: &[[u8; 8]]) -> bool
    ensures { result ≡ list_all (λ p. bytes_eq p.0 p.1) (zip (reverse a.now) (reverse b.now)) }
{
    a.iter().rev().zip(b.iter().rev()).all(|(x, y)| x == y)
}

// Whether two identifiers are the same bytes. Everything above compares them here.
// It looks from the last byte towards the first, eight at a time: those of one consignor begin alike.
pub fn same(a: &[u8], b: &[u8]) -> bool
    ensures { Compared a.now b.now result }
{
    if a.len() != b.len() {
        return false;
    }
    let (_, eights) = a.as_rchunks::<8>();
    let (_, others) = b.as_rchunks::<8>();
    // The first eight at once, some of them for the second time, are quicker than those that are left one by one.
    same_eights(eights, others) && text::word(a) == text::word(b)
}

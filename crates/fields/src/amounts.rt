// 15 to 17: weight and money.
ghost use Rattle.std.specs.Prelude.{ℕ, Bool, List, ◌≡◌, true, cond, ◌+◌, ◌/◌, ◌≤◌, ◌<◌, length, replicate, set, ltb};
ghost use Rattle.text.specs.Answers.{answered};
ghost use Rattle.text.specs.Promises.{Gives};
ghost use Rattle.text.specs.Lists.{overlay};
ghost use Rattle.text.specs.Numbers.{digits};
ghost use Rattle.fields.specs.Amounts.{is_weight, grams_in, read_weight, weight_text, crown_digits, is_money, hellers_in, read_money, absent_or_zero_money, money_text};
ghost use Rattle.fields.specs.Calls.{has_text, text_bytes, money_fits, weight_fits, Written, MoneyWritten, WeightWritten, sum_of_hellers};

use crate::reading::{Reading, framed};
use layout::WIDTHS;
use text::Refusal;

const WEIGHT_WIDTH: usize = WIDTHS[15 - 1];

// Cash on delivery and price specified, 16 and 17, are as wide.
const MONEY_WIDTH: usize = WIDTHS[16 - 1];

// The number has no writing in the field.
const NO_WRITING: Refusal = Refusal::Malformed(0);

#[derive(Clone, Copy, Debug, PartialEq, Eq)]
pub struct Grams(pub u64);

#[derive(Clone, Copy, Debug, PartialEq, Eq, Default)]
pub struct Hellers(pub u64);

pub type WeightReading = Reading<Grams>;

pub type MoneyReading = Reading<Hellers>;

impl Reading<Hellers> {
    pub fn is_absent_or_zero(self) -> bool
        ensures { Gives (absent_or_zero_money self) result }
    {
        match self {
            Reading::Value(h) => h.0 == 0,
            _ => true,
        }
    }
}

impl Hellers {
    // What two amounts make together, unless it is too large.
    pub fn plus(self, other: Hellers) -> Option<Hellers>
        ensures { Gives (sum_of_hellers self other) result }
    {
        self.0.checked_add(other.0).map(Hellers)
    }
}

// `&&` and not `&`: so the compiler knows of each digit where its value is taken.
fn has_weight_form(f: &[u8; WEIGHT_WIDTH]) -> bool
    ensures { result ≡ is_weight f.now }
{
    let first = f[0] == b' ' || text::is_digit(f[0]) && f[0] != b'0';
    if !(first && text::is_digit(f[1]) && f[2] == b'.') {
        return false;
    }
    text::is_digit(f[3]) && text::is_digit(f[4]) && text::is_digit(f[5])
}

pub fn read_weight(f: &[u8]) -> WeightReading
    ensures { Gives (read_weight f.now) result }
{
    framed(f, WEIGHT_WIDTH, |f| {
        let f = f.as_array::<WEIGHT_WIDTH>()?;
        has_weight_form(f).then(|| Grams(grams_in(f)))
    })
}

// The grams that a weight says: kilograms, a dot and grams.
fn grams_in(f: &[u8; WEIGHT_WIDTH]) -> u64
    requires { is_weight f.now ≡ true }
    ensures { result ≡ grams_in f.now }
{
    text::number(&f[0..2]) * 1000 + text::number(&f[3..6])
}

// A dot behind so many digits, two digits and nothing but spaces; no leading zero but a lone one.
#[tactic(auto, unfolding(crate::specs::Amounts::is_money))]
fn has_money_form(f: &[u8; MONEY_WIDTH], crowns: usize) -> bool
    requires { crowns ≡ crown_digits f.now }
    ensures { result ≡ is_money f.now }
{
    1 <= crowns
        && crowns <= 9
        && (crowns == 1 || f[0] != b'0')
        && f[crowns] == b'.'
        && text::all_digits(&f[crowns + 1..crowns + 3])
        && text::blank(&f[crowns + 3..])
}

pub fn read_money(f: &[u8]) -> MoneyReading
    ensures { Gives (read_money f.now) result }
{
    framed(f, MONEY_WIDTH, |f| {
        let f = f.as_array::<MONEY_WIDTH>()?;
        let crowns = text::leading_digits(f);
        has_money_form(f, crowns).then(|| Hellers(hellers_in(f, crowns)))
    })
}

// The amount with so many digits before its dot.
fn hellers_in(f: &[u8; MONEY_WIDTH], crowns: usize) -> u64
    requires { (crowns ≡ crown_digits f.now) × (is_money f.now ≡ true) }
    ensures { result ≡ hellers_in f.now }
{
    let a = crowns + 1;
    let e = crowns + 3;
    text::number(&f[0..crowns]) * 100 + text::number(&f[a..e])
}

// ---- writing

// An amount, which has one writing in a field of N bytes, unless it is too large.
trait Amount<const N: usize>: Copy {
    ghost fits: { Self → Bool };

    ghost text: { Self → List ℕ };

    fn fits(self) -> bool
        ensures { result ≡ fits self };

    fn put(self, part: &mut [u8; N])
        requires { fits self ≡ true }
        ensures { part.new ≡ text self };
}

// Writes a field that is absent.
fn make_blank<const N: usize>(part: &mut [u8; N])
    ensures { part.new ≡ replicate N 32 }
{
    part.fill(b' ');
}

// Writes a reading into a field of N bytes: few, so that they fit in memory.
fn write<const N: usize, A: Amount<N>>(part: &mut [u8], m: Reading<A>) -> Result<(), Refusal>
    requires { N < 100 }
    ensures { Written N (has_text A.fits m) (text_bytes N A.text m) part.old (answered result) part.new }
{
    let Some(part) = part.as_mut_array::<N>() else {
        return Err(Refusal::WrongLength);
    };
    match m {
        Reading::Absent => {
            make_blank(part);
            Ok(())
        }
        Reading::Value(amount) => {
            if !amount.fits() {
                return Err(NO_WRITING);
            }
            amount.put(part);
            Ok(())
        }
        Reading::Malformed => Err(NO_WRITING),
    }
}

// Puts the last w decimal places of n from place `at` on.
fn put_digits_at(part: &mut [u8], at: usize, w: usize, n: u64)
    requires { at + w ≤ length part.old }
    ensures { part.new ≡ overlay part.old at (digits w n) }
{
    let e = at + w;
    text::put_digits(&mut part[at..e], n);
}

// What stands first in a weight: tens of kilograms, or a space.
fn tens_byte(v: u64) -> u8
    requires { v < 100000 }
    ensures { result ≡ cond (ltb v 10000) 32 (48 + v / 10000) }
{
    if v < 10000 {
        b' '
    } else {
        (48 + v / 10000) as u8
    }
}

impl Amount<WEIGHT_WIDTH> for Grams {
    ghost fits = { λ g. weight_fits g.0 };

    ghost text = { λ g. weight_text g.0 };

    fn fits(self) -> bool {
        self.0 < 100_000
    }

    fn put(self, part: &mut [u8; WEIGHT_WIDTH]) {
        let v = self.0;
        put_digits_at(part, 3, 3, v);
        part[0] = tens_byte(v);
        part[1] = (48 + v / 1000 % 10) as u8;
        part[2] = b'.';
    }
}

pub fn write_weight(part: &mut [u8], m: WeightReading) -> Result<(), Refusal>
    ensures { WeightWritten part.old m (answered result) part.new }
{
    write(part, m)
}

// Puts crowns of n digits, a dot and two digits at the front.
fn put_crowns_and_hellers(part: &mut [u8; MONEY_WIDTH], n: usize, v: u64)
    requires { n ≤ 9 }
    ensures { part.new ≡ overlay (set (overlay part.old 0 (digits n (v / 100))) n 46) (n + 1) (digits 2 v) }
{
    put_digits_at(part, 0, n, v / 100);
    part[n] = b'.';
    put_digits_at(part, n + 1, 2, v);
}

impl Amount<MONEY_WIDTH> for Hellers {
    ghost fits = { λ h. money_fits h.0 };

    ghost text = { λ h. money_text h.0 };

    fn fits(self) -> bool {
        self.0 < 100_000_000_000
    }

    fn put(self, part: &mut [u8; MONEY_WIDTH]) {
        let v = self.0;
        let n = text::decimal_places(v / 100);
        part.fill(b' ');
        put_crowns_and_hellers(part, n, v);
    }
}

pub fn write_money(part: &mut [u8], m: MoneyReading) -> Result<(), Refusal>
    ensures { MoneyWritten part.old m (answered result) part.new }
{
    write(part, m)
}

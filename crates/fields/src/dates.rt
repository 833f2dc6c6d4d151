// 2 and 3: date and time.
ghost use Rattle.std.specs.Prelude.{◌≡◌};
ghost use Rattle.text.specs.Promises.{Gives};
ghost use Rattle.fields.specs.Dates.{is_leap, days_in, real_date, read_date, has_time_form, read_time};

use crate::reading::Malformed;
use layout::WIDTHS;

const DATE_WIDTH: usize = WIDTHS[2 - 1];

const TIME_WIDTH: usize = WIDTHS[3 - 1];

// A date as the number ccyymmdd.
pub type DateReading = Result<u64, Malformed>;

// A time in seconds from midnight.
pub type TimeReading = Result<u64, Malformed>;

fn is_leap(y: u64) -> bool
    ensures { result ≡ is_leap y }
{
    y % 4 == 0 && (y % 100 != 0 || y % 400 == 0)
}

#[tactic(auto, unfolding(crate::specs::Dates::days_in))]
fn days_in(y: u64, m: u64) -> u64
    ensures { result ≡ days_in y m }
{
    match m {
        2 => { if is_leap(y) { 29 } else { 28 } }
        4 | 6 | 9 | 11 => 30,
        _ => 31,
    }
}

fn real_date(y: u64, m: u64, d: u64) -> bool
    ensures { result ≡ real_date y m d }
{
    2000 <= y && y <= 2099 && 1 <= m && m <= 12 && 1 <= d && d <= days_in(y, m)
}

#[tactic(auto, using(crate::proofs::Ways::days_few), unfolding(crate::specs::Dates::read_date))]
pub fn read_date(f: &[u8]) -> DateReading
    ensures { Gives (read_date f.now) result }
{
    if f.len() != DATE_WIDTH || !text::all_digits(f) {
        return Err(Malformed);
    }
    let y = text::number(&f[0..4]);
    let m = text::number(&f[4..6]);
    let d = text::number(&f[6..8]);
    if real_date(y, m, d) {
        Ok(y * 10000 + m * 100 + d)
    } else {
        Err(Malformed)
    }
}

// Digits and colons where a time of eight bytes has them.
fn has_time_form(f: &[u8; TIME_WIDTH]) -> bool
    ensures { result ≡ has_time_form f.now }
{
    text::is_digit(f[0])
        && text::is_digit(f[1])
        && f[2] == b':'
        && text::is_digit(f[3])
        && text::is_digit(f[4])
        && f[5] == b':'
        && text::is_digit(f[6])
        && text::is_digit(f[7])
}

#[tactic(auto, unfolding(crate::specs::Dates::read_time))]
pub fn read_time(f: &[u8]) -> TimeReading
    ensures { Gives (read_time f.now) result }
{
    let Some(f) = f.as_array::<TIME_WIDTH>() else {
        return Err(Malformed);
    };
    if !has_time_form(f) {
        return Err(Malformed);
    }
    let h = text::number(&f[0..2]);
    let m = text::number(&f[3..5]);
    let s = text::number(&f[6..8]);
    let good = h <= 23 && m <= 59 && s <= 59;
    if good {
        Ok(h * 3600 + m * 60 + s)
    } else {
        Err(Malformed)
    }
}

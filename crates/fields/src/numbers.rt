// 12, 21, 23, 24: numbers; and the digits of 5.
ghost use Rattle.std.specs.Prelude.{◌≡◌, ◌≤◌, length};
ghost use Rattle.text.specs.Promises.{Gives};
ghost use Rattle.fields.specs.Numbers.{read_digits, read_telephone, read_symbol, read_count, number_in};

use crate::reading::{Reading, framed};
use layout::WIDTHS;

const TELEPHONE_WIDTH: usize = WIDTHS[12 - 1];

const SYMBOL_WIDTH: usize = WIDTHS[21 - 1];

// Serial and pieces, 23 and 24, are as wide.
const COUNT_WIDTH: usize = WIDTHS[23 - 1];

pub type NumberReading = Reading<u64>;

impl Reading<u64> {
    // The number that was read; 0 where there is none, as the rules say it (`number_in`): so callers need no default of their own.
    pub fn number(self) -> u64
        ensures { Gives (number_in self) result }
    {
        self.value().unwrap_or(0)
    }
}

// Digits alone, or blank.
pub(crate) fn read_digits(f: &[u8], width: usize) -> NumberReading
    requires { width ≤ 16 }
    ensures { result ≡ read_digits width f.now }
{
    framed(f, width, |f| text::all_digits(f).then(|| text::number(f)))
}

pub fn read_symbol(f: &[u8]) -> NumberReading
    ensures { Gives (read_symbol f.now) result }
{
    read_digits(f, SYMBOL_WIDTH)
}

pub fn read_telephone(f: &[u8]) -> NumberReading
    ensures { Gives (read_telephone f.now) result }
{
    framed(f, TELEPHONE_WIDTH, |f| {
        let good = f[0] == b'+' && text::all_digits(&f[1..13]) && text::blank(&f[13..20]);
        good.then(|| text::number(&f[1..13]))
    })
}

// Serial and pieces.
pub fn read_count(f: &[u8]) -> NumberReading
    ensures { Gives (read_count f.now) result }
{
    framed(f, COUNT_WIDTH, |f| {
        let n = text::number(f);
        let good = text::all_digits(f) && 0 < n;
        good.then_some(n)
    })
}

// 5: postcode, judged by the country.
ghost use Rattle.text.specs.Promises.{Gives};
ghost use Rattle.fields.specs.Postcodes.{read_postcode};

use crate::numbers::read_digits;
use crate::others::CountryReading;
use crate::reading::Reading;
use crate::texts::read_text;
use layout::WIDTHS;

const POSTCODE_WIDTH: usize = WIDTHS[5 - 1];

// A foreign one by how many bytes stand before the spaces at its end.
#[derive(Clone, Copy, Debug, PartialEq, Eq)]
pub enum Postcode {
    Domestic(u64),
    Foreign(usize),
}

pub type PostcodeReading = Reading<Postcode>;

// Reads field 5 beside what was read of field 6: abroad is whatever is not blank there.
pub fn read_postcode(f: &[u8], country: CountryReading) -> PostcodeReading
    ensures { Gives (read_postcode country f.now) result }
{
    if country.is_absent() {
        read_digits(f, POSTCODE_WIDTH).map(Postcode::Domestic)
    } else {
        read_text(f, POSTCODE_WIDTH).map(Postcode::Foreign)
    }
}

// 6, 14, 19, 22, 25: country, blank fields, status, main consignment.
ghost use Rattle.text.specs.Promises.{Gives};
ghost use Rattle.fields.specs.Others.{read_country, read_empty, read_status, read_main};

use crate::reading::{Malformed, Reading, framed};
use ident::Parts;
use layout::WIDTHS;

const COUNTRY_WIDTH: usize = WIDTHS[6 - 1];

const STATUS_WIDTH: usize = WIDTHS[19 - 1];

const MAIN_WIDTH: usize = WIDTHS[22 - 1];

// The two capitals of a country abroad.
#[derive(Clone, Copy, Debug, PartialEq, Eq)]
pub struct Country(pub u8, pub u8);

// Absent is domestic.
pub type CountryReading = Reading<Country>;

pub type MainReading = Reading<Parts>;

// A field that has to be blank.
pub type EmptyReading = Result<(), Malformed>;

#[derive(Clone, Copy, Debug, PartialEq, Eq)]
pub enum StatusReading {
    Live,
    Cancelled,
    Malformed,
}

pub fn read_country(f: &[u8]) -> CountryReading
    ensures { Gives (read_country f.now) result }
{
    framed(f, COUNTRY_WIDTH, |f| {
        let country = Country(f[0], f[1]);
        let good = text::is_capital(f[0])
            && text::is_capital(f[1])
            && country != Country(b'C', b'Z');
        good.then_some(country)
    })
}

// Reads a field of so many bytes that has to be blank. Outside the frame of the other readers, since blank is the good value here and not absent.
#[tactic(auto, unfolding(crate::specs::Frame::framed))]
pub fn read_empty(f: &[u8], width: usize) -> EmptyReading
    ensures { Gives (read_empty width f.now) result }
{
    if f.len() != width {
        return Err(Malformed);
    }
    if text::blank(f) {
        Ok(())
    } else {
        Err(Malformed)
    }
}

// Outside the frame of the other readers, since a status is never absent: blank is live.
#[tactic(auto, unfolding(crate::specs::Frame::framed))]
pub fn read_status(f: &[u8]) -> StatusReading
    ensures { Gives (read_status f.now) result }
{
    if f.len() != STATUS_WIDTH {
        return StatusReading::Malformed;
    }
    if text::blank(f) {
        return StatusReading::Live;
    }
    let cancelled = f[0] == b'0' && f[1] == b' ';
    if cancelled {
        StatusReading::Cancelled
    } else {
        StatusReading::Malformed
    }
}

pub fn read_main(f: &[u8]) -> MainReading
    ensures { Gives (read_main f.now) result }
{
    framed(f, MAIN_WIDTH, |f| ident::read(f).ok())
}

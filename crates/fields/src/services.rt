// 18: services.
ghost use Rattle.std.specs.Prelude.{◌≡◌, true, false, ◌<◌, eqb, length, position, IfSome};
ghost use Rattle.std.specs.List.{filter};
ghost use Rattle.text.specs.Promises.{Gives};
ghost use Rattle.fields.specs.Codes.{numbers, codes, is_code};
ghost use Rattle.fields.specs.Services.{numbers_in, has_code, no_services, with_code, added, read_services, services_in, several_sizes};
ghost use Rattle.fields.specs.Frame.{or_malformed};
ghost use Rattle.fields.specs.Scans.{with_byte, number_at, unless_0, with_letters, added_one, behind_byte, finished};

use crate::reading::{Reading, framed};
use layout::WIDTHS;

const SERVICES_WIDTH: usize = WIDTHS[18 - 1];

// ---- codes

// Each code has a number: 1 to 99 their own, and those with letters one after the other from here on.
const FIRST_LETTERED: u64 = 100;

// Of these the sizes, S, M, L and XL, which are asked for.
const SIZES: [u64; 4] = [105, 106, 107, 108];

// The texts of those with letters, each as a word of one byte or two: the next code is a row more. A word is one number, so that it is compared
// at once. `as`, since a constant calls no `from`.
const LETTERED: [u64; 9] = [
    b'1' as u64 * 256 + b'A' as u64,
    b'1' as u64 * 256 + b'B' as u64,
    b'1' as u64 * 256 + b'D' as u64,
    b'1' as u64 * 256 + b'K' as u64,
    b'1' as u64 * 256 + b'N' as u64,
    b'S' as u64,
    b'M' as u64,
    b'L' as u64,
    b'X' as u64 * 256 + b'L' as u64,
];

// A word that no code has: longer ones stay this, so the scan needs no test of the length.
const NO_WORD: u64 = 65536;

// The word with one byte more.
fn with_byte(word: u64, b: u8) -> u64
    requires { 32 < b }
    ensures { result ≡ with_byte word b }
{
    if word < 256 {
        word * 256 + u64::from(b)
    } else {
        NO_WORD
    }
}

// The number that one digit or two, which are 48 to 57 as bytes, write with no leading zero.
#[tactic(auto, using(crate::proofs::CodeWays::number_is))]
fn number_in(word: u64) -> Option<u64>
    ensures { result ≡ unless_0 (number_at numbers word) }
{
    match (word / 256, word % 256) {
        (0, ones @ 49..=57) => Some(ones - 48),
        (tens @ 49..=57, ones @ 48..=57) => Some((tens - 48) * 10 + (ones - 48)),
        _ => None,
    }
}

// Where a word stands in a table of them.
fn place_in(table: &[u64], word: u64) -> Option<usize>
    ensures place { result ≡ position (λ k. eqb k word) table.now }
    ensures bound { IfSome result (λ i. i < length table.now) }
{
    table.iter().position(|known| *known == word)
}

// The number of the code with letters that a word is.
fn lettered_in(word: u64) -> Option<u64>
    ensures { result ≡ unless_0 (number_at with_letters word) }
{
    let i = place_in(&LETTERED, word)?;
    Some(FIRST_LETTERED + i as u64)
}

// The number of the code that a word is.
fn code_in(word: u64) -> Option<u64>
    ensures { result ≡ unless_0 (number_at codes word) }
{
    number_in(word).or_else(|| lettered_in(word))
}

// ---- sets of codes

// The codes that are present, by their numbers: code c is bit c.
#[derive(Clone, Copy, Debug, PartialEq, Eq)]
pub struct Services {
    pub bits: u128,
}

const NO_SERVICES: Services = Services { bits: 0 };

pub type ServicesReading = Reading<Services>;

impl Reading<Services> {
    // The services that were read; none where the field is blank, as the rules say it (`services_in`): so callers need no default of their own.
    pub fn services(self) -> Services
        ensures { Gives (services_in self) result }
    {
        self.value().unwrap_or(NO_SERVICES)
    }
}

impl Services {
    pub fn has(self, code: u64) -> bool
        ensures { Gives (has_code self code) result }
    {
        code < 128 && (self.bits >> code) % 2 == 1
    }

    // How many of some codes are present.
    fn how_many(self, codes: &[u64]) -> usize
        ensures { result ≡ length (filter (has_code self) codes.now) }
    {
        codes.iter().filter(|code| self.has(**code)).count()
    }

    pub fn has_several_sizes(self) -> bool
        ensures { Gives (several_sizes self) result }
    {
        self.how_many(&SIZES) > 1
    }
}

fn with_code(s: Services, code: u64) -> Services
    requires { (is_code code ≡ true) × (has_code s code ≡ false) }
    ensures { result ≡ with_code s code }
{
    Services {
        bits: s.bits + (1 << code),
    }
}

// The set with the code of a word more; none where the word is no code, or the code is there already.
#[tactic(auto, unfolding(crate::specs::Scans::added_one))]
fn with_word(s: Services, word: u64) -> Option<Services>
    ensures { result ≡ added_one s (number_at codes word) }
{
    let code = code_in(word)?;
    let good = 1 <= code && code <= 127 && !s.has(code);
    if good { Some(with_code(s, code)) } else { None }
}

// ---- the scan

// What a scan of services knows: the codes before the last "+", and the word behind it, its bytes as places of 256.
#[derive(Clone, Copy)]
pub struct Scan {
    pub services: Services,
    pub word: u64,
}

// The scan behind a byte of a word, or a "+"; none where the code before it was no good.
#[tactic(auto, unfolding(crate::specs::Scans::behind_byte))]
fn behind(scan: Scan, b: u8) -> Option<Scan>
    requires { 32 < b }
    ensures { result ≡ behind_byte scan b }
{
    if b == b'+' {
        let services = with_word(scan.services, scan.word)?;
        return Some(Scan { services, word: 0 });
    }
    Some(Scan {
        services: scan.services,
        word: with_byte(scan.word, b),
    })
}

// What a scan gives where the words end: nothing but spaces may follow.
#[tactic(auto, unfolding(crate::specs::Scans::finished))]
fn finished(scan: Scan, rest: &[u8]) -> Option<Services>
    ensures { result ≡ finished scan rest.now }
{
    if !text::blank(rest) {
        return None;
    }
    with_word(scan.services, scan.word)
}

fn scan_services(f: &[u8]) -> Option<Services>
    ensures { or_malformed result ≡ added no_services (numbers_in codes f.now) }
{
    let mut scan = Scan {
        services: NO_SERVICES,
        word: 0,
    };
    for (i, b) in f.iter().enumerate() {
        if *b <= b' ' {
            return finished(scan, &f[i..]);
        }
        scan = behind(scan, *b)?;
    }
    with_word(scan.services, scan.word)
}

pub fn read_services(f: &[u8]) -> ServicesReading
    ensures { Gives (read_services f.now) result }
{
    framed(f, SERVICES_WIDTH, scan_services)
}

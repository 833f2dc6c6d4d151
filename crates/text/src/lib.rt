// What all parts share: the answer, byte classes, digits and the numbers that they write.
#![tactic(auto)]

ghost use Rattle.std.specs.Prelude.{◌≡◌, ℕ, Bool, List, ◌+◌, ◌-◌, ◌^◌, ◌≤◌, ◌<◌, length, take, drop, replicate, get_or, eqb};
ghost use Rattle.std.specs.List.{list_all};
ghost use Rattle.text.specs.Promises.{Gives, GivesWithin};
ghost use Rattle.text.specs.Answers.{answer_of, answered};
ghost use Rattle.text.specs.Bytes.{is_digit, is_capital, every, all_digits, is_space, is_blank, is_zero, run};
ghost use Rattle.text.specs.Lists.{same_bytes};
ghost use Rattle.text.specs.Numbers.{number_of_first, digits, decimal_places};
ghost use Rattle.text.specs.Words.{low_first, word_of, eight_in};
ghost use Rattle.text.specs.WordTests.{spaces_at_once, zeros_at_once};

// Why a call refuses. `Answer` has the paper's code and place of each.
#[derive(Clone, Copy, Debug, PartialEq, Eq)]
pub enum Refusal {
    // What is no right identifier.
    WrongIdentifier,

    // The identifier is there already, cancelled or not.
    Repeated,

    // Service 41 without a variable symbol.
    SymbolMissing,

    // A domestic postcode that is not in the table, under service 41 and without it.
    UnlistedUnder41,
    Unlisted,

    // A field that each consignment needs.
    Blank(u32),

    // Weight absent or zero, under service 41 and without it.
    WeightlessUnder41,
    Weightless,

    // Cash on delivery missing, or there without its services.
    CashOnDelivery,

    // A field of pieces that travel together.
    Travel(u32),

    // A field that has no right form; 0 where there is no such field, or the number has no writing in it.
    Malformed(u32),

    // The file has not whole records, or more than 999.
    NotWholeRecords,
    TooManyRecords,

    // The record does not end in 0Dh 0Ah.
    WrongLineEnd,

    // Services that exclude each other.
    ServicesExclude,

    // A variable symbol without its services.
    SymbolUnasked,

    // Price specified missing, or there without service 7.
    PriceSpecified,

    // A field without which the addressee cannot be told.
    NoticeMissing(u32),

    // Add: no place of 401 bytes is left.
    NoPlace,

    // Fewer journal bytes are left than the entry needs.
    NoRoom,

    // Amend, cancel: the identifier is not present, or that consignment is cancelled.
    NotPresent,
    Cancelled,

    // Undo: no entry stands in the journal.
    NoEntry,

    // A buffer has a length that none may have.
    WrongBuffers,

    // A lent part or a record has not the length it is to have.
    WrongLength,

    // File, journal and counts are not what the journal's entries make.
    NothingStands,

    // The table of postcodes is too long, does not rise or passes 99999.
    WrongTable,

    // A set that travels together is not whole.
    SetNotWhole(u32),

    // The identifier names a consignor, and one there, cancelled or not, names another.
    OtherConsignor,
}

// What a call answers, in numbers: the paper's code and place; 0 and 0 where it accepts.
#[derive(Clone, Copy, Debug, PartialEq, Eq)]
pub struct Answer {
    pub code: u32,
    pub place: u32,
}

// An accepted call answers code 0, place 0.
pub const ACCEPTED: Answer = Answer { code: 0, place: 0 };

impl From<Refusal> for Answer {
    ghost from_gives = { λ e a. Gives (answer_of e) a };

    // The paper's table of codes.
    fn from(refusal: Refusal) -> Answer {
        let (code, place) = match refusal {
            Refusal::WrongIdentifier => (1, 1),
            Refusal::Repeated => (2, 1),
            Refusal::SymbolMissing => (11, 21),
            Refusal::UnlistedUnder41 => (21, 5),
            Refusal::Unlisted => (24, 5),
            Refusal::Blank(field) => (27, field),
            Refusal::WeightlessUnder41 => (31, 15),
            Refusal::Weightless => (34, 15),
            Refusal::CashOnDelivery => (36, 16),
            Refusal::Travel(field) => (72, field),
            Refusal::Malformed(field) => (210, field),
            Refusal::NotWholeRecords => (211, 0),
            Refusal::WrongLineEnd => (212, 0),
            Refusal::TooManyRecords => (213, 0),
            Refusal::ServicesExclude => (220, 18),
            Refusal::SymbolUnasked => (221, 21),
            Refusal::PriceSpecified => (222, 17),
            Refusal::NoticeMissing(field) => (223, field),
            Refusal::NoPlace => (230, 0),
            Refusal::NoRoom => (231, 0),
            Refusal::NotPresent => (232, 0),
            Refusal::Cancelled => (233, 0),
            Refusal::NoEntry => (234, 0),
            Refusal::WrongBuffers => (235, 0),
            Refusal::WrongLength => (236, 0),
            Refusal::NothingStands => (237, 0),
            Refusal::WrongTable => (238, 0),
            Refusal::SetNotWhole(field) => (240, field),
            Refusal::OtherConsignor => (241, 1),
        };
        Answer { code, place }
    }
}

impl<T: Drop> From<Result<T, Refusal>> for Answer {
    ghost from_gives = { λ r a. Gives (answered r) a };

    fn from(given: Result<T, Refusal>) -> Answer {
        match given {
            Ok(_) => ACCEPTED,
            Err(refusal) => Answer::from(refusal),
        }
    }
}

pub fn is_digit(b: u8) -> bool
    ensures { Gives (is_digit b) result }
{
    b.is_ascii_digit()
}

pub fn is_capital(b: u8) -> bool
    ensures { Gives (is_capital b) result }
{
    b.is_ascii_uppercase()
}

// With no way out before the end the compiler takes eight bytes at once, where it knows how many there are.
pub fn all_digits(s: &[u8]) -> bool
    ensures { Gives (all_digits s.now) result }
{
    let mut good = true;
    for b in s {
        good = good & is_digit(*b);
    }
    good
}

// The word of fewer than eight bytes.
fn short_word(s: &[u8]) -> u64
    requires { length s.now < 8 }
    ensures { result ≡ word_of s.now }
{
    let mut eight = [0; 8];
    eight[..s.len()].copy_from_slice(s);
    u64::from_le_bytes(eight)
}

// The first eight bytes as one number, the first the least; where there are fewer, those that are there. The compiler makes one load of it.
pub fn word(s: &[u8]) -> u64
    ensures { GivesWithin (word_of s.now) (λ n. n < 2 ^ 64) result }
{
    match s.first_chunk::<8>() {
        Some(eight) => u64::from_le_bytes(*eight),
        None => short_word(s),
    }
}

// A class of bytes for which eight are tested at once, as one word.
pub trait ByteClass {
    ghost test: { ℕ → Bool };

    ghost word_test: { ℕ → Bool };

    fn has(b: u8) -> bool
        ensures { result ≡ test b };

    fn has_all(word: u64) -> bool
        ensures { result ≡ word_test word };

    ghost words: { (s : List ℕ) → length s ≡ 8 → ((j : ℕ) → get_or s j 0 < 256) → word_test (low_first s) ≡ every test s };
}

pub struct Spaces;

impl ByteClass for Spaces {
    ghost test = { is_space };

    ghost word_test = { λ w. eqb w 2314885530818453536 };

    fn has(b: u8) -> bool {
        b == b' '
    }

    fn has_all(word: u64) -> bool {
        word == 0x2020_2020_2020_2020
    }

    ghost words = { spaces_at_once };
}

pub struct Zeros;

impl ByteClass for Zeros {
    ghost test = { is_zero };

    ghost word_test = { λ w. eqb w 0 };

    fn has(b: u8) -> bool {
        b == 0
    }

    fn has_all(word: u64) -> bool {
        word == 0
    }

    ghost words = { zeros_at_once };
}

// Whether all of the eights are of a class.
fn eights_have<C: ByteClass>(eights: &[[u8; 8]]) -> bool
    ensures { result ≡ list_all (λ eight. C.word_test (eight_in eight)) eights.now }
{
    eights
        .iter()
        .all(|eight| C::has_all(u64::from_le_bytes(*eight)))
}

// Whether all bytes are of a class, one by one.
fn each_has<C: ByteClass>(s: &[u8]) -> bool
    ensures { result ≡ every C.test s.now }
{
    s.iter().all(|b| C::has(*b))
}

// Whether all bytes are of a class.
pub fn every<C: ByteClass>(s: &[u8]) -> bool
    ensures { Gives (every C.test s.now) result }
{
    if s.len() < 8 {
        return each_has::<C>(s);
    }
    let (eights, _) = s.as_chunks::<8>();
    if !eights_have::<C>(eights) {
        return false;
    }
    // The last eight at once, some of them for the second time, are quicker than those that are left one by one.
    C::has_all(word(&s[s.len() - 8..]))
}

pub fn blank(s: &[u8]) -> bool
    ensures { Gives (is_blank s.now) result }
{
    every::<Spaces>(s)
}

// Whether all bytes are 0.
pub fn zero(s: &[u8]) -> bool
    ensures { Gives (every is_zero s.now) result }
{
    every::<Zeros>(s)
}

// Whether two slices of any length are the same bytes.
pub fn same(a: &[u8], b: &[u8]) -> bool
    ensures { Gives (same_bytes a.now b.now) result }
{
    a == b
}

// How many digits stand at the front.
pub fn leading_digits(s: &[u8]) -> usize
    ensures { GivesWithin (run is_digit s.now) (λ n. n ≤ length s.now) result }
{
    s.iter().take_while(|b| is_digit(**b)).count()
}

// A digit's value; 0 for a byte below the digits.
pub fn digit_value(b: u8) -> u64
    ensures { GivesWithin (b - 48) (λ n. n < 208) result }
{
    u64::from(b.saturating_sub(b'0'))
}

// At most 16 bytes from the front.
fn first_16(s: &[u8]) -> &[u8]
    ensures { (result.now ≡ take 16 s.now) × (length result.now ≤ 16) }
{
    if 16 < s.len() { &s[..16] } else { s }
}

// The number that digits write. No field has more than 16 of them, and so the bytes behind the 16th are not read.
pub fn number(s: &[u8]) -> u64
    ensures { Gives (number_of_first 16 s.now) result }
{
    let mut n: u64 = 0;
    for b in first_16(s) {
        n = n * 10 + digit_value(*b);
    }
    n
}

// Fills the lent part with the last decimal places of n, as many as it is long. By number of place: behind iter_mut nothing would be known of the bytes.
pub fn put_digits(part: &mut [u8], n: u64)
    ensures { Gives (digits (length part.old) n) part.new }
{
    let mut rest = n;
    for i in (0..part.len()).rev() {
        part[i] = b'0' + (rest % 10) as u8;
        rest /= 10;
    }
}

// As many decimal places as n has.
pub fn decimal_places(n: u64) -> usize
    ensures { GivesWithin (decimal_places n) (λ k. (1 ≤ k) × (k ≤ 20)) result }
{
    match n.checked_ilog10() {
        Some(power) => power as usize + 1,
        None => 1,
    }
}

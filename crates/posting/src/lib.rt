// A whole K file: the first break of a rule, or the totals; and the line that reports it.
#![tactic(auto)]

ghost use Rattle.std.specs.Prelude.{◌≡◌, ◌+◌, ◌*◌, ◌/◌, ◌≤◌, ◌<◌, ◌∷◌, ◌++◌, [], length, drop};
ghost use Rattle.psc.specs.Search.{found};
ghost use Rattle.text.specs.Answers.{answer_of};
ghost use Rattle.text.specs.Promises.{Gives, GivesWithin};
ghost use Rattle.text.specs.Lists.{overlay};
ghost use Rattle.text.specs.Numbers.{decimal_places, decimal};
ghost use Rattle.posting.specs.File.{record_at, line_ends, repeats, amount_of, brought, with_record, refused, file_answered, file_answer, table_refused, file_check};
ghost use Rattle.posting.specs.Calls.{sum_of_totals};
ghost use Rattle.posting.specs.Bounds.{Small};
ghost use Rattle.posting.specs.Records.{line_at};
ghost use Rattle.posting.specs.Slots.{RoomFor, NowNoted, Seen, LineAnswered, ToCheck, HasRoom};
ghost use Rattle.posting.specs.Report.{numbers_of, behind, line, Report, input_answer};

use fields::{Hellers, StatusReading};
use ident::Consignor;
use index::Keyed;
use text::{Answer, Refusal};

// Live and cancelled consignments, and what the live ones bring.
#[derive(Clone, Copy, Debug, PartialEq, Eq, Default)]
pub struct Totals {
    pub live: u64,
    pub cancelled: u64,
    pub cash: Hellers,
    pub price: Hellers,
}

// The first break: why, and the number of the record, counted from 1; 0 where the file as a whole or the table is refused, as the line has it.
#[derive(Clone, Copy, Debug, PartialEq, Eq)]
pub struct Break {
    pub refusal: Refusal,
    pub number: u32,
}

// Whether one of the records before record i has its identifier. Those before are noted in the table, and this one is then, too.
fn repeated(file: &[u8], i: usize, table: &mut [u16]) -> bool
    requires { RoomFor file.now i table.old }
    ensures { (result ≡ repeats file.now i i) × NowNoted file.now i table.old table.new }
{
    Keyed { file, from: 0 }.put(table, i).is_some()
}

// Whether a line ends in 0Dh 0Ah.
fn ends_right(line: &[u8; 401]) -> bool
    ensures { result ≡ line_ends line.now 0 }
{
    line[399] == b'\r' && line[400] == b'\n'
}

// What record i breaks, whose line it is, the line end first; where it breaks nothing, the first consignor that is named up to it. The consignor seen is the
// first that is named before it. The file stands beside the line, since the index notes a record by its number in the file.
fn line_answer(
    file: &[u8],
    i: usize,
    line: &[u8; 401],
    psc: &[u32],
    table: &mut [u16],
    seen: Option<Consignor>,
) -> Result<Option<Consignor>, Refusal>
    requires { (line.now ≡ line_at file.now i) × RoomFor file.now i table.old × Seen file.now i seen }
    ensures { LineAnswered (found psc.now) file.now i table.old table.new result }
{
    if !ends_right(line) {
        return Err(Refusal::WrongLineEnd);
    }
    let check = record::answer(&line[..399], psc, false);
    check.answer?;
    if repeated(file, i, table) {
        return Err(Refusal::Repeated);
    }
    if ident::another(seen, check.consignor) {
        return Err(Refusal::OtherConsignor);
    }
    Ok(seen.or(check.consignor))
}

// ---- totals

impl Totals {
    // Kind by kind: haléře on delivery and haléře specified never meet. None where one of the four sums does not fit.
    pub fn plus(self, other: Totals) -> Option<Totals>
        ensures { Gives (sum_of_totals self other) result }
    {
        let live = self.live.checked_add(other.live)?;
        let cancelled = self.cancelled.checked_add(other.cancelled)?;
        let cash = self.cash.plus(other.cash)?;
        let price = self.price.plus(other.price)?;
        Some(Totals {
            live,
            cancelled,
            cash,
            price,
        })
    }
}

// The amount in field n of a record; 0 where there is none.
pub fn amount(rec: &[u8], n: usize) -> Hellers
    ensures { GivesWithin (amount_of rec.now n) (λ h. h.0 < 100000000000) result }
{
    fields::read_money(layout::field(rec, n))
        .value()
        .unwrap_or(Hellers(0))
}

// What a record brings to the totals, live or cancelled. What is neither brings nothing.
pub fn brought(rec: &[u8]) -> Totals
    ensures { Gives (brought rec.now) result }
{
    match fields::read_status(layout::field(rec, 19)) {
        StatusReading::Live => Totals {
            live: 1,
            cancelled: 0,
            cash: amount(rec, 16),
            price: amount(rec, 17),
        },
        StatusReading::Cancelled => Totals {
            live: 0,
            cancelled: 1,
            cash: Hellers(0),
            price: Hellers(0),
        },
        StatusReading::Malformed => Totals::default(),
    }
}

// The totals with a record more. Small ones never grow too large by one.
fn with_record(t: Totals, rec: &[u8]) -> Totals
    requires { Small t }
    ensures { result ≡ with_record t rec.now }
{
    t.plus(brought(rec)).unwrap_or(t)
}

// The totals with record i of a file more.
fn with_record_at(t: Totals, file: &[u8], i: usize) -> Totals
    requires { Small t × (i * 401 + 401 ≤ length file.now) }
    ensures { result ≡ with_record t (record_at file.now i) }
{
    let start = i * 401;
    with_record(t, &file[start..start + 399])
}

// What whole records break, and their totals. The lent table has none of them yet, and more slots than there are records.
fn checked(
    file: &[u8],
    lines: &[[u8; 401]],
    psc: &[u32],
    table: &mut [u16],
) -> Result<Totals, Break>
    requires { ToCheck file.now lines.now × HasRoom file.now table.old }
    ensures { file_answered result ≡ file_answer (found psc.now) file.now }
{
    let mut totals = Totals::default();
    let mut seen = None;
    for (i, line) in lines.iter().enumerate() {
        let number = i as u32 + 1;
        seen = line_answer(file, i, line, psc, table, seen).map_err(|refusal| Break {
            refusal,
            number,
        })?;
        totals = with_record_at(totals, file, i);
    }
    Ok(totals)
}

// The same, with a table of so many slots.
fn checked_among<const N: usize>(
    file: &[u8],
    lines: &[[u8; 401]],
    psc: &[u32],
) -> Result<Totals, Break>
    requires { ToCheck file.now lines.now × (length file.now / 401 + 1 < N) × (N ≤ 2048) }
    ensures { file_answered result ≡ file_answer (found psc.now) file.now }
{
    checked(file, lines, psc, &mut [0u16; N])
}

// The file as a whole, or the table, is refused.
fn refused(refusal: Refusal) -> Break
    ensures { file_answered (Err result) ≡ refused (answer_of refusal).code 0 (answer_of refusal).place }
{
    Break { refusal, number: 0 }
}

// The answer by what a look finds in the table of postcodes, which has been tested.
fn looked_up(file: &[u8], psc: &[u32]) -> Result<Totals, Break>
    ensures { file_answered result ≡ file_answer (found psc.now) file.now }
{
    let (lines, rest) = file.as_chunks::<401>();
    if !rest.is_empty() {
        return Err(refused(Refusal::NotWholeRecords));
    }
    if lines.len() > 999 {
        return Err(refused(Refusal::TooManyRecords));
    }
    // Slots are cleared at each call, so there are few for a small file; and at least twice as many as records, so that walks are short.
    if lines.len() < 64 {
        return checked_among::<128>(file, lines, psc);
    }
    if lines.len() < 256 {
        return checked_among::<512>(file, lines, psc);
    }
    checked_among::<2048>(file, lines, psc)
}

// The answer under a wrong table.
pub fn table_refused() -> Break
    ensures { Gives table_refused (file_answered (Err result)) }
{
    refused(Refusal::WrongTable)
}

// The check of a whole file, under a table of the postcodes that exist: the first break of a rule, or the totals.
pub fn check(file: &[u8], psc: &[u32]) -> Result<Totals, Break>
    ensures { Gives (file_check psc.now file.now) (file_answered result) }
{
    if !psc::right(psc) {
        return Err(table_refused());
    }
    looked_up(file, psc)
}

// ---- the line of seven numbers

// So many bytes serve for every line: seven numbers of 20 digits, each with a byte behind it.
pub const LONGEST_LINE: usize = 147;

// The answer to a file in numbers: code, the record's number and place of the first break; or 0, 0, 0 and the totals. Whoever has such numbers may have their line, too.
#[derive(Clone, Copy, Debug, PartialEq, Eq)]
pub struct FileAnswer {
    pub code: u32,
    pub number: u32,
    pub place: u32,
    pub totals: Totals,
}

// What says an answer to a file: the numbers themselves, or what a check gives.
pub trait InNumbers {
    ghost use Rattle.posting.specs.declared.FileAnswer.{FileAnswer};

    ghost answer: { Self → FileAnswer };

    fn in_numbers(self) -> FileAnswer
        ensures { result ≡ answer self };
}

impl InNumbers for FileAnswer {
    ghost answer = { λ a. a };

    fn in_numbers(self) -> FileAnswer {
        self
    }
}

impl InNumbers for Result<Totals, Break> {
    ghost answer = { file_answered };

    fn in_numbers(self) -> FileAnswer {
        match self {
            Ok(totals) => FileAnswer {
                code: 0,
                number: 0,
                place: 0,
                totals,
            },
            Err(b) => {
                let Answer { code, place } = Answer::from(b.refusal);
                FileAnswer {
                    code,
                    number: b.number,
                    place,
                    totals: Totals::default(),
                }
            }
        }
    }
}

// Code, record, place, live, cancelled, haléře on delivery, haléře specified.
pub fn numbers_of<A: InNumbers>(given: A) -> [u64; 7]
    ensures { Gives (numbers_of (A.answer given)) result }
{
    let a = given.in_numbers();
    [
        u64::from(a.code),
        u64::from(a.number),
        u64::from(a.place),
        a.totals.live,
        a.totals.cancelled,
        a.totals.cash.0,
        a.totals.price.0,
    ]
}

// How many bytes the line of these numbers has.
fn line_length(numbers: &[u64; 7]) -> usize
    ensures { result ≡ length (line numbers.now) }
{
    numbers.iter().map(|n| text::decimal_places(*n) + 1).sum()
}

// The byte behind number i.
fn behind(numbers: &[u64; 7], i: usize) -> u8
    requires { i < 7 }
    ensures { result ≡ behind (drop (i + 1) numbers.now) }
{
    if i + 1 < numbers.len() { b' ' } else { b'\n' }
}

// Puts n in decimal from place `at` on, and a byte behind it; gives the place behind that.
// It takes the whole buffer and a place: had it the rest of the buffer and gave back what is left, nothing would be known of the whole at the end.
fn put_number(out: &mut [u8], at: usize, n: u64, b: u8) -> usize
    requires { at + decimal_places n < length out.old }
    ensures { (out.new ≡ overlay out.old at (decimal n ++ b ∷ [])) × (result ≡ at + decimal_places n + 1) }
{
    let w = text::decimal_places(n);
    let e = at + w;
    text::put_digits(&mut out[at..e], n);
    out[e] = b;
    e + 1
}

// Puts the line of these numbers at the front.
fn put_line(out: &mut [u8], numbers: &[u64; 7])
    requires { length (line numbers.now) ≤ length out.old }
    ensures { out.new ≡ overlay out.old 0 (line numbers.now) }
{
    let mut at = 0;
    for (i, n) in numbers.iter().enumerate() {
        at = put_number(out, at, *n, behind(numbers, i));
    }
}

// The line for what is given of a file, into a lent buffer; gives its length.
pub fn put_report<A: InNumbers>(given: A, out: &mut [u8]) -> Result<usize, Refusal>
    ensures { Report (A.answer given) out.old result out.new }
{
    let numbers = numbers_of(given);
    let n = line_length(&numbers);
    if n > out.len() {
        return Err(Refusal::WrongLength);
    }
    put_line(out, &numbers);
    Ok(n)
}

// The line for a whole file, into a lent buffer.
pub fn report(file: &[u8], psc: &[u32], out: &mut [u8]) -> Result<usize, Refusal>
    ensures { Report (file_check psc.now file.now) out.old result out.new }
{
    put_report(check(file, psc), out)
}

fn check_input(input: &[u8], psc: &[u32]) -> Result<Totals, Break>
    ensures { file_answered result ≡ input_answer psc.now input.now }
{
    if !psc::right(psc) {
        return Err(table_refused());
    }
    if input.len() > 64_160 {
        return Err(refused(Refusal::TooManyRecords));
    }
    looked_up(input, psc)
}

// The same for what the checking program has read: above 64,160 bytes the line says 213.
pub fn report_input(input: &[u8], psc: &[u32], out: &mut [u8]) -> Result<usize, Refusal>
    ensures { Report (input_answer psc.now input.now) out.old result out.new }
{
    put_report(check_input(input, psc), out)
}

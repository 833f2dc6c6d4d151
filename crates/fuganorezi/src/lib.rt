// The interface for C, declared in include/fuganorezi.h: byte slices and numbers in, numbers out.
#![tactic(auto)]

ghost use Rattle.std.specs.Prelude.{◌≡◌, true, false};
ghost use Rattle.text.specs.Answers.{answered};
ghost use Rattle.posting.specs.File.{file_answered};
ghost use Rattle.batch.specs.Batch.{no_counts, counts_or, batch_of, Add, Amend, Cancel, Undo};
ghost use Rattle.fuganorezi.specs.Calls.{IdentifierChecked, consignor_out, parts_out, identifier_out, IdentifierRead, record_out, RecordChecked, answer_of, parts_in, IdentifierWritten, AmountWritten, WeightWritten, TableRead, Answered, FileChecked, ClosingChecked, counts_in, counts_out, outcome_of, BatchCalled, BatchOpened};

use batch::Counts;
use fields::{Grams, Hellers, Reading};
use ident::{Consignor, Parts};
use posting::{Break, Totals};
use record::RecordCheck;
use text::{ACCEPTED, Answer, Refusal};

#[unsafe(no_mangle)]
pub extern "C" fn fuganorezi_identifier_check(bytes: &[u8]) -> u32
    ensures { IdentifierChecked bytes.now result }
{
    Answer::from(ident::check(bytes)).code
}

// ---- whose an identifier is, and what it says: by value, with code and place

// 0 and 0 for nobody's.
#[repr(C)]
#[derive(Clone, Copy)]
pub struct TypeAndNumber {
    pub kind: u32,
    pub number: u64,
}

#[repr(C)]
#[derive(Clone, Copy)]
pub struct IdentifierParts {
    pub first: u8,
    pub second: u8,
    pub last: u8,
    pub consignor: u64,
    pub posting: u64,
}

#[repr(C)]
#[derive(Clone, Copy)]
pub struct IdentifierOutcome {
    pub code: u32,
    pub place: u32,
    pub consignor: TypeAndNumber,
    pub parts: IdentifierParts,
}

impl From<Option<Consignor>> for TypeAndNumber {
    ghost from_gives = { λ c r. r ≡ consignor_out c };

    fn from(consignor: Option<Consignor>) -> TypeAndNumber {
        match consignor {
            Some(c) => TypeAndNumber {
                kind: u32::from(c.kind),
                number: c.number,
            },
            None => TypeAndNumber { kind: 0, number: 0 },
        }
    }
}

impl From<Parts> for IdentifierParts {
    ghost from_gives = { λ p r. r ≡ parts_out p };

    fn from(p: Parts) -> IdentifierParts {
        IdentifierParts {
            first: p.first,
            second: p.second,
            last: p.last,
            consignor: p.consignor,
            posting: p.posting,
        }
    }
}

impl From<IdentifierParts> for Parts {
    ghost from_gives = { λ p r. r ≡ parts_in p };

    fn from(p: IdentifierParts) -> Parts {
        Parts {
            first: p.first,
            second: p.second,
            last: p.last,
            consignor: p.consignor,
            posting: p.posting,
        }
    }
}

fn identifier_out(
    said: Answer,
    consignor: Option<Consignor>,
    parts: IdentifierParts,
) -> IdentifierOutcome
    ensures { result ≡ identifier_out said consignor parts }
{
    IdentifierOutcome {
        code: said.code,
        place: said.place,
        consignor: TypeAndNumber::from(consignor),
        parts,
    }
}

// What C is given of an identifier that is refused: nothing but zeros, written out so that it can be read here.
const NO_PARTS: IdentifierParts = IdentifierParts {
    first: 0,
    second: 0,
    last: 0,
    consignor: 0,
    posting: 0,
};

#[unsafe(no_mangle)]
pub extern "C" fn fuganorezi_identifier_read(bytes: &[u8]) -> IdentifierOutcome
    ensures { IdentifierRead bytes.now result }
{
    match ident::read(bytes) {
        Ok(parts) => identifier_out(ACCEPTED, parts.whose(), IdentifierParts::from(parts)),
        Err(refusal) => identifier_out(Answer::from(refusal), None, NO_PARTS),
    }
}

// ---- one record

#[repr(C)]
#[derive(Clone, Copy)]
pub struct RecordOutcome {
    pub code: u32,
    pub place: u32,
    pub consignor: TypeAndNumber,
}

impl From<RecordCheck> for RecordOutcome {
    ghost from_gives = { λ k r. r ≡ record_out (answered k.answer) k.consignor };

    fn from(check: RecordCheck) -> RecordOutcome {
        let said = Answer::from(check.answer);
        RecordOutcome {
            code: said.code,
            place: said.place,
            consignor: TypeAndNumber::from(check.consignor),
        }
    }
}

#[unsafe(no_mangle)]
pub extern "C" fn fuganorezi_record_check(bytes: &[u8], table: &[u32]) -> RecordOutcome
    ensures { RecordChecked false table.now bytes.now result }
{
    RecordOutcome::from(record::check(bytes, table))
}

#[unsafe(no_mangle)]
pub extern "C" fn fuganorezi_record_check_posting(bytes: &[u8], table: &[u32]) -> RecordOutcome
    ensures { RecordChecked true table.now bytes.now result }
{
    RecordOutcome::from(record::check_posting(bytes, table))
}

// ---- the writers: code and place by value

#[repr(C)]
#[derive(Clone, Copy)]
pub struct CodeAndPlace {
    pub code: u32,
    pub place: u32,
}

impl From<Result<(), Refusal>> for CodeAndPlace {
    ghost from_gives = { λ q r. answer_of r ≡ answered q };

    fn from(given: Result<(), Refusal>) -> CodeAndPlace {
        let said = Answer::from(given);
        CodeAndPlace {
            code: said.code,
            place: said.place,
        }
    }
}

#[unsafe(no_mangle)]
pub extern "C" fn fuganorezi_identifier_write(
    bytes: &mut [u8],
    parts: IdentifierParts,
) -> CodeAndPlace
    ensures { IdentifierWritten bytes.old parts result bytes.new }
{
    CodeAndPlace::from(ident::write(bytes, Parts::from(parts)))
}

#[unsafe(no_mangle)]
pub extern "C" fn fuganorezi_amount_write(bytes: &mut [u8], hellers: u64) -> CodeAndPlace
    ensures { AmountWritten bytes.old hellers result bytes.new }
{
    CodeAndPlace::from(fields::write_money(bytes, Reading::Value(Hellers(hellers))))
}

#[unsafe(no_mangle)]
pub extern "C" fn fuganorezi_weight_write(bytes: &mut [u8], grams: u64) -> CodeAndPlace
    ensures { WeightWritten bytes.old grams result bytes.new }
{
    CodeAndPlace::from(fields::write_weight(bytes, Reading::Value(Grams(grams))))
}

// ---- the table of postcodes from its text

#[repr(C)]
#[derive(Clone, Copy)]
pub struct TableOutcome {
    pub code: u32,
    pub place: u32,
    pub entries: u64,
}

#[unsafe(no_mangle)]
pub extern "C" fn fuganorezi_table_read(text: &[u8], table: &mut [u32]) -> TableOutcome
    ensures { TableRead text.now table.old result table.new }
{
    let read = psc::read(text, table);
    let said = Answer::from(read);
    TableOutcome {
        code: said.code,
        place: said.place,
        entries: read.unwrap_or(0) as u64,
    }
}

// ---- a whole file
// The code is the result and stands in `out` too, so that `out` alone has the whole answer.
fn told(answer: Result<Totals, Break>, out: &mut [u64; 7]) -> u32
    ensures { Answered (file_answered answer) result out.new }
{
    *out = posting::numbers_of(answer);
    Answer::from(answer.map_err(|offence| offence.refusal)).code
}

#[unsafe(no_mangle)]
pub extern "C" fn fuganorezi_file_check(bytes: &[u8], table: &[u32], out: &mut [u64; 7]) -> u32
    ensures { FileChecked table.now bytes.now result out.new }
{
    told(posting::check(bytes, table), out)
}

#[unsafe(no_mangle)]
pub extern "C" fn fuganorezi_closing_check(bytes: &[u8], table: &[u32], out: &mut [u64; 7]) -> u32
    ensures { ClosingChecked table.now bytes.now result out.new }
{
    told(closing::check(bytes, table), out)
}

// ---- the open batch: its counts go in and come out by value, amounts in haléře as plain numbers

#[repr(C)]
#[derive(Clone, Copy)]
pub struct BatchCounts {
    pub live: u64,
    pub cancelled: u64,
    pub cash: u64,
    pub price: u64,
    pub held: u64,
    pub used: u64,
}

// Code and place of the answer, and the next counts.
#[repr(C)]
#[derive(Clone, Copy)]
pub struct BatchOutcome {
    pub code: u32,
    pub place: u32,
    pub counts: BatchCounts,
}

impl From<BatchCounts> for Counts {
    ghost from_gives = { λ c r. r ≡ counts_in c };

    fn from(c: BatchCounts) -> Counts {
        Counts {
            totals: Totals {
                live: c.live,
                cancelled: c.cancelled,
                cash: Hellers(c.cash),
                price: Hellers(c.price),
            },
            held: c.held as usize,
            used: c.used as usize,
        }
    }
}

impl From<Counts> for BatchCounts {
    ghost from_gives = { λ c r. r ≡ counts_out c };

    fn from(c: Counts) -> BatchCounts {
        BatchCounts {
            live: c.totals.live,
            cancelled: c.totals.cancelled,
            cash: c.totals.cash.0,
            price: c.totals.price.0,
            held: c.held as u64,
            used: c.used as u64,
        }
    }
}

// The next counts are those that a call gives; where it refuses, those that it got.
fn outcome_of(given: Result<Counts, Refusal>, got: Counts) -> BatchOutcome
    ensures { result ≡ outcome_of (answered given) (counts_or got given) }
{
    let answer = Answer::from(given);
    BatchOutcome {
        code: answer.code,
        place: answer.place,
        counts: BatchCounts::from(given.unwrap_or(got)),
    }
}

#[unsafe(no_mangle)]
pub extern "C" fn fuganorezi_batch_open(file: &mut [u8], journal: &mut [u8]) -> BatchOutcome
    ensures { BatchOpened (batch_of file.old journal.old no_counts) result file.new journal.new }
{
    outcome_of(batch::open(file, journal), Counts::default())
}

// C's interface: a function for each call.
#[unsafe(no_mangle)]
pub extern "C" fn fuganorezi_batch_add(
    file: &mut [u8],
    journal: &mut [u8],
    counts: BatchCounts,
    rec: &[u8],
    table: &[u32],
) -> BatchOutcome
    ensures { BatchCalled table.now (batch_of file.old journal.old (counts_in counts)) (Add rec.now) result file.new journal.new }
{
    let got = Counts::from(counts);
    outcome_of(batch::add(file, journal, got, rec, table), got)
}

#[unsafe(no_mangle)]
pub extern "C" fn fuganorezi_batch_amend(
    file: &mut [u8],
    journal: &mut [u8],
    counts: BatchCounts,
    rec: &[u8],
    table: &[u32],
) -> BatchOutcome
    ensures { BatchCalled table.now (batch_of file.old journal.old (counts_in counts)) (Amend rec.now) result file.new journal.new }
{
    let got = Counts::from(counts);
    outcome_of(batch::amend(file, journal, got, rec, table), got)
}

#[unsafe(no_mangle)]
pub extern "C" fn fuganorezi_batch_cancel(
    file: &mut [u8],
    journal: &mut [u8],
    counts: BatchCounts,
    identifier: &[u8],
    table: &[u32],
) -> BatchOutcome
    ensures { BatchCalled table.now (batch_of file.old journal.old (counts_in counts)) (Cancel identifier.now) result file.new journal.new }
{
    let got = Counts::from(counts);
    outcome_of(batch::cancel(file, journal, got, identifier, table), got)
}

#[unsafe(no_mangle)]
pub extern "C" fn fuganorezi_batch_undo(
    file: &mut [u8],
    journal: &mut [u8],
    counts: BatchCounts,
    table: &[u32],
) -> BatchOutcome
    ensures { BatchCalled table.now (batch_of file.old journal.old (counts_in counts)) Undo result file.new journal.new }
{
    let got = Counts::from(counts);
    outcome_of(batch::undo(file, journal, got, table), got)
}

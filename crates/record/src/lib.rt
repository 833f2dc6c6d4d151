// The order of checks in a record: the first rule that is broken gives the answer.
#![tactic(auto)]

mod fine;
mod readings;
mod rules;

ghost use Rattle.std.specs.Prelude.{◌≡◌, true, false, [], ◌∷◌};
ghost use Rattle.text.specs.Answers.{answered};
ghost use Rattle.psc.specs.Search.{found};
ghost use Rattle.record.specs.Table.{verdict};
ghost use Rattle.record.specs.Readings.{goods_of};
ghost use Rattle.record.specs.Rules.{terms, identifier_rule, table, record_answer, check_answer};
ghost use Rattle.record.specs.Consignors.{WithConsignor, WithAmounts};

use crate::readings::{Goods, read_all, read_goods};
use fields::{MoneyReading, StatusReading};
use ident::Consignor;
use text::Refusal;

// The answer to a record, and beside it, whatever it is, whose identifier stands in field 1.
#[derive(Clone, Copy)]
pub struct RecordCheck {
    pub answer: Result<(), Refusal>,
    pub consignor: Option<Consignor>,
}

// The same, and beside it what the totals want: what was read of fields 19, 16 and 17.
#[derive(Clone, Copy)]
pub struct CheckWithAmounts {
    pub check: RecordCheck,
    pub status: StatusReading,
    pub cash: MoneyReading,
    pub price: MoneyReading,
}

// What is given for a whole record, its identifier and its goods read before, so that they are read once; a fresh one is to be posted.
fn whole_answer(
    rec: &[u8; 399],
    identifier: Result<(), Refusal>,
    goods: Goods,
    psc: &[u32],
    fresh: bool,
) -> Result<(), Refusal>
    requires { (answered identifier ≡ verdict (identifier_rule rec.now ∷ [])) × (goods ≡ goods_of rec.now) }
    ensures { answered result ≡ verdict (table (terms fresh (found psc.now)) rec.now) }
{
    identifier?;
    if fine::is_fine(rec, goods, psc, fresh) {
        return Ok(());
    }
    let read = read_all(rec, goods);
    rules::form_answer(read, fresh)?;
    rules::content_answer(rec, read, psc)
}

// For callers that have tested the table, once for many records: the answer by what a look finds in it. In a right one that is what it holds.
#[tactic(auto, using(crate::proofs::FineLaws::judged_wide), unfolding(crate::specs::Rules::record_answer))]
pub fn judge(rec: &[u8], psc: &[u32], fresh: bool) -> CheckWithAmounts
    ensures { WithAmounts (record_answer (terms fresh (found psc.now)) rec.now) rec.now result }
{
    let Some(whole) = rec.as_array::<399>() else {
        return CheckWithAmounts {
            check: RecordCheck {
                answer: Err(Refusal::WrongLength),
                consignor: None,
            },
            status: StatusReading::Malformed,
            cash: MoneyReading::Malformed,
            price: MoneyReading::Malformed,
        };
    };
    let RecordCheck {
        answer: identifier,
        consignor,
    } = rules::identifier_check(whole);
    let goods = read_goods(whole);
    let answer = whole_answer(whole, identifier, goods, psc, fresh);
    CheckWithAmounts {
        check: RecordCheck { answer, consignor },
        status: goods.status,
        cash: goods.cash,
        price: goods.price,
    }
}

// Likewise, for those who want no totals.
pub fn answer(rec: &[u8], psc: &[u32], fresh: bool) -> RecordCheck
    ensures { WithConsignor (record_answer (terms fresh (found psc.now)) rec.now) rec.now result }
{
    judge(rec, psc, fresh).check
}

#[tactic(auto, using(psc::proofs::SearchLaws::found_is_holds), unfolding(crate::specs::Rules::check_answer))]
fn checked(rec: &[u8], psc: &[u32], fresh: bool) -> RecordCheck
    ensures { WithConsignor (check_answer fresh psc.now rec.now) rec.now result }
{
    if !psc::right(psc) {
        return RecordCheck {
            answer: Err(Refusal::WrongTable),
            consignor: rules::identifier_check(rec).consignor,
        };
    }
    answer(rec, psc, fresh)
}

// The check of a record in a file, under a table of the postcodes that exist.
pub fn check(rec: &[u8], psc: &[u32]) -> RecordCheck
    ensures { WithConsignor (check_answer false psc.now rec.now) rec.now result }
{
    checked(rec, psc, false)
}

// The check of a record that is to be posted: a status other than blank is malformed.
pub fn check_posting(rec: &[u8], psc: &[u32]) -> RecordCheck
    ensures { WithConsignor (check_answer true psc.now rec.now) rec.now result }
{
    checked(rec, psc, true)
}

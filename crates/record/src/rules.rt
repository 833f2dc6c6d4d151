// The rules, in the paper's order: those on the form of the fields, then those on what the fields say.
ghost use Rattle.std.specs.Prelude.{◌≡◌, true, List, [], ◌∷◌, cond, get_or};
ghost use Rattle.text.specs.Answers.{answered};
ghost use Rattle.psc.specs.Search.{found};
ghost use Rattle.record.specs.Table.{Rule, first_broken, rule, places_from, verdict, rows_of, cases_of};
ghost use Rattle.record.specs.Readings.{malformed_status};
ghost use Rattle.record.specs.Consignors.{WithConsignor};
ghost use Rattle.record.specs.Rules.{early_flags, late_flags, malformed, malformed_rule, asked_of, given_of, is_set_prefix, travel_of, identifier_rule, content_of, address_rule, postcode_rules, weight_rules, service_rules};

use crate::RecordCheck;
use crate::readings::{Address, Piece, Readings};
use fields::{Postcode, PostcodeReading, Reading, Services, StatusReading, WeightReading};
use text::Refusal;

// The refusal of the first condition that holds: so the verdict of any rules that say the same, row for row.
fn first_broken(table: &[(bool, Refusal)]) -> Result<(), Refusal>
    ensures first { answered result ≡ first_broken table.now }
    ensures by_rows { (rs : List Rule) → rows_of table.now ≡ cases_of rs → answered result ≡ verdict rs }
{
    for &(broken, refusal) in table {
        if broken {
            return Err(refusal);
        }
    }
    Ok(())
}

// ---- 1 and 210: the form of the fields

// Code 1: field 1 is no right identifier. And whose it is.
#[tactic(auto, unfolding(ident::specs::Consignor::consignor_in))]
pub(crate) fn identifier_check(rec: &[u8]) -> RecordCheck
    ensures { WithConsignor (verdict (identifier_rule rec.now ∷ [])) rec.now result }
{
    match ident::read(layout::field(rec, 1)) {
        Ok(parts) => RecordCheck {
            answer: Ok(()),
            consignor: parts.whose(),
        },
        Err(refusal) => RecordCheck {
            answer: Err(refusal),
            consignor: None,
        },
    }
}

// A fresh record, one that is to be posted, may not be cancelled yet.
pub(crate) fn malformed_status(r: StatusReading, fresh: bool) -> bool
    ensures { result ≡ malformed_status fresh r }
{
    match r {
        StatusReading::Live => false,
        StatusReading::Cancelled => fresh,
        StatusReading::Malformed => true,
    }
}

// Fields 2 to 14.
fn early_answer(read: Readings) -> Result<(), Refusal>
    ensures { answered result ≡ verdict (rule 210 (places_from 2 (early_flags read.when read.address read.street read.contact)) ∷ []) }
{
    first_broken(&[
        (read.when.date.is_err(), Refusal::Malformed(2)),
        (read.when.time.is_err(), Refusal::Malformed(3)),
        (read.address.name.is_malformed(), Refusal::Malformed(4)),
        (read.address.postcode.is_malformed(), Refusal::Malformed(5)),
        (read.address.country.is_malformed(), Refusal::Malformed(6)),
        (
            read.address.municipality.is_malformed(),
            Refusal::Malformed(7),
        ),
        (read.street.district.is_malformed(), Refusal::Malformed(8)),
        (read.street.street.is_malformed(), Refusal::Malformed(9)),
        (read.street.house.is_malformed(), Refusal::Malformed(10)),
        (
            read.street.orientation.is_malformed(),
            Refusal::Malformed(11),
        ),
        (
            read.contact.telephone.is_malformed(),
            Refusal::Malformed(12),
        ),
        (read.contact.mail.is_malformed(), Refusal::Malformed(13)),
        (read.contact.empty.is_err(), Refusal::Malformed(14)),
    ])
}

// Fields 15 to 26.
fn late_answer(read: Readings, fresh: bool) -> Result<(), Refusal>
    ensures { answered result ≡ verdict (rule 210 (places_from 15 (late_flags fresh read.goods read.marks read.piece read.tail)) ∷ []) }
{
    first_broken(&[
        (read.goods.weight.is_malformed(), Refusal::Malformed(15)),
        (read.goods.cash.is_malformed(), Refusal::Malformed(16)),
        (read.goods.price.is_malformed(), Refusal::Malformed(17)),
        (read.goods.services.is_malformed(), Refusal::Malformed(18)),
        (
            malformed_status(read.goods.status, fresh),
            Refusal::Malformed(19),
        ),
        (read.marks.machine.is_malformed(), Refusal::Malformed(20)),
        (read.marks.symbol.is_malformed(), Refusal::Malformed(21)),
        (read.piece.main.is_malformed(), Refusal::Malformed(22)),
        (read.piece.serial.is_malformed(), Refusal::Malformed(23)),
        (read.piece.pieces.is_malformed(), Refusal::Malformed(24)),
        (read.tail.empty.is_err(), Refusal::Malformed(25)),
        (read.tail.sender.is_malformed(), Refusal::Malformed(26)),
    ])
}

// Code 210 at the lowest malformed field.
pub(crate) fn form_answer(read: Readings, fresh: bool) -> Result<(), Refusal>
    ensures { answered result ≡ verdict (malformed_rule (malformed fresh read.when read.address read.street read.contact read.goods read.marks read.piece read.tail) ∷ []) }
{
    early_answer(read)?;
    late_answer(read, fresh)
}

// ---- 27, 21, 24, 31 and 34: address, postcode and weight

// Code 27: name or municipality blank, or at home the postcode.
fn address_answer(a: Address) -> Result<(), Refusal>
    ensures { answered result ≡ verdict (address_rule a ∷ []) }
{
    first_broken(&[
        (a.name.is_absent(), Refusal::Blank(4)),
        (
            a.country.is_absent() && a.postcode.is_absent(),
            Refusal::Blank(5),
        ),
        (a.municipality.is_absent(), Refusal::Blank(7)),
    ])
}

// What has a code of its own under service 41.
fn two_codes(with41: Refusal, without: Refusal, service41: bool) -> Refusal
    ensures { result ≡ cond service41 with41 without }
{
    if service41 { with41 } else { without }
}

// Codes 21 and 24: a domestic postcode that is not in the table. A foreign one is not looked up.
fn postcode_answer(postcode: PostcodeReading, psc: &[u32], service41: bool) -> Result<(), Refusal>
    ensures { answered result ≡ verdict (postcode_rules (found psc.now) postcode service41) }
{
    let Reading::Value(Postcode::Domestic(n)) = postcode else {
        return Ok(());
    };
    if psc::find(psc, n) {
        Ok(())
    } else {
        Err(two_codes(Refusal::UnlistedUnder41, Refusal::Unlisted, service41))
    }
}

// Codes 31 and 34: weight absent or zero.
fn weight_answer(weight: WeightReading, service41: bool) -> Result<(), Refusal>
    ensures { answered result ≡ verdict (weight_rules weight service41) }
{
    let refusal = two_codes(Refusal::WeightlessUnder41, Refusal::Weightless, service41);
    let Reading::Value(grams) = weight else {
        return Err(refusal);
    };
    if grams.0 == 0 { Err(refusal) } else { Ok(()) }
}

// ---- 36 to 72: money and services. The fields are named as the rules have them.

// Field by field as specs/Rules has them, here and below. Which services are there; `cash_service` is one of 2, 4, 5 and 41, `several_sizes` two or more of S, M, L and XL.
#[derive(Clone, Copy)]
pub struct Asked {
    pub cash_service: bool,
    pub service7: bool,
    pub service34: bool,
    pub service41: bool,
    pub service45: bool,
    pub service46: bool,
    pub service70: bool,
    pub several_sizes: bool,
}

#[tactic(auto, unfolding(crate::specs::Rules::asked_of))]
fn asked_of(s: Services) -> Asked
    ensures { result ≡ asked_of s }
{
    let service41 = s.has(41);
    Asked {
        cash_service: s.has(2) || s.has(4) || s.has(5) || service41,
        service7: s.has(7),
        service34: s.has(34),
        service41,
        service45: s.has(45),
        service46: s.has(46),
        service70: s.has(70),
        several_sizes: s.has_several_sizes(),
    }
}

// What stands in the fields that services ask for: 16, 17, 21, 12, 13.
#[derive(Clone, Copy)]
pub struct Given {
    pub cash_absent_or_zero: bool,
    pub cash_filled: bool,
    pub price_absent_or_zero: bool,
    pub price_filled: bool,
    pub symbol_filled: bool,
    pub telephone_filled: bool,
    pub mail_filled: bool,
}

#[tactic(auto, unfolding(crate::specs::Rules::given_of))]
fn given_of(read: Readings) -> Given
    ensures { result ≡ given_of read.contact read.goods read.marks }
{
    Given {
        cash_absent_or_zero: read.goods.cash.is_absent_or_zero(),
        cash_filled: !read.goods.cash.is_absent(),
        price_absent_or_zero: read.goods.price.is_absent_or_zero(),
        price_filled: !read.goods.price.is_absent(),
        symbol_filled: !read.marks.symbol.is_absent(),
        telephone_filled: !read.contact.telephone.is_absent(),
        mail_filled: !read.contact.mail.is_absent(),
    }
}

// What stands in the fields of pieces that travel together: 22, 23, 24.
#[derive(Clone, Copy)]
pub struct Travel {
    pub set_prefix: bool,
    pub main_filled: bool,
    pub serial_filled: bool,
    pub pieces_filled: bool,
    pub serial_above_pieces: bool,
    pub serial_is01: bool,
    pub main_is_own: bool,
}

// A prefix under which several pieces may travel together.
pub(crate) fn has_set_prefix(id: &[u8]) -> bool
    ensures { result ≡ is_set_prefix (get_or id.now 0 0) (get_or id.now 1 0) }
{
    matches!(
        id,
        [b'B', b'O', ..] | [b'O', b'V', ..] | [b'D', b'R', ..] | [b'N', b'P', ..]
    )
}

#[tactic(auto, unfolding(crate::specs::Rules::travel_of))]
fn travel_of(rec: &[u8], p: Piece) -> Travel
    ensures { result ≡ travel_of rec.now p }
{
    let identifier = layout::field(rec, 1);
    let serial = p.serial.number();
    Travel {
        set_prefix: has_set_prefix(identifier),
        main_filled: !p.main.is_absent(),
        serial_filled: !p.serial.is_absent(),
        pieces_filled: !p.pieces.is_absent(),
        serial_above_pieces: p.pieces.number() < serial,
        serial_is01: serial == 1,
        main_is_own: ident::same(layout::field(rec, 22), identifier),
    }
}

// Row by row as the rules have them, by `&` and `|`: these are fields that are read, and no calls that `&&` would spare. Tried with `&&`, the proof did not close: there are too many ways.
fn service_answer(s: Asked, f: Given, p: Travel) -> Result<(), Refusal>
    ensures { answered result ≡ verdict (service_rules s f p) }
{
    first_broken(&[
        (
            s.cash_service & f.cash_absent_or_zero | !s.cash_service & f.cash_filled,
            Refusal::CashOnDelivery,
        ),
        (s.service41 & !f.symbol_filled, Refusal::SymbolMissing),
        (f.symbol_filled & !s.cash_service, Refusal::SymbolUnasked),
        (
            s.service7 & f.price_absent_or_zero | !s.service7 & f.price_filled,
            Refusal::PriceSpecified,
        ),
        (
            s.service34 & s.service45
                | s.service34 & s.service46
                | s.service45 & s.service46
                | s.several_sizes,
            Refusal::ServicesExclude,
        ),
        (
            (s.service34 | s.service45) & !f.telephone_filled,
            Refusal::NoticeMissing(12),
        ),
        (
            (s.service45 | s.service46) & !f.mail_filled,
            Refusal::NoticeMissing(13),
        ),
        (s.service70 & !p.set_prefix, Refusal::Travel(18)),
        (s.service70 & !p.main_filled, Refusal::Travel(22)),
        (s.service70 & !p.serial_filled, Refusal::Travel(23)),
        (s.service70 & !p.pieces_filled, Refusal::Travel(24)),
        (s.service70 & p.serial_above_pieces, Refusal::Travel(23)),
        (
            s.service70 & (p.serial_is01 & !p.main_is_own | !p.serial_is01 & p.main_is_own),
            Refusal::Travel(22),
        ),
        (!s.service70 & p.main_filled, Refusal::Travel(22)),
        (!s.service70 & p.serial_filled, Refusal::Travel(23)),
        (!s.service70 & p.pieces_filled, Refusal::Travel(24)),
    ])
}

// Codes 27 to 72.
pub(crate) fn content_answer(rec: &[u8], read: Readings, psc: &[u32]) -> Result<(), Refusal>
    ensures { answered result ≡ verdict (content_of (found psc.now) rec.now read.address read.contact read.goods read.marks read.piece) }
{
    let asked = asked_of(read.goods.services.services());
    address_answer(read.address)?;
    postcode_answer(read.address.postcode, psc, asked.service41)?;
    let weight = weight_answer(read.goods.weight, asked.service41);
    let services = service_answer(asked, given_of(read), travel_of(rec, read.piece));
    weight.and(services)
}

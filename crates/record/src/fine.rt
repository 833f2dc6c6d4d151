// Whether a record breaks no rule, told at once: most do not, and only of one that does has it to be known which rule comes first. `rules` says that.
ghost use Rattle.std.specs.Prelude.{◌≡◌, true, not, length};
ghost use Rattle.psc.specs.Search.{found};
ghost use Rattle.fields.specs.Texts.{read_text, malformed_text};
ghost use Rattle.fields.specs.Others.{malformed_empty};
ghost use Rattle.record.specs.Readings.{when_of, address_of, street_of, goods_of, tail_of};
ghost use Rattle.record.specs.Rules.{when_flags, street_flags, contact_flags, piece_flags, asked_of, travel_of};
ghost use Rattle.record.specs.Fine.{none_of, TextWithin, flush, name_breaks, place_breaks, goods_breaks, cash_breaks, price_breaks, notice_breaks, travel_breaks, TextsFine, FormFine, ServicesFine, Fine};

use crate::readings::{Contact, Goods, Piece, When, empty_in, read_contact, read_piece, read_when};
use crate::rules::{has_set_prefix, malformed_status};
use fields::{
    CountryReading, MoneyReading, NumberReading, Postcode, PostcodeReading, Reading, Services,
    TextReading,
};
use layout::WIDTHS;

// ---- texts

fn flush(f: &[u8]) -> bool
    ensures { result ≡ flush f.now }
{
    f.first() != Some(&b' ') || text::blank(f)
}

// Name and municipality, which start at 29 and 66, are not blank.
#[tactic(auto, using(crate::proofs::FineLaws::names_fine))]
fn names_fine(rec: &[u8; 399]) -> bool
    requires { TextWithin rec.now }
    ensures { result ≡ true → none_of (name_breaks (address_of rec.now)) ≡ true }
{
    rec[29] != b' ' && rec[66] != b' '
}

#[tactic(auto, using(crate::proofs::FineLaws::street_fine))]
fn street_fine(rec: &[u8; 399]) -> bool
    requires { TextWithin rec.now }
    ensures { result ≡ true → none_of (street_flags (street_of rec.now)) ≡ true }
{
    flush(layout::field(rec, 8))
        && flush(layout::field(rec, 9))
        && flush(layout::field(rec, 10))
        && flush(layout::field(rec, 11))
}

// A text that is seldom filled.
#[tactic(auto, unfolding(fields::specs::Frame::framed))]
fn seldom_fine(f: &[u8], width: usize) -> bool
    requires { length f.now ≡ width }
    ensures { result ≡ not (malformed_text (read_text width f.now)) }
{
    text::blank(f) || !fields::read_text(f, width).is_malformed()
}

#[tactic(auto, using(crate::proofs::FineLaws::text_within, crate::proofs::FineLaws::long_20, crate::proofs::FineLaws::long_26))]
fn texts_fine(rec: &[u8; 399]) -> bool
    ensures { result ≡ true → TextsFine rec.now }
{
    // Fields 4 to 11, and before them so much of field 3 that it is eleven times sixteen bytes: its digits and colons are text, too.
    if !fields::all_text(&rec[22..198]) {
        return false;
    }
    names_fine(rec)
        && street_fine(rec)
        // the widths as constants, which is quicker than to ask for them
        && seldom_fine(layout::field(rec, 20), WIDTHS[20 - 1])
        && seldom_fine(layout::field(rec, 26), WIDTHS[26 - 1])
}

// ---- the other fields

// A few words for each part of a record, here and below: they are of other fields, and one function of them all would be no plainer.
fn when_fine(w: When) -> bool
    ensures { result ≡ none_of (when_flags w) }
{
    !(w.date.is_err() || w.time.is_err())
}

fn contact_fine(c: Contact) -> bool
    ensures { result ≡ none_of (contact_flags c) }
{
    !(c.telephone.is_malformed() || c.mail.is_malformed() || c.empty.is_err())
}

fn goods_fine(g: Goods, fresh: bool) -> bool
    ensures { result ≡ none_of (goods_breaks fresh g) }
{
    let Reading::Value(grams) = g.weight else {
        return false;
    };
    let bad = g.cash.is_malformed() || g.price.is_malformed() || g.services.is_malformed();
    grams.0 != 0 && !bad && !malformed_status(g.status, fresh)
}

fn piece_fine(p: Piece) -> bool
    ensures { result ≡ none_of (piece_flags p) }
{
    !(p.main.is_malformed() || p.serial.is_malformed() || p.pieces.is_malformed())
}

fn tail_empty(rec: &[u8; 399]) -> bool
    ensures { result ≡ not (malformed_empty (tail_of rec.now).empty) }
{
    empty_in::<25>(rec).is_ok()
}

fn listed(country: CountryReading, postcode: PostcodeReading, psc: &[u32]) -> bool
    ensures { result ≡ none_of (place_breaks (found psc.now) country postcode) }
{
    if country.is_malformed() {
        return false;
    }
    match postcode {
        Reading::Absent => !country.is_absent(),
        Reading::Value(Postcode::Domestic(n)) => psc::find(psc, n),
        Reading::Value(Postcode::Foreign(_)) => true,
        Reading::Malformed => false,
    }
}

fn place_fine(rec: &[u8; 399], psc: &[u32]) -> bool
    ensures { result ≡ none_of (place_breaks (found psc.now) (address_of rec.now).country (address_of rec.now).postcode) }
{
    let country = fields::read_country(layout::field(rec, 6));
    let postcode = fields::read_postcode(layout::field(rec, 5), country);
    listed(country, postcode, psc)
}

// ---- what the services ask for

#[tactic(auto, unfolding(crate::specs::Rules::asked_of))]
fn cash_fine(s: Services, cash: MoneyReading, symbol: NumberReading) -> bool
    ensures { result ≡ none_of (cash_breaks (asked_of s) cash symbol) }
{
    let service41 = s.has(41);
    if s.has(2) || s.has(4) || s.has(5) || service41 {
        !cash.is_absent_or_zero() && !(service41 && symbol.is_absent())
    } else {
        cash.is_absent() && symbol.is_absent()
    }
}

#[tactic(auto, unfolding(crate::specs::Rules::asked_of))]
fn price_fine(s: Services, price: MoneyReading) -> bool
    ensures { result ≡ none_of (price_breaks (asked_of s) price) }
{
    if s.has(7) {
        !price.is_absent_or_zero()
    } else {
        price.is_absent()
    }
}

#[tactic(auto, unfolding(crate::specs::Rules::asked_of))]
fn notice_fine(s: Services, telephone: NumberReading, mail: TextReading) -> bool
    ensures { result ≡ none_of (notice_breaks (asked_of s) telephone mail) }
{
    let service34 = s.has(34);
    let service45 = s.has(45);
    let service46 = s.has(46);
    let several = service34 && service45 || service34 && service46 || service45 && service46;
    let unheard = (service34 || service45) && telephone.is_absent();
    let unread = (service45 || service46) && mail.is_absent();
    !(several || s.has_several_sizes() || unheard || unread)
}

#[tactic(auto, unfolding(crate::specs::Rules::asked_of, crate::specs::Rules::travel_of))]
fn travel_fine(rec: &[u8; 399], s: Services, p: Piece) -> bool
    ensures { result ≡ none_of (travel_breaks (asked_of s) (travel_of rec.now p)) }
{
    let no_main = p.main.is_absent();
    let no_serial = p.serial.is_absent();
    let no_pieces = p.pieces.is_absent();
    if s.has(70) {
        let number = p.serial.number();
        let own = ident::same(layout::field(rec, 22), layout::field(rec, 1));
        has_set_prefix(layout::field(rec, 1))
            && !(no_main || no_serial || no_pieces)
            && number <= p.pieces.number()
            && (number == 1) == own
    } else {
        no_main && no_serial && no_pieces
    }
}

// ---- all of it. What was read of the record is handed on.

fn form_fine(rec: &[u8; 399], contact: Contact, goods: Goods, piece: Piece, fresh: bool) -> bool
    ensures { result ≡ true → FormFine fresh (when_of rec.now) contact goods piece rec.now }
{
    when_fine(read_when(rec))
        && contact_fine(contact)
        && goods_fine(goods, fresh)
        && piece_fine(piece)
        && tail_empty(rec)
}

fn services_fine(
    rec: &[u8; 399],
    contact: Contact,
    goods: Goods,
    symbol: NumberReading,
    piece: Piece,
) -> bool
    ensures { result ≡ true → ServicesFine contact goods symbol (travel_of rec.now piece) }
{
    let asked = goods.services.services();
    cash_fine(asked, goods.cash, symbol)
        && price_fine(asked, goods.price)
        && notice_fine(asked, contact.telephone, contact.mail)
        && travel_fine(rec, asked, piece)
}

// The goods are given on, since reading them again costs a good record 7 % of its instructions; `psc` and `fresh` are two words, shorter than a struct of them.
pub(crate) fn is_fine(rec: &[u8; 399], goods: Goods, psc: &[u32], fresh: bool) -> bool
    requires { goods ≡ goods_of rec.now }
    ensures { result ≡ true → Fine (found psc.now) fresh rec.now }
{
    let contact = read_contact(rec);
    let piece = read_piece(rec);
    let symbol = fields::read_symbol(layout::field(rec, 21));
    texts_fine(rec)
        && form_fine(rec, contact, goods, piece, fresh)
        && !symbol.is_malformed()
        && place_fine(rec, psc)
        && services_fine(rec, contact, goods, symbol, piece)
}

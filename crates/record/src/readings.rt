// What is read of a record, field by field.
ghost use Rattle.std.specs.Prelude.{◌≡◌};
ghost use Rattle.record.specs.Readings.{text_in, empty_in, when_of, address_of, street_of, contact_of, goods_of, marks_of, piece_of, tail_of, readings_of};

use fields::{
    CountryReading, DateReading, EmptyReading, MainReading, MoneyReading, NumberReading,
    PostcodeReading, ServicesReading, StatusReading, TextReading, TimeReading, WeightReading,
};

// Fields 2 and 3.
#[derive(Clone, Copy)]
pub struct When {
    pub date: DateReading,
    pub time: TimeReading,
}

// Fields 4 to 7.
#[derive(Clone, Copy)]
pub struct Address {
    pub name: TextReading,
    pub postcode: PostcodeReading,
    pub country: CountryReading,
    pub municipality: TextReading,
}

// Fields 8 to 11.
#[derive(Clone, Copy)]
pub struct Street {
    pub district: TextReading,
    pub street: TextReading,
    pub house: TextReading,
    pub orientation: TextReading,
}

// Fields 12 to 14.
#[derive(Clone, Copy)]
pub struct Contact {
    pub telephone: NumberReading,
    pub mail: TextReading,
    pub empty: EmptyReading,
}

// Fields 15 to 19.
#[derive(Clone, Copy)]
pub struct Goods {
    pub weight: WeightReading,
    pub cash: MoneyReading,
    pub price: MoneyReading,
    pub services: ServicesReading,
    pub status: StatusReading,
}

// Fields 20 and 21.
#[derive(Clone, Copy)]
pub struct Marks {
    pub machine: TextReading,
    pub symbol: NumberReading,
}

// Fields 22 to 24: which piece this is, of how many that travel together.
#[derive(Clone, Copy)]
pub struct Piece {
    pub main: MainReading,
    pub serial: NumberReading,
    pub pieces: NumberReading,
}

// Fields 25 and 26.
#[derive(Clone, Copy)]
pub struct Tail {
    pub empty: EmptyReading,
    pub sender: TextReading,
}

// All of it.
#[derive(Clone, Copy)]
pub struct Readings {
    pub when: When,
    pub address: Address,
    pub street: Street,
    pub contact: Contact,
    pub goods: Goods,
    pub marks: Marks,
    pub piece: Piece,
    pub tail: Tail,
}

// Field N as a text, and as one that has to be blank. The number is a constant, so that place and width are, too.
fn text_in<const N: usize>(rec: &[u8]) -> TextReading
    ensures { result ≡ text_in rec.now N }
{
    fields::read_text(layout::field(rec, N), layout::width(N))
}

pub(crate) fn empty_in<const N: usize>(rec: &[u8]) -> EmptyReading
    ensures { result ≡ empty_in rec.now N }
{
    fields::read_empty(layout::field(rec, N), layout::width(N))
}

pub(crate) fn read_when(rec: &[u8]) -> When
    ensures { result ≡ when_of rec.now }
{
    When {
        date: fields::read_date(layout::field(rec, 2)),
        time: fields::read_time(layout::field(rec, 3)),
    }
}

fn read_address(rec: &[u8]) -> Address
    ensures { result ≡ address_of rec.now }
{
    let country = fields::read_country(layout::field(rec, 6));
    Address {
        name: text_in::<4>(rec),
        postcode: fields::read_postcode(layout::field(rec, 5), country),
        country,
        municipality: text_in::<7>(rec),
    }
}

fn read_street(rec: &[u8]) -> Street
    ensures { result ≡ street_of rec.now }
{
    Street {
        district: text_in::<8>(rec),
        street: text_in::<9>(rec),
        house: text_in::<10>(rec),
        orientation: text_in::<11>(rec),
    }
}

pub(crate) fn read_contact(rec: &[u8]) -> Contact
    ensures { result ≡ contact_of rec.now }
{
    Contact {
        telephone: fields::read_telephone(layout::field(rec, 12)),
        mail: fields::read_mail(layout::field(rec, 13)),
        empty: empty_in::<14>(rec),
    }
}

pub(crate) fn read_goods(rec: &[u8]) -> Goods
    ensures { result ≡ goods_of rec.now }
{
    Goods {
        weight: fields::read_weight(layout::field(rec, 15)),
        cash: fields::read_money(layout::field(rec, 16)),
        price: fields::read_money(layout::field(rec, 17)),
        services: fields::read_services(layout::field(rec, 18)),
        status: fields::read_status(layout::field(rec, 19)),
    }
}

fn read_marks(rec: &[u8]) -> Marks
    ensures { result ≡ marks_of rec.now }
{
    Marks {
        machine: text_in::<20>(rec),
        symbol: fields::read_symbol(layout::field(rec, 21)),
    }
}

pub(crate) fn read_piece(rec: &[u8]) -> Piece
    ensures { result ≡ piece_of rec.now }
{
    Piece {
        main: fields::read_main(layout::field(rec, 22)),
        serial: fields::read_count(layout::field(rec, 23)),
        pieces: fields::read_count(layout::field(rec, 24)),
    }
}

fn read_tail(rec: &[u8]) -> Tail
    ensures { result ≡ tail_of rec.now }
{
    Tail {
        empty: empty_in::<25>(rec),
        sender: text_in::<26>(rec),
    }
}

// The goods were read before, since they are given beside each answer. To read them here again would cost every record: the compiler then makes a call of it.
pub(crate) fn read_all(rec: &[u8], goods: Goods) -> Readings
    requires { goods ≡ goods_of rec.now }
    ensures { result ≡ readings_of rec.now }
{
    Readings {
        when: read_when(rec),
        address: read_address(rec),
        street: read_street(rec),
        contact: read_contact(rec),
        goods,
        marks: read_marks(rec),
        piece: read_piece(rec),
        tail: read_tail(rec),
    }
}

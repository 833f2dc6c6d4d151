// The calls below the record, one for each item: its first byte says which, a field asked for, a part read, or one written.
use crate::items;
use crate::items::{Item, Stop};
use crate::printing::{adler, print_line};
use fields::{Grams, Hellers, Malformed, Reading, StatusReading};
use ident::Parts;
use std::io::Read;
use text::{Answer, Refusal};

// ---- a field asked for

// n in eight bytes, then the record.
fn answer_request<R: Print>(rt: &R, item: &[u8]) -> Result<(), Stop> {
    let (n, rec) = item.split_first_chunk().ok_or(Stop::CutShort)?;
    let n = u64::from_le_bytes(*n) as usize;
    let answer = Answer::from(layout::field_answer(rec, n));
    let part = layout::field(rec, n);
    print_line(
        rt,
        &[
            u64::from(answer.code),
            u64::from(answer.place),
            part.len() as u64,
            adler(part),
        ],
    )
}

// ---- a part read

// A reading of a value that is printed as a number. `map` of a reading is for its own crate: a public function asks nothing of what it is given.
fn numbered<T, N: FnOnce(T) -> u64>(reading: Reading<T>, number: N) -> Reading<u64>
    requires { N.IsAlwaysCallable number }
{
    match reading {
        Reading::Absent => Reading::Absent,
        Reading::Value(value) => Reading::Value(number(value)),
        Reading::Malformed => Reading::Malformed,
    }
}

// A part that cannot be absent.
fn there(reading: Result<u64, Malformed>) -> Reading<u64> {
    match reading {
        Ok(value) => Reading::Value(value),
        Err(Malformed) => Reading::Malformed,
    }
}

fn empty(reading: Result<(), Malformed>) -> Reading<u64> {
    match reading {
        Ok(()) => Reading::Absent,
        Err(Malformed) => Reading::Malformed,
    }
}

fn status(reading: StatusReading) -> Reading<u64> {
    match reading {
        StatusReading::Live => Reading::Value(0),
        StatusReading::Cancelled => Reading::Value(1),
        StatusReading::Malformed => Reading::Malformed,
    }
}

fn read_part(n: u8, f: &[u8]) -> Reading<u64> {
    match n {
        2 => there(fields::read_date(f)),
        3 => there(fields::read_time(f)),
        6 => numbered(fields::read_country(f), |c| {
            256 * u64::from(c.0) + u64::from(c.1)
        }),
        12 => fields::read_telephone(f),
        13 => numbered(fields::read_mail(f), |length| length as u64),
        14 | 25 => empty(fields::read_empty(f, layout::width(usize::from(n)))),
        15 => numbered(fields::read_weight(f), |grams| grams.0),
        16 | 17 => numbered(fields::read_money(f), |hellers| hellers.0),
        18 => numbered(fields::read_services(f), |_| 0),
        19 => status(fields::read_status(f)),
        21 => fields::read_symbol(f),
        22 => numbered(fields::read_main(f), |_| 0),
        23 | 24 => fields::read_count(f),
        // the texts
        _ => numbered(
            fields::read_text(f, layout::width(usize::from(n))),
            |length| { length as u64 },
        ),
    }
}

// The field's number, then the part. A postcode by itself has no reading: the country decides.
// 0 is printed of what is absent, 1 of a value, 2 of what is malformed; then the value as a number, 0 where there is none.
fn answer_reading<R: Print>(rt: &R, item: &[u8]) -> Result<(), Stop> {
    let (field, part) = match item {
        [] | [5, ..] => return Err(Stop::CutShort),
        [field, part @ ..] => (*field, part),
    };
    match read_part(field, part) {
        Reading::Absent => print_line(rt, &[0, 0]),
        Reading::Value(n) => print_line(rt, &[1, n]),
        Reading::Malformed => print_line(rt, &[2, 0]),
    }
}

// ---- a part written

// Writes a part of such a length, of which each byte is 7 before.
fn answer_writing<R: Print, W: FnOnce(&mut [u8]) -> Result<(), Refusal>>(
    rt: &R,
    length: [u8; 4],
    write: W,
) -> Result<(), Stop>
    requires { W.IsAlwaysCallable write }
{
    let mut bytes = [7u8; 256];
    let part = items::front(&mut bytes, u32::from_le_bytes(length) as usize)?;
    let answer = Answer::from(write(part));
    print_line(
        rt,
        &[u64::from(answer.code), u64::from(answer.place), adler(part)],
    )
}

// The field's number, the part's length in four bytes, whether it is absent, the number in eight.
fn answer_field<R: Print>(rt: &R, item: &[u8]) -> Result<(), Stop> {
    let [field, a, b, c, d, absent, n @ ..] = item else {
        return Err(Stop::CutShort);
    };
    let length = [*a, *b, *c, *d];
    let n = u64::from_le_bytes(<[u8; 8]>::try_from(n).map_err(|_| Stop::CutShort)?);
    if *field == 15 {
        let weight = if *absent == 1 {
            Reading::Absent
        } else {
            Reading::Value(Grams(n))
        };
        answer_writing(rt, length, |part| fields::write_weight(part, weight))
    } else {
        let money = if *absent == 1 {
            Reading::Absent
        } else {
            Reading::Value(Hellers(n))
        };
        answer_writing(rt, length, |part| fields::write_money(part, money))
    }
}

// The part's length in four bytes, prefix, last byte, consignor and posting number in eight each.
fn answer_identifier<R: Print>(rt: &R, item: &[u8]) -> Result<(), Stop> {
    let [a, b, c, d, first, second, last, numbers @ ..] = item else {
        return Err(Stop::CutShort);
    };
    let (consignor, posting) = numbers.split_first_chunk().ok_or(Stop::CutShort)?;
    let posting = <[u8; 8]>::try_from(posting).map_err(|_| Stop::CutShort)?;
    let parts = Parts {
        first: *first,
        second: *second,
        last: *last,
        consignor: u64::from_le_bytes(*consignor),
        posting: u64::from_le_bytes(posting),
    };
    answer_writing(rt, [*a, *b, *c, *d], |part| ident::write(part, parts))
}

// ---- the item

// Room for the byte, a field's number and one byte more than a record has: what is longer is no record and no field.
pub(crate) fn answer<R: Print, F: Read>(rt: &R, mut item: Item<'_, F>) -> Result<(), Stop> {
    let mut bytes = [0u8; 409];
    match item.take(&mut bytes)? {
        [0, request @ ..] => answer_request(rt, request),
        [1, reading @ ..] => answer_reading(rt, reading),
        [2, field @ ..] => answer_field(rt, field),
        [3, identifier @ ..] => answer_identifier(rt, identifier),
        _ => Err(Stop::CutShort),
    }
}

// The lines: decimal numbers with single spaces between, and a line feed behind the last.
use crate::items::Stop;
use ident::Parts;
use std::io;
use text::{Answer, Refusal};

// The sum of some bytes, Adler-32.
pub(crate) fn adler(s: &[u8]) -> u64 {
    let mut a = 1;
    let mut b = 0;
    for x in s {
        a = (a + u64::from(*x)) % 65521;
        b = (b + a) % 65521;
    }
    b * 65536 + a
}

fn print_numbers<R: Print>(rt: &R, numbers: &[u64]) -> io::Result<()> {
    if let Some((last, others)) = numbers.split_last() {
        for n in others {
            print!(rt; "{n} ")?;
        }
        println!(rt; "{last}")?;
    }
    Ok(())
}

pub(crate) fn print_line<R: Print>(rt: &R, numbers: &[u64]) -> Result<(), Stop> {
    print_numbers(rt, numbers).map_err(|_| Stop::Unwritten)
}

pub(crate) fn print_answer<R: Print>(rt: &R, given: Result<(), Refusal>) -> Result<(), Stop> {
    let answer = Answer::from(given);
    print_line(rt, &[u64::from(answer.code), u64::from(answer.place)])
}

// Code and place, and whose the identifier is: 0 and 0 for nobody's.
pub(crate) fn print_reading<R: Print>(rt: &R, reading: Result<Parts, Refusal>) -> Result<(), Stop> {
    let (kind, number) = match reading.ok().and_then(|parts| parts.whose()) {
        Some(consignor) => (u64::from(consignor.kind), consignor.number),
        None => (0, 0),
    };
    let answer = Answer::from(reading);
    print_line(
        rt,
        &[
            u64::from(answer.code),
            u64::from(answer.place),
            kind,
            number,
        ],
    )
}

// Runs judged cases: for each kind whose file of items is there, each item is answered by a line on standard output.
#![tactic(auto)]

mod files;
mod histories;
mod items;
mod parts;
mod printing;
mod tables;

use items::{Item, Items, Stop};
use printing::{print_answer, print_reading};
use std::io::{ErrorKind, Read};
use std::rt::Files;
use std::{fs, io};

// A loop has to end, and nothing says that a file does. No file has so many items: each has four bytes at least.
const MOST: u64 = 4_000_000_000_000_000_000;

fn answer_identifier<R: Print, F: Read>(rt: &R, mut item: Item<'_, F>) -> Result<(), Stop> {
    // One byte more than an identifier has: what is longer is none, whatever follows.
    let mut bytes = [0u8; 14];
    print_answer(rt, ident::check(item.take(&mut bytes)?))
}

fn answer_consignor<R: Print, F: Read>(rt: &R, mut item: Item<'_, F>) -> Result<(), Stop> {
    let mut bytes = [0u8; 14];
    print_reading(rt, ident::read(item.take(&mut bytes)?))
}

fn answer_record<R: Print, F: Read>(rt: &R, mut item: Item<'_, F>) -> Result<(), Stop> {
    let mut table = [0u32; tables::PLACES];
    // One byte more than a record has, likewise.
    let mut bytes = [0u8; 400];
    let psc = tables::read(&mut item, &mut table)?;
    print_answer(rt, record::check(item.take(&mut bytes)?, psc).answer)
}

// Answers each item of a file, until there is nothing to go on with.
fn answer_items<F: Read, A: Fn(Item<'_, F>) -> Result<(), Stop>>(
    input: &mut Items<F>,
    answer: A,
) -> Result<(), Stop>
    requires { A.IsAlwaysCallable answer }
{
    for _ in 0..MOST {
        match items::next(input)? {
            Some(item) => answer(item)?,
            None => return Ok(()),
        }
    }
    Ok(())
}

// Says on standard error why a file could not be opened. Where that cannot be said, nothing is.
// Each program has its own: no contract can say what is said there, and each public function has a contract.
fn tell<R: Eprint + AllocGlobal>(rt: &R, path: &str, error: io::Error) {
    let _ = match format!(in rt.alloc(); "{error}") {
        Ok(message) => {
            let why = streams::words(message.as_str());
            eprintln!(rt; "{path}: {why}")
        },
        Err(_) => eprintln!(rt; "{path}: {error}"),
    };
}

// Likewise, why the rest of a file is not answered. Where a line could not be written, nothing is said.
fn tell_stop<R: Eprint>(rt: &R, path: &str, stop: Stop) {
    let _ = match stop {
        Stop::CutShort => eprintln!(rt; "{path} is cut short or cannot be read"),
        Stop::TooLong => eprintln!(rt; "{path} asks for a longer buffer than there is room for"),
        Stop::Unwritten => Ok(()),
    };
}

// Answers each item of the file. A kind without a file is not asked for, and so there is nothing to tell.
fn answer_all<R: Files + Eprint + AllocGlobal, A: Fn(Item<'_, R::File>) -> Result<(), Stop>>(
    rt: &R,
    path: &str,
    answer: A,
)
    requires { A.IsAlwaysCallable answer }
{
    match fs::open(rt, path) {
        Ok(file) => {
            if let Err(stop) = answer_items(&mut Items(file), answer) {
                tell_stop(rt, path, stop);
            }
        },
        Err(e) => {
            if e.kind() != ErrorKind::NotFound {
                tell(rt, path, e);
            }
        },
    }
}

// The kinds in the order in which the judged cases' table has them, and our own records behind them.
fn main(rt: HostRuntime) {
    answer_all(&rt, "identifiers.bin", |item| answer_identifier(&rt, item));
    answer_all(&rt, "parts.bin", |item| parts::answer(&rt, item));
    answer_all(&rt, "records.bin", |item| answer_record(&rt, item));
    answer_all(&rt, "files.bin", |item| {
        files::answer(item, |file, psc| {
            files::print_numbers(&rt, posting::check(file, psc))
        })
    });
    answer_all(&rt, "closing.bin", |item| {
        files::answer(item, |file, psc| {
            files::print_break(&rt, closing::check(file, psc))
        })
    });
    answer_all(&rt, "consignors.bin", |item| answer_consignor(&rt, item));
    answer_all(&rt, "histories.bin", |item| histories::answer(&rt, item));
    answer_all(&rt, "rules.bin", |item| answer_record(&rt, item));
}

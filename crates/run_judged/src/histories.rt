// A history of one batch: the lengths of its two buffers, four bytes each, a table, then calls, each a byte that says which and an item.
// After each call a line tells its answer, the counts and the sums of the buffers.
ghost use Rattle.std.specs.Prelude.{◌≤◌, length, IfOk};

use crate::items::{Item, Stop};
use crate::printing::{adler, print_line};
use crate::{items, tables};
use batch::Counts;
use fields::Hellers;
use std::io::Read;
use text::{Answer, Refusal};

// What a call asks for: a call of the batch, something changed behind its back, or another table.
#[derive(Clone, Copy)]
enum Op {
    Open,
    Add,
    Cancel,
    Amend,
    Undo,
    SetFile,
    SetJournal,
    SetCount,
    SetTable,
}

impl TryFrom<u8> for Op {
    type Error = Stop;

    fn try_from(op: u8) -> Result<Op, Stop> {
        match op {
            0 => Ok(Op::Open),
            1 => Ok(Op::Add),
            2 => Ok(Op::Cancel),
            3 => Ok(Op::Amend),
            4 => Ok(Op::Undo),
            5 => Ok(Op::SetFile),
            6 => Ok(Op::SetJournal),
            7 => Ok(Op::SetCount),
            8 => Ok(Op::SetTable),
            _ => Err(Stop::CutShort),
        }
    }
}

// ---- what is changed behind the batch's back

// The item is an offset in four bytes and the byte to stand there.
fn set_byte(buffer: &mut [u8], item: &[u8]) {
    if let [a, b, c, d, byte] = item {
        let at = u32::from_le_bytes([*a, *b, *c, *d]) as usize;
        if let Some(place) = buffer.get_mut(at) {
            *place = *byte;
        }
    }
}

// The item is which count, in one byte, and its value in eight.
fn set_count(counts: Counts, item: &[u8]) -> Counts {
    let mut c = counts;
    if let [which, value @ ..] = item {
        if let Ok(value) = <[u8; 8]>::try_from(value) {
            let value = u64::from_le_bytes(value);
            match *which {
                0 => c.totals.live = value,
                1 => c.totals.cancelled = value,
                2 => c.totals.cash = Hellers(value),
                3 => c.totals.price = Hellers(value),
                4 => c.held = value as usize,
                5 => c.used = value as usize,
                _ => {},
            }
        }
    }
    c
}

// ---- the batch

// The lent buffers of a batch, and its counts.
#[derive(Drop)]
struct Batch<'a> {
    file: &'a mut [u8],
    journal: &'a mut [u8],
    counts: Counts,
}

impl Batch<'_> {
    // Refused, a call leaves the counts as they are; an `open` has none then.
    fn serve(&mut self, op: Op, item: &[u8], psc: &[u32]) -> Result<(), Refusal> {
        let c = self.counts;
        let served = match op {
            Op::Open => {
                self.counts = Counts::default();
                batch::open(self.file, self.journal)
            },
            Op::Add => batch::add(self.file, self.journal, c, item, psc),
            Op::Cancel => batch::cancel(self.file, self.journal, c, item, psc),
            Op::Amend => batch::amend(self.file, self.journal, c, item, psc),
            Op::Undo => batch::undo(self.file, self.journal, c, psc),
            Op::SetFile => {
                set_byte(self.file, item);
                Ok(c)
            },
            Op::SetJournal => {
                set_byte(self.journal, item);
                Ok(c)
            },
            Op::SetCount => Ok(set_count(c, item)),
            // not met here: `serve_call` has the table
            Op::SetTable => Ok(c),
        };
        self.counts = served?;
        Ok(())
    }

    fn print<R: Print>(&self, rt: &R, served: Result<(), Refusal>) -> Result<(), Stop> {
        let answer = Answer::from(served);
        let c = self.counts;
        let t = c.totals;
        print_line(
            rt,
            &[
                u64::from(answer.code),
                u64::from(answer.place),
                t.live,
                t.cancelled,
                t.cash.0,
                t.price.0,
                c.held as u64,
                c.used as u64,
                adler(self.file),
                adler(self.journal),
            ],
        )
    }
}

// ---- the calls

// Reads the item of a call, and serves it by the table that holds: of the lent one, so many entries. Gives how many hold from then on.
// The number stands beside the table: a slice of it would still lend the table when the next one is read into it.
fn serve_call<F: Read>(
    batch: &mut Batch<'_>,
    op: Op,
    mut item: Item<'_, F>,
    table: &mut [u32],
    entries: usize,
) -> Result<(Result<(), Refusal>, usize), Stop>
    requires { entries ≤ length table.old }
    ensures { IfOk result (λ r. r.1 ≤ length table.new) }
{
    if let Op::SetTable = op {
        // what stands behind the table in its item is passed over
        let entries = tables::read(&mut item, table)?.len();
        item.skip()?;
        return Ok((Ok(()), entries));
    }
    // One byte more than a record has: what is longer is none, and no identifier either, whatever follows.
    let mut bytes = [0u8; 400];
    let bytes = item.take(&mut bytes)?;
    Ok((batch.serve(op, bytes, &table[..entries]), entries))
}

// Reads the table that stands before the calls, and answers them.
fn answer_calls<R: Print, F: Read>(
    rt: &R,
    mut item: Item<'_, F>,
    file: &mut [u8],
    journal: &mut [u8],
    table: &mut [u32],
) -> Result<(), Stop> {
    let mut entries = tables::read(&mut item, table)?.len();
    let mut batch = Batch {
        file,
        journal,
        counts: Counts::default(),
    };
    // How many calls there are is not said: they end with the item's bytes.
    while 0 < item.left {
        let [op] = item.bytes::<1>()?;
        let size = u32::from_le_bytes(item.bytes()?) as usize;
        if item.left < size {
            return Err(Stop::CutShort);
        }
        item.left -= size;
        let call = Item {
            input: &mut *item.input,
            left: size,
        };
        let (served, held) = serve_call(&mut batch, Op::try_from(op)?, call, table, entries)?;
        entries = held;
        batch.print(rt, served)?;
    }
    Ok(())
}

// The buffers may be longer than those of a good batch: the file by a record, the journal by a byte.
// Before the first call each byte of the file is 7, and the journal is zeros.
pub(crate) fn answer<R: Print, F: Read>(rt: &R, mut item: Item<'_, F>) -> Result<(), Stop> {
    let n = u32::from_le_bytes(item.bytes()?) as usize;
    let m = u32::from_le_bytes(item.bytes()?) as usize;
    let mut file = [7u8; 401000];
    let mut journal = [0u8; 1048577];
    let mut table = [0u32; tables::PLACES];
    let file = items::front(&mut file, n)?;
    let journal = items::front(&mut journal, m)?;
    answer_calls(rt, item, file, journal, &mut table)
}

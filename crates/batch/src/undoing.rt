// The way back: the latest action is taken off file and counts. Of the file only the place of its consignment is written, and nothing is
// summed anew.
ghost use Rattle.std.specs.Prelude.{◌≡◌, ◌+◌, ◌-◌, ◌*◌, ◌≤◌, ◌<◌, length};
ghost use Rattle.posting.specs.Bounds.{Small};
ghost use Rattle.batch.specs.Batch.{counts_of};
ghost use Rattle.batch.specs.Entries.{number_of_kind};
ghost use Rattle.batch.specs.Undoing.{one_live_less, one_revived, found_at, Entries, RecordBefore, Added, AdditionOff, Sought, CancellationOff, Amended, AmendmentOff, Undoable, TakenBack};

use crate::amounts::Amounts;
use crate::entries::{Kind, kind_at};
use crate::places::{Held, STATUS, put, put_line};
use crate::{Counts, less};
use fields::Hellers;
use posting::Totals;

// ---- the counts

// One live less: its two amounts leave the sums.
fn one_live_less(c: Counts, old: Amounts) -> Counts
    requires { 1 ≤ c.held }
    ensures { result ≡ counts_of (one_live_less c.totals old.cash.0 old.price.0) (c.held - 1) c.used }
{
    let t = c.totals;
    let totals = Totals {
        live: t.live.saturating_sub(1),
        cash: less(t.cash, old.cash),
        price: less(t.price, old.price),
        ..t
    };
    Counts {
        totals,
        held: c.held - 1,
        ..c
    }
}

// A cancelled consignment live again: its two amounts come back.
fn one_revived(c: Counts, back: Amounts) -> Counts
    requires { Small c.totals }
    ensures { result ≡ counts_of (one_revived c.totals back.cash.0 back.price.0) c.held c.used }
{
    let t = c.totals;
    let totals = Totals {
        live: t.live + 1,
        cancelled: t.cancelled.saturating_sub(1),
        cash: Hellers(t.cash.0 + back.cash.0),
        price: Hellers(t.price.0 + back.price.0),
    };
    Counts { totals, ..c }
}

// ---- the record before an amendment

// Where the latest record with this identifier is carried, once the entry at `at` is looked at.
fn looked_at(journal: &[u8], at: usize, kind: Kind, id: &[u8], found: usize) -> usize
    requires { (at + 17 ≤ length journal.now) × (at < 2000000) }
    ensures { result ≡ found_at journal.now at (number_of_kind kind) id.now found }
{
    match kind {
        Kind::Cancellation => found,
        Kind::Addition | Kind::Amendment => {
            let start = at + 4;
            if ident::same(&journal[start..start + 13], id) {
                at
            } else {
                found
            }
        }
    }
}

// Where the latest entry before `end` starts that carries a record with this identifier.
fn record_before(journal: &[u8], end: usize, id: &[u8]) -> usize
    requires { Entries journal.now end }
    ensures { RecordBefore journal.now end id.now result }
{
    let mut found = 0;
    let mut at = 0;
    // Entries have two lengths, and only the bytes say which: so the next place is not counted, but read.
    while at < end {
        let kind = kind_at(journal, end, at).unwrap();
        found = looked_at(journal, at, kind, id, found);
        at += kind.body_length() + 4;
    }
    found
}

// ---- one action taken off

// An addition: the last place becomes zero.
fn addition_off(file: &mut [u8], c: Counts, last: usize, rec: &[u8]) -> Counts
    requires { Added file.old c }
    ensures { AdditionOff file.old c last rec.now result file.new }
{
    let fewer = one_live_less(c, Amounts::of(rec));
    put(file, c.held - 1, 0, &[0; 401]);
    Counts {
        used: last,
        ..fewer
    }
}

// A cancellation: the status of its consignment becomes blank.
fn cancellation_off(file: &mut [u8], c: Counts, last: usize, id: &[u8]) -> Counts
    requires { Sought file.old c id.now }
    ensures { CancellationOff file.old c last id.now result file.new }
{
    let records = Held {
        file: &*file,
        count: c.held,
    };
    let k = records.place_with(id).unwrap();
    let more = one_revived(c, Amounts::of(records.at(k)));
    put(file, k, STATUS, b"  ");
    Counts { used: last, ..more }
}

// An amendment: the record before it comes back into its place. Like the cancellation it looks for the place, but what it counts and puts is another.
fn amendment_off(file: &mut [u8], c: Counts, last: usize, old: &[u8]) -> Counts
    requires { Amended file.old c old.now }
    ensures { AmendmentOff file.old c last old.now result file.new }
{
    let records = Held {
        file: &*file,
        count: c.held,
    };
    let k = records.place_with(layout::field(old, 1)).unwrap();
    let amended = c.amounts_replaced(Amounts::of(records.at(k)), Amounts::of(old));
    put_line(file, k, old);
    Counts {
        used: last,
        ..amended
    }
}

// Takes the latest action off file and counts; its entry in the journal starts at `last`.
pub(crate) fn take_back(file: &mut [u8], journal: &[u8], c: Counts, last: usize) -> Counts
    requires { Undoable file.old journal.now c last }
    ensures { TakenBack file.old journal.now c last result file.new }
{
    let kind = kind_at(journal, c.used, last).unwrap();
    let start = last + 4;
    match kind {
        Kind::Addition => addition_off(file, c, last, &journal[start..start + 399]),
        Kind::Cancellation => cancellation_off(file, c, last, &journal[start..start + 13]),
        Kind::Amendment => {
            let before = record_before(journal, last, &journal[start..start + 13]) + 4;
            amendment_off(file, c, last, &journal[before..before + 399])
        }
    }
}

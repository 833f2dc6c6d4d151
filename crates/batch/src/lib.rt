// The open batch: a lent file buffer, a lent journal and counts by value; additions, amendments, cancellations and undo.
#![tactic(auto)]

ghost use Rattle.std.specs.Prelude.{◌≡◌, [], ◌+◌, ◌-◌, ◌*◌, ◌≤◌, ◌<◌, length};
ghost use Rattle.psc.specs.Search.{found};
ghost use Rattle.posting.specs.Bounds.{Small};
ghost use Rattle.batch.specs.Places.{action_held, one_live_more, one_cancelled, amounts_replaced};
ghost use Rattle.batch.specs.Work.{Guarded, action_totals, Countable, counts_after, Ready, Worked};
ghost use Rattle.text.specs.Answers.{answered};
ghost use Rattle.batch.specs.Entries.{number_of_kind, action_of};
ghost use Rattle.batch.specs.History.{call_of};
ghost use Rattle.batch.specs.Batch.{right_lengths, counts_of, counts_or, no_counts, batch_of, Add, Amend, Cancel, Undo, Called, Opened};

mod amounts; // the two amounts of a consignment
mod entries; // the entries of the journal
mod places; // the places of the file buffer
mod test; // whether file, journal and counts are what the entries make
mod undoing; // the way back: the latest action taken off

use amounts::Amounts;
use entries::{Kind, clear_entry, put_entry};
use fields::Hellers;
use ident::Consignor;
use places::{Held, act};
use posting::Totals;
use test::Finding;
use text::Refusal;

// The four totals, the records held and the journal bytes used.
#[derive(Clone, Copy, Debug, PartialEq, Eq, Default)]
pub struct Counts {
    pub totals: Totals,
    pub held: usize,
    pub used: usize,
}

// ---- the state

fn right_lengths(n: usize, m: usize) -> bool
    ensures { result ≡ right_lengths n m }
{
    // `&` and not `&&`: the whole is then the definition, with no path of its own for each comparison.
    (n % 401 == 0) & (401 <= n) & (n <= 400_599) & (403 <= m) & (m <= 1_048_576)
}

// What every call but opening checks first: 235, then 238, then 237.
fn guard(file: &[u8], journal: &[u8], c: Counts, psc: &[u32]) -> Result<Finding, Refusal>
    ensures { Guarded psc.now (batch_of file.now journal.now c) result }
{
    if !right_lengths(file.len(), journal.len()) {
        return Err(Refusal::WrongBuffers);
    }
    if !psc::right(psc) {
        return Err(Refusal::WrongTable);
    }
    test::test(file, journal, c, psc).ok_or(Refusal::NothingStands)
}

// ---- amounts and counts

// What is left of an amount.
fn less(a: Hellers, b: Hellers) -> Hellers
    ensures { result.0 ≡ a.0 - b.0 }
{
    Hellers(a.0.saturating_sub(b.0))
}

// That the sums are small, `Small`, is asked by three methods and not of each value: C's counts come in with any sums.
impl Counts {
    // One live more, with its two amounts.
    fn one_live_more(self, new: Amounts) -> Self
        requires { (Small self.totals) × (self.held ≤ 999) }
        ensures { result ≡ counts_of (one_live_more self.totals new.cash.0 new.price.0) (self.held + 1) self.used }
    {
        let t = self.totals;
        let one = Totals {
            live: 1,
            cancelled: 0,
            cash: new.cash,
            price: new.price,
        };
        Counts {
            totals: t.plus(one).unwrap_or(t),
            held: self.held + 1,
            ..self
        }
    }

    // One live consignment cancelled: its two amounts leave the sums.
    fn one_cancelled(self, old: Amounts) -> Self
        requires { Small self.totals }
        ensures { result ≡ counts_of (one_cancelled self.totals old.cash.0 old.price.0) self.held self.used }
    {
        let t = self.totals;
        let totals = Totals {
            live: t.live.saturating_sub(1),
            cancelled: t.cancelled + 1,
            cash: less(t.cash, old.cash),
            price: less(t.price, old.price),
        };
        Counts { totals, ..self }
    }

    // The amounts of one consignment replaced by others.
    fn amounts_replaced(self, old: Amounts, new: Amounts) -> Self
        requires { Small self.totals }
        ensures { result ≡ counts_of (amounts_replaced self.totals old.cash.0 old.price.0 new.cash.0 new.price.0) self.held self.used }
    {
        let t = self.totals;
        let rest = Totals {
            cash: less(t.cash, old.cash),
            price: less(t.price, old.price),
            ..t
        };
        let added = Totals {
            live: 0,
            cancelled: 0,
            cash: new.cash,
            price: new.price,
        };
        let totals = rest.plus(added).unwrap_or(rest);
        Counts { totals, ..self }
    }

    // The journal grown by an entry.
    fn journal_grown(self, n: usize) -> Self
        requires { self.used + n < 2000000 }
        ensures { result ≡ counts_of self.totals self.held (self.used + n) }
    {
        Counts {
            used: self.used + n,
            ..self
        }
    }
}

// The totals and the records held behind an acceptable action, from the file before it.
fn counted(file: &[u8], c: Counts, kind: Kind, body: &[u8]) -> Counts
    requires { Countable file.now c (number_of_kind kind) body.now }
    ensures { result ≡ counts_of (action_totals (batch_of file.now [] c) (number_of_kind kind) body.now) (action_held c.held (number_of_kind kind)) c.used }
{
    let records = Held {
        file,
        count: c.held,
    };
    match kind {
        Kind::Addition => c.one_live_more(Amounts::of(body)),
        Kind::Amendment => {
            let k = records.place_with(layout::field(body, 1)).unwrap();
            c.amounts_replaced(Amounts::of(records.at(k)), Amounts::of(body))
        }
        Kind::Cancellation => {
            let k = records.place_with(body).unwrap();
            c.one_cancelled(Amounts::of(records.at(k)))
        }
    }
}

// The same with its entry in the journal.
fn counts_after(file: &[u8], c: Counts, kind: Kind, body: &[u8]) -> Counts
    requires { Countable file.now c (number_of_kind kind) body.now }
    ensures { result ≡ counts_after file.now c (number_of_kind kind) body.now }
{
    counted(file, c, kind, body).journal_grown(kind.body_length() + 4)
}

// ---- the calls: both buffers are lent and the counts go in by value, as paper 01 has them. A body may have another length than its kind's, which is 236 here:
// so kind and body are two values.

// The work of an action on a batch in which something stands: 236, its own refusals, 231, or else file, journal and counts go on.
fn enter(
    file: &mut [u8],
    journal: &mut [u8],
    c: Counts,
    seen: Option<Consignor>,
    kind: Kind,
    body: &[u8],
    psc: &[u32],
) -> Result<Counts, Refusal>
    requires { Ready file.old journal.old c }
    ensures { Worked (found psc.now) file.old journal.old c seen (number_of_kind kind) body.now result file.new journal.new }
{
    let size = kind.body_length();
    if body.len() != size {
        return Err(Refusal::WrongLength);
    }
    let records = Held {
        file: &*file,
        count: c.held,
    };
    records.action_answer(seen, kind, body, psc)?;
    if journal.len() - c.used < size + 4 {
        return Err(Refusal::NoRoom);
    }
    let counts = counts_after(file, c, kind, body);
    act(file, c.held, kind, body);
    put_entry(journal, c.used, kind, body);
    Ok(counts)
}

// An action on a batch: what stands in it first, then the work.
fn perform(
    file: &mut [u8],
    journal: &mut [u8],
    c: Counts,
    kind: Kind,
    body: &[u8],
    psc: &[u32],
) -> Result<Counts, Refusal>
    ensures { Called psc.now (batch_of file.old journal.old c) (call_of (action_of kind body.now)) (answered result) (counts_or c result) file.new journal.new }
{
    let found = guard(file, journal, c, psc)?;
    enter(file, journal, c, found.seen, kind, body, psc)
}

// Sets both buffers to zero and gives zero counts.
pub fn open(file: &mut [u8], journal: &mut [u8]) -> Result<Counts, Refusal>
    ensures { Opened (batch_of file.old journal.old no_counts) (answered result) (counts_or no_counts result) file.new journal.new }
{
    if !right_lengths(file.len(), journal.len()) {
        return Err(Refusal::WrongBuffers);
    }
    file.fill(0);
    journal.fill(0);
    Ok(Counts::default())
}

pub fn add(
    file: &mut [u8],
    journal: &mut [u8],
    c: Counts,
    rec: &[u8],
    psc: &[u32],
) -> Result<Counts, Refusal>
    ensures { Called psc.now (batch_of file.old journal.old c) (Add rec.now) (answered result) (counts_or c result) file.new journal.new }
{
    perform(file, journal, c, Kind::Addition, rec, psc)
}

pub fn amend(
    file: &mut [u8],
    journal: &mut [u8],
    c: Counts,
    rec: &[u8],
    psc: &[u32],
) -> Result<Counts, Refusal>
    ensures { Called psc.now (batch_of file.old journal.old c) (Amend rec.now) (answered result) (counts_or c result) file.new journal.new }
{
    perform(file, journal, c, Kind::Amendment, rec, psc)
}

pub fn cancel(
    file: &mut [u8],
    journal: &mut [u8],
    c: Counts,
    id: &[u8],
    psc: &[u32],
) -> Result<Counts, Refusal>
    ensures { Called psc.now (batch_of file.old journal.old c) (Cancel id.now) (answered result) (counts_or c result) file.new journal.new }
{
    perform(file, journal, c, Kind::Cancellation, id, psc)
}

// Takes the latest entry off the journal and brings back file and counts.
pub fn undo(file: &mut [u8], journal: &mut [u8], c: Counts, psc: &[u32]) -> Result<Counts, Refusal>
    ensures { Called psc.now (batch_of file.old journal.old c) Undo (answered result) (counts_or c result) file.new journal.new }
{
    let found = guard(file, journal, c, psc)?;
    if c.used == 0 {
        return Err(Refusal::NoEntry);
    }
    let counts = undoing::take_back(file, journal, c, found.last);
    clear_entry(journal, found.last, c.used);
    Ok(counts)
}

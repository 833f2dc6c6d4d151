// The test of the state: whether file, journal and counts are what the journal's entries make from an opening, each acceptable in its turn.
// Nothing is made anew. An identifier never moves from its place, so places are looked for in the lent file, and each has a mark: where
// the entry of its latest record starts, twice, and one more where that is cancelled. Both are in one number, since each call clears all
// marks: four bytes a place, where a struct of the two would take eight.
ghost use Rattle.std.specs.Prelude.{◌≡◌, true, false, ◌+◌, ◌*◌, ◌/◌, ◌≤◌, ◌<◌, length};
ghost use Rattle.posting.specs.File.{line_of};
ghost use Rattle.psc.specs.Search.{found};
ghost use Rattle.batch.specs.Test.{Noted, Kept, live_in, Added, Amended, Cancelled, MarkedEntry, Stepping, Stepped, Fresh, WalkedTo, LineSame, Marked, LinesSame, ToTest, Tested};
ghost use Rattle.batch.specs.Entries.{number_of_kind};
ghost use Rattle.batch.specs.Batch.{batch_of, right_lengths};

use crate::Counts;
use crate::entries::{Kind, kind_at};
use crate::places::{Held, held_after};
use ident::Consignor;
use index::Keyed;

// The first consignor that the records noted so far name, who may be nobody.
#[derive(Clone, Copy)]
pub struct Named {
    pub seen: Option<Consignor>,
}

// How far a walk through the journal has come: records held, the first consignor that they name, bytes used, and where the last entry starts.
#[derive(Clone, Copy)]
pub struct Reached {
    pub held: usize,
    pub seen: Option<Consignor>,
    pub used: usize,
    pub last: usize,
}

// What stands in a batch: the first consignor that its records name, and where its latest entry starts.
#[derive(Clone, Copy)]
pub struct Finding {
    pub seen: Option<Consignor>,
    pub last: usize,
}

// A walk through the journal: the file and the postcodes that it looks up, the marks, and the index of the records noted so far.
// That they are noted, `Noted`, is asked by the methods and is no ghost field: an addition refused at the last leaves its place in the index.
#[derive(Drop)]
struct Walk<'a, 'm> {
    file: &'a [u8],
    psc: &'a [u32],
    marks: &'m mut [u32],
    table: &'m mut [u16],
}

impl Walk<'_, '_> {
    // The live consignment with this identifier, of those that are noted.
    fn live_place(&self, held: usize, id: &[u8]) -> Option<usize>
        requires { Noted self.now.file.now held self.now.marks.now self.now.table.now }
        ensures { result ≡ live_in self.now.file.now held self.now.marks.now id.now }
    {
        let records = Keyed {
            file: self.file,
            from: 0,
        };
        let k = records.find(self.table, id)?;
        if self.marks[k] % 2 == 1 {
            return None;
        }
        Some(k)
    }

    // An addition: a place is left, the record is good and names no other consignor, the lent file has its identifier there, and no other has it.
    fn mark_addition(&mut self, at: Reached, rec: &[u8]) -> Option<Named>
        requires { Noted self.old.file.now at.held self.old.marks.now self.old.table.now × (at.used < 2000000) }
        ensures marked { Added (found self.old.psc.now) self.old.file.now at.held at.seen at.used rec.now self.old.marks.now self.old.table.now result self.new.marks.now self.new.table.now }
        ensures kept { Kept self.old self.new }
    {
        let file = self.file;
        let start = at.held * 401;
        if file.len() - start < 401 {
            return None;
        }
        let check = record::answer(rec, self.psc, true);
        if check.answer.is_err() {
            return None;
        }
        if ident::another(at.seen, check.consignor) {
            return None;
        }
        if !ident::same(&file[start..start + 13], layout::field(rec, 1)) {
            return None;
        }
        let records = Keyed { file, from: 0 };
        if records.put(self.table, at.held).is_some() {
            return None;
        }
        self.marks[at.held] = (at.used * 2) as u32;
        Some(Named {
            seen: at.seen.or(check.consignor),
        })
    }

    // An amendment: the record is good, and a live consignment has its identifier. Yes or no, and nobody new is named.
    fn mark_amendment(&mut self, at: Reached, rec: &[u8]) -> bool
        requires { Noted self.old.file.now at.held self.old.marks.now self.old.table.now × (at.used < 2000000) }
        ensures marked { Amended (found self.old.psc.now) self.old.file.now at.held at.used rec.now self.old.marks.now result self.new.marks.now }
        ensures noted { self.new.table.now ≡ self.old.table.now }
        ensures kept { Kept self.old self.new }
    {
        if record::answer(rec, self.psc, true).answer.is_err() {
            return false;
        }
        let Some(k) = self.live_place(at.held, layout::field(rec, 1)) else {
            return false;
        };
        self.marks[k] = (at.used * 2) as u32;
        true
    }

    // A cancellation: the identifier is right, and a live consignment has it. Yes or no likewise.
    fn mark_cancellation(&mut self, held: usize, id: &[u8]) -> bool
        requires { Noted self.old.file.now held self.old.marks.now self.old.table.now }
        ensures marked { Cancelled self.old.file.now held id.now self.old.marks.now result self.new.marks.now }
        ensures noted { self.new.table.now ≡ self.old.table.now }
        ensures kept { Kept self.old self.new }
    {
        if ident::check(id).is_err() {
            return false;
        }
        let Some(k) = self.live_place(held, id) else {
            return false;
        };
        self.marks[k] += 1;
        true
    }

    // The entry that the walk has come to, of this kind and with this body, tested, and marked if it passes.
    fn mark_entry(&mut self, at: Reached, kind: Kind, body: &[u8]) -> Option<Named>
        requires { Noted self.old.file.now at.held self.old.marks.now self.old.table.now × (at.used < 2000000) }
        ensures marked { MarkedEntry (found self.old.psc.now) self.old.file.now at.held at.seen at.used (number_of_kind kind) body.now self.old.marks.now self.old.table.now result self.new.marks.now self.new.table.now }
        ensures kept { Kept self.old self.new }
    {
        match kind {
            Kind::Addition => self.mark_addition(at, body),
            Kind::Amendment => self
                .mark_amendment(at, body)
                .then_some(Named { seen: at.seen }),
            Kind::Cancellation => self
                .mark_cancellation(at.held, body)
                .then_some(Named { seen: at.seen }),
        }
    }

    // Tests the entry at the place that the walk has come to.
    fn step(&mut self, journal: &[u8], end: usize, at: Reached) -> Option<Reached>
        requires { Stepping self.old.file.now journal.now end at.held at.used self.old.marks.now self.old.table.now }
        ensures stepped { Stepped (found self.old.psc.now) self.old.file.now journal.now end at.held at.seen at.used self.old.marks.now self.old.table.now result self.new.marks.now self.new.table.now }
        ensures kept { Kept self.old self.new }
    {
        let kind = kind_at(journal, end, at.used)?;
        let start = at.used + 4;
        let next = start + kind.body_length();
        let body = &journal[start..next];
        let named = self.mark_entry(at, kind, body)?;
        Some(Reached {
            held: held_after(at.held, kind),
            seen: named.seen,
            used: next,
            last: at.used,
        })
    }

    // Walks through the journal's entries up to `end`.
    fn through(&mut self, journal: &[u8], end: usize) -> Option<Reached>
        requires { Fresh self.old.file.now journal.now end self.old.marks.now self.old.table.now }
        ensures { WalkedTo (found self.old.psc.now) self.old.file.now journal.now end self.old.table.now result self.new.marks.now self.new.table.now }
    {
        let mut at = Reached {
            held: 0,
            seen: None,
            used: 0,
            last: 0,
        };
        // Entries have two lengths, and only the bytes say which: so the next place is not counted, but what the step has come to.
        while at.used < end {
            at = self.step(journal, end, at)?;
        }
        Some(at)
    }
}

// Whether a line of the file is the record with its line end, cancelled or as it is: parts of file and journal, as long as they were cut.
fn line_same(line: &[u8], rec: &[u8], cancelled: bool) -> bool
    requires { (length line.now ≡ 401) × (length rec.now ≡ 399) }
    ensures { LineSame line.now rec.now cancelled result }
{
    // `&` and not `&&`, here and below: two bytes are one test, with no path of its own for each.
    let ended = (line[399] == 13) & (line[400] == 10);
    if !ended {
        return false;
    }
    if !cancelled {
        return text::same(&line[0..399], rec);
    }
    let struck = (line[340] == b'0') & (line[341] == b' ');
    if !struck {
        return false;
    }
    if !text::same(&line[0..340], &rec[0..340]) {
        return false;
    }
    text::same(&line[342..399], &rec[342..399])
}

// Whether each place of the file has the record that its mark names.
fn lines_same(file: &[u8], journal: &[u8], held: usize, marks: &[u32]) -> bool
    requires { Marked file.now journal.now held marks.now }
    ensures { LinesSame file.now journal.now held marks.now result }
{
    for k in 0..held {
        let start = k * 401;
        let mark = marks[k];
        let from = mark as usize / 2 + 4;
        let line = &file[start..start + 401];
        if !line_same(line, &journal[from..from + 399], mark % 2 == 1) {
            return false;
        }
    }
    true
}

// The test, with marks for all places and a table for an index of them, both fresh: a `Walk` is made of what is given.
fn test_with(
    file: &[u8],
    journal: &[u8],
    c: Counts,
    psc: &[u32],
    marks: &mut [u32],
    table: &mut [u16],
) -> Option<Finding>
    requires { ToTest file.now journal.now marks.old table.old }
    ensures { Tested (found psc.now) (batch_of file.now journal.now c) result }
{
    if journal.len() < c.used {
        return None;
    }
    let mut walk = Walk {
        file,
        psc,
        marks,
        table,
    };
    let reached = walk.through(journal, c.used)?;
    if reached.held != c.held {
        return None;
    }
    if !lines_same(file, journal, c.held, walk.marks) {
        return None;
    }
    if !text::zero(&file[c.held * 401..]) {
        return None;
    }
    if !text::zero(&journal[c.used..]) {
        return None;
    }
    let records = Held {
        file,
        count: c.held,
    };
    if records.totals() != c.totals {
        return None;
    }
    Some(Finding {
        seen: reached.seen,
        last: reached.last,
    })
}

// The test with so many marks, and so many slots of the index.
fn test_in<const PLACES: usize, const SLOTS: usize>(
    file: &[u8],
    journal: &[u8],
    c: Counts,
    psc: &[u32],
) -> Option<Finding>
    requires { (right_lengths (length file.now) (length journal.now) ≡ true) × (length file.now / 401 ≤ PLACES) × (length file.now / 401 + 1 < SLOTS) × (PLACES ≤ 999) × (SLOTS ≤ 2048) }
    ensures { Tested (found psc.now) (batch_of file.now journal.now c) result }
{
    let mut marks = [0u32; PLACES];
    let mut table = [0u16; SLOTS];
    test_with(file, journal, c, psc, &mut marks, &mut table)
}

// What stands in a batch with buffers of the right lengths.
pub(crate) fn test(file: &[u8], journal: &[u8], c: Counts, psc: &[u32]) -> Option<Finding>
    requires { right_lengths (length file.now) (length journal.now) ≡ true }
    ensures { Tested (found psc.now) (batch_of file.now journal.now c) result }
{
    let places = file.len() / 401;
    // Marks and table are cleared at each call, so there are few for a small file; and slots twice as many as places, so that walks are short.
    if places < 64 {
        test_in::<64, 128>(file, journal, c, psc)
    } else if places < 256 {
        test_in::<256, 512>(file, journal, c, psc)
    } else {
        test_in::<999, 2048>(file, journal, c, psc)
    }
}

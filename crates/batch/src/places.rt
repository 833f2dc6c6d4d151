// The places of the file buffer: the consignment with an identifier, what an action meets there, and what it makes of the file.
ghost use Rattle.std.specs.Prelude.{◌≡◌, ◌+◌, ◌-◌, ◌*◌, ◌≤◌, ◌<◌, length};
ghost use Rattle.posting.specs.File.{line_of, record_at, totals_over};
ghost use Rattle.psc.specs.Search.{found};
ghost use Rattle.text.specs.Answers.{answered};
ghost use Rattle.text.specs.Lists.{overlay};
ghost use Rattle.batch.specs.Entries.{number_of_kind};
ghost use Rattle.batch.specs.Places.{number_of_place, record_number, live_answer, add_answer, amend_answer, cancel_answer, with_line, action_answer, action_file, action_held};
ghost use Rattle.batch.specs.Work.{Acceptable};

use crate::entries::{Kind, copy};
use ident::Consignor;
use posting::Totals;
use text::Refusal;

// Where the status, two bytes, starts in a record.
pub(crate) const STATUS: usize = 340;

// The records that stand at the front of a file buffer.
#[derive(Clone, Copy)]
pub struct Held<'a> {
    pub file: &'a [u8],
    pub count: usize,
    ghost few: { count ≤ 999 },
    ghost inside: { count * 401 ≤ length file.now },
}

impl<'a> Held<'a> {
    // The record at place k.
    pub(crate) fn at(self, k: usize) -> &'a [u8]
        requires { k < self.count }
        ensures { result.now ≡ record_at self.entry.file.now k }
    {
        let file = self.file;
        let start = k * 401;
        &file[start..start + 399]
    }

    // Their totals.
    pub(crate) fn totals(self) -> Totals
        ensures { result ≡ totals_over self.entry.file.now self.entry.count }
    {
        let n = self.count;
        let mut t = Totals::default();
        for i in 0..n {
            t = t.plus(posting::brought(self.at(i))).unwrap_or(t);
        }
        t
    }

    // The place of the last with this identifier.
    pub(crate) fn place_with(self, id: &[u8]) -> Option<usize>
        ensures { (number_of_place result ≡ record_number self.entry.file.now id.now self.entry.count) × (number_of_place result ≤ self.entry.count) }
    {
        let file = self.file;
        let n = self.count;
        for k in (0..n).rev() {
            let start = k * 401;
            if ident::same(&file[start..start + 13], id) {
                return Some(k);
            }
        }
        None
    }

    // 232 where the identifier is not present, 233 where that consignment is cancelled.
    fn live_answer(self, id: &[u8]) -> Result<(), Refusal>
        ensures { answered result ≡ live_answer self.entry.file.now self.entry.count id.now }
    {
        let k = self.place_with(id).ok_or(Refusal::NotPresent)?;
        let file = self.file;
        if file[k * 401 + STATUS] == b'0' {
            return Err(Refusal::Cancelled);
        }
        Ok(())
    }

    // ---- what an action meets; 231 is not judged here

    // The consignor seen is the first that they name.
    fn add_answer(self, seen: Option<Consignor>, rec: &[u8], psc: &[u32]) -> Result<(), Refusal>
        ensures { answered result ≡ add_answer (found psc.now) self.entry.file.now self.entry.count seen rec.now }
    {
        let check = record::answer(rec, psc, true);
        check.answer?;
        if self.place_with(layout::field(rec, 1)).is_some() {
            return Err(Refusal::Repeated);
        }
        if ident::another(seen, check.consignor) {
            return Err(Refusal::OtherConsignor);
        }
        if self.file.len() - self.count * 401 < 401 {
            return Err(Refusal::NoPlace);
        }
        Ok(())
    }

    fn amend_answer(self, rec: &[u8], psc: &[u32]) -> Result<(), Refusal>
        ensures { answered result ≡ amend_answer (found psc.now) self.entry.file.now self.entry.count rec.now }
    {
        record::answer(rec, psc, true).answer?;
        self.live_answer(layout::field(rec, 1))
    }

    fn cancel_answer(self, id: &[u8]) -> Result<(), Refusal>
        ensures { answered result ≡ cancel_answer self.entry.file.now self.entry.count id.now }
    {
        ident::check(id)?;
        self.live_answer(id)
    }

    pub(crate) fn action_answer(
        self,
        seen: Option<Consignor>,
        kind: Kind,
        body: &[u8],
        psc: &[u32],
    ) -> Result<(), Refusal>
        ensures { answered result ≡ action_answer (found psc.now) self.entry.file.now self.entry.count seen (number_of_kind kind) body.now }
    {
        match kind {
            Kind::Addition => self.add_answer(seen, body, psc),
            Kind::Amendment => self.amend_answer(body, psc),
            Kind::Cancellation => self.cancel_answer(body),
        }
    }
}

// ---- what an action makes of the file

// Writes bytes into a place that is lent, from its byte `at` on.
fn write_place(place: &mut [u8], at: usize, bytes: &[u8])
    requires { (length place.old ≡ 401) × (at + length bytes.now ≤ 401) }
    ensures { place.new ≡ overlay place.old at bytes.now }
{
    copy(&mut place[at..at + bytes.len()], bytes);
}

// Writes bytes into place k, from its byte `at` on: the middle part of the file is lent on, and all other bytes stay.
pub(crate) fn put(file: &mut [u8], k: usize, at: usize, bytes: &[u8])
    requires { (k ≤ 999) × (k * 401 + 401 ≤ length file.old) × (at + length bytes.now ≤ 401) }
    ensures { file.new ≡ overlay file.old (k * 401 + at) bytes.now }
{
    let start = k * 401;
    write_place(&mut file[start..start + 401], at, bytes);
}

// Writes a record and its line end into a place that is lent.
fn write_line(place: &mut [u8], rec: &[u8])
    requires { (length place.old ≡ 401) × (length rec.now ≡ 399) }
    ensures { place.new ≡ line_of rec.now }
{
    copy(&mut place[..399], &rec[..399]);
    copy(&mut place[399..], b"\r\n");
}

// Puts a record and its line end into place k, and all other bytes stay.
pub(crate) fn put_line(file: &mut [u8], k: usize, rec: &[u8])
    requires { (k ≤ 999) × (k * 401 + 401 ≤ length file.old) × (length rec.now ≡ 399) }
    ensures { file.new ≡ with_line file.old k rec.now }
{
    let start = k * 401;
    write_line(&mut file[start..start + 401], rec);
}

// An acceptable action, done.
pub(crate) fn act(file: &mut [u8], held: usize, kind: Kind, body: &[u8])
    requires { Acceptable file.old held (number_of_kind kind) body.now }
    ensures { file.new ≡ action_file file.old held (number_of_kind kind) body.now }
{
    match kind {
        Kind::Addition => put_line(file, held, body),
        Kind::Amendment => {
            let records = Held {
                file: &*file,
                count: held,
            };
            let k = records.place_with(layout::field(body, 1)).unwrap();
            put_line(file, k, body);
        }
        Kind::Cancellation => {
            let records = Held {
                file: &*file,
                count: held,
            };
            let k = records.place_with(body).unwrap();
            put(file, k, STATUS, b"0 ");
        }
    }
}

pub(crate) fn held_after(held: usize, kind: Kind) -> usize
    requires { held ≤ 999 }
    ensures { result ≡ action_held held (number_of_kind kind) }
{
    match kind {
        Kind::Addition => held + 1,
        Kind::Amendment | Kind::Cancellation => held,
    }
}

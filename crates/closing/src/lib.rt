// Closing a file: an accepted one, of which every set that travels together is whole; and the line that reports it.
#![tactic(auto)]

ghost use Rattle.std.specs.Prelude.{◌≡◌, false, ◌+◌, ◌≤◌, ◌<◌};
ghost use Rattle.text.specs.Promises.{Gives};
ghost use Rattle.posting.specs.File.{record_at, records_in, file_answered};
ghost use Rattle.posting.specs.Report.{Report};
ghost use Rattle.closing.specs.Sets.{in_set};
ghost use Rattle.closing.specs.Closing.{records_of, place_of, closing_answer};
ghost use Rattle.closing.specs.Links.{NoneInSet, AllLinked, WholeBefore, some_place, Closed};

mod links; // each record and the live one before it in its set
mod records; // the records of an accepted file
mod sets; // the pieces of one set

use links::{Link, by_main, is_live, link_all, live_from};
use posting::{Break, Totals};
use records::Records;
use sets::{count_in, offence};
use text::Refusal;

// Whether record i is in a set: live, and with a main identifier.
fn in_set(records: &Records, i: usize) -> bool
    requires { i < records_in records.now.file.now }
    ensures { result ≡ in_set (record_at records.now.file.now i) }
{
    let rec = records.at(i);
    !text::blank(layout::field(rec, 22)) && is_live(rec)
}

fn any_in_set(records: &Records) -> bool
    ensures { result ≡ false → NoneInSet records.now.file.now }
{
    (0..records.len()).any(|i| in_set(records, i))
}

// Where the set of record i offends. It is looked through for its earliest live record alone: behind a whole one no other record can offend.
fn place_of(records: &Records, table: &[u16], links: &[Link], i: usize) -> Option<u32>
    requires { AllLinked records.now.file.now table.now links.now × (i < records_in records.now.file.now) × WholeBefore records.now.file.now i }
    ensures { result ≡ some_place (place_of (records_of records.now.file.now) (record_at records.now.file.now i)) }
{
    if !in_set(records, i) || links[i].place().is_some() {
        return None;
    }
    let rec = records.at(i);
    let found = by_main(records).find(table, layout::field(rec, 22));
    let last = live_from(records, links, found);
    offence(records, links, last, count_in(rec, 24))
}

// The first record whose set offends, where all are linked.
fn first_offence(records: &Records, table: &[u16], links: &[Link]) -> Result<(), Break>
    requires { AllLinked records.now.file.now table.now links.now }
    ensures { Closed records.now.file.now result }
{
    for i in 0..records.len() {
        if let Some(place) = place_of(records, table, links, i) {
            return Err(Break {
                refusal: Refusal::SetNotWhole(place),
                number: i as u32 + 1,
            });
        }
    }
    Ok(())
}

// Each record has a link, and the index more slots than there are records.
fn closed<const LINKS: usize, const SLOTS: usize>(records: &Records) -> Result<(), Break>
    requires { (records_in records.now.file.now ≤ LINKS) × (LINKS + 1 < SLOTS) × (SLOTS ≤ 2048) }
    ensures { Closed records.now.file.now result }
{
    let mut table = [0u16; SLOTS];
    let mut links = [Link::NONE; LINKS];
    link_all(records, &mut table, &mut links);
    first_offence(records, &table, &links)
}

// The closing check, under a table of the postcodes that exist: the totals, or the first break.
pub fn check(file: &[u8], psc: &[u32]) -> Result<Totals, Break>
    ensures { Gives (closing_answer psc.now file.now) (file_answered result) }
{
    let totals = posting::check(file, psc)?;
    let records = Records { file };
    if !any_in_set(&records) {
        return Ok(totals);
    }
    // Slots and links are cleared at each call, so there are few for a small file.
    if records.len() < 64 {
        closed::<64, 128>(&records)?;
    } else {
        closed::<1024, 2048>(&records)?;
    }
    Ok(totals)
}

// The line for a file that is to be closed, into a lent buffer; gives its length.
pub fn report(file: &[u8], psc: &[u32], out: &mut [u8]) -> Result<usize, Refusal>
    ensures { Report (closing_answer psc.now file.now) out.old result out.new }
{
    posting::put_report(check(file, psc), out)
}

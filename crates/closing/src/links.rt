// Each record of a file is linked to the live one before it with the same main identifier. So the pieces of a set are found from its last one on.
ghost use Rattle.std.specs.Prelude.{◌≡◌, ◌+◌, ◌<◌, IfSome};
ghost use Rattle.layout.specs.Layout.{field_of};
ghost use Rattle.fields.specs.Others.{read_status};
ghost use Rattle.posting.specs.File.{records_in};
ghost use Rattle.posting.specs.Sums.{is_live};
ghost use Rattle.closing.specs.Links.{main_from, live_from, Linked, RoomFor, NowNoted, ToLink, AllLinked};

use crate::records::Records;
use fields::StatusReading;
use index::Keyed;
use std::marker::Model;

// A link to a place, in two bytes: one more than the place, or 0 where there is none. Links are cleared at each call.
#[derive(Clone, Copy)]
pub(crate) struct Link(u16);

// In clauses it is the place.
impl Model for Link {
    ghost use Rattle.std.specs.Prelude.{ℕ, Option};
    ghost use Rattle.index.specs.Index.{slot_number};
    ghost use Rattle.closing.specs.Links.{counted, counted_back};

    ghost Value = { Option ℕ };

    ghost view = { λ link. counted link.0 };

    ghost inverse = { λ place. record { 0 = slot_number place } };

    ghost inverse_ok = { λ link _ i. record { 0 = counted_back link.0 i } };
}

impl Link {
    // To no place.
    pub(crate) const NONE: Link = Link(0);

    fn to(place: Option<usize>) -> Link
        requires { IfSome place (λ i. i < 65535) }
        ensures { result ≡ place }
    {
        match place {
            Some(i) => Link(i as u16 + 1),
            None => Link::NONE,
        }
    }

    pub(crate) fn place(self) -> Option<usize>
        ensures { result ≡ self }
    {
        usize::from(self.0).checked_sub(1)
    }
}

// Where field 22, the main identifier, starts in a record. A constant of its own, since layout gives fields and no places.
const MAIN: usize = 362;

// The records by their main identifiers.
pub(crate) fn by_main<'a>(records: &Records<'a>) -> Keyed<'a>
    ensures { (result.file.now ≡ records.entry.now.file.now) × (result.from ≡ main_from) }
{
    Keyed {
        file: records.file,
        from: MAIN,
    }
}

pub(crate) fn is_live(rec: &[u8]) -> bool
    ensures { result ≡ is_live (read_status (field_of rec.now 19)) }
{
    matches!(
        fields::read_status(layout::field(rec, 19)),
        StatusReading::Live
    )
}

// Record i, or where it is cancelled the live one that it is linked to.
pub(crate) fn live_from(records: &Records, links: &[Link], at: Option<usize>) -> Option<usize>
    requires { IfSome at (λ i. (i < records_in records.now.file.now) × Linked records.now.file.now (i + 1) links.now) }
    ensures { result ≡ live_from records.now.file.now at }
{
    let i = at?;
    if is_live(records.at(i)) {
        return at;
    }
    links[i].place()
}

// The live record before record i with its main identifier. Those before are noted and linked, and this one is noted then, too.
fn live_before(records: &Records, table: &mut [u16], links: &[Link], i: usize) -> Option<usize>
    requires { (i < records_in records.now.file.now) × RoomFor records.now.file.now i table.old × Linked records.now.file.now i links.now }
    ensures { NowNoted records.now.file.now i table.old table.new result }
{
    live_from(records, links, by_main(records).put(table, i))
}

pub(crate) fn link_all(records: &Records, table: &mut [u16], links: &mut [Link])
    requires { ToLink records.now.file.now table.old links.old }
    ensures { AllLinked records.now.file.now table.new links.new }
{
    for i in 0..records.len() {
        links[i] = Link::to(live_before(records, table, links, i));
    }
}

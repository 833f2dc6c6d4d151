// The pieces of one set: whether all give the same number of pieces, and each serial up to it is there, none twice.
ghost use Rattle.std.specs.Prelude.{◌≡◌, ◌<◌, IfSome};
ghost use Rattle.posting.specs.File.{records_in};
ghost use Rattle.closing.specs.Sets.{count_in};
ghost use Rattle.closing.specs.Links.{Linked, all_marked, Judged};

use crate::links::Link;
use crate::records::Records;

// The number in field 23 or 24 of a record; 0 where there is none.
pub(crate) fn count_in(rec: &[u8], n: usize) -> usize
    ensures { (result ≡ count_in rec.now n) × (result < 100) }
{
    fields::read_count(layout::field(rec, n)).number() as usize
}

// Whether each serial from 1 to n is marked.
fn all_marked(seen: &[bool; 100], n: usize) -> bool
    requires { n < 100 }
    ensures { result ≡ all_marked seen.now n }
{
    !seen[1..=n].contains(&false)
}

// Where the set offends that has this last live record, and whose first gives so many pieces. Its pieces are walked from the last one on by their links.
pub(crate) fn offence(
    records: &Records,
    links: &[Link],
    last: Option<usize>,
    pieces: usize,
) -> Option<u32>
    requires { Linked records.now.file.now (records_in records.now.file.now) links.now × IfSome last (λ i. i < records_in records.now.file.now) × (pieces < 100) }
    ensures { Judged records.now.file.now last pieces result }
{
    let mut seen = [false; 100];
    let mut twice = false;
    let mut next = last;
    while let Some(i) = next {
        let rec = records.at(i);
        if count_in(rec, 24) != pieces {
            return Some(24);
        }
        let serial = count_in(rec, 23);
        twice |= seen[serial];
        seen[serial] = true;
        next = links[i].place();
    }
    if twice {
        return Some(23);
    }
    if all_marked(&seen, pieces) {
        None
    } else {
        Some(22)
    }
}

// The entries of the journal, as they are read and written.
ghost use Rattle.std.specs.Prelude.{◌≡◌, ◌+◌, ◌-◌, ◌≤◌, length};
ghost use Rattle.text.specs.Lists.{overlay};
ghost use Rattle.batch.specs.Batch.{zeros};
ghost use Rattle.batch.specs.Entries.{number_of_kind, number_of_found, body_length, head, entry, starts_entry, kind_at};

// What an entry does.
#[derive(Clone, Copy, Debug, PartialEq, Eq)]
pub enum Kind {
    Addition,
    Cancellation,
    Amendment,
}

impl Kind {
    // As many bytes as it carries.
    pub(crate) fn body_length(self) -> usize
        ensures { (result ≡ body_length (number_of_kind self)) × (13 ≤ result) × (result ≤ 399) }
    {
        match self {
            Kind::Cancellation => 13,
            Kind::Addition | Kind::Amendment => 399,
        }
    }

    // The first four bytes of its entry: the entry's length, then its number, both little-endian.
    fn head(self) -> [u8; 4]
        ensures { result ≡ head (number_of_kind self) }
    {
        match self {
            Kind::Addition => [147, 1, 1, 0],
            Kind::Cancellation => [17, 0, 2, 0],
            Kind::Amendment => [147, 1, 3, 0],
        }
    }
}

// ---- reading

// Whether an entry of this kind starts at a place and ends by `end`.
fn starts_entry(journal: &[u8], end: usize, at: usize, kind: Kind) -> bool
    requires { (at ≤ end) × (end ≤ length journal.now) }
    ensures { result ≡ starts_entry journal.now end at (number_of_kind kind) }
{
    if end - at < kind.body_length() + 4 {
        return false;
    }
    let head = kind.head();
    // `&` and not `&&`: four comparisons with no branch between them, at each step of a walk.
    (journal[at] == head[0])
        & (journal[at + 1] == head[1])
        & (journal[at + 2] == head[2])
        & (journal[at + 3] == head[3])
}

// The kind of the entry at a place, if there is one of the house form.
pub(crate) fn kind_at(journal: &[u8], end: usize, at: usize) -> Option<Kind>
    requires { (at ≤ end) × (end ≤ length journal.now) }
    ensures { number_of_found result ≡ kind_at journal.now end at }
{
    if starts_entry(journal, end, at, Kind::Addition) {
        return Some(Kind::Addition);
    }
    if starts_entry(journal, end, at, Kind::Cancellation) {
        return Some(Kind::Cancellation);
    }
    if starts_entry(journal, end, at, Kind::Amendment) {
        return Some(Kind::Amendment);
    }
    None
}

// ---- writing

// Copies bytes into a part that is as long, one by one: of the library's copy the compiler makes calls of memcpy and memmove, which the archive for C
// would then need from outside.
pub(crate) fn copy(part: &mut [u8], bytes: &[u8])
    requires { length part.old ≡ length bytes.now }
    ensures { part.new ≡ bytes.now }
{
    for i in 0..bytes.len() {
        part[i] = bytes[i];
    }
}

// Writes an entry into a part that is as long.
fn write_entry(part: &mut [u8], kind: Kind, body: &[u8])
    requires { length part.old ≡ length body.now + 4 }
    ensures { part.new ≡ entry (number_of_kind kind) body.now }
{
    copy(&mut part[..4], &kind.head());
    copy(&mut part[4..], body);
}

pub(crate) fn put_entry(journal: &mut [u8], at: usize, kind: Kind, body: &[u8])
    requires { (length body.now ≤ 399) × (at + (length body.now + 4) ≤ length journal.old) }
    ensures { journal.new ≡ overlay journal.old at (entry (number_of_kind kind) body.now) }
{
    let end = at + (body.len() + 4);
    write_entry(&mut journal[at..end], kind, body);
}

// Zeroes the journal from `last` up to `used`.
pub(crate) fn clear_entry(journal: &mut [u8], last: usize, used: usize)
    requires { (last ≤ used) × (used ≤ length journal.old) }
    ensures { journal.new ≡ overlay journal.old last (zeros (used - last)) }
{
    journal[last..used].fill(0);
}

// An index of a file's records by 13 bytes of each: the place of the last record with a key. A caller lends the table that they are noted in.
// With more slots than records, and the table 0 at first, `find` misses none: `NotedFinds`.
#![tactic(auto)]

ghost use Rattle.std.specs.Prelude.{◌≡◌, true, false, cond, ◌+◌, ◌%◌, ◌≤◌, ◌<◌, ltb, length, set, MatchOption};
ghost use Rattle.text.specs.Promises.{Gives};
ghost use Rattle.index.specs.Index.{key_at, has_key, named, hash_of, next, slot_of, slot_number, found, Put};

// x % m, for the sizes that tables have: a remainder by a known power of two is one instruction, by an unknown number a division.
fn among(x: usize, m: usize) -> usize
    requires { 0 < m }
    ensures { (result ≡ x % m) × (result < m) }
{
    match m {
        2048 => x % 2048,
        512 => x % 512,
        128 => x % 128,
        16 => x % 16,
        _ => x % m,
    }
}

// The slot where a walk begins. Odd factors, and bits from the middle of the sum, spread identifiers whose numbers go in steps.
fn hash(key: &[u8; 13], m: usize) -> usize
    requires { 0 < m }
    ensures { (result ≡ hash_of m key.now) × (result < m) }
{
    let front = text::word(&key[1..]) % 0x1_0000_0000;
    let w = text::word(&key[5..]);
    let mixed = front * 0x5bd1_e995
        + w % 0x1_0000_0000 * 0x61c8_8647
        + w / 0x1_0000_0000 * 0x41c6_4e6d;
    among((mixed / 0x1000_0000) as usize, m)
}

// The slot behind s, of m.
fn next(s: usize, m: usize) -> usize
    requires { s < m }
    ensures { (result ≡ next m s) × (result < m) }
{
    if s + 1 < m { s + 1 } else { 0 }
}

// Names record n in slot s. No slot names a record from 65,535 on.
fn note(table: &mut [u16], s: usize, n: usize)
    requires { s < length table.old }
    ensures { table.new ≡ cond (ltb n 65535) (set table.old s (n + 1)) table.old }
{
    if n < 65535 {
        table[s] = (n + 1) as u16;
    }
}

// A file's records by their keys: 13 bytes of each, from one place of its 401.
#[derive(Clone, Copy)]
pub struct Keyed<'a> {
    pub file: &'a [u8],
    pub from: usize,
}

impl<'a> Keyed<'a> {
    // The key of record i, where it has one within its 401 bytes, and in the file.
    fn key_at(self, i: usize) -> Option<&'a [u8; 13]>
        ensures { MatchOption result (has_key self.entry.file.now self.entry.from i ≡ false) (λ key. (has_key self.entry.file.now self.entry.from i ≡ true) × (key.now ≡ key_at self.entry.file.now self.entry.from i)) }
    {
        if self.from > 388 {
            return None;
        }
        let start = i.checked_mul(401)?.checked_add(self.from)?;
        self.file.get(start..)?.first_chunk::<13>()
    }

    // The place of the record that a slot names, and its key: the slot is one more than the place, or 0.
    fn named(self, slot: u16) -> Option<(usize, &'a [u8; 13])>
        ensures { MatchOption result (named self.entry.file.now self.entry.from slot ≡ 0) (λ p. (named self.entry.file.now self.entry.from slot ≡ p.0 + 1) × (p.1.now ≡ key_at self.entry.file.now self.entry.from p.0)) }
    {
        let i = usize::from(slot).checked_sub(1)?;
        let key = self.key_at(i)?;
        Some((i, key))
    }

    // That place alone.
    fn place(self, slot: u16) -> Option<usize>
        ensures { slot_number result ≡ named self.entry.file.now self.entry.from slot }
    {
        let (i, _) = self.named(slot)?;
        Some(i)
    }

    // The slot where the walk for a key ends, if it ends at one.
    fn slot_of(self, table: &[u16], key: &[u8; 13]) -> Option<usize>
        ensures { MatchOption result (slot_of table.now self.entry.file.now self.entry.from key.now ≡ length table.now) (λ s. (s ≡ slot_of table.now self.entry.file.now self.entry.from key.now) × (s < length table.now)) }
    {
        let m = table.len();
        if m == 0 {
            return None;
        }
        let mut s = hash(key, m);
        for _turn in 0..m {
            let Some((_, other)) = self.named(table[s]) else {
                return Some(s);
            };
            let hit = ident::same(other, key);
            if hit {
                return Some(s);
            }
            s = next(s, m);
        }
        None
    }

    // The place of the record that the walk for this key finds.
    pub fn find(self, table: &[u16], key: &[u8]) -> Option<usize>
        ensures { Gives (found table.now self.entry.file.now self.entry.from key.now) (slot_number result) }
    {
        let key = key.as_array::<13>()?;
        let s = self.slot_of(table, key)?;
        self.place(table[s])
    }

    // Notes record n, and gives what `find` would have given for its key before.
    pub fn put(self, table: &mut [u16], n: usize) -> Option<usize>
        ensures { Put table.old self.entry.file.now self.entry.from n result table.new }
    {
        let key = self.key_at(n)?;
        let s = self.slot_of(table, key)?;
        let before = self.place(table[s]);
        note(table, s, n);
        before
    }
}

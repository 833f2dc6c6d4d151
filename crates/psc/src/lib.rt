// The table of postcodes: whether it is right, a number looked up in it, and text read into one.
#![tactic(auto)]

ghost use Rattle.std.specs.Prelude.{◌≡◌, true, cond, ◌≤◌, length, take};
ghost use Rattle.text.specs.Promises.{Gives};
ghost use Rattle.text.specs.Lists.{overlay};
ghost use Rattle.text.specs.Numbers.{number_of};
ghost use Rattle.psc.specs.Table.{right_table};
ghost use Rattle.psc.specs.Search.{found};
ghost use Rattle.psc.specs.Text.{starts_with_line, lines_in, table_in, right_text};
ghost use Rattle.psc.specs.Calls.{TableRead};

use text::Refusal;

// So many entries a table may have, and so many bytes its text.
pub const MOST_ENTRIES: usize = 16_000;

pub const MOST_TEXT: usize = 96_000;

// So many halvings leave none of the entries.
const MOST_LOOKS: usize = 14;

// Whether a table has at most 16,000 entries, rises and does not pass 99999.
pub fn right(table: &[u32]) -> bool
    ensures { Gives (right_table table.now) result }
{
    if table.len() > MOST_ENTRIES {
        return false;
    }
    let Some(highest) = table.last() else {
        return true;
    };
    let mut rises = true;
    // No way out before the end, so that the compiler takes several entries at once.
    for pair in table.windows(2) {
        rises = rises & (pair[0] < pair[1]);
    }
    // Of entries that rise the last is the highest.
    rises && *highest <= 99_999
}

// One of two values, with no branch that the processor would have to guess.
fn choose(first: bool, a: usize, b: usize) -> usize
    ensures { result ≡ cond first a b }
{
    if first { a } else { b }
}

// Whether a number is in a right table, told by at most 14 looks. There is no way out at the entry that is looked for: what is found stays found.
// Not the library's binary_search: of a table that does not rise it says only that an entry it finds is there; `found` says of any table whether one is found.
pub fn find(table: &[u32], n: u64) -> bool
    ensures { Gives (found table.now n) result }
{
    let mut low = 0;
    let mut high = table.len();
    let mut hit = false;
    for _look in 0..MOST_LOOKS {
        if high <= low {
            return hit;
        }
        let middle = low + (high - low) / 2;
        let entry = u64::from(table[middle]);
        hit = hit | (entry == n);
        let less = entry < n;
        low = choose(less, middle + 1, low);
        high = choose(less, high, middle);
    }
    hit
}

// Whether a line is five digits and a line feed.
fn is_line(line: &[u8; 6]) -> bool
    ensures { result ≡ starts_with_line line.now }
{
    text::all_digits(&line[..5]) && line[5] == b'\n'
}

// The number that a line writes.
fn number_in(line: &[u8; 6]) -> u64
    ensures { result ≡ number_of (take 5 line.now) }
{
    text::number(&line[..5])
}

// Whether text is lines of five digits and a line feed, and their numbers make a right table.
fn right_text(text: &[u8]) -> bool
    ensures { result ≡ right_text text.now }
{
    let (lines, rest) = text.as_chunks::<6>();
    if !rest.is_empty() || lines.len() > MOST_ENTRIES {
        return false;
    }
    let mut least: u64 = 0;
    for line in lines {
        if !is_line(line) {
            return false;
        }
        let n = number_in(line);
        if n < least {
            return false;
        }
        least = n + 1;
    }
    true
}

// Puts the numbers of right text at the front of a table. By number of place: behind iter_mut nothing would be known of the entries.
fn fill(text: &[u8], table: &mut [u32])
    requires { (right_text text.now ≡ true) × (lines_in text.now ≤ length table.old) }
    ensures { table.new ≡ overlay table.old 0 (table_in text.now) }
{
    let (lines, _) = text.as_chunks::<6>();
    for (i, line) in lines.iter().enumerate() {
        table[i] = number_in(line) as u32;
    }
}

// Reads text into the front of a lent table, and gives how many entries it has. Refused, it changes nothing.
pub fn read(text: &[u8], table: &mut [u32]) -> Result<usize, Refusal>
    ensures { TableRead text.now table.old result table.new }
{
    if !right_text(text) {
        return Err(Refusal::WrongTable);
    }
    let lines = text.len() / 6;
    if lines > table.len() {
        return Err(Refusal::WrongLength);
    }
    fill(text, table);
    Ok(lines)
}

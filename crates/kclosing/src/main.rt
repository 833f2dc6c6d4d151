// The program for the closing check: reads a K file from standard input and the postcodes that exist from psc.txt, and prints the line of seven
// numbers that says whether the file may be closed.
// Its messages begin as those of the checking program do: both are run by the script `kcheck`.
#![tactic(auto)]

ghost use Rattle.std.specs.Prelude.{◌%◌, ◌≤◌, ◌<◌, ◌≡◌, length};
ghost use Rattle.streams.specs.Counts.{IsPrefixLen};
ghost use Rattle.std.specs.Io.{ReadsAtMost};
ghost use Rattle.posting.specs.Report.{under_text, longest_line, WholeLine};
ghost use Rattle.closing.specs.Closing.{closing_answer};

use std::io;
use std::io::Read;
use std::rt::Files;
use text::Refusal;

// A loop has to end, and nothing says that an input does. None has so many blocks.
const MOST: u64 = 1_000_000_000_000_000_000;

// The line for what was read. There is room for every table and every line, so it is always the whole one.
// The same lines are in `kcheck`, by its report. A public function for both would take the report as a closure and so have a `requires`, which none has;
// and of what is printed no contract can say anything.
fn put_line(text: &[u8], file: &[u8], table: &mut [u32], line: &mut [u8]) -> Result<usize, Refusal>
    requires { (16000 ≤ length table.old) × (longest_line ≤ length line.old) }
    ensures { WholeLine (under_text text.now (λ psc. closing_answer psc file.now)) result line.new }
{
    match psc::read(text, table) {
        Ok(n) => closing::report(file, &table[..n], line),
        Err(_) => posting::put_report(Err(posting::table_refused()), line),
    }
}

fn print_report<R: Print>(rt: &R, text: &[u8], file: &[u8]) -> io::Result<()> {
    let mut table = [0u32; psc::MOST_ENTRIES];
    let mut line = [0u8; posting::LONGEST_LINE];
    let n = put_line(text, file, &mut table, &mut line).unwrap();
    rt.write_all(&line[..n])
}

// Says on standard error what could not be read or written, and why. Where that cannot be said, nothing is.
// Each program has its own: no contract can say what is said there, and each public function has a contract.
fn tell<R: Eprint + AllocGlobal>(rt: &R, what: &str, error: io::Error) {
    let _ = match format!(in rt.alloc(); "{error}") {
        Ok(message) => {
            let why = streams::words(message.as_str());
            eprintln!(rt; "kcheck: {what}: {why}")
        },
        Err(_) => eprintln!(rt; "kcheck: {what}: {error}"),
    };
}

// Reads the table only now: a call that fails for psc.txt must not look as if standard input were not read.
fn report_on<R: Files + Print + Eprint + AllocGlobal>(rt: &R, file: &[u8]) {
    // One byte more than the text of a table has, so that the program sees a longer one.
    let mut text = [0u8; psc::MOST_TEXT + 1];
    // Where there is no psc.txt, the table is empty, and so is its text.
    match streams::read_file(rt, "psc.txt", &mut text) {
        Err(e) => tell(rt, "psc.txt", e),
        Ok(n) => {
            if let Err(e) = print_report(rt, &text[..n], file) {
                tell(rt, "standard output", e);
            }
        },
    }
}

// ---- reading: into one block, which has room for 1,000 records

// Reads on, again and again into the same block, and gives how many bytes came when it was not filled any more.
fn read_on<R: Read>(input: &mut R, block: &mut [u8]) -> io::Result<usize> {
    for _ in 0..MOST {
        let n = streams::read_full(input, block)?;
        if n < block.len() {
            return Ok(n);
        }
    }
    Ok(0)
}

// How many bytes of the block to ask about where it was filled, and so many came last. Above 999 records of 401 bytes the length alone
// decides, 211 or 213 by what is left over of 401. So these are 1,000 records, less what the last one lacks.
fn bytes_to_ask(last: usize, block: &[u8]) -> usize
    requires { length block.now ≡ 401000 }
    ensures { (400599 < result) × (result % 401 ≡ last % 401) × IsPrefixLen result block.now }
{
    let lacking = (401 - last % 401) % 401;
    401000 - lacking
}

// Reads standard input to its end, and gives how many bytes of the block to ask about.
fn read_input<R: Read>(input: &mut R, block: &mut [u8]) -> io::Result<usize>
    requires { length block.old ≡ 401000 }
    ensures { ReadsAtMost result block.new }
{
    let n = streams::read_full(input, block)?;
    if n < block.len() {
        return Ok(n);
    }
    let last = read_on(input, block)?;
    Ok(bytes_to_ask(last, block))
}

fn close_input<R: Files + Print + Eprint + AllocGlobal, F: Read>(
    rt: &R,
    input: &mut F,
    block: &mut [u8],
)
    requires { length block.old ≡ 401000 }
{
    // An input that was not read to its end gets no line.
    match read_input(input, block) {
        Err(e) => tell(rt, "standard input", e),
        Ok(n) => report_on(rt, &block[..n]),
    }
}

fn main(rt: HostRuntime) {
    let mut block = [0u8; 401000];
    close_input(&rt, &mut rt.stdin(), &mut block);
}

// The checking program: reads a K file from standard input and the postcodes that exist from psc.txt, and prints the line of seven numbers
// that reports on the file.
#![tactic(auto)]

ghost use Rattle.std.specs.Prelude.{◌≤◌, length};
ghost use Rattle.posting.specs.Report.{input_answer, under_text, longest_line, WholeLine};

use std::io;
use std::rt::Files;
use text::Refusal;

// The line for what was read. There is room for every table and every line, so it is always the whole one.
// The same lines are in `kclosing`, by its report. A public function for both would take the report as a closure and so have a `requires`, which none has;
// and of what is printed no contract can say anything.
fn put_line(text: &[u8], input: &[u8], table: &mut [u32], line: &mut [u8]) -> Result<usize, Refusal>
    requires { (16000 ≤ length table.old) × (longest_line ≤ length line.old) }
    ensures { WholeLine (under_text text.now (λ psc. input_answer psc input.now)) result line.new }
{
    match psc::read(text, table) {
        Ok(n) => posting::report_input(input, &table[..n], line),
        Err(_) => posting::put_report(Err(posting::table_refused()), line),
    }
}

fn print_report<R: Print>(rt: &R, text: &[u8], input: &[u8]) -> io::Result<()> {
    let mut table = [0u32; psc::MOST_ENTRIES];
    let mut line = [0u8; posting::LONGEST_LINE];
    let n = put_line(text, input, &mut table, &mut line).unwrap();
    rt.write_all(&line[..n])
}

// Says on standard error what could not be read or written, and why. Where that cannot be said, nothing is.
// Each program has its own: no contract can say what is said there, and each public function has a contract.
fn tell<R: Eprint + AllocGlobal>(rt: &R, what: &str, error: io::Error) {
    let _ = match format!(in rt.alloc(); "{error}") {
        Ok(message) => {
            let why = streams::words(message.as_str());
            eprintln!(rt; "kcheck: {what}: {why}")
        },
        Err(_) => eprintln!(rt; "kcheck: {what}: {error}"),
    };
}

// Reads the table only now: a call that fails for psc.txt must not look as if standard input were not read.
fn report_on<R: Files + Print + Eprint + AllocGlobal>(rt: &R, input: &[u8]) {
    // One byte more than the text of a table has, so that the program sees a longer one.
    let mut text = [0u8; psc::MOST_TEXT + 1];
    // Where there is no psc.txt, the table is empty, and so is its text.
    match streams::read_file(rt, "psc.txt", &mut text) {
        Err(e) => tell(rt, "psc.txt", e),
        Ok(n) => {
            if let Err(e) = print_report(rt, &text[..n], input) {
                tell(rt, "standard output", e);
            }
        },
    }
}

fn main(rt: HostRuntime) {
    // One byte more than the program takes, so that it sees a longer input.
    let mut input = [0u8; 64161];
    // An input that was not read to its end gets no line.
    match streams::read_full(&mut rt.stdin(), &mut input) {
        Err(e) => tell(&rt, "standard input", e),
        Ok(n) => report_on(&rt, &input[..n]),
    }
}

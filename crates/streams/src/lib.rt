// Reading that goes on until a buffer is full or the input ends, and what is said of a failure.
#![tactic(auto)]

ghost use Rattle.std.specs.Io.{ReadsAtMost};
ghost use Rattle.streams.specs.Messages.{WordsOf};
ghost use Rattle.streams.specs.Reading.{ReadFull};

use std::io::{ErrorKind, Read};
use std::rt::Files;
use std::{fs, io};

// Reads until the buffer is full, the input ends or a read fails, and gives how many bytes it put at the buffer's start.
// The library's `read_exact` does not say how many came, and its `read_to_end` and `read_vectored` do not fill a lent buffer.
pub fn read_full<R: Read>(reader: &mut R, buffer: &mut [u8]) -> io::Result<usize>
    ensures { ReadFull (R.remaining reader.old) (R.remaining reader.new) result buffer.new }
{
    let mut done = 0;
    while done < buffer.len() {
        let n = reader.read(&mut buffer[done..])?;
        if n == 0 {
            return Ok(done);
        }
        done += n;
    }
    Ok(done)
}

// Likewise of the file of this name; where there is none, nothing comes. A contract has no word for what a file holds.
pub fn read_file<R: Files>(rt: &R, path: &str, buffer: &mut [u8]) -> io::Result<usize>
    ensures { ReadsAtMost result buffer.new }
{
    match fs::open(rt, path) {
        Ok(mut file) => read_full(&mut file, buffer),
        Err(e) if e.kind() == ErrorKind::NotFound => Ok(0),
        Err(e) => Err(e),
    }
}

// The words of a message without the number that std puts behind those of the system.
pub fn words(message: &str) -> &str
    ensures { WordsOf message.now result.now }
{
    match message.split_once(" (os error ") {
        Some((words, _)) => words,
        None => message,
    }
}

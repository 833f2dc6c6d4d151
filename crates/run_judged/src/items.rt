// Files of items: four bytes of length, little-endian, and the bytes, one item behind the other.
// An item's bytes go into a buffer that the caller lends, and so none is too long for the heap.
ghost use Rattle.std.specs.Prelude.{◌+◌, ◌≡◌, length, min, OnOk, IfOk};

use std::io;
use std::io::Read;

// Why no more items of a file are answered.
#[derive(Clone, Copy)]
pub(crate) enum Stop {
    // The file is cut short, or cannot be read.
    CutShort,
    // An item asks for a longer buffer than there is room for.
    TooLong,
    // A line cannot be written.
    Unwritten,
}

// So many bytes at the front of a lent buffer.
pub(crate) fn front(buffer: &mut [u8], n: usize) -> Result<&mut [u8], Stop> {
    buffer.get_mut(..n).ok_or(Stop::TooLong)
}

// A file of items. Within an item, what cannot be read is taken for the end.
#[derive(Drop)]
pub(crate) struct Items<F>(pub(crate) F);

impl<F: Read> Read for Items<F> {
    fn read(&mut self, buf: &mut [u8]) -> io::Result<usize> {
        Ok(self.0.read(buf).unwrap_or(0))
    }
}

// An item, of which so many bytes are still to be read from its file.
#[derive(Drop)]
pub(crate) struct Item<'a, F> {
    pub(crate) input: &'a mut Items<F>,
    pub(crate) left: usize,
}

// The next item of a file; none where the file ends.
pub(crate) fn next<F: Read>(input: &mut Items<F>) -> Result<Option<Item<'_, F>>, Stop> {
    let mut head = [0u8; 4];
    match streams::read_full(&mut input.0, &mut head) {
        Ok(0) => Ok(None),
        Ok(4) => Ok(Some(Item {
            input,
            left: u32::from_le_bytes(head) as usize,
        })),
        _ => Err(Stop::CutShort),
    }
}

impl<F: Read> Item<'_, F> {
    // Fills the buffer with its next bytes.
    pub(crate) fn fill(&mut self, buf: &mut [u8]) -> Result<(), Stop>
        ensures { OnOk result (self.new.left + length buf.new ≡ self.old.left) }
    {
        if self.left < buf.len() {
            return Err(Stop::CutShort);
        }
        self.left -= buf.len();
        match streams::read_full(&mut *self.input, buf) {
            Ok(n) if n == buf.len() => Ok(()),
            _ => Err(Stop::CutShort),
        }
    }

    // Its next so many bytes.
    pub(crate) fn bytes<const N: usize>(&mut self) -> Result<[u8; N], Stop>
        ensures { OnOk result (self.new.left + N ≡ self.old.left) }
    {
        let mut bytes = [0u8; N];
        self.fill(&mut bytes)?;
        Ok(bytes)
    }

    // Reads past what is left of it. Each turn goes on by what came, so there is no range to count.
    pub(crate) fn skip(&mut self) -> Result<(), Stop> {
        while 0 < self.left {
            let mut space = [0u8; 4096];
            let n = self.left.min(space.len());
            match streams::read_full(&mut *self.input, &mut space[..n]) {
                Ok(got) if 0 < got => self.left -= got,
                _ => return Err(Stop::CutShort),
            }
        }
        Ok(())
    }

    // What is left of it: as many bytes as the buffer has room for stand at its start. The others are read past.
    pub(crate) fn take<'b>(&mut self, buf: &'b mut [u8]) -> Result<&'b [u8], Stop>
        ensures { IfOk result (λ front. length front.now ≡ min self.old.left (length buf.old)) }
    {
        let n = self.left.min(buf.len());
        let front = &mut buf[..n];
        self.fill(front)?;
        self.skip()?;
        Ok(front)
    }
}

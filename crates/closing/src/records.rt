// The records of a file that was accepted.
ghost use Rattle.std.specs.Prelude.{◌≡◌, ◌/◌, ◌%◌, ◌≤◌, ◌<◌, length};

// Whole records, no more than 999. (`Held` of batch is of a buffer, which has room behind its records; here the file ends with them.)
#[derive(Clone, Copy)]
pub(crate) struct Records<'a> {
    pub(crate) file: &'a [u8],
    ghost whole: { length file.now % 401 ≡ 0 },
    ghost few: { length file.now / 401 ≤ 999 },
}

impl Records<'_> {
    ghost use Rattle.posting.specs.File.{record_at, records_in};

    pub(crate) fn len(&self) -> usize
        ensures { result ≡ records_in self.now.file.now }
    {
        self.file.len() / 401
    }

    // Record i, without its line end.
    pub(crate) fn at(&self, i: usize) -> &[u8]
        requires { i < records_in self.now.file.now }
        ensures { result.now ≡ record_at self.now.file.now i }
    {
        let start = i * 401;
        &self.file[start..start + 399]
    }
}

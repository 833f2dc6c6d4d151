// A whole file behind the table of each item. The line has the seven numbers of the file check, or of the closing check the first three.
ghost use Rattle.std.specs.Prelude.{◌<◌, length};

use crate::items::{Item, Stop};
use crate::printing::print_line;
use crate::tables;
use posting::{Break, Totals};
use std::io::Read;

pub(crate) fn print_numbers<R: Print>(rt: &R, given: Result<Totals, Break>) -> Result<(), Stop> {
    print_line(rt, &posting::numbers_of(given))
}

// Without the totals.
pub(crate) fn print_break<R: Print>(rt: &R, given: Result<Totals, Break>) -> Result<(), Stop> {
    print_line(rt, &posting::numbers_of(given)[..3])
}

// Reads a file into the lent bytes, and gives those to ask about. Above 999 records of 401 bytes the length alone decides, 211 or
// 213 by what is left over of 401. So a file too long for the buffer is answered as 1,000 records with the same bytes left over.
fn read<'a, F: Read>(mut item: Item<'_, F>, bytes: &'a mut [u8]) -> Result<&'a [u8], Stop>
    requires { 401400 < length bytes.old }
{
    let size = item.left;
    let file = item.take(bytes)?;
    if size < 401401 {
        Ok(file)
    } else {
        Ok(&file[..401000 + size % 401])
    }
}

// Room for 1,000 records and the most that can be left over.
pub(crate) fn answer<F: Read, A: FnOnce(&[u8], &[u32]) -> Result<(), Stop>>(
    mut item: Item<'_, F>,
    answer: A,
) -> Result<(), Stop>
    requires { A.IsAlwaysCallable answer }
{
    let mut table = [0u32; tables::PLACES];
    let mut bytes = [0u8; 401401];
    let psc = tables::read(&mut item, &mut table)?;
    answer(read(item, &mut bytes)?, psc)
}

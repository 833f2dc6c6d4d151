// Tables of postcodes, which stand in front of what is judged: the number of entries in four bytes, then each entry in four.
ghost use Rattle.std.specs.Prelude.{◌≤◌, length, IfOk};

use crate::items::{Item, Stop};
use std::io::Read;

// A judged table may have one entry more than a right one.
pub(crate) const PLACES: usize = psc::MOST_ENTRIES + 1;

// Reads the table in front of an item into the lent one, and gives its entries.
pub(crate) fn read<'a, F: Read>(
    item: &mut Item<'_, F>,
    table: &'a mut [u32],
) -> Result<&'a [u32], Stop>
    ensures { IfOk result (λ entries. length entries.now ≤ length table.old) }
{
    let n = u32::from_le_bytes(item.bytes()?) as usize;
    if table.len() < n {
        return Err(Stop::TooLong);
    }
    // Where not all are there none is read: whoever writes into a pipe is refused at once.
    if item.left / 4 < n {
        return Err(Stop::CutShort);
    }
    let entries = &mut table[..n];
    for entry in entries.iter_mut() {
        *entry = u32::from_le_bytes(item.bytes()?);
    }
    Ok(entries)
}

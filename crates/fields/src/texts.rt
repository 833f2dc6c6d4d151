// 4, 7 to 11, 13, 20, 26: texts and e-mail.
ghost use Rattle.std.specs.Prelude.{◌≡◌, true, cond, ◌≤◌, length, drop, Some, None, IfSome};
ghost use Rattle.std.specs.Int.Bits.{bit_and};
ghost use Rattle.text.specs.Promises.{Gives};
ghost use Rattle.text.specs.Bytes.{every, is_blank, run};
ghost use Rattle.fields.specs.WordTexts.{asks_text, text_at_once};
ghost use Rattle.fields.specs.Texts.{is_text, filled, read_text, is_plain, is_host, is_mail, mail_end, read_mail};

use crate::reading::{Reading, framed};
use layout::WIDTHS;
use text::ByteClass;

const MAIL_WIDTH: usize = WIDTHS[13 - 1];

// A text by how many bytes stand before the spaces at its end.
pub type TextReading = Reading<usize>;

// Bytes of text.
struct Text;

impl ByteClass for Text {
    ghost test = { is_text };

    ghost word_test = { asks_text };

    fn has(b: u8) -> bool {
        matches!(b, 0x20..=0x7E | 0x80..)
    }

    // With t the low seven bits of a byte, t + 60h has bit 7 where t is 20h or more, and t + 1 where it is 7Fh.
    fn has_all(word: u64) -> bool {
        let t = low_bits(word);
        (((t + 0x6060_6060_6060_6060) ^ (t + 0x0101_0101_0101_0101)) | word) & 0x8080_8080_8080_8080
            == 0x8080_8080_8080_8080
    }

    ghost words = { text_at_once };
}

// The low seven bits of each byte of a word.
fn low_bits(w: u64) -> u64
    ensures { (result ≡ bit_and w 9187201950435737471) × (result ≤ 9187201950435737471) }
{
    w & 0x7f7f_7f7f_7f7f_7f7f
}

pub fn all_text(f: &[u8]) -> bool
    ensures { Gives (every is_text f.now) result }
{
    text::every::<Text>(f)
}

// How many bytes stand before the spaces at the end: looked for by eights first, as most of a field is often blank.
fn filled(f: &[u8]) -> usize
    ensures { (result ≡ filled f.now) × (result ≤ length f.now) }
{
    let mut front = f;
    while let Some((before, eight)) = front.split_last_chunk::<8>() {
        if !text::blank(eight) {
            break;
        }
        front = before;
    }
    while let Some((last, before)) = front.split_last() {
        if *last != b' ' {
            break;
        }
        front = before;
    }
    front.len()
}

// Reads a text field of so many bytes. Outside the frame of the other readers, since the search for its end tells blank as well, and would be one
// look more.
pub fn read_text(f: &[u8], width: usize) -> TextReading
    ensures { Gives (read_text width f.now) result }
{
    if f.len() != width {
        return Reading::Malformed;
    }
    let n = filled(f);
    if n == 0 {
        return Reading::Absent;
    }
    if f[0] == b' ' {
        return Reading::Malformed;
    }
    if all_text(&f[..n]) {
        Reading::Value(n)
    } else {
        Reading::Malformed
    }
}

// A byte of an e-mail that is no "@".
fn is_plain(b: u8) -> bool
    ensures { result ≡ is_plain b }
{
    matches!(b, 0x21..=0x7E | 0x80..) && b != b'@'
}

fn plain_run(f: &[u8]) -> usize
    ensures { (result ≡ run is_plain f.now) × (result ≤ length f.now) }
{
    f.iter().take_while(|b| is_plain(**b)).count()
}

// How long a host stands in front of nothing but spaces, with a dot that is neither its first byte nor its last.
fn host_length(f: &[u8]) -> Option<usize>
    ensures { (result ≡ cond (is_host f.now) (Some (run is_plain f.now)) None) × IfSome result (λ n. n ≤ length f.now) }
{
    let n = plain_run(f);
    if n < 2 {
        return None;
    }
    if !f[1..n - 1].contains(&b'.') {
        return None;
    }
    text::blank(&f[n..]).then_some(n)
}

// How many bytes of an e-mail stand before the spaces.
fn mail_end(f: &[u8]) -> Option<usize>
    ensures { result ≡ cond (is_mail f.now) (Some (mail_end f.now)) None }
{
    let at = plain_run(f);
    if at == 0 {
        return None;
    }
    if at == f.len() {
        return None;
    }
    if f[at] != b'@' {
        return None;
    }
    let host = host_length(&f[at + 1..])?;
    Some(at + 1 + host)
}

pub fn read_mail(f: &[u8]) -> TextReading
    ensures { Gives (read_mail f.now) result }
{
    framed(f, MAIL_WIDTH, mail_end)
}

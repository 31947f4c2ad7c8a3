// Bytes and words in lent buffers: parts of a text put from a place on, a text written whole or not at all, words read with 0 past the end.
#![tactic(auto)]

ghost use Rattle.std.specs.Prelude.{◌+◌, ◌<◌, ◌≤◌, min, ◌≡◌, [], ◌∷◌, length, get_or};
ghost use Rattle.std.proofs.lemmas.List.Edits.{sets};
ghost use Rattle.buffers.specs.Digits.{digits_of};
ghost use Rattle.buffers.specs.Line.{rest_of};
ghost use Rattle.buffers.specs.Put.{Puts};
ghost use Rattle.buffers.specs.Write.{Writes};
ghost use Rattle.buffers.specs.Written.{number_of, length_of};

// What a call that writes a file answers: its length, or a number of refusal.
#[derive(Clone, Copy)]
pub enum Written {
    Length(usize),
    Refused(u8),
}

// The number of an answer, 0 for a length; its length, 0 beside a number.
pub fn written_number(w: Written) -> u8
    ensures { result ≡ number_of w }
{
    match w {
        Written::Length(_) => 0,
        Written::Refused(number) => number,
    }
}

pub fn written_length(w: Written) -> usize
    ensures { result ≡ length_of w }
{
    match w {
        Written::Length(n) => n,
        Written::Refused(_) => 0,
    }
}

// A word of 64 bits, and one of 32; 0 past the end.
pub fn word_at(words: &[u64], i: usize) -> u64
    ensures { result ≡ get_or words.now i 0 }
{
    words.get(i).copied().unwrap_or(0)
}

pub fn value_at(values: &[u32], i: usize) -> u32
    ensures { result ≡ get_or values.now i 0 }
{
    values.get(i).copied().unwrap_or(0)
}

// One byte, where there is room. Each put writes from a place on, as far as there is room, and answers where the next byte goes.
pub fn put_byte(out: &mut [u8], at: usize, byte: u8) -> usize
    ensures { Puts out.old at out.new result (byte ∷ []) }
{
    if at < out.len() {
        out[at] = byte;
        return at + 1;
    }
    out.len()
}

pub fn put_word(out: &mut [u8], at: usize, word: &[u8]) -> usize
    ensures { Puts out.old at out.new result word.now }
{
    let mut to = at.min(out.len());
    for byte in word {
        to = put_byte(out, to, *byte);
    }
    to
}

// A digit in ASCII.
fn digit(d: u64) -> u8
    requires { d < 10 }
    ensures { result ≡ 48 + d }
{
    b'0' + d as u8
}

// The digits of n / 10, then the last digit.
pub fn put_digits(out: &mut [u8], at: usize, n: u64) -> usize
    ensures { Puts out.old at out.new result (digits_of n) }
{
    if n < 10 {
        return put_byte(out, at, digit(n));
    }
    let to = put_digits(out, at, n / 10);
    put_byte(out, to, digit(n % 10))
}

// A further word that is a number: a space before it. At most 20 digits.
pub fn put_number(out: &mut [u8], at: usize, n: u64) -> usize
    ensures { Puts out.old at out.new result (32 ∷ digits_of n) × (result ≤ at + 21) }
{
    let a = put_byte(out, at, b' ');
    put_digits(out, a, n)
}

// A line's last word, a number, and the line feed.
pub fn put_last(out: &mut [u8], at: usize, n: u64) -> usize
    ensures { Puts out.old at out.new result (rest_of (digits_of n ∷ [])) × (result ≤ at + 22) }
{
    let a = put_number(out, at, n);
    put_byte(out, a, b'\n')
}

// A text at the front of out, if there is room for all of it; its length in bytes. Else 0, and nothing is written.
pub fn copy_in(text: &[u8], out: &mut [u8]) -> usize
    ensures { Writes out.old out.new result text.now }
{
    if out.len() < text.len() {
        return 0;
    }
    out[..text.len()].copy_from_slice(text);
    text.len()
}

// Values from place `at` on.
pub fn put<T: Copy>(out: &mut [T], at: usize, from: &[T])
    requires { at + length from.now ≤ length out.old }
    ensures { out.new ≡ sets out.old at from.now }
{
    out[at..at + from.len()].copy_from_slice(from);
}

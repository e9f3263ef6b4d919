//! A text in a fixed room.

ghost use Rattle.std.specs.Prelude.{◌≡◌, ◌+◌, ◌*◌, ◌<◌, ◌≤◌, ◌↔◌, [], ◌∷◌, ◌++◌, length, map, take, replicate, decimal, IsOk, OnOk, OnErr};
ghost use Rattle.console_text.specs.Words.{after_spaces};

use std::marker::Model;

// A text of at most `N` bytes; zeros stand after it, so that equal texts are equal buffers. It is not the kit's `ArrayVec`, which is not
// `Copy` as an answer line is, nor its `ArrayString`, which holds UTF-8 alone where a line is any bytes.
#[derive(Clone, Copy, PartialEq, Eq)]
pub struct TextBuffer<const N: usize> {
    bytes: [u8; N],
    len: usize,
}

// Clauses see the text: the first `len` bytes.
impl<const N: usize> Model for TextBuffer<N> {
    ghost use Rattle.std.specs.Prelude.{◌≡◌, ℕ, ◌-◌, ◌≤◌, List, ◌++◌, length, take, drop, replicate};
    ghost use Rattle.std.proofs.Common.{sym, ap, ◌∙◌, take-append-drop, length-take-le};

    ghost Value = { List ℕ };

    ghost view = { λ t. take t.len t.bytes };

    ghost invariant = { λ t. (length t.bytes ≡ N) × (t.len ≤ length t.bytes) × (drop t.len t.bytes ≡ replicate (N - t.len) 0) };

    ghost inverse = { λ text. record { bytes = text ++ replicate (N - length text) 0; len = length text } };

    ghost inverse_ok = { λ t h i. record {
      bytes = (ap (λ n. take t.len t.bytes ++ replicate (N - n) 0) (length-take-le t.len t.bytes h.1)
          ∙ ap (λ room. take t.len t.bytes ++ room) (sym h.2)
          ∙ take-append-drop t.len t.bytes) i;
      len = length-take-le t.len t.bytes h.1 i;
    } };
}

// Why a byte is not written: there is no room for it.
#[derive(Clone, Copy, PartialEq, Eq, Debug)]
pub struct Full;

// Writes zeros over bytes.
fn erase(bytes: &mut [u8])
    ensures { bytes.new ≡ replicate (length bytes.old) 0 }
{
    bytes.fill(0);
}

// Writes the decimal digits of a number to the front, those of its tenth and then the last, and answers how many they are.
fn write_decimal(room: &mut [u8], number: u64) -> usize
    requires { 20 ≤ length room.old }
    ensures digits { take result room.new ≡ decimal number }
    ensures count { result ≡ length (decimal number) }
    ensures few { result ≤ 20 }
    ensures len { length room.new ≡ length room.old }
{
    let before = if number >= 10 {
        write_decimal(room, number / 10)
    } else {
        0
    };
    room[before] = b'0' + (number % 10) as u8;
    before + 1
}

impl<const N: usize> TextBuffer<N> {
    // A text of no bytes.
    pub fn new() -> Self
        ensures { result ≡ [] }
    {
        TextBuffer {
            bytes: [0; N],
            len: 0,
        }
    }

    // The bytes of the text.
    pub fn as_bytes(&self) -> &[u8]
        ensures bytes { result.now ≡ self.now }
        ensures fits { length self.now ≤ N }
    {
        let room = &self.bytes[..];
        &room[..self.len]
    }

    // Writes one byte after the text, if there is room for it.
    pub fn push(&mut self, byte: u8) -> Result<(), Full>
        ensures room { IsOk result ↔ (length self.old < N) }
        ensures written { OnOk result (self.new ≡ self.old ++ byte ∷ []) }
        ensures kept { OnErr result (self.new ≡ self.old) }
    {
        if self.len == N {
            return Err(Full);
        }
        self.bytes[self.len] = byte;
        self.len += 1;
        Ok(())
    }

    // Takes the text back. Zeros take its place, so that this costs no more than the text did.
    pub fn clear(&mut self)
        ensures { self.new ≡ [] }
    {
        erase(&mut self.bytes[..self.len]);
        self.len = 0;
    }

    // Writes more text after the text.
    pub(crate) fn push_text(&mut self, text: &[u8])
        requires { length self.old + length text.now ≤ N }
        ensures { self.new ≡ self.old ++ text.now }
    {
        let end = self.len + text.len();
        let room = &mut self.bytes[..];
        room[self.len..end].copy_from_slice(text);
        self.len = end;
    }

    // Writes the decimal digits of a number after the text.
    pub(crate) fn push_number(&mut self, number: u64)
        requires { length self.old + 20 ≤ N }
        ensures text { self.new ≡ self.old ++ decimal number }
        ensures short { length self.new ≤ length self.old + 20 }
    {
        let mut digits = [0; 20];
        let count = write_decimal(&mut digits, number);
        self.push_text(&digits[..count]);
    }

    // Writes numbers after the text, each after a space.
    pub(crate) fn push_fields(&mut self, numbers: &[u64])
        requires { length self.old + 21 * length numbers.now ≤ N }
        ensures text { self.new ≡ self.old ++ after_spaces (map decimal numbers.now) }
        ensures short { length self.new ≤ length self.old + 21 * length numbers.now }
    {
        for number in numbers {
            self.push_text(b" ");
            self.push_number(*number);
        }
    }
}

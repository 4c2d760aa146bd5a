// Text in a fixed space, numbers in decimal, and the English line of a refusal: what every program that writes needs.
#![tactic(auto)]

pub mod digits;
pub mod english;
pub mod spelled;

ghost use Rattle.std.specs.Prelude.{[], ◌∷◌, ◌++◌, ◌≡◌, ◌+◌, ◌<◌, get_or, length};
ghost use Rattle.text.specs.Numbers.{decimal, fields_of};
ghost use Rattle.text.specs.Text.{text_most, put_of, puts_of};

use std::marker::Model;

// The most bytes of a text. A sheet has 155 with its five figures of 20 digits each; with two more and their names, 209.
pub const TEXT_MOST: usize = 224;

// A text: bytes one behind the other.
#[derive(Clone, Copy)]
pub struct Text {
    bytes: [u8; TEXT_MOST],
    len: usize,
}

// Clauses see its bytes. Behind them stand zeros, so that the bytes tell the whole of it, and it can be copied.
impl Model for Text {
    ghost use Rattle.std.specs.Prelude.{List, ℕ, length, take};
    ghost use Rattle.std.proofs.Common.{arith, length-take-le};
    ghost use Rattle.demand.specs.Inside.Padded.{padded, IsPadded, padded-back};
    ghost use Rattle.text.specs.Text.{text_most};

    ghost Value = { List ℕ };

    ghost view = { λ text. take text.len text.bytes };

    ghost invariant = { λ text. IsPadded text_most text.len text.bytes };

    ghost inverse = { λ xs. record { bytes = padded text_most xs; len = length xs } };

    ghost inverse_ok = { λ text h i. record {
      bytes = padded-back text_most text.len text.bytes h i;
      len = length-take-le text.len text.bytes (omega (arith, h.0, h.1)) i;
    } };
}

impl Text {
    // Its bytes.
    pub fn as_bytes(&self) -> &[u8]
        ensures { result.now ≡ self.now }
    {
        &self.bytes[..self.len]
    }

    // One byte more.
    fn push(&mut self, b: u8)
        requires { length self.old < text_most }
        ensures { self.new ≡ self.old ++ b ∷ [] }
    {
        self.bytes[self.len] = b;
        self.len += 1;
    }
}

pub fn blank() -> Text
    ensures { result ≡ [] }
{
    Text {
        bytes: [0; TEXT_MOST],
        len: 0,
    }
}

// One byte more, where there is room.
pub fn put(mut text: Text, b: u8) -> Text
    ensures { result ≡ put_of text b }
{
    if text.as_bytes().len() < TEXT_MOST {
        text.push(b);
    }
    text
}

// The bytes of s more.
pub fn puts(text: Text, s: &[u8]) -> Text
    ensures { result ≡ puts_of text s.now }
{
    let mut out = text;
    for b in s {
        out = put(out, *b);
    }
    out
}

// The text of the bytes s.
pub fn of(s: &[u8]) -> Text
    ensures { result ≡ puts_of [] s.now }
{
    puts(blank(), s)
}

// The byte at a place, or 0 past the end.
pub fn byte_at(bytes: &[u8], i: usize) -> u8
    ensures { result ≡ get_or bytes.now i 0 }
{
    bytes.get(i).copied().unwrap_or(0)
}

fn digit(n: u64) -> u8
    requires { n < 10 }
    ensures { result ≡ 48 + n }
{
    // Below 10, so that a conversion that can fail would have nothing to tell.
    b'0' + n as u8
}

// A number in decimal.
pub fn number(text: Text, n: u64) -> Text
    ensures { result ≡ puts_of text (decimal n) }
{
    if n < 10 {
        return put(text, digit(n));
    }
    let front = number(text, n / 10);
    put(front, digit(n % 10))
}

// A comma and a number in decimal, for each of the figures.
pub fn fields(text: Text, figures: &[u64]) -> Text
    ensures { result ≡ puts_of text (fields_of figures.now) }
{
    let mut out = text;
    for n in figures {
        out = number(put(out, b','), *n);
    }
    out
}

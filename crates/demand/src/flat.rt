// Lists of numbers in fixed memory: no heap is asked for room.
ghost use Rattle.std.specs.Prelude.{◌∷◌, [], ◌++◌, ◌≡◌, length, ltb, take};
ghost use Rattle.demand.specs.Tests.{pick};

use std::marker::Model;

// A list of at most N numbers.
#[derive(Clone, Copy)]
pub struct Flat<const N: usize> {
    numbers: [u32; N],
    len: usize,
}

// Clauses see the numbers of the list. Behind them stand zeros, so that the numbers tell the whole of it, and it can be copied.
impl<const N: usize> Model for Flat<N> {
    ghost use Rattle.std.specs.Prelude.{List, ℕ, length, take};
    ghost use Rattle.std.proofs.Common.{arith, length-take-le};
    ghost use Rattle.demand.specs.Inside.Padded.{padded, IsPadded, padded-back};

    ghost Value = { List ℕ };

    ghost view = { λ flat. take flat.len flat.numbers };

    ghost invariant = { λ flat. IsPadded N flat.len flat.numbers };

    ghost inverse = { λ xs. record { numbers = padded N xs; len = length xs } };

    ghost inverse_ok = { λ flat h i. record {
      numbers = padded-back N flat.len flat.numbers h i;
      len = length-take-le flat.len flat.numbers (omega (arith, h.0, h.1)) i;
    } };
}

impl<const N: usize> Flat<N> {
    // A list of none.
    pub fn new() -> Self
        ensures { result ≡ [] }
    {
        Flat {
            numbers: [0; N],
            len: 0,
        }
    }

    // The numbers of a slice, or the first N.
    pub fn of(numbers: &[u32]) -> Self
        ensures { result ≡ take N numbers.now }
    {
        let len = numbers.len().min(N);
        let mut places = [0; N];
        places[..len].copy_from_slice(&numbers[..len]);
        Flat {
            numbers: places,
            len,
        }
    }

    // One number more, behind the others, where there is room.
    pub fn push(&mut self, number: u32)
        ensures { self.new ≡ pick (ltb (length self.old) N) (self.old ++ number ∷ []) self.old }
    {
        if self.len < N {
            self.numbers[self.len] = number;
            self.len += 1;
        }
    }

    // The numbers, where they stand.
    pub fn as_slice(&self) -> &[u32]
        ensures { result.now ≡ self.now }
    {
        &self.numbers[..self.len]
    }
}

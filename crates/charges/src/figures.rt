// An answer in words, a number and loads, as a line tells it.
ghost use Rattle.std.specs.Prelude.{◌≡◌};
ghost use Rattle.charges.specs.Figures.{exact_word, charge_word, charge_load, charged_of, refused_of, figures, word_number, numbers_of};

use crate::{Charge, Charged};
use demand::refusal::Refusal;
use verdict::Answer;

// The words of a line; `none` is one of them, so this is no Option.
#[derive(Clone, Copy)]
pub enum Word {
    Fits,
    Misses,
    None,
    Refused,
}

// The exact verdict's word, number and load, then the word and load of each other charge; what does not apply is 0.
#[derive(Clone, Copy)]
pub struct Figures {
    pub exact: Word,
    pub code: u64,
    pub load: u64,
    pub quantum: Word,
    pub quantum_load: u64,
    pub task: Word,
    pub task_load: u64,
}

// Where the number and the load stand among the verdict's numbers.
const CODE: usize = 1;

const LOAD: usize = 5;

fn exact_word(exact: Result<Answer, Refusal>) -> Word
    ensures { result ≡ exact_word exact }
{
    match exact {
        Ok(Answer::Fits { .. }) => Word::Fits,
        Ok(Answer::Misses { .. }) => Word::Misses,
        Err(_) => Word::Refused,
    }
}

fn charge_word(charge: Option<Charge>) -> Word
    ensures { result ≡ charge_word charge }
{
    match charge {
        Some(Charge::Fits { .. }) => Word::Fits,
        Some(Charge::Misses { .. }) => Word::Misses,
        None => Word::None,
    }
}

fn charge_load(charge: Option<Charge>) -> u64
    ensures { result ≡ charge_load charge }
{
    match charge {
        Some(Charge::Fits { load } | Charge::Misses { load }) => load,
        None => 0,
    }
}

// The figures of a charged table.
fn charged(charged: Charged) -> Figures
    ensures { result ≡ charged_of charged }
{
    let numbers = verdict::numbers(charged.exact);
    Figures {
        exact: exact_word(charged.exact),
        code: numbers[CODE],
        load: numbers[LOAD],
        quantum: charge_word(charged.quantum),
        quantum_load: charge_load(charged.quantum),
        task: charge_word(charged.task),
        task_load: charge_load(charged.task),
    }
}

// The figures of an answer.
pub fn of_answer(answer: Result<Charged, Refusal>) -> Figures
    ensures { result ≡ figures answer }
{
    match answer {
        Ok(told) => charged(told),
        Err(refusal) => refused(refusal.number()),
    }
}

// Those of a refusal. By its number: they are promised for each number, those of no refusal too.
pub fn refused(number: u32) -> Figures
    ensures { result ≡ refused_of number }
{
    Figures {
        exact: Word::Refused,
        code: u64::from(number),
        load: 0,
        quantum: Word::None,
        quantum_load: 0,
        task: Word::None,
        task_load: 0,
    }
}

// The number of a word, for those who read numbers alone.
fn number(word: Word) -> u64
    ensures { result ≡ word_number word }
{
    match word {
        Word::Fits => 0,
        Word::Misses => 1,
        Word::Refused => 2,
        Word::None => 3,
    }
}

// How many numbers tell an answer.
pub const NUMBERS: usize = 7;

pub fn numbers(figures: Figures) -> [u64; NUMBERS]
    ensures { result ≡ numbers_of figures }
{
    [
        number(figures.exact),
        figures.code,
        figures.load,
        number(figures.quantum),
        figures.quantum_load,
        number(figures.task),
        figures.task_load,
    ]
}

// The layout of a file, byte by byte: where a reader stands, and where the next byte takes it.
ghost use Rattle.std.specs.Prelude.{◌≡◌};
ghost use Rattle.guard_file.specs.Inside.Steps.{behind, after, after_byte, is_start, noted};

use crate::words;
use crate::words::Kind;
use text::digits;

// The fields of a row, behind its name.
pub const FIELDS: usize = 9;

// The last of them.
const LAST: usize = FIELDS - 1;

// The first number that has more digits than a field may have: 10 are the most.
const NUMBER_LIMIT: u64 = 10_000_000_000;

// The numbers of a row, so far as they are read.
#[derive(Clone, Copy)]
pub struct Row {
    pub values: [u64; FIELDS],
}

// Where the reader stands in the text.
#[derive(Clone, Copy)]
pub enum State {
    // No file starts so.
    Broken,
    // So many bytes of the header.
    Head(usize),
    // The header and a CR.
    HeadCr,
    // The start of a row's line.
    Start,
    // So many bytes of a kind's name.
    Name(Kind, usize),
    // The comma before a field.
    First(Kind, usize),
    // Some digits of it.
    Digits(Kind, usize, u64),
    // A row and a CR.
    RowCr(Kind),
}

fn in_head(k: usize, b: u8) -> State
    ensures { result ≡ after_byte (State.Head k) b }
{
    let header = words::header();
    if k < header.len() {
        if b == header[k] {
            State::Head(k + 1)
        } else {
            State::Broken
        }
    } else if b == b'\r' {
        State::HeadCr
    } else {
        State::Broken
    }
}

// A CR was read: only an LF may follow.
fn at_end(b: u8) -> State
    ensures { result ≡ after_byte State.HeadCr b }
{
    if b == b'\n' {
        State::Start
    } else {
        State::Broken
    }
}

fn at_start(b: u8) -> State
    ensures { result ≡ after_byte State.Start b }
{
    if b == b's' {
        State::Name(Kind::Single, 1)
    } else if b == b'b' {
        State::Name(Kind::Burst, 1)
    } else {
        State::Broken
    }
}

fn in_name(kind: Kind, k: usize, b: u8) -> State
    ensures { result ≡ after_byte (State.Name kind k) b }
{
    if k < words::NAME_LEN {
        if b == text::byte_at(words::name(kind), k) {
            State::Name(kind, k + 1)
        } else {
            State::Broken
        }
    } else if b == b',' {
        State::First(kind, 0)
    } else {
        State::Broken
    }
}

// The byte that ends field j.
fn behind(j: usize) -> u8
    ensures { result ≡ behind j }
{
    if j < LAST { b',' } else { b'\r' }
}

// Where that byte takes the reader.
fn after(kind: Kind, j: usize) -> State
    ensures { result ≡ after kind j }
{
    if j < LAST {
        State::First(kind, j + 1)
    } else {
        State::RowCr(kind)
    }
}

fn in_first(kind: Kind, j: usize, b: u8) -> State
    ensures { result ≡ after_byte (State.First kind j) b }
{
    if words::given(kind, j) {
        if digits::is_digit(b) {
            State::Digits(kind, j, u64::from(digits::worth(b)))
        } else {
            State::Broken
        }
    } else if b == behind(j) {
        after(kind, j)
    } else {
        State::Broken
    }
}

fn in_digits(kind: Kind, j: usize, v: u64, b: u8) -> State
    ensures { result ≡ after_byte (State.Digits kind j v) b }
{
    if b == behind(j) {
        after(kind, j)
    } else if digits::continues(NUMBER_LIMIT, v, b) {
        State::Digits(kind, j, digits::extended(NUMBER_LIMIT, v, b))
    } else {
        State::Broken
    }
}

// Where the byte b takes a reader that stands at st; table files and schedule files have states of their own.
pub fn step(st: State, b: u8) -> State
    ensures { result ≡ after_byte st b }
{
    match st {
        State::Broken => State::Broken,
        State::Head(k) => in_head(k, b),
        State::HeadCr => at_end(b),
        State::Start => at_start(b),
        State::Name(kind, k) => in_name(kind, k, b),
        State::First(kind, j) => in_first(kind, j, b),
        State::Digits(kind, j, v) => in_digits(kind, j, v, b),
        State::RowCr(_) => at_end(b),
    }
}

// Is the reader at the start of a row's line?
pub fn is_start(st: State) -> bool
    ensures { result ≡ is_start st }
{
    matches!(st, State::Start)
}

// The row with the number at which the reader stands.
pub fn note(mut row: Row, st: State) -> Row
    ensures { result.values ≡ noted st row.values }
{
    match st {
        State::Digits(_, j, v) => {
            if j < FIELDS {
                row.values[j] = v;
            }
            row
        }
        _ => row,
    }
}

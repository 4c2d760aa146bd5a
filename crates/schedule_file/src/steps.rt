// The layout of a file, byte by byte: where a reader stands, and where the next byte takes it.
ghost use Rattle.std.specs.Prelude.{◌≡◌};
ghost use Rattle.schedule_file.specs.File.{header};
ghost use Rattle.schedule_file.specs.Inside.Steps.{behind, after, after_byte, is_start};

use demand::table::Kind;
use text::digits;

// The first number that has more digits than a field may have: 10 are the most.
const NUMBER_LIMIT: u64 = 10_000_000_000;

// Which number of a row: its kind, and the numbers before it.
#[derive(Clone, Copy)]
pub enum Place {
    Row(Kind),
    From(Kind, u64),
    To(Kind, u64, u64),
}

// Where the reader stands in the text.
#[derive(Clone, Copy)]
pub enum State {
    // No file starts so.
    Broken,
    // So many bytes of the header.
    Head(usize),
    // The header and a CR.
    HeadCr,
    // The start of a row's line.
    Start,
    // The letter or the comma before a number.
    First(Place),
    // Some digits of it.
    Digits(Place, u64),
    // A row and a CR.
    RowCr(Kind, u64, u64, u64),
}

fn header() -> &'static [u8]
    ensures { result.now ≡ header }
{
    b"row,from,to"
}

fn in_head(k: usize, b: u8) -> State
    ensures { result ≡ after_byte (State.Head k) b }
{
    let header = header();
    if k < header.len() {
        if b == header[k] {
            State::Head(k + 1)
        } else {
            State::Broken
        }
    } else if b == b'\r' {
        State::HeadCr
    } else {
        State::Broken
    }
}

// A CR was read: only an LF may follow.
fn at_end(b: u8) -> State
    ensures { result ≡ after_byte State.HeadCr b }
{
    if b == b'\n' {
        State::Start
    } else {
        State::Broken
    }
}

fn at_start(b: u8) -> State
    ensures { result ≡ after_byte State.Start b }
{
    if b == b'T' {
        State::First(Place::Row(Kind::Task))
    } else if b == b'H' {
        State::First(Place::Row(Kind::Handler))
    } else {
        State::Broken
    }
}

// The byte that ends a number.
fn behind(place: Place) -> u8
    ensures { result ≡ behind place }
{
    match place {
        Place::Row(_) => b',',
        Place::From(_, _) => b',',
        Place::To(_, _, _) => b'\r',
    }
}

// Where that byte takes the reader.
fn after(place: Place, v: u64) -> State
    ensures { result ≡ after place v }
{
    match place {
        Place::Row(kind) => State::First(Place::From(kind, v)),
        Place::From(kind, row) => State::First(Place::To(kind, row, v)),
        Place::To(kind, row, from) => State::RowCr(kind, row, from, v),
    }
}

fn in_first(place: Place, b: u8) -> State
    ensures { result ≡ after_byte (State.First place) b }
{
    if digits::is_digit(b) {
        State::Digits(place, u64::from(digits::worth(b)))
    } else {
        State::Broken
    }
}

fn in_digits(place: Place, v: u64, b: u8) -> State
    ensures { result ≡ after_byte (State.Digits place v) b }
{
    if b == behind(place) {
        after(place, v)
    } else if digits::continues(NUMBER_LIMIT, v, b) {
        State::Digits(place, digits::extended(NUMBER_LIMIT, v, b))
    } else {
        State::Broken
    }
}

// Where the byte b takes a reader that stands at st; table files and files of guards have states of their own.
pub fn step(st: State, b: u8) -> State
    ensures { result ≡ after_byte st b }
{
    match st {
        State::Broken => State::Broken,
        State::Head(k) => in_head(k, b),
        State::HeadCr => at_end(b),
        State::Start => at_start(b),
        State::First(place) => in_first(place, b),
        State::Digits(place, v) => in_digits(place, v, b),
        State::RowCr(_, _, _, _) => at_end(b),
    }
}

// Is the reader at the start of a row's line?
pub fn is_start(st: State) -> bool
    ensures { result ≡ is_start st }
{
    matches!(st, State::Start)
}

// The layout of a file, byte by byte: where a reader stands, and where the next byte takes it.
ghost use Rattle.std.specs.Prelude.{◌≡◌};
ghost use Rattle.layout.specs.Inside.Steps.{behind_period, after_period, behind, after, empty_last, emptied, after_byte, Leads, is_start};

use crate::words;
use crate::words::Columns;
use demand::table::Kind;
use text::digits;

// The first number that has more digits than a field may have: 7 are the most.
const NUMBER_LIMIT: u64 = 10_000_000;

// What stands behind a row's period.
// Three cases, since a header of three columns and one of four go different ways: no Option.
#[derive(Clone, Copy)]
pub enum Last {
    // Nothing: there are three columns.
    NoField,
    // A comma and no number.
    Empty,
    // A comma and the deadline.
    Number(u32),
}

// Which number of a row: its kind, and the numbers before it.
#[derive(Clone, Copy)]
pub enum Place {
    Cost(Kind),
    Period(Kind, u32),
    Deadline(Kind, u32, u32),
}

// Where the reader stands in the text.
#[derive(Clone, Copy)]
pub enum State {
    // No table starts so.
    Broken,
    // So many bytes of the header.
    Head(usize),
    // The header and a CR.
    HeadCr,
    // The start of a row's line.
    Start,
    // So many bytes of a kind's name.
    Name(Kind, usize),
    // The comma before a number.
    First(Place),
    // Some digits of it.
    Digits(Place, u32),
    // A row and a CR.
    RowCr(Kind, u32, u32, Last),
}

fn in_head(columns: Columns, k: usize, b: u8) -> State
    ensures { result ≡ after_byte columns (State.Head k) b }
{
    let header = words::header(columns);
    if k < header.len() {
        if b == header[k] {
            State::Head(k + 1)
        } else {
            State::Broken
        }
    } else if b == b'\r' {
        State::HeadCr
    } else {
        State::Broken
    }
}

// A CR was read: only an LF may follow.
fn at_end(b: u8) -> State
    ensures { Leads State.HeadCr b result }
{
    if b == b'\n' {
        State::Start
    } else {
        State::Broken
    }
}

fn at_start(b: u8) -> State
    ensures { Leads State.Start b result }
{
    if b == b't' {
        State::Name(Kind::Task, 1)
    } else if b == b'h' {
        State::Name(Kind::Handler, 1)
    } else {
        State::Broken
    }
}

fn in_name(kind: Kind, k: usize, b: u8) -> State
    ensures { Leads (State.Name kind k) b result }
{
    let name = words::name(kind);
    if k < name.len() {
        if b == name[k] {
            State::Name(kind, k + 1)
        } else {
            State::Broken
        }
    } else if b == b',' {
        State::First(Place::Cost(kind))
    } else {
        State::Broken
    }
}

fn behind_period(columns: Columns) -> u8
    ensures { result ≡ behind_period columns }
{
    match columns {
        Columns::Three => b'\r',
        Columns::Four => b',',
    }
}

// The byte that ends a number.
fn behind(columns: Columns, place: Place) -> u8
    ensures { result ≡ behind columns place }
{
    match place {
        Place::Cost(_) => b',',
        Place::Period(_, _) => behind_period(columns),
        Place::Deadline(_, _, _) => b'\r',
    }
}

fn after_period(columns: Columns, kind: Kind, c: u32, p: u32) -> State
    ensures { result ≡ after_period columns kind c p }
{
    match columns {
        Columns::Three => State::RowCr(kind, c, p, Last::NoField),
        Columns::Four => State::First(Place::Deadline(kind, c, p)),
    }
}

// Where that byte takes the reader.
fn after(columns: Columns, place: Place, v: u32) -> State
    ensures { result ≡ after columns place v }
{
    match place {
        Place::Cost(kind) => State::First(Place::Period(kind, v)),
        Place::Period(kind, c) => after_period(columns, kind, c, v),
        Place::Deadline(kind, c, p) => State::RowCr(kind, c, p, Last::Number(v)),
    }
}

// A row that ends behind its last comma: a handler's may, a task has a deadline.
fn empty_last(kind: Kind, c: u32, p: u32) -> State
    ensures { result ≡ empty_last kind c p }
{
    match kind {
        Kind::Task => State::Broken,
        Kind::Handler => State::RowCr(Kind::Handler, c, p, Last::Empty),
    }
}

// A CR where a number should start: only the last may be left out.
fn emptied(place: Place) -> State
    ensures { result ≡ emptied place }
{
    match place {
        Place::Cost(_) => State::Broken,
        Place::Period(_, _) => State::Broken,
        Place::Deadline(kind, c, p) => empty_last(kind, c, p),
    }
}

fn in_first(place: Place, b: u8) -> State
    ensures { Leads (State.First place) b result }
{
    if b == b'\r' {
        emptied(place)
    } else if digits::is_digit(b) {
        State::Digits(place, digits::worth(b))
    } else {
        State::Broken
    }
}

fn in_digits(columns: Columns, place: Place, v: u32, b: u8) -> State
    ensures { result ≡ after_byte columns (State.Digits place v) b }
{
    let so_far = u64::from(v);
    if b == behind(columns, place) {
        after(columns, place, v)
    } else if digits::continues(NUMBER_LIMIT, so_far, b) {
        // Below 10^7, so that a conversion that can fail would have nothing to tell.
        State::Digits(place, digits::extended(NUMBER_LIMIT, so_far, b) as u32)
    } else {
        State::Broken
    }
}

// Where the byte b takes a reader that stands at st; schedule files and files of guards have states of their own.
pub fn step(columns: Columns, st: State, b: u8) -> State
    ensures { result ≡ after_byte columns st b }
{
    match st {
        State::Broken => State::Broken,
        State::Head(k) => in_head(columns, k, b),
        State::HeadCr => at_end(b),
        State::Start => at_start(b),
        State::Name(kind, k) => in_name(kind, k, b),
        State::First(place) => in_first(place, b),
        State::Digits(place, v) => in_digits(columns, place, v, b),
        State::RowCr(_, _, _, _) => at_end(b),
    }
}

// Is the reader at the start of a row's line?
pub fn is_start(st: State) -> bool
    ensures { result ≡ is_start st }
{
    matches!(st, State::Start)
}

// The reader: bytes in, the rows of up to 8 guards and the first refusal among them out, or the refusal of a file that breaks the layout.
ghost use Rattle.std.specs.Prelude.{◌≡◌, ◌<◌, min};
ghost use Rattle.guard_file.specs.Inside.Building.{guards_held, bare, stored, pushed, fed, sheet_at_end, sheet_for, outcome};
ghost use Rattle.guard_file.specs.Inside.Handed.{number_most, handed};
ghost use Rattle.guard_file.specs.Inside.Steps.{guard_of};

use crate::steps::{FIELDS, Row, State};
use crate::words::Kind;
use crate::{FILE_MOST, steps};
use demand::refusal::Refusal;
use guards::{Guard, Pair};

// The most guards of a file: two handler rows each.
pub const GUARDS_MOST: usize = 8;

// Three numbers a guard: both costs and the period.
pub const NUMBERS: usize = 3 * GUARDS_MOST;

// The first guard that is refused.
#[derive(Clone, Copy)]
pub struct Refused {
    pub refusal: Refusal,
    pub place: usize,
}

// What a file says: how many guards, 9 for more than 8; the rows of the first of them; and the first refusal among these.
// Fixed memory; the count goes on past the rows that are kept, so it is no length of them.
#[derive(Clone, Copy)]
pub struct Sheet {
    pub count: usize,
    pub numbers: [u64; NUMBERS],
    pub first: Option<Refused>,
}

fn bare() -> Sheet
    ensures { result ≡ bare }
{
    Sheet {
        count: 0,
        numbers: [0; NUMBERS],
        first: None,
    }
}

// A number as the call takes it.
fn capped(v: u64) -> u32
    ensures { result ≡ min v number_most }
{
    // Capped, so that a conversion that can fail would have nothing to tell.
    v.min(u64::from(u32::MAX)) as u32
}

// The guard of a row of these numbers.
fn guard_of(kind: Kind, row: Row) -> Guard
    ensures { result ≡ handed (guard_of kind row.values) }
{
    let values = row.values;
    match kind {
        Kind::Single => Guard::Strict {
            int: capped(values[1]),
            flip: capped(values[2]),
            setup: capped(values[3]),
            work: capped(values[4]),
            expire: capped(values[5]),
            gap: capped(values[8]),
        },
        Kind::Burst => Guard::Bursty {
            n: capped(values[0]),
            int: capped(values[1]),
            flip: capped(values[2]),
            work: capped(values[4]),
            expire: capped(values[5]),
            count: capped(values[6]),
            clear: capped(values[7]),
            gap: capped(values[8]),
        },
    }
}

// The rows of the guard at place k.
fn store(mut numbers: [u64; NUMBERS], k: usize, pair: Pair) -> [u64; NUMBERS]
    requires { k < guards_held }
    ensures { result ≡ stored numbers k pair.interrupt pair.timer pair.period }
{
    numbers[3 * k] = u64::from(pair.interrupt);
    numbers[3 * k + 1] = u64::from(pair.timer);
    numbers[3 * k + 2] = u64::from(pair.period);
    numbers
}

// One guard more, while there is room and nothing is refused; past that it is only counted.
fn push(sheet: Sheet, guard: Guard) -> Sheet
    ensures { result ≡ pushed sheet guard }
{
    let k = sheet.count;
    if GUARDS_MOST <= k {
        return Sheet {
            count: GUARDS_MOST + 1,
            ..sheet
        };
    }
    if sheet.first.is_some() {
        return Sheet {
            count: k + 1,
            ..sheet
        };
    }
    match guards::rows(guard) {
        Ok(pair) => Sheet {
            count: k + 1,
            numbers: store(sheet.numbers, k, pair),
            ..sheet
        },
        Err(refusal) => Sheet {
            count: k + 1,
            first: Some(Refused { refusal, place: k }),
            ..sheet
        },
    }
}

// The sheet after the byte b: it ends a row where a CR and the LF do.
fn feed(sheet: Sheet, st: State, row: Row, b: u8) -> Sheet
    ensures { result ≡ fed sheet st row.values b }
{
    if b == b'\n' {
        match st {
            State::RowCr(kind) => push(sheet, guard_of(kind, row)),
            _ => sheet,
        }
    } else {
        sheet
    }
}

// The sheet at the end of the file: a last line that lacks its CRLF is read as if it had it.
fn close(sheet: Sheet, st: State, row: Row) -> Result<Sheet, Refusal>
    ensures { result ≡ sheet_at_end sheet st row.values }
{
    let cr = steps::step(st, b'\r');
    let lf = steps::step(cr, b'\n');
    if steps::is_start(lf) {
        Ok(feed(sheet, cr, steps::note(row, cr), b'\n'))
    } else if steps::is_start(st) {
        Ok(sheet)
    } else {
        Err(Refusal::FileMalformed)
    }
}

// Reads a whole file.
pub fn read(bytes: &[u8]) -> Result<Sheet, Refusal>
    ensures { result ≡ sheet_for (outcome bytes.now) }
{
    if FILE_MOST < bytes.len() {
        return Err(Refusal::FileMalformed);
    }
    let mut sheet = bare();
    let mut row = Row {
        values: [0; FIELDS],
    };
    let mut st = State::Head(0);
    for b in bytes {
        sheet = feed(sheet, st, row, *b);
        st = steps::step(st, *b);
        row = steps::note(row, st);
    }
    close(sheet, st, row)
}

// The file reader: bytes in, a table out, or the word that the file breaks the layout.
ghost use Rattle.std.specs.Prelude.{◌≡◌, ◌<◌, Ok, Err};
ghost use Rattle.demand.specs.Tests.{pick};
ghost use Rattle.layout.specs.File.{entry};
ghost use Rattle.layout.specs.Inside.Building.{Room, pushed, fed, table_at_end};
ghost use Rattle.layout.specs.Inside.Steps.{columns_of};
ghost use Rattle.layout.specs.Refusals.{TableIn, Misplaced};
ghost use Rattle.layout.specs.Table.{deadline_of, is_number, bare_table, ReadSays};

use crate::steps::{Last, State};
use crate::words::Columns;
use crate::{steps, words};
use demand::flat::Flat;
use demand::refusal;
use demand::refusal::Refusal;
use demand::table::Kind;

// The most bytes of a file.
pub const FILE_MOST: usize = 4096;

// The most rows of a file: 4,096 bytes hold the header's 16, and rows of 10 or more, as "task,1,1" and its CRLF.
const ROWS_MOST: usize = 408;

// The most numbers of a list: three for a row.
const FLAT_MOST: usize = 3 * ROWS_MOST;

// What a file says, and whether a handler has a deadline in it.
#[derive(Clone, Copy)]
pub struct Table {
    pub misplaced: bool,
    pub tasks: Flat<FLAT_MOST>,
    pub handlers: Flat<FLAT_MOST>,
}

impl Table {
    pub fn tasks(&self) -> &[u32]
        ensures { result.now ≡ self.now.tasks }
    {
        self.tasks.as_slice()
    }

    pub fn handlers(&self) -> &[u32]
        ensures { result.now ≡ self.now.handlers }
    {
        self.handlers.as_slice()
    }
}

// A table without rows.
fn bare() -> Table
    ensures { result ≡ bare_table }
{
    Table {
        misplaced: false,
        tasks: Flat::new(),
        handlers: Flat::new(),
    }
}

// The deadline of a task: its period where its row has no number for it.
fn deadline_of(period: u32, last: Last) -> u32
    ensures { result ≡ deadline_of period last }
{
    match last {
        Last::NoField => period,
        Last::Empty => period,
        Last::Number(deadline) => deadline,
    }
}

fn is_number(last: Last) -> bool
    ensures { result ≡ is_number last }
{
    matches!(last, Last::Number(_))
}

// One row more.
fn push(t: &mut Table, kind: Kind, cost: u32, period: u32, last: Last)
    requires { Room t.old }
    ensures { t.new ≡ pushed t.old (entry kind cost period last) }
{
    match kind {
        Kind::Task => {
            t.tasks.push(cost);
            t.tasks.push(period);
            t.tasks.push(deadline_of(period, last));
        }
        Kind::Handler => {
            t.misplaced = is_number(last) | t.misplaced;
            t.handlers.push(cost);
            t.handlers.push(period);
        }
    }
}

// The table after the byte b: it ends a row where a CR and the LF do.
fn feed(t: &mut Table, st: State, b: u8)
    requires { Room t.old }
    ensures { t.new ≡ fed t.old st b }
{
    if b == b'\n' {
        match st {
            State::RowCr(kind, cost, period, last) => push(t, kind, cost, period, last),
            _ => {}
        }
    }
}

// Does the file end in order here? A last line that lacks its CRLF is read as if it had it.
fn close(columns: Columns, t: &mut Table, st: State) -> bool
    requires { Room t.old }
    ensures { pick result (Ok t.new) (Err Refusal.FileMalformed) ≡ table_at_end columns t.old st }
{
    let cr = steps::step(columns, st, b'\r');
    let lf = steps::step(columns, cr, b'\n');
    if steps::is_start(lf) {
        feed(t, cr, b'\n');
        return true;
    }
    steps::is_start(st)
}

// The columns of a file: behind `kind,cost,period` a header of four goes on with a comma.
fn columns_of(bytes: &[u8]) -> Columns
    ensures { result ≡ columns_of bytes.now }
{
    let behind = words::header(Columns::Three).len();
    if text::byte_at(bytes, behind) == b',' {
        Columns::Four
    } else {
        Columns::Three
    }
}

// Reads a whole file: the table of the rows that it says, or the refusal where it breaks the layout.
pub fn read(bytes: &[u8]) -> Result<Table, Refusal>
    ensures { ReadSays bytes.now result }
{
    if FILE_MOST < bytes.len() {
        return Err(Refusal::FileMalformed);
    }
    let columns = columns_of(bytes);
    let mut t = bare();
    let mut st = State::Head(0);
    for b in bytes {
        feed(&mut t, st, *b);
        st = steps::step(columns, st, *b);
    }
    if !close(columns, &mut t, st) {
        return Err(Refusal::FileMalformed);
    }
    Ok(t)
}

// Why a table is refused where a handler has a deadline: its own refusal, or 13.
fn misplaced(read: &Result<Table, Refusal>) -> Option<Refusal>
    ensures { Misplaced read.now result }
{
    match read {
        Ok(table) if table.misplaced => {
            match refusal::of_table(table.tasks(), table.handlers()) {
                Err(own) => Some(own),
                Ok(()) => Some(Refusal::DeadlineOutOfRange),
            }
        }
        _ => None,
    }
}

// The table of a file, where no handler in it has a deadline; one that has is refused by 13, unless the table is refused before.
pub fn table_in(bytes: &[u8]) -> Result<Table, Refusal>
    ensures { TableIn bytes.now result }
{
    // A table moved out of what is read would stand on the stack a second time.
    let read = read(bytes);
    if let Some(refusal) = misplaced(&read) {
        return Err(refusal);
    }
    read
}

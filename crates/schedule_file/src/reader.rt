// The reader: bytes in, segments out, or the refusal of a file that breaks the layout.
ghost use Rattle.std.specs.Prelude.{[], ◌∷◌, ◌≡◌};
ghost use Rattle.schedule_file.specs.File.{entry};
ghost use Rattle.schedule_file.specs.Inside.Building.{added};
ghost use Rattle.schedule_file.specs.Inside.Built.{Grows, Finishes, Closes};
ghost use Rattle.schedule_file.specs.Schedule.{kind_number, filled, listed, ReadSays};

use crate::steps;
use crate::steps::State;
use demand::refusal::Refusal;
use demand::table::Kind;

// The most segments of a file.
const SEGMENTS_MOST: usize = 2048;

// Four numbers a segment.
pub const NUMBERS: usize = 4 * SEGMENTS_MOST;

// What a file says, as segments: four numbers each, zeros behind, and how many numbers there are.
// Fixed memory, and `schedule_of` says the zeros behind.
#[derive(Clone, Copy)]
pub struct Schedule {
    pub len: usize,
    pub numbers: [u64; NUMBERS],
}

impl Schedule {
    // The numbers of its segments.
    pub fn numbers(&self) -> &[u64]
        ensures { result.now ≡ listed self.now }
    {
        &self.numbers[..self.len.min(NUMBERS)]
    }
}

fn zeros() -> [u64; NUMBERS]
    ensures { result ≡ filled [] }
{
    [0; NUMBERS]
}

// As `kind_number` says it, case by case.
fn kind_number(kind: Kind) -> u64
    ensures { result ≡ kind_number kind }
{
    match kind {
        Kind::Task => 0,
        Kind::Handler => 1,
    }
}

// One segment more behind n of them, while there is room; past that they are only counted, as one too many. The answer is their count.
// The four parts of a row, as `entry` takes them, and where they go.
fn push(numbers: &mut [u64; NUMBERS], n: usize, kind: Kind, row: u64, from: u64, to: u64) -> usize
    ensures { Grows n numbers.old (entry kind row from to ∷ []) result numbers.new }
{
    if n < SEGMENTS_MOST {
        let at = 4 * n;
        numbers[at] = kind_number(kind);
        numbers[at + 1] = row;
        numbers[at + 2] = from;
        numbers[at + 3] = to;
        return n + 1;
    }
    SEGMENTS_MOST + 1
}

// The segments after the byte b: it ends a row where a CR and the LF do.
fn feed(numbers: &mut [u64; NUMBERS], n: usize, st: State, b: u8) -> usize
    ensures { Grows n numbers.old (added st b) result numbers.new }
{
    if b == b'\n' {
        match st {
            State::RowCr(kind, row, from, to) => push(numbers, n, kind, row, from, to),
            _ => n,
        }
    } else {
        n
    }
}

// The count of the numbers of n segments, where they are not too many.
fn finished(n: usize) -> Option<usize>
    ensures { Finishes n result }
{
    if SEGMENTS_MOST < n {
        return None;
    }
    Some(4 * n)
}

// The count of the numbers at the end of the file, if it ends in order: a last line that lacks its CRLF is read as if it had it.
fn close(numbers: &mut [u64; NUMBERS], n: usize, st: State) -> Option<usize>
    ensures { Closes n numbers.old st result numbers.new }
{
    let cr = steps::step(st, b'\r');
    let lf = steps::step(cr, b'\n');
    if steps::is_start(lf) {
        let m = feed(numbers, n, cr, b'\n');
        return finished(m);
    }
    if steps::is_start(st) {
        return finished(n);
    }
    None
}

// Reads a whole file: the segments of the rows that it says, or the refusal where it breaks the layout.
pub fn read(bytes: &[u8]) -> Result<Schedule, Refusal>
    ensures { ReadSays bytes.now result }
{
    let mut numbers = zeros();
    let mut n: usize = 0;
    let mut st = State::Head(0);
    for b in bytes {
        n = feed(&mut numbers, n, st, *b);
        st = steps::step(st, *b);
    }
    match close(&mut numbers, n, st) {
        Some(len) => Ok(Schedule { len, numbers }),
        None => Err(Refusal::FileMalformed),
    }
}

// A segment of a lent list, read where it stands: kind, row, from, to. The only place in the code that knows how many numbers it has.
ghost use Rattle.std.specs.Prelude.{◌∷◌, ◌≡◌, ◌+◌, ◌<◌, ◌≤◌, length, drop};
ghost use Rattle.demand.specs.Limits.{tasks_most};
ghost use Rattle.segments.specs.Inside.{place_of, seg_of};
ghost use Rattle.segments.specs.Promise.{misplaced, disordered, unknown};
ghost use Rattle.segments.specs.Segments.{who_of, segments_of, segment_width};

use demand::table::TASKS_MOST;

pub const WIDTH: usize = 4;

#[derive(Clone, Copy)]
pub struct Segment {
    pub kind: u64,
    pub row: u64,
    pub from: u64,
    pub to: u64,
}

// The segment whose first number stands at i.
pub fn at(s: &[u64], i: usize) -> Segment
    requires { i + segment_width ≤ length s.now }
    ensures { segments_of (drop i s.now) ≡ seg_of result ∷ segments_of (drop (i + segment_width) s.now) }
{
    Segment {
        kind: s[i],
        row: s[i + 1],
        from: s[i + 2],
        to: s[i + 3],
    }
}

// The place of its row: tasks stand at 0 and on, handlers behind the most tasks.
pub fn place(s: Segment) -> usize
    requires { s.row < tasks_most }
    ensures { result ≡ place_of s.kind s.row }
{
    // Of a row below 64 the place is the same number: usize has no From of u64, nor u64 one of usize.
    if s.kind == 0 {
        s.row as usize
    } else {
        TASKS_MOST + s.row as usize
    }
}

// Is it of no row of a table of n tasks and m handlers?
fn unknown(n: usize, m: usize, kind: u64, row: u64) -> bool
    ensures { result ≡ unknown n m (who_of kind row) }
{
    // A kind that is no row's is a refusal here, so the number stands as it was lent.
    if kind == 0 {
        return n as u64 <= row;
    }
    if kind == 1 {
        return m as u64 <= row;
    }
    true
}

// Is it of no row, out of order behind tick a, empty, or does it end after the span?
fn misplaced(n: usize, m: usize, span: u64, a: u64, s: Segment) -> bool
    ensures { result ≡ misplaced n m span a (seg_of s) }
{
    unknown(n, m, s.kind, s.row) | (s.from < a) | (s.to <= s.from) | (span < s.to)
}

// Is some segment of a lent list misplaced behind the one before it?
pub fn disordered(n: usize, m: usize, span: u64, s: &[u64]) -> bool
    ensures { result ≡ disordered n m span 0 (segments_of s.now) }
{
    let mut a: u64 = 0;
    for k in 0..s.len() / WIDTH {
        let next = at(s, WIDTH * k);
        if misplaced(n, m, span, a, next) {
            return true;
        }
        a = next.to;
    }
    false
}

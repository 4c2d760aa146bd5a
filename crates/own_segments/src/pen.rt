// Segments written into a lent list, the last one held back until its end is known.
ghost use Rattle.std.specs.Prelude.{◌≡◌, ◌+◌, ◌*◌, ◌≤◌, ◌/◌, length, replicate};
ghost use Rattle.own_segments.specs.Inside.{put_in, closed_count, closed_out, moved_pen, moved_out};
ghost use Rattle.own_segments.specs.Promise.{room_in};

use scheduler::Ran;

// The most segments.
pub const SEGMENTS_MOST: usize = 2048;

pub const WIDTH: usize = 4;

// Who runs since when, and how many segments are written.
#[derive(Clone, Copy, Debug, PartialEq, Eq)]
pub struct Pen {
    pub ran: Ran,
    pub from: u64,
    pub count: usize,
}

// How many segments a list has room for.
pub fn room(out: &[u64]) -> usize
    ensures { result ≡ room_in (length out.now) }
{
    (out.len() / WIDTH).min(SEGMENTS_MOST)
}

// Zeros all over.
pub fn clear(out: &mut [u64])
    ensures { out.new ≡ replicate (length out.old) 0 }
{
    out.fill(0);
}

// One segment more behind so many; nothing where there is no room.
// The four numbers of a segment, as the list has them, and where they go.
fn put(out: &mut [u64], count: usize, kind: u64, row: u64, from: u64, to: u64, room: usize)
    requires { room ≤ room_in (length out.old) }
    ensures { out.new ≡ put_in out.old count kind row from to room }
{
    if count < room {
        let k = WIDTH * count;
        out[k] = kind;
        out[k + 1] = row;
        out[k + 2] = from;
        out[k + 3] = to;
    }
}

// The held segment ends at this tick: how many there are then.
pub fn closed(pen: Pen, tick: u64, room: usize, out: &mut [u64]) -> usize
    requires { (room ≤ room_in (length out.old)) × (pen.count ≤ room + 1) }
    ensures { (result ≡ closed_count pen) × (out.new ≡ closed_out out.old pen tick room) }
{
    match pen.ran {
        Ran::Handler { row } => {
            // 1 is the number of a handler in a lent list, 0 that of a task; u64 has no From of usize.
            put(out, pen.count, 1, row as u64, pen.from, tick, room);
            pen.count + 1
        }
        Ran::Task { row } => {
            put(out, pen.count, 0, row as u64, pen.from, tick, room);
            pen.count + 1
        }
        Ran::Idle => pen.count,
    }
}

// From this tick on ran runs.
pub fn moved(pen: Pen, ran: Ran, tick: u64, room: usize, out: &mut [u64]) -> Pen
    requires { (room ≤ room_in (length out.old)) × (pen.count ≤ room + 1) }
    ensures { (result ≡ moved_pen pen ran tick) × (out.new ≡ moved_out out.old pen ran tick room) }
{
    if pen.ran == ran {
        return pen;
    }
    let count = closed(pen, tick, room, out);
    Pen {
        ran,
        from: tick,
        count,
    }
}

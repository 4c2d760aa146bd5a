// Events carried in order, so that a walk along them divides nothing.
#![tactic(auto)]

ghost use Rattle.std.specs.Prelude.{◌++◌, ◌≡◌, ◌+◌, ◌<◌, ◌≤◌, length, take, drop};
ghost use Rattle.walk.specs.Queue.{head, insert, Twin, CanTakeTo, CanTake, Taken, CanAdd, Added};

// Events that come a period apart, each with this cost: the next of them. Entries stand in order of their next events.
#[derive(Clone, Copy)]
pub struct Entry {
    pub next: u64,
    pub cost: u64,
    pub period: u64,
}

impl Entry {
    // What a free place holds.
    pub const NONE: Entry = Entry {
        next: 0,
        cost: 0,
        period: 0,
    };
}

// Moves the entries behind place k up until e stands in its place.
fn settle(q: &mut [Entry], k: usize, e: Entry)
    requires { k < length q.old }
    ensures { q.new ≡ take k q.old ++ insert e (drop (k + 1) q.old) }
{
    let last = q.len() - 1;
    for i in k..last {
        let other = q[i + 1];
        if e.next <= other.next {
            q[i] = e;
            return;
        }
        q[i] = other;
    }
    q[last] = e;
}

// Takes every event up to tick n; the answer is the sum carried with their costs.
pub fn take_to(q: &mut [Entry], sum: u64, n: u64) -> u64
    requires { CanTakeTo n q.old sum }
    ensures { Taken n q.old sum q.new result }
{
    if q.is_empty() {
        return sum;
    }
    let mut s = sum;
    // No `for`: how many events come up to n, the entries tell on the way.
    while q[0].next <= n {
        let e = q[0];
        settle(
            q,
            0,
            Entry {
                next: e.next + e.period,
                cost: e.cost,
                period: e.period,
            },
        );
        s += e.cost;
    }
    s
}

// Takes every event of the first one's tick; the answer is the sum carried with their costs.
pub fn take(q: &mut [Entry], sum: u64) -> u64
    requires { CanTake q.old sum }
    ensures { Taken (head q.old).next q.old sum q.new result }
{
    let n = q[0].next;
    take_to(q, sum, n)
}

// The first place from k on of an entry with the events of e.
fn twin(q: &[Entry], k: usize, e: Entry) -> Option<usize>
    requires { k ≤ length q.now }
    ensures { Twin q.now k e result }
{
    for i in k..q.len() {
        if (q[i].next == e.next) & (q[i].period == e.period) {
            return Some(i);
        }
    }
    None
}

// Adds e to the entries from place k on: to one that has the same events, or in its place among them, for which they start a place
// sooner. The answer is where they start.
pub fn add(q: &mut [Entry], k: usize, e: Entry) -> usize
    requires { CanAdd e k q.old }
    ensures { Added e k q.old result q.new }
{
    match twin(q, k, e) {
        Some(i) => {
            q[i].cost += e.cost;
            k
        }
        None => {
            settle(q, k - 1, e);
            k - 1
        }
    }
}

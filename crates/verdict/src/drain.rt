// The idle point: where all rows' work, along the arrivals a of tasks and b of handlers, is no more than the ticks that have passed.
ghost use Rattle.verdict.specs.Inside.Drain.{CanTakeBoth, TakenBoth, CanClimb, Climbed};

use walk::Entry;

// Takes every arrival up to tick n; the answer is the sum carried with their work.
pub fn take_to(a: &mut [Entry], b: &mut [Entry], sum: u64, n: u64) -> u64
    requires { CanTakeBoth n a.old b.old sum }
    ensures { TakenBoth n a.old b.old sum a.new b.new result }
{
    let s = walk::take_to(a, sum, n);
    walk::take_to(b, s, n)
}

// From what is asked for by an earlier tick to what is asked for by that many ticks, and so on, until that is n or more, or no more than
// the ticks: then it is the idle point.
pub fn climb(a: &mut [Entry], b: &mut [Entry], asked: u64, n: u64) -> u64
    requires { CanClimb a.old b.old asked n }
    ensures { Climbed a.old b.old asked n a.new b.new result }
{
    let mut s = asked;
    // No `for`: each tick is the work that is asked for by the one before it.
    while s < n {
        let more = take_to(a, b, s, s);
        if more == s {
            return s;
        }
        s = more;
    }
    s
}

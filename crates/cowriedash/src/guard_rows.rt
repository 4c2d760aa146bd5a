// Rows for guarded interrupts for C.
ghost use Rattle.std.specs.Prelude.{◌≡◌};
ghost use Rattle.cowriedash.specs.GuardRows.{guard_of, row_numbers, GuardTold};

use demand::refusal::Refusal;
use guards::{Guard, Pair};

// How many counts a guard is given by: n, int, flip, setup, work, expire, count, clear, gap.
pub const COUNTS: usize = 9;

// The guard of these counts. A strict one has no n, count or clear, a bursty one no setup: what stands in their place is not read.
fn guard_of(bursty: bool, counts: &[u32; COUNTS]) -> Guard
    ensures { result ≡ guard_of bursty counts.now }
{
    // The flag is how C tells the two guards apart; behind it they are an enum.
    if bursty {
        Guard::Bursty {
            n: counts[0],
            int: counts[1],
            flip: counts[2],
            work: counts[4],
            expire: counts[5],
            count: counts[6],
            clear: counts[7],
            gap: counts[8],
        }
    } else {
        Guard::Strict {
            int: counts[1],
            flip: counts[2],
            setup: counts[3],
            work: counts[4],
            expire: counts[5],
            gap: counts[8],
        }
    }
}

// The numbers of an answer: the refusal's number or 0, both costs, then the period.
fn row_numbers(answer: Result<Pair, Refusal>) -> [u64; 4]
    ensures { result ≡ row_numbers answer }
{
    match answer {
        Ok(
            Pair {
                interrupt,
                timer,
                period,
            },
        ) => [0, u64::from(interrupt), u64::from(timer), u64::from(period)],
        Err(refusal) => [u64::from(refusal.number()), 0, 0, 0],
    }
}

// The two handler rows of a guard: the refusal's number or 0, the costs of interrupt and timer, and their period.
#[unsafe(no_mangle)]
pub extern "C" fn cowriedash_guard_rows(bursty: bool, counts: &[u32; COUNTS], out: &mut [u64; 4])
    ensures { GuardTold bursty counts.now out.new }
{
    *out = row_numbers(guards::rows(guard_of(bursty, counts)));
}

// Rows for guarded interrupts: what a guard that limits a device's interrupts in software adds to the handlers of a table.
#![tactic(auto)]

ghost use Rattle.std.specs.Prelude.{◌≡◌, ◌+◌, ◌<◌};
ghost use Rattle.demand.specs.Refusals.{row_outside};
ghost use Rattle.guards.specs.Answers.{RowsSay};
ghost use Rattle.guards.specs.Guards.{handler_row};
ghost use Rattle.guards.specs.Inside.{rows_by};

use demand::refusal::Refusal;
use demand::table::outside;

// The most interrupts of a burst.
pub const BURST_MOST: u64 = 1_000;

// A guard by its measured tick counts: strict, one interrupt a gap; or bursty, n of them.
#[derive(Clone, Copy)]
pub enum Guard {
    Strict {
        int: u32,
        flip: u32,
        setup: u32,
        work: u32,
        expire: u32,
        gap: u32,
    },
    Bursty {
        n: u32,
        int: u32,
        flip: u32,
        work: u32,
        expire: u32,
        count: u32,
        clear: u32,
        gap: u32,
    },
}

// The costs of both handler rows, interrupt and timer, and their one period.
#[derive(Clone, Copy)]
pub struct Pair {
    pub interrupt: u32,
    pub timer: u32,
    pub period: u32,
}

// The two handler rows of a guard.
pub fn rows(guard: Guard) -> Result<Pair, Refusal>
    ensures { RowsSay guard result }
{
    match guard {
        Guard::Strict {
            int,
            flip,
            setup,
            work,
            expire,
            gap,
        } => ranged(
            three(int, flip, setup) + u64::from(work),
            u64::from(expire) + u64::from(flip),
            u64::from(gap),
        ),
        Guard::Bursty {
            n,
            int,
            flip,
            work,
            expire,
            count,
            clear,
            gap,
        } => {
            let n = u64::from(n);
            if (n == 0) | (BURST_MOST < n) {
                return Err(Refusal::BurstOutOfRange);
            }
            ranged(
                n * three(int, work, count) + u64::from(flip),
                three(expire, clear, flip),
                u64::from(gap),
            )
        }
    }
}

// Three counts in one.
fn three(a: u32, b: u32, c: u32) -> u64
    ensures { (result ≡ a + b + c) × (result < 12884901888) }
{
    u64::from(a) + u64::from(b) + u64::from(c)
}

// Is a handler row of this cost and this period out of range?
fn row_outside(cost: u64, period: u64) -> bool
    ensures { result ≡ row_outside (handler_row cost period) }
{
    outside(cost) | outside(period)
}

// The rows of these costs and this period, or 3 where one is out of range.
fn ranged(interrupt: u64, timer: u64, period: u64) -> Result<Pair, Refusal>
    ensures { result ≡ rows_by interrupt timer period }
{
    if row_outside(interrupt, period) | row_outside(timer, period) {
        return Err(Refusal::RowOutOfRange);
    }
    Ok(Pair {
        // In range, so below 2^32: a conversion that can fail would have nothing to tell.
        interrupt: interrupt as u32,
        timer: timer as u32,
        period: period as u32,
    })
}

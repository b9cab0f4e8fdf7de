// Times of calls, and how they are printed.
use std::fmt;
use std::rt::Clock;
use std::time::{Duration, Instant};

// How often each call, or each round of short calls, is timed; the least time counts.
pub const ROUNDS: u32 = 21;

// A round of short calls is made as long as this.
const ROUND_NANOS: u128 = 2_000_000;

// The time of one call, in tenths of a nanosecond.
#[derive(Clone, Copy)]
pub struct CallTime {
    tenths: u128,
}

impl CallTime {
    pub const MAX: CallTime = CallTime { tenths: u128::MAX };

    pub fn of(round: Duration, calls: u32) -> CallTime {
        let tenths = round.as_nanos().saturating_mul(10);
        CallTime {
            tenths: tenths / u128::from(calls.max(1)),
        }
    }

    pub fn least(self, other: CallTime) -> CallTime {
        CallTime {
            tenths: self.tenths.min(other.tenths),
        }
    }

    // How many times as long the other call takes, in thousandths.
    pub fn ratio(self, other: CallTime) -> u128 {
        other.tenths.saturating_mul(1000) / self.tenths.max(1)
    }
}

impl fmt::Display for CallTime {
    fn fmt<W: fmt::Write>(&self, f: &mut fmt::Formatter<W>) -> fmt::Result {
        let whole = self.tenths / 10;
        let part = self.tenths % 10;
        write!(f, "{whole:>11}.{part}")
    }
}

// A short call that is made many times; the turn varies what it is asked.
pub trait Work {
    fn call(&mut self, turn: u16) -> bool;
}

// The time of one round, and how many calls answered yes.
fn time_round<C: Clock, W: Work>(
    clock: &C,
    work: &mut W,
    calls: u32,
) -> anyhow::Result<(Duration, u32)> {
    let mut yes = 0u32;
    let mut turn = 0u16;
    let start = Instant::now(clock)?;
    for _ in 0..calls {
        yes = yes.saturating_add(u32::from(work.call(turn)));
        turn = turn.wrapping_add(1);
    }
    Ok((start.elapsed(clock)?, yes))
}

// How many calls make a round that is long enough to be timed.
fn calls_in_round<C: Clock, W: Work>(clock: &C, work: &mut W) -> anyhow::Result<u32> {
    let mut calls = 1u32;
    for _ in 0..16 {
        let (time, _) = time_round(clock, work, calls)?;
        if time.as_nanos() >= ROUND_NANOS {
            return Ok(calls);
        }
        calls = calls.saturating_mul(2);
    }
    Ok(calls)
}

// The rounds of one kind of call so far.
#[derive(Clone, Copy)]
pub struct Rounds {
    pub best: CallTime,
    calls: u32,
    made: u64,
    yes: u64,
}

impl Rounds {
    fn new(calls: u32) -> Rounds {
        Rounds {
            best: CallTime::MAX,
            calls,
            made: 0,
            yes: 0,
        }
    }

    fn one_more<C: Clock, W: Work>(self, clock: &C, work: &mut W) -> anyhow::Result<Rounds> {
        let (time, yes) = time_round(clock, work, self.calls)?;
        Ok(Rounds {
            best: self.best.least(CallTime::of(time, self.calls)),
            calls: self.calls,
            made: self.made.saturating_add(u64::from(self.calls)),
            yes: self.yes.saturating_add(u64::from(yes)),
        })
    }

    // What all calls answered; None where they did not agree.
    pub fn answer(self) -> Option<bool> {
        if self.yes == 0 {
            Some(false)
        } else if self.yes == self.made {
            Some(true)
        } else {
            None
        }
    }
}

// Rounds of both in turn, so that what else the machine does falls on both alike.
pub fn time_both<C: Clock, A: Work, B: Work>(
    clock: &C,
    a: &mut A,
    b: &mut B,
) -> anyhow::Result<(Rounds, Rounds)> {
    let mut first = Rounds::new(calls_in_round(clock, a)?);
    let mut second = Rounds::new(calls_in_round(clock, b)?);
    for _ in 0..ROUNDS {
        first = first.one_more(clock, a)?;
        second = second.one_more(clock, b)?;
    }
    Ok((first, second))
}

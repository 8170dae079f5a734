//! What all threads did together, and how it is printed.

use super::seats::{Seat, Tally, Work};
use board_share::Naming;
use mark_types::Judge;
use std::io;

/// How often something was done, and how often in a second.
#[derive(Clone, Copy)]
pub(super) struct Rate {
    pub(super) count: u64,
    pub(super) in_a_second: u64,
}

/// What the workers did together, the sessions, and those that looked.
#[derive(Clone, Copy)]
pub(super) struct Rates {
    pub(super) claimed: Rate,
    pub(super) finished: Rate,
    pub(super) published: Rate,
    pub(super) looked: Rate,
    /// How many nanoseconds 999 of 1,000 looks took at most.
    pub(super) slow_look: u64,
    pub(super) dropped: u64,
    /// How many nanoseconds the workers took, and how many of them they were inside `claim` and
    /// `finish`.
    pub(super) nanos: u64,
    pub(super) inside: u64,
    pub(super) failed: bool,
}

impl Rate {
    const NONE: Rate = Rate {
        count: 0,
        in_a_second: 0,
    };

    /// Something is done so often in so many nanoseconds beside it.
    fn and(self, count: u64, nanos: u64) -> Rate {
        let rate = match u128::from(count)
            .wrapping_mul(1_000_000_000)
            .checked_div(u128::from(nanos))
        {
            None => 0,
            Some(rate) => u64::try_from(rate).unwrap_or(u64::MAX),
        };
        Rate {
            count: self.count.wrapping_add(count),
            in_a_second: self.in_a_second.wrapping_add(rate),
        }
    }
}

/// What all threads did.
pub(super) fn rates_of<J: Judge + Drop, D: Naming>(seats: &mut [Seat<J, D>]) -> Rates {
    let mut rates = Rates {
        claimed: Rate::NONE,
        finished: Rate::NONE,
        published: Rate::NONE,
        looked: Rate::NONE,
        slow_look: 0,
        dropped: 0,
        nanos: 0,
        inside: 0,
        failed: false,
    };
    for seat in seats {
        rates = with(rates, seat.tally);
        rates.slow_look = rates.slow_look.max(slow_of(&mut seat.looks));
        rates.failed = rates.failed || seat.failed;
    }
    rates
}

/// The time that 999 of 1,000 looks took at most.
fn slow_of(looks: &mut Vec<u64>) -> u64 {
    looks.sort_unstable();
    let place = looks.len() - looks.len() / 1000;
    match looks.get(place.saturating_sub(1)) {
        None => 0,
        Some(nanos) => *nanos,
    }
}

/// What a thread did, beside what others did.
fn with(rates: Rates, tally: Tally) -> Rates {
    let Tally {
        claimed,
        finished,
        dropped,
        published,
        looked,
        nanos,
        inside,
    } = tally;
    let worked = if claimed > 0 { nanos } else { 0 };
    Rates {
        claimed: rates.claimed.and(claimed, nanos),
        finished: rates.finished.and(finished, nanos),
        published: rates.published.and(published, nanos),
        looked: rates.looked.and(looked, nanos),
        dropped: rates.dropped.wrapping_add(dropped),
        nanos: rates.nanos.wrapping_add(worked),
        inside: rates.inside.wrapping_add(inside),
        ..rates
    }
}

/// Prints what was done; how fast, where a time was asked for.
pub(super) fn print(rt: &impl Print, work: Work, rates: &Rates) -> io::Result<()> {
    if rates.failed {
        println!(rt; "a thread failed")?;
    }
    let Rates {
        claimed,
        finished,
        published,
        looked,
        slow_look,
        dropped,
        nanos,
        inside,
        ..
    } = *rates;
    if work.seconds == 0 {
        println!(rt; "claimed {}\nfinished {}", claimed.count, finished.count)?;
        println!(rt; "published {}\nlooked {}", published.count, looked.count)?;
    } else {
        println!(rt; "claimed {} {}", claimed.count, claimed.in_a_second)?;
        println!(rt; "finished {} {}", finished.count, finished.in_a_second)?;
        println!(rt; "published {} {}", published.count, published.in_a_second)?;
        println!(rt;
            "looked {} {} {slow_look}",
            looked.count, looked.in_a_second
        )?;
        println!(rt; "dropped {dropped}\ninside {inside} {nanos}")?;
    }
    Ok(())
}

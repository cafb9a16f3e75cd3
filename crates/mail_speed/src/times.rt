//! Times of a task.

use crate::tasks;
use std::alloc::{AllocError, Global};
use std::io;
use std::rt::Clock;
use std::time::Instant;

/// Returns the nanoseconds that each round of a task takes, the least first.
pub fn times_of(
    clock: &impl Clock,
    alloc: Global,
    name: &str,
    input: &[u8],
    rounds: usize,
) -> io::Result<Vec<u64>> {
    let mut times = Vec::new(alloc);
    for _round in 0..rounds {
        let start = Instant::now(clock)?;
        let _size = tasks::run(alloc, name, input);
        let taken = start.elapsed(clock)?;
        let nanoseconds = taken
            .as_secs()
            .saturating_mul(1_000_000_000)
            .saturating_add(u64::from(taken.subsec_nanos()));
        match times.push(nanoseconds) {
            Ok(()) => {}
            Err(e) => return Err(AllocError::from(e).into()),
        }
    }
    times.sort_unstable();
    Ok(times)
}

/// Returns the picoseconds of a time for each of `bytes` bytes; 0 if there is no time or no byte.
pub fn for_each_byte(time: Option<&u64>, bytes: usize) -> u64 {
    let picoseconds = time.copied().unwrap_or(0).saturating_mul(1000);
    picoseconds.checked_div(bytes as u64).unwrap_or(0)
}

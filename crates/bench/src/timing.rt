//! Times in nanoseconds, and plain calls of SHA-256.

use sha2::{Digest, Sha256};
use std::io;
use std::time::{Clock, CpuClock, Instant};

/// The time since then.
pub fn since(clock: &impl Clock, start: &Instant) -> io::Result<u64> {
    let nanoseconds = start.elapsed(clock)?.as_nanos();
    Ok(u64::try_from(nanoseconds).unwrap_or(u64::MAX))
}

/// The processor time that this program has used.
pub fn used(clock: &impl CpuClock) -> io::Result<u64> {
    let nanoseconds = clock.process_cpu_time()?.as_nanos();
    Ok(u64::try_from(nanoseconds).unwrap_or(u64::MAX))
}

/// Makes so many plain calls of SHA-256 on 55 bytes, which are one compression each.
fn call_plainly(calls: u64) {
    let mut bytes = [1u8; 55];
    for _ in 0..calls {
        // The next call needs this one's answer, so that none is left out.
        bytes[0] = Sha256::digest(&bytes)[0];
    }
}

/// The time of so many plain calls.
pub fn plain_calls(clock: &impl Clock, calls: u64) -> io::Result<u64> {
    let start = Instant::now(clock)?;
    call_plainly(calls);
    since(clock, &start)
}

/// The processor time of so many plain calls.
pub fn plain_calls_used(clock: &impl CpuClock, calls: u64) -> io::Result<u64> {
    let start = used(clock)?;
    call_plainly(calls);
    Ok(used(clock)?.saturating_sub(start))
}

/// How many thousandths of `whole` are `part`.
pub fn thousandths(part: u64, whole: u64) -> u64 {
    part.saturating_mul(1000) / whole.max(1)
}

/// How often `part` holds `whole`, in ones and thousandths.
pub fn ratio(part: u64, whole: u64) -> (u64, u64) {
    let thousandths = thousandths(part, whole);
    (thousandths / 1000, thousandths % 1000)
}

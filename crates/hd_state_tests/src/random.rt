//! Random numbers for tests, the same in each run.

/// The next of a row of random numbers (Marsaglia's xorshift with 64 bits).
pub fn next_random(x: u64) -> u64 {
    let x = x ^ (x << 13);
    let x = x ^ (x >> 7);
    x ^ (x << 17)
}

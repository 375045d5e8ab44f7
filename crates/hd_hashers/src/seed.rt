//! The secret of the hashes of IDs.
use std::random::RandomSource;

/// A random number for the hashes of IDs, so that who makes a dump can't know which IDs meet. No answer depends on it. Where
/// the system gives no random bytes it is a fixed number.
pub fn secret<R: RandomSource>(rt: &R) -> u64 {
    let mut bytes = [0; 8];
    let _ = rt.fill_bytes(&mut bytes);
    u64::from_le_bytes(bytes) ^ 0x9e37_79b9_7f4a_7c15
}

//! Scattering numbers by a secret.
ghost use Rattle.std.specs.Prelude.{◌≡◌};
ghost use Rattle.hd_hashers.specs.Scatter as scatter;

/// A number scattered over 64 bits, best in the upper ones. The secret is odd.
///
/// A product by an odd number tells apart numbers that differ by a high power of 2 in its top bits alone. So these are
/// folded into the lower ones, and the second product carries them on.
pub(crate) fn scattered(number: u64, secret: u64) -> u64
    ensures { result ≡ scatter.scattered secret number }
{
    let product = number.wrapping_mul(secret);
    (product ^ (product >> 32)).wrapping_mul(secret)
}

//! Sharing segments out among workers, by their bytes.
ghost use Rattle.std.specs.Prelude.{◌≡◌, ◌≤◌, ◌<◌, ℕ, length, IfOk};
ghost use Rattle.hd_decode.specs.Bodies.{span_total};
ghost use Rattle.hd_decode.specs.Shares.{AreShares, IsSharedOut, middle};

use hd_terms::Span;
use std::alloc::{AllocError, Global};

/// The bytes of segments together.
fn bytes_of(spans: &[Span]) -> u64
    requires { span_total spans.now ≤ 2147483647 }
    ensures { result ≡ span_total spans.now }
{
    let mut bytes = 0;
    for i in 0..spans.len() {
        bytes += spans[i].len;
    }
    bytes
}

/// How many segments at the front make a share of about `bytes` bytes: those whose middles lie within it.
fn share_len(spans: &[Span], bytes: u64) -> usize
    requires { span_total spans.now ≤ 2147483647 }
    ensures within { result ≤ length spans.now }
    ensures before { (i : ℕ) → i < result → middle spans.now i ≤ bytes }
    ensures after { result < length spans.now → bytes < middle spans.now result }
{
    let mut before = 0;
    for i in 0..spans.len() {
        let len = spans[i].len;
        if bytes < before + len / 2 {
            return i;
        }
        before += len;
    }
    spans.len()
}

/// The segments that each worker decodes, in file order, about as many bytes for one as for another. A worker may get none.
///
/// A worker's part is the bytes that are left, divided by the workers that are left. Its share ends before the first segment
/// whose middle lies past that part. The last worker has the rest.
///
/// # Errors
///
/// Memory ran out.
pub fn shares_of(alloc: Global, spans: &[Span], workers: u32) -> Result<Vec<&[Span]>, AllocError>
    requires few { span_total spans.now ≤ 2147483647 }
    requires some { 1 ≤ workers }
    ensures all { IfOk result (λ shares. AreShares spans.now workers shares.items) }
    ensures parts { IfOk result (λ shares. IsSharedOut spans.now workers shares.items) }
{
    let mut shares = Vec::with_capacity(alloc, workers as usize)?;
    let mut rest = spans;
    for worker in 1..workers {
        let left = workers - worker + 1;
        let (share, after) = rest.split_at(share_len(rest, bytes_of(rest) / u64::from(left)));
        shares.push(share)?;
        rest = after;
    }
    shares.push(rest)?;
    Ok(shares)
}

//! What calls with the numbers from 0 on answer.
ghost use denote.Param.Send.{IsSync, IsSend};
ghost use Rattle.std.specs.Prelude.{◌+◌, ◌^◌, ◌<◌, ◌≤◌, ◌≡◌, ℕ, IfOk, vec_len};
ghost use Rattle.std.specs.Fork.{GivesEach};
ghost use Rattle.std.specs.Fork.Halves.{GivesFrom};

use std::alloc::{AllocError, Global};
use std::thread::{Threads, join};

/// What the calls with `count` numbers from `from` on answer.
#[cycle(calls)]
fn calls_from<R: Threads + Sync, X: Send + Drop, F: Fn(usize) -> X + Sync>(
    rt: &R,
    alloc: Global,
    from: usize,
    count: usize,
    f: &F,
) -> Result<Vec<X>, AllocError>
    requires count { 0 < count }
    requires room { from + count < 2 ^ 64 }
    requires accepts { (i : ℕ) → from ≤ i → i < from + count → F.pre f.now i }
    ensures { IfOk result (λ v. GivesFrom F.Fn f.now from count v.items) }
{
    if count == 1 {
        let mut one = Vec::new(alloc);
        one.push(f(from))?;
        return Ok(one);
    }
    let up = from + 1;
    let left = count - 1;
    let first = || -> Result<Vec<X>, AllocError>
        requires { IsSync R.row × IsSync F.row × IsSend X.row × (from + 1 < 2 ^ 64) × ((i : ℕ) → from ≤ i → i < from + 1 → F.pre f.now i) }
        ensures { IfOk result (λ v. GivesFrom F.Fn f.entry.now from 1 v.items) }
    { calls_from(rt, alloc, from, 1, f) };
    let others = || -> Result<Vec<X>, AllocError>
        requires { IsSync R.row × IsSync F.row × IsSend X.row × (0 < left) × (up + left < 2 ^ 64) × ((i : ℕ) → up ≤ i → i < up + left → F.pre f.now i) }
        ensures { IfOk result (λ v. GivesFrom F.Fn f.entry.now up left v.items) }
    { calls_from(rt, alloc, up, left, f) };
    let (first, others) = join(rt, first, others);
    let mut all = first?;
    let mut others = others?;
    all.append(&mut others)?;
    Ok(all)
}

/// What `f(0)` to `f(n - 1)` answer, in order, each called in a thread of its own, but for the last, which the calling thread calls.
/// Where the system refuses a thread, that call is made after the others.
///
/// # Errors
///
/// Out of memory. Then the answers are dropped.
pub fn map_indices<R: Threads + Sync, X: Send + Drop, F: Fn(usize) -> X + Sync>(
    rt: &R,
    alloc: Global,
    n: usize,
    f: &F,
) -> Result<Vec<X>, AllocError>
    requires { (i : ℕ) → i < n → F.pre f.now i }
    ensures len { IfOk result (λ v. vec_len v ≡ n) }
    ensures each { IfOk result (λ v. GivesEach F.Fn f.now n v.items) }
{
    if n == 0 {
        return Ok(Vec::new(alloc));
    }
    calls_from(rt, alloc, 0, n, f)
}

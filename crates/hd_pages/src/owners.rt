//! Further owners of values that are shared.
ghost use Rattle.std.specs.Prelude.{◌≡◌, IfOk, map};
ghost use Rattle.std.specs.Arc.{arc_value};

use std::alloc::{AllocError, Global};
use std::sync::Arc;

/// A further owner of each value, in order.
pub(crate) fn share_all<T: Drop>(
    alloc: Global,
    owners: &[Arc<T>],
) -> Result<Vec<Arc<T>>, AllocError>
    ensures { IfOk result (λ v. map arc_value v.items ≡ map arc_value owners.now) }
{
    let mut shared = Vec::with_capacity(alloc, owners.len())?;
    for owner in owners {
        shared.push(Arc::try_clone(owner)?)?;
    }
    Ok(shared)
}

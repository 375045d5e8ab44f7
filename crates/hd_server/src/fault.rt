//! Why serving several analysts ended early.
ghost use Rattle.std.specs.Prelude.{◌≡◌};

use hd_terms::NoMemory;
use thiserror::Error;

/// Why serving several analysts ended early. The texts are what the program tells of it.
#[derive(Clone, Copy, Debug, PartialEq, Eq, Error)]
pub enum ServeOnFault {
    /// The system gave no connection.
    #[error("cannot accept")]
    Accept,
    /// Memory ran out, or no thread could be started.
    #[error("OutOfMemory")]
    OutOfMemory,
    /// The writer failed, or took no byte.
    #[error("cannot write")]
    Write,
    /// The board could not be closed with its desks.
    #[error("cannot close")]
    Close,
}

impl From<NoMemory> for ServeOnFault {
    ghost use Rattle.hd_server.specs.declared.fault.ServeOnFault.TheVariants.{OutOfMemory};

    ghost from_gives = { λ _ e. e ≡ OutOfMemory };

    fn from(_error: NoMemory) -> ServeOnFault {
        ServeOnFault::OutOfMemory
    }
}

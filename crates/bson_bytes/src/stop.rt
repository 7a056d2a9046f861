//! Why reading stops.
ghost use Rattle.std.specs.Prelude.{◌≡◌};
ghost use Rattle.bson_bytes.specs.Fault.{fault_at};
ghost use Rattle.bson_bytes.specs.declared.stop.Stop.TheVariants as stops;

use crate::fault::{Fault, FaultKind};
use std::alloc::{AllocError, AllocFailed};

/// Why reading stops.
#[derive(Clone, Copy, Debug, PartialEq, Eq)]
pub enum Stop {
    /// The bytes have a fault.
    Fault(Fault),
    /// The sink gave up a document that it can't write as it is read. The caller reads the bytes into
    /// values.
    GaveUp,
    /// An allocation failed.
    OutOfMemory,
}

/// Returns the fault of this kind at the first of these bytes, which end the input.
pub(crate) fn fault_at(kind: FaultKind, bytes: &[u8]) -> Stop
    ensures { result ≡ stops.Fault (fault_at kind bytes.now) }
{
    Stop::Fault(Fault {
        kind,
        bytes_to_end: bytes.len(),
    })
}

impl From<Fault> for Stop {
    ghost from_gives = { λ fault stop. stop ≡ stops.Fault fault };

    fn from(fault: Fault) -> Stop {
        Stop::Fault(fault)
    }
}

impl From<AllocError> for Stop {
    ghost from_gives = { λ _ stop. stop ≡ stops.OutOfMemory };

    fn from(_alloc_error: AllocError) -> Stop {
        Stop::OutOfMemory
    }
}

impl<T: Drop> From<AllocFailed<T>> for Stop {
    ghost from_gives = { λ _ stop. stop ≡ stops.OutOfMemory };

    fn from(_alloc_failed: AllocFailed<T>) -> Stop {
        Stop::OutOfMemory
    }
}

ghost use Rattle.std.specs.Prelude.{◌≡◌};
ghost use Rattle.frame_file.specs.Faults.{of_survey};
ghost use Rattle.response.specs.declared.failure.Failure.TheVariants.{OutOfMemory, Refused};

use design::fault::Fault;
use frame_file::fault::FileFault;
use std::alloc::{AllocError, AllocFailed};

/// Why there is no text of a sample.
#[derive(Clone, Copy, PartialEq, Eq, Debug)]
pub(crate) enum Failure {
    Refused(FileFault),
    OutOfMemory,
}

impl From<Fault> for Failure {
    ghost from_gives = { λ fault e. e ≡ Refused (of_survey fault) };

    fn from(fault: Fault) -> Failure {
        Failure::Refused(FileFault::from(fault))
    }
}

impl From<AllocError> for Failure {
    ghost from_gives = { λ _ e. e ≡ OutOfMemory };

    fn from(_e: AllocError) -> Failure {
        Failure::OutOfMemory
    }
}

impl<T: Drop> From<AllocFailed<T>> for Failure {
    ghost from_gives = { λ _ e. e ≡ OutOfMemory };

    fn from(_e: AllocFailed<T>) -> Failure {
        Failure::OutOfMemory
    }
}

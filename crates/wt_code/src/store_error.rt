// Why what was to be stored is not there.
ghost use Rattle.std.specs.Prelude.{◌≡◌};
ghost use Rattle.wt_code.specs.declared.store_error.StoreError.TheVariants.{NoMemory as WantOfMemory, Down};

use crate::{Fault, NoMemory};
use std::alloc::AllocError;

/// Why what was to be stored on a device is not there.
#[derive(Clone, Copy, Debug, PartialEq, Eq)]
pub enum StoreError {
    /// There was not enough memory. The device was not touched.
    NoMemory,
    /// The device has no room for a block. It was not touched.
    NoSpace,
    /// A read failed, before anything was written. The device goes on serving.
    Read,
    /// A write or a sync failed: the device has to be opened again.
    Down(Fault),
}

impl From<NoMemory> for StoreError {
    ghost from_gives = { λ _ error. error ≡ WantOfMemory };

    fn from(_: NoMemory) -> Self {
        StoreError::NoMemory
    }
}

impl From<AllocError> for StoreError {
    ghost from_gives = { λ _ error. error ≡ WantOfMemory };

    fn from(_: AllocError) -> Self {
        StoreError::NoMemory
    }
}

impl From<Fault> for StoreError {
    ghost from_gives = { λ fault error. error ≡ Down fault };

    fn from(fault: Fault) -> Self {
        StoreError::Down(fault)
    }
}

// Want of memory, and an error of storing, as a refusal.
ghost use Rattle.std.specs.Prelude.{◌≡◌};
ghost use Rattle.wt_code.specs.StoreErrors.{refusal_of};
ghost use Rattle.wt_code.specs.declared.refusals.Refusal.TheVariants.{NoMemory as WantOfMemory};

use crate::{NoMemory, Refusal, StoreError};
use std::alloc::AllocError;

impl From<NoMemory> for Refusal {
    ghost from_gives = { λ _ refusal. refusal ≡ WantOfMemory };

    fn from(_: NoMemory) -> Self {
        Refusal::NoMemory
    }
}

impl From<AllocError> for Refusal {
    ghost from_gives = { λ _ refusal. refusal ≡ WantOfMemory };

    fn from(_: AllocError) -> Self {
        Refusal::NoMemory
    }
}

impl From<StoreError> for Refusal {
    ghost from_gives = { λ error refusal. refusal ≡ refusal_of error };

    fn from(error: StoreError) -> Self {
        match error {
            StoreError::NoMemory => Refusal::NoMemory,
            StoreError::NoSpace => Refusal::NoSpace,
            StoreError::Read => Refusal::DiskFault,
            StoreError::Down(_) => Refusal::DiskFault,
        }
    }
}

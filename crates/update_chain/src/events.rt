//! Laws of a chain that stands for its key, over each event and what is done to the chain beside it.

ghost use Rattle.update_chain.specs.EventLaws.{ChainsGoOn, CommitsStand, EndsStand, InstallsStand, MarksStand, PastsGoOn, PreparesStand, ResolvesStand, StampsStand, TrimsStand, UndosStand};

/// A chain goes on to stand for its key at every event that leaves the key alone.
pub fn chains_go_on()
    ensures { ChainsGoOn }
{}

/// An accepted write leaves a chain that stands, with its update installed over what may be followed.
pub fn installs_stand()
    ensures { InstallsStand }
{}

/// So does a mark, and so do stamps, of a running transaction's update, before its prepare or commit.
pub fn marks_stand()
    ensures { MarksStand }
{}

/// So does a prepare, where the newest update of a key that was written is marked with its stamp.
pub fn prepares_stand()
    ensures { PreparesStand }
{}

/// So does a commit, where the newest update of a key that was written is stamped.
pub fn commits_stand()
    ensures { CommitsStand }
{}

/// So does the commit of a prepared transaction, with the chain as it is.
pub fn resolves_stand()
    ensures { ResolvesStand }
{}

/// So do the stamps of that commit, after it.
pub fn stamps_stand()
    ensures { StampsStand }
{}

/// So does an undo of a transaction that is rolled back.
pub fn undos_stand()
    ensures { UndosStand }
{}

/// So does the end of a transaction of which no unresolved update is left.
pub fn ends_stand()
    ensures { EndsStand }
{}

/// So does a trim at a pin stamp and a floor below which all is past.
pub fn trims_stand()
    ensures { TrimsStand }
{}

/// What is past goes on to be, so a trim may come later than the look at the pin stamp and the floor.
pub fn pasts_go_on()
    ensures { PastsGoOn }
{}

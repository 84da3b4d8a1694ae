//! Laws of a read that looks in the frame, and later in the history.

ghost use Rattle.update_chain.specs.LaterLooks.{LaterLooksAnswer};
ghost use Rattle.update_chain.specs.StaySilent.{AdmittedGoOn, ChainsStaySilent};

/// A look in the history after events of others answers as at the look in the frame.
pub fn later_looks_answer()
    ensures { LaterLooksAnswer }
{}

/// A chain that gives a running transaction nothing goes on to, whatever others do to it.
pub fn chains_stay_silent()
    ensures { ChainsStaySilent }
{}

/// A version is admitted after an event as before it.
pub fn admitted_go_on()
    ensures { AdmittedGoOn }
{}

//! The laws that sessions keep their places.

ghost use Rattle.call_turns.specs.Seats.{FrameRuns, FrameSeats, HubRuns, HubSeats, KeepOutRuns, KeepOutSeats, LoadRuns, LoadSeats, StartRuns, StartSeats, StoreRuns, StoreSeats};

/// The start and each event of a call keep the places of the sessions in the table of transactions,
/// which knows the phase of each. A look at a leaf asks that the transaction runs (`calls_run`).
pub fn seats_stay()
    ensures hub { HubSeats }
    ensures frames { FrameSeats }
    ensures loads { LoadSeats }
    ensures stores { StoreSeats }
    ensures kept_out { KeepOutSeats }
    ensures starts { StartSeats }
{}

/// They keep that a transaction runs where its call is at a leaf.
pub fn calls_run()
    ensures hub { HubRuns }
    ensures frames { FrameRuns }
    ensures loads { LoadRuns }
    ensures stores { StoreRuns }
    ensures kept_out { KeepOutRuns }
    ensures starts { StartRuns }
{}

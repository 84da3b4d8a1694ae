// What is kept between two lines beside a store and its disk.
ghost use Rattle.std.specs.Prelude.{◌≡◌};
ghost use Rattle.script_run.specs.Scripts.{nothing_kept};

use crate::checkpointing::CheckpointStage;
use crate::told::PLAIN;
use engine::Evicting;
use item::Formats;
use limits::SESSIONS_MAX;

/// What is kept between two lines of what is started.
#[derive(Drop)]
pub struct Kept {
    /// By session, the formats of the call that it has started.
    pub formats: [Formats; SESSIONS_MAX],
    /// By actor of the system, its eviction that goes by steps.
    pub evicting: [Option<Evicting>; 4],
    /// By actor of the system, its call of a checkpoint that goes by steps.
    pub checkpointing: [Option<CheckpointStage>; 4],
}

impl Kept {
    /// Nothing is started.
    pub fn none() -> Kept
        ensures { result ≡ nothing_kept }
    {
        Kept {
            formats: [PLAIN; SESSIONS_MAX],
            evicting: [None, None, None, None],
            checkpointing: [None, None, None, None],
        }
    }
}

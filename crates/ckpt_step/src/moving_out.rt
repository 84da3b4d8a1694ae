// A leaf that leaves its frame for a new block.
ghost use Rattle.std.specs.Prelude.{◌≡◌, false, OnErr, OnOk};
ghost use Rattle.engine.specs.Evictions.{HasBeenEvicted, MayBeEvicted};
ghost use Rattle.ckpt_step.specs.EvictSteps.{HasLeft, HasStayed, StandsEvicted};
ghost use Rattle.ckpt_step.specs.Holding.{put_lone};
ghost use Rattle.ckpt_step.specs.Lives.{has_at};

use crate::books::let_go_of;
use crate::ground::Ground;
use crate::lives::Lives;
use crate::moving_in::{free_own, own_block};
use device_layout::Link;
use engine::Local;
use failure::NoMemory;

// The leaf leaves its frame and leads to this block, which is new. Without memory that is free again,
// and nothing changed.
pub(crate) fn move_out(
    ground: &mut Ground,
    engine: &mut Local,
    leaf: u64,
    link: Link,
) -> Result<(), NoMemory>
    requires may { MayBeEvicted engine.old leaf }
    ensures left { OnOk result (HasLeft engine.old engine.new ground.old ground.new leaf link) }
    ensures kept { OnErr result (HasStayed engine.old engine.new ground.old ground.new leaf link) }
{
    let own = own_block(&ground.lives, engine.leaves(), leaf);
    match lead_out(&mut ground.lives, engine, leaf, link) {
        Ok(()) => {
            ground.parts.forget(leaf);
            free_own(ground, own);
            Ok(())
        }
        Err(error) => {
            let_go_of(&mut ground.place.blocks, link.addr);
            Err(error)
        }
    }
}

// The block is held for the leaf, which leaves its frame. Without memory nothing changed.
fn lead_out(lives: &mut Lives, engine: &mut Local, leaf: u64, link: Link) -> Result<(), NoMemory>
    requires may { MayBeEvicted engine.old leaf }
    ensures out { OnOk result (HasBeenEvicted engine.old engine.new leaf link) }
    ensures stands { OnOk result (StandsEvicted engine.old engine.new leaf) }
    ensures lives { OnOk result (lives.new ≡ put_lone (record { leaf = leaf; addr = link.addr }) lives.old) }
    ensures engine { OnErr result (engine.new ≡ engine.old) }
    ensures kept { OnErr result (has_at lives.old link.addr.offset ≡ false → lives.new ≡ lives.old) }
{
    lives.hold(leaf, link.addr)?;
    match engine.evict(leaf, link) {
        Ok(true) => Ok(()),
        // It may be evicted, so only memory is wanting.
        Ok(false) | Err(_) => {
            lives.drop_at(link.addr.offset);
            Err(NoMemory)
        }
    }
}

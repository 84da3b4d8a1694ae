//! Laws of the events on the piece of a frame. A law calls those of lower crates
//! that its proof rests on.

ghost use Rattle.engine_world.specs.Laws.{MarksGo, OrdersGo, ReadsGo, RowsGo, StampsGo, UndosGo, WritesGo};

use leaf_frame::held_reads_stand;
use update_chain::{
    chains_go_on, installs_stand, marks_stand, orders_stand, stamps_stand, undos_stand,
    writes_stand,
};

/// A look of a get or a seek.
pub fn reads_go()
    ensures { ReadsGo }
{
    held_reads_stand();
}

/// A look of a put or a remove.
pub fn writes_go()
    ensures { WritesGo }
{
    chains_go_on();
    installs_stand();
    writes_stand();
}

/// A look for the next row or the previous one.
pub fn rows_go()
    ensures { RowsGo }
{
    held_reads_stand();
}

/// The marks of a prepare in one leaf.
pub fn marks_go()
    ensures { MarksGo }
{
    marks_stand();
}

/// The look of a commit below the updates of one leaf.
pub fn orders_go()
    ensures { OrdersGo }
{
    orders_stand();
}

/// The stamps of a commit in one leaf.
pub fn stamps_go()
    ensures { StampsGo }
{
    marks_stand();
    stamps_stand();
}

/// The undos of a rollback in one leaf.
pub fn undos_go()
    ensures { UndosGo }
{
    undos_stand();
    chains_go_on();
}

//! What the store means: histories of transactions, what stands, what each read gives, what a
//! checkpoint keeps, and the machine whose events these are. All of it is over lists and numbers,
//! newest first; no page, chain, frame or byte of a device is named here. The definitions stand in
//! `specs/`, and the functions below promise their laws. That a device, a chain or an engine stands
//! for what is defined here is for the crates above to show.
#![tactic(auto)]

mod agreement;
mod calls;
mod captures;
mod droppable;
mod going_on;
mod lines;
mod machine;
mod marks;
mod openings;
mod passing;
mod reconciling;
mod rollbacks;
mod rows;
mod stores;
mod sweeps;

pub use agreement::{
    agreement_heads, agreement_orders, agreement_reads, agreement_refuses, rollback_keeps_agreement,
};
pub use calls::{
    calls_keep_valid, openings_keep_valid, resets_may_come, rows_may_come, seeks_may_come,
    writes_may_come,
};
pub use captures::{
    a_finish_agrees, a_finish_is_layered, captures_hold, cleanings_store, entries_keep_captures,
    histories_keep_captures, openings_store,
};
pub use droppable::{
    covers_are_admitted, covers_go_on, droppables_are_never_picked, pin_does_not_fall,
};
pub use going_on::{held_lines_stay, meets_go_on, reads_go_on};
pub use lines::lines_descend;
pub use machine::{
    closes_end_transactions, closes_may_come, decisions_may_come, events_keep_valid,
    starts_are_valid,
};
pub use marks::{
    absent_keys_stand, clean_keeps, clean_stands, frames_go_on, keys_go_on, leaves_go_on,
    marked_loads, marks_go_on,
};
pub use openings::{finishes_open, starts_stand};
pub use passing::{lines_grow, pins_begin, pins_go_on, reads_in_two_moments, snapshots_stand};
pub use reconciling::{
    captures_are_held, captures_go_on, captures_stand, cells_are_updates, evictions_stand,
    frames_are_alike, leaves_are_held, prefixes_begin, prefixes_go_on, updates_are_cells,
};
pub use rollbacks::{clean_rolls_back, frame_rolls_back, leaf_rolls_back, marked_rolls_back};
pub use rows::{absences_go_on, cuts_part_ranges, rows_compose};
pub use stores::{
    captures_keep_stores, evictions_keep_stores, rollbacks_keep_stores, stores_answer,
};
pub use sweeps::{
    adds_hold, adds_keep_captured, adds_stand, sweeps_in_hand, sweeps_keep_captured,
    sweeps_keep_marked, sweeps_stand, trims_lie_under, trims_stand,
};

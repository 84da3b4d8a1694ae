//! What a keeper does with its frame, and with another frame that it pins.

ghost use Rattle.std.specs.Prelude.{◌≡◌, ◌≢◌, ℕ, suc, ◌+◌, ◌<◌, ◌^◌, true};
ghost use Rattle.latch_table.specs.Tables.{SameSeat, note_of, number_of_seat};
ghost use Rattle.hazard_law.specs.Words.{empty, filled, locked};
ghost use Rattle.pool_trials.specs.Trials.{HasOwnLocked, IsKeeper, IsLocked, LocksOwn, PointsAt, StaysKeeper};

use crate::keepers::Keepers;
use crate::rise::add;
use hazard_table::{HAZARDS, Locking, Pinning, Pool, Scanning, Seat, WithHazards};
use latch_table::Latching;
use pool_law::Piece;

pub type KeptPool = Pool<Keepers>;

pub type Keeper = Seat<WithHazards<Keepers>>;

/// What a visit found: the page of the frame, while it is pinned; or its state word, where it was
/// another; or that another seat held the frame.
#[derive(Drop)]
pub enum Visited {
    Page(u64),
    Again(u64),
    Busy,
}

// All hazard words of a pool of two.
const PLACES: u32 = 2 * HAZARDS;

// Whether the hazard word at this place does not name the own frame, which is locked.
fn scan_place(pool: &KeptPool, seat: &mut Keeper, place: u32, g: u64) -> bool
    requires keeper { IsKeeper pool.now.pieces seat.old (locked g) }
    requires place { place < 10 }
    requires locked { HasOwnLocked seat.old g place }
    ensures keeper { IsKeeper pool.now.pieces seat.new (locked g) }
    ensures number { SameSeat seat.old seat.new }
    ensures locked { IsLocked seat.new g }
    ensures clear { result ≡ true → HasOwnLocked seat.new g (place + 1) }
{
    let own = seat.number();
    match pool.scan(seat, place / HAZARDS, place % HAZARDS, own) {
        Scanning::Clear => true,
        Scanning::Pinned(_) => false,
    }
}

/// Whether no hazard word names the own frame, which is locked.
pub fn scan_all(pool: &KeptPool, seat: &mut Keeper, g: u64) -> bool
    requires keeper { IsKeeper pool.now.pieces seat.old (locked g) }
    requires locked { HasOwnLocked seat.old g 0 }
    ensures keeper { IsKeeper pool.now.pieces seat.new (locked g) }
    ensures number { SameSeat seat.old seat.new }
    ensures locked { IsLocked seat.new g }
    ensures clear { result ≡ true → HasOwnLocked seat.new g 10 }
{
    for place in 0..PLACES {
        if !scan_place(pool, seat, place, g) {
            return false;
        }
    }
    true
}

// Adds so much to the frame's page, where no other seat holds the frame.
fn touch(pool: &KeptPool, seat: &mut Keeper, f: u32, by: u64) -> Option<u64>
    requires keeper { (word : ℕ) × IsKeeper pool.now.pieces seat.old word }
    requires frame { f < 2 }
    ensures keeper { StaysKeeper pool.now.pieces seat.old seat.new }
    ensures number { SameSeat seat.old seat.new }
    ensures note { note_of seat.new ≡ note_of seat.old }
{
    match pool.pieces.try_latch(seat, Piece::Frame(f)) {
        Latching::Again { seen: _ } => None,
        Latching::Held => {
            let page = add(seat, f, by);
            pool.pieces.unlatch(seat, Piece::Frame(f));
            Some(page)
        }
    }
}

/// Locks the own frame where it is in at this generation.
pub fn lock_own(pool: &KeptPool, seat: &mut Keeper, g: u64) -> Locking
    requires keeper { (word : ℕ) × IsKeeper pool.now.pieces seat.old word }
    requires generation { g < 2 ^ 62 }
    ensures locked { LocksOwn pool.now.pieces seat.new g result }
    ensures number { SameSeat seat.old seat.new }
{
    let own = seat.number();
    pool.lock(seat, own, g)
}

/// The own frame, which is locked, is in again.
pub fn unlock_own(pool: &KeptPool, seat: &mut Keeper, g: u64)
    requires keeper { IsKeeper pool.now.pieces seat.old (locked g) }
    requires locked { IsLocked seat.old g }
    requires generation { g < 2 ^ 62 }
    ensures keeper { IsKeeper pool.now.pieces seat.new (filled g) }
    ensures number { SameSeat seat.old seat.new }
{
    let own = seat.number();
    pool.unlock(seat, own, g);
}

/// Frees the own frame, of which every hazard word was scanned clear.
pub fn free_own(pool: &KeptPool, seat: &mut Keeper, g: u64)
    requires keeper { IsKeeper pool.now.pieces seat.old (locked g) }
    requires scanned { HasOwnLocked seat.old g 10 }
    requires generation { g + 1 < 2 ^ 62 }
    ensures keeper { IsKeeper pool.now.pieces seat.new (empty (suc g)) }
    ensures number { SameSeat seat.old seat.new }
{
    let own = seat.number();
    pool.free(seat, own, g);
}

// Fills the own frame, which was freed, with the next page.
fn fill_own(pool: &KeptPool, seat: &mut Keeper, g: u64) -> u64
    requires keeper { IsKeeper pool.now.pieces seat.old (empty (suc g)) }
    requires generation { g + 2 < 2 ^ 62 }
    ensures keeper { IsKeeper pool.now.pieces seat.new result }
    ensures number { SameSeat seat.old seat.new }
{
    let own = seat.number();
    touch(pool, seat, own, 1);
    pool.fill(seat, own, g + 1);
    4 * (g + 1) + 1
}

// Gives the own frame another page where no hazard word names it; else unlocks it.
fn refill_or_unlock(pool: &KeptPool, seat: &mut Keeper, g: u64) -> u64
    requires keeper { IsKeeper pool.now.pieces seat.old (locked g) }
    requires locked { HasOwnLocked seat.old g 0 }
    requires generation { g + 2 < 2 ^ 62 }
    ensures keeper { IsKeeper pool.now.pieces seat.new result }
    ensures number { SameSeat seat.old seat.new }
{
    if scan_all(pool, seat, g) {
        free_own(pool, seat, g);
        return fill_own(pool, seat, g);
    }
    unlock_own(pool, seat, g);
    4 * g + 1
}

/// Frees the own frame and fills it again with the next page, at the next generation, where no
/// hazard word names it. Answers what the frame's state word is then.
pub fn renew(pool: &KeptPool, seat: &mut Keeper, g: u64) -> u64
    requires keeper { (word : ℕ) × IsKeeper pool.now.pieces seat.old word }
    requires generation { g + 2 < 2 ^ 62 }
    ensures keeper { IsKeeper pool.now.pieces seat.new result }
    ensures number { SameSeat seat.old seat.new }
{
    match lock_own(pool, seat, g) {
        Locking::Again { seen } => seen,
        Locking::Locked => refill_or_unlock(pool, seat, g),
    }
}

/// Whether this hazard word names the own frame, which is locked.
pub fn who_pins(pool: &KeptPool, seat: &mut Keeper, session: u32, word: u32, g: u64) -> Scanning
    requires keeper { IsKeeper pool.now.pieces seat.old (locked g) }
    requires locked { IsLocked seat.old g }
    requires place { (session < 2) × (word < 5) }
    ensures keeper { IsKeeper pool.now.pieces seat.new (locked g) }
    ensures locked { IsLocked seat.new g }
    ensures number { SameSeat seat.old seat.new }
{
    let own = seat.number();
    pool.scan(seat, session, word, own)
}

/// Names a frame in the first hazard word, ahead of a look.
pub fn point_at(pool: &KeptPool, seat: &mut Keeper, f: u32)
    requires keeper { (word : ℕ) × IsKeeper pool.now.pieces seat.old word }
    ensures keeper { StaysKeeper pool.now.pieces seat.old seat.new }
    ensures number { SameSeat seat.old seat.new }
    ensures named { PointsAt seat.new f }
{
    pool.publish(seat, 0, f);
}

/// The second look, at the frame that the first hazard word names.
pub fn look_again(pool: &KeptPool, seat: &mut Keeper, f: u32, g: u64) -> Pinning
    requires keeper { (word : ℕ) × IsKeeper pool.now.pieces seat.old word }
    requires frame { (f < 2) × (f ≢ number_of_seat seat.old) }
    requires generation { g < 2 ^ 62 }
    requires named { PointsAt seat.old f }
    ensures keeper { StaysKeeper pool.now.pieces seat.old seat.new }
    ensures number { SameSeat seat.old seat.new }
{
    pool.validate(seat, 0, f, g)
}

/// The first hazard word names nothing.
pub fn let_go(pool: &KeptPool, seat: &mut Keeper)
    requires keeper { (word : ℕ) × IsKeeper pool.now.pieces seat.old word }
    ensures keeper { StaysKeeper pool.now.pieces seat.old seat.new }
    ensures number { SameSeat seat.old seat.new }
{
    pool.unpin(seat, 0);
}

/// Pins the frame of another keeper by the first hazard word, where it is in at this generation.
pub fn pin_other(pool: &KeptPool, seat: &mut Keeper, f: u32, g: u64) -> Pinning
    requires keeper { (word : ℕ) × IsKeeper pool.now.pieces seat.old word }
    requires frame { (f < 2) × (f ≢ number_of_seat seat.old) }
    requires generation { g < 2 ^ 62 }
    ensures keeper { StaysKeeper pool.now.pieces seat.old seat.new }
    ensures number { SameSeat seat.old seat.new }
{
    pool.pin(seat, 0, f, g)
}

/// Pins the frame of another keeper where it is in at this generation, and reads its page.
pub fn visit(pool: &KeptPool, seat: &mut Keeper, f: u32, g: u64) -> Visited
    requires keeper { (word : ℕ) × IsKeeper pool.now.pieces seat.old word }
    requires frame { (f < 2) × (f ≢ number_of_seat seat.old) }
    requires generation { g < 2 ^ 62 }
    ensures keeper { StaysKeeper pool.now.pieces seat.old seat.new }
    ensures number { SameSeat seat.old seat.new }
{
    match pin_other(pool, seat, f, g) {
        Pinning::Again { seen } => Visited::Again(seen),
        Pinning::Pinned => read_pinned(pool, seat, f),
    }
}

// Reads the page of a pinned frame, and gives up the pin.
fn read_pinned(pool: &KeptPool, seat: &mut Keeper, f: u32) -> Visited
    requires keeper { (word : ℕ) × IsKeeper pool.now.pieces seat.old word }
    requires frame { f < 2 }
    ensures keeper { StaysKeeper pool.now.pieces seat.old seat.new }
    ensures number { SameSeat seat.old seat.new }
{
    let page = touch(pool, seat, f, 0);
    let_go(pool, seat);
    match page {
        Some(page) => Visited::Page(page),
        None => Visited::Busy,
    }
}

/// Pins the frame of another keeper where it is in at this generation, and gives up the pin.
/// Answers whether it was pinned.
pub fn glance(pool: &KeptPool, seat: &mut Keeper, f: u32, g: u64) -> bool
    requires keeper { (word : ℕ) × IsKeeper pool.now.pieces seat.old word }
    requires frame { (f < 2) × (f ≢ number_of_seat seat.old) }
    requires generation { g < 2 ^ 62 }
    ensures keeper { StaysKeeper pool.now.pieces seat.old seat.new }
    ensures number { SameSeat seat.old seat.new }
{
    match pin_other(pool, seat, f, g) {
        Pinning::Again { seen: _ } => false,
        Pinning::Pinned => {
            let_go(pool, seat);
            true
        }
    }
}

//! Two threads at once.

ghost use Rattle.std.specs.Prelude.{◌≡◌, ◌≢◌, ℕ, suc, ◌<◌, ◌^◌};
ghost use Rattle.latch_table.specs.Closing.{IsIdle};
ghost use Rattle.latch_table.specs.Tables.{SameSeat, number_of_seat, pieces_in};
ghost use Rattle.pool_trials.specs.Trials.{IsKeeper, StaysKeeper};

use crate::grow::Grow;
use crate::keep::{Keeper, KeptPool, Visited, renew, visit};
use crate::rise::raise;
use latch_table::{Latched, Seat};
use std::sync::Wait;
use std::thread::{Threads, join};

/// What a keeper met in its turns: how often it gave its own frame another page, read the page of
/// the other's, and found that one out; and how often the page was not that of its generation.
#[derive(Clone, Copy, Drop)]
pub struct Counts {
    pub renewed: u64,
    pub read: u64,
    pub again: u64,
    pub wrong: u64,
}

// At which generation the pages begin, from 0.
const FIRST: u64 = 7;

// What a keeper guesses: the generations of its own frame and of the other's.
#[derive(Clone, Copy, Drop)]
struct Guess {
    own: u64,
    other: u64,
}

fn no_counts() -> Counts {
    Counts {
        renewed: 0,
        read: 0,
        again: 0,
        wrong: 0,
    }
}

// Gives the own frame another page, if nobody has it pinned.
fn turn_own(pool: &KeptPool, seat: &mut Keeper, guess: &mut Guess, counts: &mut Counts)
    requires keeper { (word : ℕ) × IsKeeper pool.now.pieces seat.old word }
    ensures keeper { (word : ℕ) × IsKeeper pool.now.pieces seat.new word }
    ensures number { SameSeat seat.old seat.new }
    ensures other { guess.new.other ≡ guess.old.other }
{
    if guess.own >= 1 << 60 {
        return;
    }
    let word = renew(pool, seat, guess.own);
    if word / 4 != guess.own {
        counts.renewed = counts.renewed.wrapping_add(1);
    }
    guess.own = word / 4;
}

// Reads the page of the other's frame.
fn turn_other(
    pool: &KeptPool,
    seat: &mut Keeper,
    other: u32,
    guess: &mut Guess,
    counts: &mut Counts,
)
    requires keeper { (word : ℕ) × IsKeeper pool.now.pieces seat.old word }
    requires other { (other < 2) × (other ≢ number_of_seat seat.old) }
    requires guess { guess.old.other < 2 ^ 62 }
    ensures keeper { (word : ℕ) × IsKeeper pool.now.pieces seat.new word }
    ensures number { SameSeat seat.old seat.new }
    ensures guess { guess.new.other < 2 ^ 62 }
{
    match visit(pool, seat, other, guess.other) {
        Visited::Page(page) => {
            counts.read = counts.read.wrapping_add(1);
            if page != guess.other.wrapping_sub(FIRST) {
                counts.wrong = counts.wrong.wrapping_add(1);
            }
        }
        Visited::Again(seen) => {
            counts.again = counts.again.wrapping_add(1);
            guess.other = seen / 4;
        }
        Visited::Busy => counts.again = counts.again.wrapping_add(1),
    }
}

// So many turns of a keeper.
fn keep(pool: &KeptPool, mut seat: Keeper, other: u32, turns: u32) -> (Keeper, Counts)
    requires keeper { (word : ℕ) × IsKeeper pool.now.pieces seat word }
    requires other { (other < 2) × (other ≢ number_of_seat seat) }
    ensures keeper { (word : ℕ) × IsKeeper pool.now.pieces result.0 word }
    ensures number { SameSeat seat result.0 }
{
    let mut counts = no_counts();
    let mut guess = Guess {
        own: FIRST,
        other: FIRST,
    };
    for _ in 0..turns {
        turn_own(pool, &mut seat, &mut guess, &mut counts);
        turn_other(pool, &mut seat, other, &mut guess, &mut counts);
    }
    (seat, counts)
}

/// Two keepers at once, each in so many turns: gives its own frame another page, and pins and
/// reads the other's.
pub fn keep_both<R: Threads + Sync>(
    rt: &R,
    pool: &KeptPool,
    one: Keeper,
    other: Keeper,
    turns: u32,
) -> (Counts, Counts)
    requires one { IsKeeper pool.now.pieces one 29 × (number_of_seat one ≡ 0) }
    requires other { IsKeeper pool.now.pieces other 29 × (number_of_seat other ≡ 1) }
{
    let (first, second) = join(
        rt,
        move || -> (Keeper, Counts)
            requires { IsKeeper pool.now.pieces one 29 × (number_of_seat one ≡ 0) }
        { keep(pool, one, 1, turns) },
        move || -> (Keeper, Counts)
            requires { IsKeeper pool.now.pieces other 29 × (number_of_seat other ≡ 1) }
        { keep(pool, other, 0, turns) },
    );
    (first.1, second.1)
}

// Raises one frame and the other, in turns.
fn climb<R: Wait>(
    rt: &R,
    table: &Latched<Grow<2>>,
    mut seat: Seat<Grow<2>>,
    turns: u32,
) -> Seat<Grow<2>>
    requires idle { IsIdle table.now seat }
    requires pieces { pieces_in table.now ≡ 3 }
    ensures idle { IsIdle table.now result }
    ensures number { SameSeat seat result }
{
    for turn in 0..turns {
        raise(rt, table, &mut seat, turn % 2, 1);
    }
    seat
}

/// Two seats at once, each of which raises the one frame and the other by one, in so many turns.
pub fn climb_both<R: Threads + Wait + Sync>(
    rt: &R,
    table: &Latched<Grow<2>>,
    one: Seat<Grow<2>>,
    other: Seat<Grow<2>>,
    turns: u32,
) -> (Seat<Grow<2>>, Seat<Grow<2>>)
    requires idle { IsIdle table.now one × IsIdle table.now other }
    requires pieces { pieces_in table.now ≡ 3 }
    ensures idle { IsIdle table.now result.0 × IsIdle table.now result.1 }
    ensures number { SameSeat one result.0 × SameSeat other result.1 }
{
    join(
        rt,
        move || -> Seat<Grow<2>>
            requires { IsIdle table.now one × (pieces_in table.now ≡ 3) }
            ensures { IsIdle table.entry.now result × SameSeat one result }
        { climb(rt, table, one, turns) },
        move || -> Seat<Grow<2>>
            requires { IsIdle table.now other × (pieces_in table.now ≡ 3) }
            ensures { IsIdle table.entry.now result × SameSeat other result }
        { climb(rt, table, other, turns) },
    )
}

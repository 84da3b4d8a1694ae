// Checks in the order of refusals: the first that holds refuses.

ghost use Rattle.std.specs.Prelude.{◌≡◌, ◌&&◌, ◌||◌, ◌==◌, nat_lt, map};
ghost use Rattle.std.specs.List.{list_all};
ghost use Rattle.kv_model.specs.Refusals.{first_of, is_zero, stamp_of, or_stamp, durable_below, begin_rules, prepare_rules, commit_rules, resolve_rules, set_rules};
ghost use Rattle.kv_model.specs.Machine.{Nothing};
ghost use Rattle.kv_model.specs.Decisions.{Refused, checked, ruled, is_name, is_name_byte};
ghost use Rattle.kv_plain.specs.Plain.{write_in};
ghost use Rattle.kv_plain.specs.Machine.{machine_in};
ghost use Rattle.kv_plain.specs.Outcome.{event_in, decision_in};
ghost use Rattle.kv_plain.specs.Checks.{check_in, rule_in};

use crate::event::{Decision, Event};
use crate::history::Write;
use crate::looks::durable_of;
use crate::machine::Machine;
use crate::outcome::Outcome;
use limits::TABLE_NAME_MAX;
use wt_code::{Invalid, Refusal};

/// A check that refuses where it holds.
#[derive(Clone, Copy)]
pub(crate) struct Check {
    pub holds: bool,
    pub refusal: Refusal,
}

/// A rule of stamps that refuses where it is broken.
#[derive(Clone, Copy)]
pub(crate) struct Rule {
    pub broken: bool,
    pub reason: Invalid,
}

/// The refusal of the first check that holds.
pub(crate) fn first_refusal(checks: &[Check]) -> Option<Refusal>
    ensures { result ≡ first_of (map check_in checks.now) }
{
    match checks.split_first() {
        None => None,
        Some((check, later)) => {
            if check.holds {
                Some(check.refusal)
            } else {
                first_refusal(later)
            }
        }
    }
}

/// The reason of the first rule that is broken.
pub(crate) fn first_reason(rules: &[Rule]) -> Option<Invalid>
    ensures { result ≡ first_of (map rule_in rules.now) }
{
    match rules.split_first() {
        None => None,
        Some((rule, later)) => {
            if rule.broken {
                Some(rule.reason)
            } else {
                first_reason(later)
            }
        }
    }
}

/// A refusal that makes no event.
pub(crate) fn refused(refusal: Refusal) -> Decision
    ensures { decision_in result ≡ (Refused refusal, Nothing) }
{
    Decision {
        outcome: Outcome::Refused(refusal),
        event: Event::Nothing,
    }
}

/// The same for the arguments or the state.
pub(crate) fn invalid(reason: Invalid) -> Decision
    ensures { decision_in result ≡ (Refused (Refusal.Invalid reason), Nothing) }
{
    refused(Refusal::Invalid(reason))
}

/// The call goes on where no check holds.
pub(crate) fn checked(checks: &[Check], go: Decision) -> Decision
    ensures { decision_in result ≡ checked (map check_in checks.now) (decision_in go) }
{
    match first_refusal(checks) {
        None => go,
        Some(refusal) => refused(refusal),
    }
}

/// The call makes the event where no rule is broken, and else the other one.
pub(crate) fn ruled(rules: &[Rule], event: Event, refusal: Event) -> Decision
    ensures { decision_in result ≡ ruled (map rule_in rules.now) (event_in event) (event_in refusal) }
{
    match first_reason(rules) {
        None => Decision {
            outcome: Outcome::Done,
            event,
        },
        Some(reason) => Decision {
            outcome: Outcome::Refused(Refusal::Invalid(reason)),
            event: refusal,
        },
    }
}

fn is_zero(stamp: Option<u64>) -> bool
    ensures { result ≡ is_zero stamp }
{
    match stamp {
        None => false,
        Some(n) => n == 0,
    }
}

/// The stamp, or 0 where none is given.
pub(crate) fn stamp_of(stamp: Option<u64>) -> u64
    ensures { result ≡ stamp_of stamp }
{
    match stamp {
        None => 0,
        Some(n) => n,
    }
}

/// The stamp, or the other where it is 0.
pub(crate) fn or_stamp(stamp: u64, other: u64) -> u64
    ensures { result ≡ or_stamp stamp other }
{
    if stamp == 0 { other } else { stamp }
}

/// The greatest durable stamp of a newest version below one of the writes.
pub(crate) fn durable_below(m: &Machine, writes: &[Write]) -> u64
    ensures { result ≡ durable_below (machine_in m.now) (map write_in writes.now) }
{
    match writes.split_first() {
        None => 0,
        Some((write, others)) => {
            durable_of(&m.history, write.table, &write.key).max(durable_below(m, others))
        }
    }
}

/// Neither stamp is given as 0.
fn no_zero(first: Option<u64>, second: Option<u64>) -> Rule
    ensures { rule_in result ≡ (is_zero first || is_zero second, Invalid.ZeroStamp) }
{
    Rule {
        broken: is_zero(first) || is_zero(second),
        reason: Invalid::ZeroStamp,
    }
}

/// A commit stamp is not before the prepare stamp.
fn not_before_prepare(prepare: u64, given: u64) -> Rule
    ensures { rule_in result ≡ (nat_lt given prepare, Invalid.BeforePrepare given prepare) }
{
    Rule {
        broken: given < prepare,
        reason: Invalid::BeforePrepare { given, prepare },
    }
}

/// A durable stamp is not before the commit stamp.
fn not_before_commit(commit: u64, durable: u64) -> Rule
    ensures { rule_in result ≡ (nat_lt durable commit, Invalid.DurableBeforeCommit durable commit) }
{
    Rule {
        broken: durable < commit,
        reason: Invalid::DurableBeforeCommit { durable, commit },
    }
}

/// A commit over a version of the durable stamp `prev`, later than oldest, has a stamp.
fn stamp_wanted(oldest: u64, prev: u64, given: u64) -> Rule
    ensures { rule_in result ≡ (nat_lt oldest prev && (given == 0), Invalid.NoStampAfterStamp prev) }
{
    Rule {
        broken: oldest < prev && given == 0,
        reason: Invalid::NoStampAfterStamp { prev },
    }
}

/// The same commit's stamp is not before `prev`.
fn in_order(oldest: u64, prev: u64, given: u64) -> Rule
    ensures { rule_in result ≡ (nat_lt oldest prev && nat_lt given prev, Invalid.Order given prev) }
{
    Rule {
        broken: oldest < prev && given < prev,
        reason: Invalid::Order { given, prev },
    }
}

/// The rules of a read stamp.
pub(crate) fn begin_rules(oldest: u64, read: Option<u64>) -> [Rule; 2]
    ensures { map rule_in result ≡ begin_rules oldest read }
{
    let given = stamp_of(read);
    [
        Rule {
            broken: is_zero(read),
            reason: Invalid::ZeroStamp,
        },
        Rule {
            broken: given != 0 && given < oldest,
            reason: Invalid::BeforeOldest { given, oldest },
        },
    ]
}

/// The rules of a prepare stamp.
pub(crate) fn prepare_rules(stable: u64, stamp: u64) -> [Rule; 2]
    ensures { map rule_in result ≡ prepare_rules stable stamp }
{
    [
        Rule {
            broken: stamp == 0,
            reason: Invalid::ZeroStamp,
        },
        Rule {
            broken: stamp <= stable,
            reason: Invalid::NotAfterStable {
                given: stamp,
                stable,
            },
        },
    ]
}

/// The rules of the commit of a transaction that is not prepared; `prev` is the greatest durable
/// stamp below its writes.
pub(crate) fn commit_rules(
    oldest: u64,
    stable: u64,
    commit: Option<u64>,
    durable: Option<u64>,
    prev: u64,
) -> [Rule; 6]
    ensures { map rule_in result ≡ commit_rules oldest stable commit durable prev }
{
    let given = stamp_of(commit);
    [
        no_zero(commit, durable),
        Rule {
            broken: stamp_of(durable) != 0,
            reason: Invalid::DurableGiven,
        },
        Rule {
            broken: given != 0 && given < oldest,
            reason: Invalid::BeforeOldest { given, oldest },
        },
        Rule {
            broken: given != 0 && given <= stable,
            reason: Invalid::NotAfterStable { given, stable },
        },
        stamp_wanted(oldest, prev, given),
        in_order(oldest, prev, given),
    ]
}

/// The rules of the commit of a transaction that is prepared at `prepare`.
pub(crate) fn resolve_rules(
    oldest: u64,
    stable: u64,
    prepare: u64,
    commit: Option<u64>,
    durable: Option<u64>,
    prev: u64,
) -> [Rule; 8]
    ensures { map rule_in result ≡ resolve_rules oldest stable prepare commit durable prev }
{
    let given = stamp_of(commit);
    let lasting = or_stamp(stamp_of(durable), given);
    [
        no_zero(commit, durable),
        Rule {
            broken: given == 0,
            reason: Invalid::NoCommitStamp,
        },
        not_before_prepare(prepare, given),
        not_before_commit(given, lasting),
        Rule {
            broken: lasting < oldest,
            reason: Invalid::BeforeOldest {
                given: lasting,
                oldest,
            },
        },
        Rule {
            broken: lasting <= stable,
            reason: Invalid::NotAfterStable {
                given: lasting,
                stable,
            },
        },
        stamp_wanted(oldest, prev, given),
        in_order(oldest, prev, given),
    ]
}

/// The rules of new stamps, which the two that are set may be raised to.
pub(crate) fn set_rules(
    oldest: u64,
    stable: u64,
    new_oldest: Option<u64>,
    new_stable: Option<u64>,
) -> [Rule; 2]
    ensures { map rule_in result ≡ set_rules oldest stable new_oldest new_stable }
{
    let o = oldest.max(stamp_of(new_oldest));
    let s = stable.max(stamp_of(new_stable));
    [
        no_zero(new_oldest, new_stable),
        Rule {
            broken: o != 0 && (s != 0 && s < o),
            reason: Invalid::OldestAfterStable {
                oldest: o,
                stable: s,
            },
        },
    ]
}

/// Whether a table may have this name.
pub(crate) fn is_name(name: &[u8]) -> bool
    ensures { result ≡ is_name name.now }
{
    !name.is_empty() && (name.len() <= TABLE_NAME_MAX && are_name_bytes(name))
}

fn are_name_bytes(bytes: &[u8]) -> bool
    ensures { result ≡ list_all is_name_byte bytes.now }
{
    bytes.iter().all(|b| is_name_byte(*b))
}

fn is_name_byte(b: u8) -> bool
    ensures { result ≡ is_name_byte b }
{
    32 < b && (b != 58 && b != 127)
}

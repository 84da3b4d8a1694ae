// What the rules answer on worked examples, with the numbers that each refusal carries. Stamps are
// in hexadecimal, as texts write them.
use crate::Stamps;
use wt_code::Invalid;

fn unset() -> Stamps {
    Stamps {
        oldest: 0,
        stable: 0,
    }
}

#[test]
fn stamps_rise_and_never_cross(rt: HostRuntime) {
    let mut stamps = unset();
    assert!(rt; stamps.set(Some(0x5), None) == Ok(()));
    assert!(rt;
        stamps.set(None, Some(0x4))
            == Err(Invalid::OldestAfterStable {
                oldest: 0x5,
                stable: 0x4,
            })
    );
    assert!(rt; stamps.stable == 0);
    assert!(rt; stamps.set(None, Some(0x5)) == Ok(()));
    assert!(rt; stamps.set(None, Some(0x3)) == Ok(()));
    assert!(rt; stamps.oldest == 0x5 && stamps.stable == 0x5);
    assert!(rt; stamps.set(Some(0x0), Some(0x9)) == Err(Invalid::ZeroStamp));
    assert!(rt; stamps.set(Some(0x9), Some(0x9)) == Ok(()));
    assert!(rt; stamps.oldest == 0x9 && stamps.stable == 0x9);
}

#[test]
fn a_read_stamp_is_not_before_oldest(rt: HostRuntime) {
    let stamps = Stamps {
        oldest: 0x5,
        stable: 0x5,
    };
    for (read, answer) in [
        (None, Ok(())),
        (
            Some(0x4),
            Err(Invalid::BeforeOldest {
                given: 0x4,
                oldest: 0x5,
            }),
        ),
        (Some(0x0), Err(Invalid::ZeroStamp)),
        (Some(0x5), Ok(())),
    ] {
        assert!(rt; stamps.check_read(read) == answer);
    }
    assert!(rt; stamps.check_commit(Some(0x6), Some(0x6), 0) == Err(Invalid::DurableGiven));
}

#[test]
fn a_commit_stamp_is_after_stable(rt: HostRuntime) {
    let stamps = Stamps {
        oldest: 0,
        stable: 0x14,
    };
    for (commit, answer) in [
        (
            Some(0x14),
            Err(Invalid::NotAfterStable {
                given: 0x14,
                stable: 0x14,
            }),
        ),
        (Some(0x15), Ok(())),
        (None, Ok(())),
        (Some(0x0), Err(Invalid::ZeroStamp)),
    ] {
        assert!(rt; stamps.check_commit(commit, None, 0) == answer);
    }
}

#[test]
fn a_commit_follows_the_stamps_below_it(rt: HostRuntime) {
    let mut stamps = unset();
    for (commit, answer) in [
        (
            Some(0x13),
            Err(Invalid::Order {
                given: 0x13,
                prev: 0x14,
            }),
        ),
        (None, Err(Invalid::NoStampAfterStamp { prev: 0x14 })),
        (Some(0x14), Ok(())),
    ] {
        assert!(rt; stamps.check_commit(commit, None, 0x14) == answer);
    }
    assert!(rt; stamps.set(Some(0x14), Some(0x14)) == Ok(()));
    assert!(rt; stamps.check_commit(None, None, 0x14) == Ok(()));
}

#[test]
fn a_prepare_stamp_is_after_stable(rt: HostRuntime) {
    let stamps = Stamps {
        oldest: 0,
        stable: 0x14,
    };
    for (prepare, answer) in [
        (0x0, Err(Invalid::ZeroStamp)),
        (
            0x14,
            Err(Invalid::NotAfterStable {
                given: 0x14,
                stable: 0x14,
            }),
        ),
        (0x15, Ok(())),
    ] {
        assert!(rt; stamps.check_prepare(prepare) == answer);
    }
}

#[test]
fn a_prepared_commit_has_its_stamps_in_order(rt: HostRuntime) {
    let mut stamps = unset();
    for (commit, durable, answer) in [
        (None, None, Err(Invalid::NoCommitStamp)),
        (
            Some(0x9),
            None,
            Err(Invalid::BeforePrepare {
                given: 0x9,
                prepare: 0xa,
            }),
        ),
        (
            Some(0xa),
            Some(0x9),
            Err(Invalid::DurableBeforeCommit {
                durable: 0x9,
                commit: 0xa,
            }),
        ),
    ] {
        assert!(rt; stamps.check_resolve(0xa, commit, durable, 0) == answer);
    }
    assert!(rt; stamps.set(None, Some(0xc)) == Ok(()));
    for (commit, durable, answer) in [
        (
            Some(0xa),
            None,
            Err(Invalid::NotAfterStable {
                given: 0xa,
                stable: 0xc,
            }),
        ),
        (Some(0xa), Some(0xd), Ok(())),
    ] {
        assert!(rt; stamps.check_resolve(0xa, commit, durable, 0) == answer);
    }
}

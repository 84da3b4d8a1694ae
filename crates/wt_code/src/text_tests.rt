// The number and the text of each refusal, as a script prints them.
use crate::{Busy, Fault, Invalid, Limit, Refusal, number, text_of};
use std::alloc::Global;

fn prints(alloc: Global, refusal: Refusal, code: i32, text: &str) -> bool {
    let printed = match text_of(alloc, &refusal) {
        Ok(printed) => printed.as_str() == text,
        Err(_) => false,
    };
    printed && number(&refusal) == code
}

#[test]
fn each_refusal_has_its_number_and_text(rt: HostRuntime) {
    assert!(rt;
        prints(
            rt.alloc(),
            Refusal::Rollback { run: 1, id: 2 },
            -31800,
            "-31800 rollback",
        )
    );
    assert!(rt;
        prints(
            rt.alloc(),
            Refusal::DuplicateKey,
            -31801,
            "-31801 duplicate key"
        )
    );
    assert!(rt;
        prints(
            rt.alloc(),
            Refusal::Corrupt {
                offset: 12288,
                want: 8748,
                found: 8806,
            },
            -31802,
            "-31802 corrupt at 12288 want 8748 found 8806",
        )
    );
    assert!(rt; prints(rt.alloc(), Refusal::NotFound, -31803, "-31803 not found"));
    assert!(rt;
        prints(
            rt.alloc(),
            Refusal::Panic {
                fault: Fault::Write(8192),
            },
            -31804,
            "-31804 panic",
        )
    );
    assert!(rt;
        prints(
            rt.alloc(),
            Refusal::Panic { fault: Fault::Sync },
            -31804,
            "-31804 panic",
        )
    );
    assert!(rt; prints(rt.alloc(), Refusal::CacheFull, -31807, "-31807 cache full"));
    assert!(rt;
        prints(
            rt.alloc(),
            Refusal::PrepareConflict { id: 9 },
            -31808,
            "-31808 prepare conflict",
        )
    );
    assert!(rt; prints(rt.alloc(), Refusal::NoTable, 2, "2 no table"));
    assert!(rt; prints(rt.alloc(), Refusal::DiskFault, 5, "5 disk fault"));
    assert!(rt; prints(rt.alloc(), Refusal::Again { seen: 3 }, 11, "11 again"));
    assert!(rt; prints(rt.alloc(), Refusal::NoMemory, 12, "12 no memory"));
    assert!(rt; prints(rt.alloc(), Refusal::Exists, 17, "17 exists"));
    assert!(rt; prints(rt.alloc(), Refusal::NoSpace, 28, "28 no space"));
    assert!(rt;
        prints(
            rt.alloc(),
            Refusal::Limit(Limit::Sessions),
            75,
            "75 limit sessions",
        )
    );
    assert!(rt;
        prints(
            rt.alloc(),
            Refusal::Limit(Limit::Tables),
            75,
            "75 limit tables"
        )
    );
    assert!(rt; prints(rt.alloc(), Refusal::Limit(Limit::Ids), 75, "75 limit ids"));
    assert!(rt;
        prints(
            rt.alloc(),
            Refusal::Limit(Limit::Generations),
            75,
            "75 limit generations",
        )
    );
    assert!(rt;
        prints(
            rt.alloc(),
            Refusal::Limit(Limit::Checkpoints),
            75,
            "75 limit checkpoints",
        )
    );
    assert!(rt;
        prints(
            rt.alloc(),
            Refusal::Limit(Limit::Rollbacks),
            75,
            "75 limit rollbacks",
        )
    );
    assert!(rt;
        prints(
            rt.alloc(),
            Refusal::Limit(Limit::Image),
            75,
            "75 limit image",
        )
    );
}

#[test]
fn what_is_busy_names_the_session_plus_one(rt: HostRuntime) {
    assert!(rt;
        prints(
            rt.alloc(),
            Refusal::Busy(Busy::Active(0)),
            16,
            "16 busy active s1"
        )
    );
    assert!(rt;
        prints(
            rt.alloc(),
            Refusal::Busy(Busy::Active(4_294_967_295)),
            16,
            "16 busy active s4294967296",
        )
    );
    assert!(rt;
        prints(
            rt.alloc(),
            Refusal::Busy(Busy::Checkpoint),
            16,
            "16 busy checkpoint",
        )
    );
    assert!(rt;
        prints(
            rt.alloc(),
            Refusal::Busy(Busy::Resolving(8)),
            16,
            "16 busy resolving s9",
        )
    );
    assert!(rt;
        prints(
            rt.alloc(),
            Refusal::Busy(Busy::Evicting(7)),
            16,
            "16 busy evicting",
        )
    );
    assert!(rt;
        prints(
            rt.alloc(),
            Refusal::Busy(Busy::Pinned(1)),
            16,
            "16 busy pinned s2"
        )
    );
    assert!(rt;
        prints(
            rt.alloc(),
            Refusal::Busy(Busy::Unresolved(7)),
            16,
            "16 busy unresolved",
        )
    );
}

#[test]
fn each_reason_has_its_text(rt: HostRuntime) {
    assert!(rt;
        prints(
            rt.alloc(),
            Refusal::Invalid(Invalid::NoTxn),
            22,
            "22 no transaction",
        )
    );
    assert!(rt;
        prints(
            rt.alloc(),
            Refusal::Invalid(Invalid::InTxn),
            22,
            "22 in transaction",
        )
    );
    assert!(rt;
        prints(
            rt.alloc(),
            Refusal::Invalid(Invalid::Prepared),
            22,
            "22 prepared"
        )
    );
    assert!(rt;
        prints(
            rt.alloc(),
            Refusal::Invalid(Invalid::FailedTxn),
            22,
            "22 failed transaction",
        )
    );
    assert!(rt;
        prints(
            rt.alloc(),
            Refusal::Invalid(Invalid::ZeroStamp),
            22,
            "22 zero stamp",
        )
    );
    assert!(rt;
        prints(
            rt.alloc(),
            Refusal::Invalid(Invalid::BeforeOldest {
                given: 4,
                oldest: 5,
            }),
            22,
            "22 before oldest",
        )
    );
    assert!(rt;
        prints(
            rt.alloc(),
            Refusal::Invalid(Invalid::NotAfterStable {
                given: 4,
                stable: 5,
            }),
            22,
            "22 not after stable",
        )
    );
    assert!(rt;
        prints(
            rt.alloc(),
            Refusal::Invalid(Invalid::OldestAfterStable {
                oldest: 5,
                stable: 4,
            }),
            22,
            "22 oldest after stable",
        )
    );
    assert!(rt;
        prints(
            rt.alloc(),
            Refusal::Invalid(Invalid::NoCommitStamp),
            22,
            "22 no commit stamp",
        )
    );
    assert!(rt;
        prints(
            rt.alloc(),
            Refusal::Invalid(Invalid::DurableGiven),
            22,
            "22 durable given",
        )
    );
    assert!(rt;
        prints(
            rt.alloc(),
            Refusal::Invalid(Invalid::BeforePrepare {
                given: 4,
                prepare: 5,
            }),
            22,
            "22 before prepare",
        )
    );
    assert!(rt;
        prints(
            rt.alloc(),
            Refusal::Invalid(Invalid::DurableBeforeCommit {
                durable: 4,
                commit: 5,
            }),
            22,
            "22 durable before commit",
        )
    );
    assert!(rt;
        prints(
            rt.alloc(),
            Refusal::Invalid(Invalid::Order { given: 4, prev: 5 }),
            22,
            "22 order",
        )
    );
    assert!(rt;
        prints(
            rt.alloc(),
            Refusal::Invalid(Invalid::NoStampAfterStamp { prev: 5 }),
            22,
            "22 no stamp after stamp",
        )
    );
    assert!(rt;
        prints(
            rt.alloc(),
            Refusal::Invalid(Invalid::KeyLong { len: 1025 }),
            22,
            "22 key long",
        )
    );
    assert!(rt;
        prints(
            rt.alloc(),
            Refusal::Invalid(Invalid::ValueLong { len: 16385 }),
            22,
            "22 value long",
        )
    );
    assert!(rt;
        prints(
            rt.alloc(),
            Refusal::Invalid(Invalid::Unpositioned),
            22,
            "22 unpositioned",
        )
    );
    assert!(rt;
        prints(
            rt.alloc(),
            Refusal::Invalid(Invalid::InCall),
            22,
            "22 in call"
        )
    );
    assert!(rt;
        prints(
            rt.alloc(),
            Refusal::Invalid(Invalid::NoCall),
            22,
            "22 no call"
        )
    );
    assert!(rt;
        prints(
            rt.alloc(),
            Refusal::Invalid(Invalid::NoCkpt),
            22,
            "22 no checkpoint",
        )
    );
    assert!(rt;
        prints(
            rt.alloc(),
            Refusal::Invalid(Invalid::CkptLeft),
            22,
            "22 checkpoint left",
        )
    );
    assert!(rt;
        prints(
            rt.alloc(),
            Refusal::Invalid(Invalid::BadName),
            22,
            "22 name"
        )
    );
    assert!(rt;
        prints(
            rt.alloc(),
            Refusal::Invalid(Invalid::BadConfig),
            22,
            "22 config"
        )
    );
    assert!(rt;
        prints(
            rt.alloc(),
            Refusal::Invalid(Invalid::Text { line: 8 }),
            22,
            "22 text at line 8",
        )
    );
}

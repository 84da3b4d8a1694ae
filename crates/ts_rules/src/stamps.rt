//! The oldest and the stable stamp, and what they allow.

ghost use Rattle.std.specs.Prelude.{◌≡◌, OnOk, OnErr};
ghost use Rattle.kv_model.specs.Refusals.{is_zero, begin_rules, prepare_rules, order_rule, commit_rules, resolve_rules, set_rules};
ghost use Rattle.ts_rules.specs.Rules.{answer_by, raised};

use wt_code::Invalid;

/// The two stamps that bound the history: reads begin at `oldest` or later, and a checkpoint keeps
/// what is durable at `stable`. 0 is unset.
#[derive(Clone, Copy, Debug, PartialEq, Eq)]
pub struct Stamps {
    pub oldest: u64,
    pub stable: u64,
}

impl Stamps {
    /// Raises each stamp that is given to the greater of it and the one that is set. Refused, and
    /// nothing is changed, where a stamp that is given is zero, or where both stamps would be set
    /// and oldest would lie after stable.
    pub fn set(&mut self, oldest: Option<u64>, stable: Option<u64>) -> Result<(), Invalid>
        ensures answer { result ≡ answer_by (set_rules self.old.oldest self.old.stable oldest stable) }
        ensures raised { OnOk result (self.new ≡ raised self.old oldest stable) }
        ensures kept { OnErr result (self.new ≡ self.old) }
    {
        if is_given_zero(oldest) || is_given_zero(stable) {
            return Err(Invalid::ZeroStamp);
        }
        let next = Stamps {
            oldest: self.oldest.max(oldest.unwrap_or(0)),
            stable: self.stable.max(stable.unwrap_or(0)),
        };
        if next.oldest != 0 && next.stable != 0 && next.stable < next.oldest {
            return Err(Invalid::OldestAfterStable {
                oldest: next.oldest,
                stable: next.stable,
            });
        }
        *self = next;
        Ok(())
    }

    /// Whether a transaction may begin at this read stamp: one that is given is not zero and not
    /// before oldest.
    pub fn check_read(&self, read: Option<u64>) -> Result<(), Invalid>
        ensures { result ≡ answer_by (begin_rules self.now.oldest read) }
    {
        if is_given_zero(read) {
            return Err(Invalid::ZeroStamp);
        }
        let given = read.unwrap_or(0);
        if given != 0 && given < self.oldest {
            return Err(Invalid::BeforeOldest {
                given,
                oldest: self.oldest,
            });
        }
        Ok(())
    }

    /// Whether a transaction may be prepared at this stamp: it is not zero, and after stable.
    pub fn check_prepare(&self, prepare: u64) -> Result<(), Invalid>
        ensures { result ≡ answer_by (prepare_rules self.now.stable prepare) }
    {
        if prepare == 0 {
            return Err(Invalid::ZeroStamp);
        }
        if prepare <= self.stable {
            return Err(Invalid::NotAfterStable {
                given: prepare,
                stable: self.stable,
            });
        }
        Ok(())
    }

    /// Whether a transaction that is not prepared may be committed at these stamps. `prev` is the
    /// greatest durable stamp of a newest committed update below one of the keys that it wrote, 0
    /// where there is none.
    pub fn check_commit(
        &self,
        commit: Option<u64>,
        durable: Option<u64>,
        prev: u64,
    ) -> Result<(), Invalid>
        ensures { result ≡ answer_by (commit_rules self.now.oldest self.now.stable commit durable prev) }
    {
        if is_given_zero(commit) || is_given_zero(durable) {
            return Err(Invalid::ZeroStamp);
        }
        if durable.is_some() {
            return Err(Invalid::DurableGiven);
        }
        let given = commit.unwrap_or(0);
        if given != 0 && given < self.oldest {
            return Err(Invalid::BeforeOldest {
                given,
                oldest: self.oldest,
            });
        }
        if given != 0 && given <= self.stable {
            return Err(Invalid::NotAfterStable {
                given,
                stable: self.stable,
            });
        }
        self.in_order(given, prev)
    }

    /// Whether a transaction that is prepared at `prepare` may be committed at these stamps; the
    /// durable stamp, where none is given, is the commit stamp. `prev` as for `check_commit`.
    pub fn check_resolve(
        &self,
        prepare: u64,
        commit: Option<u64>,
        durable: Option<u64>,
        prev: u64,
    ) -> Result<(), Invalid>
        ensures { result ≡ answer_by (resolve_rules self.now.oldest self.now.stable prepare commit durable prev) }
    {
        if is_given_zero(commit) || is_given_zero(durable) {
            return Err(Invalid::ZeroStamp);
        }
        let Some(given) = commit else {
            return Err(Invalid::NoCommitStamp);
        };
        let lasting = durable.unwrap_or(given);
        if given < prepare {
            return Err(Invalid::BeforePrepare { given, prepare });
        }
        if lasting < given {
            return Err(Invalid::DurableBeforeCommit {
                durable: lasting,
                commit: given,
            });
        }
        if lasting < self.oldest {
            return Err(Invalid::BeforeOldest {
                given: lasting,
                oldest: self.oldest,
            });
        }
        if lasting <= self.stable {
            return Err(Invalid::NotAfterStable {
                given: lasting,
                stable: self.stable,
            });
        }
        self.in_order(given, prev)
    }

    // The order rule, with a commit stamp of 0 for none.
    fn in_order(&self, commit: u64, prev: u64) -> Result<(), Invalid>
        ensures { result ≡ answer_by (order_rule self.now.oldest commit prev) }
    {
        if self.oldest >= prev {
            return Ok(());
        }
        if commit == 0 {
            return Err(Invalid::NoStampAfterStamp { prev });
        }
        if commit < prev {
            return Err(Invalid::Order {
                given: commit,
                prev,
            });
        }
        Ok(())
    }
}

// Whether a stamp is given, and zero.
fn is_given_zero(stamp: Option<u64>) -> bool
    ensures { result ≡ is_zero stamp }
{
    match stamp {
        None => false,
        Some(given) => given == 0,
    }
}

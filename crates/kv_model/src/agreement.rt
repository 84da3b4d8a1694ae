//! Laws of agreement from oldest on.

ghost use Rattle.kv_model.specs.AgreementLaws.{RollbackKeepsAgreement, AgreementReads, AgreementHeads, AgreementRefuses, AgreementOrders};

/// Histories that agree go on to agree after a rollback to a stable stamp not before oldest.
pub fn rollback_keeps_agreement()
    ensures { RollbackKeepsAgreement }
{}

/// They are read alike by who begins now, at no stamp or at one not before oldest.
pub fn agreement_reads()
    ensures { AgreementReads }
{}

/// Each key's newest version is the same in both.
pub fn agreement_heads()
    ensures { AgreementHeads }
{}

/// So a write of who begins now is refused alike.
pub fn agreement_refuses()
    ensures { AgreementRefuses }
{}

/// And so is the durable stamp that the order rule compares with.
pub fn agreement_orders()
    ensures { AgreementOrders }
{}

//! The law of certificates.

ghost use Rattle.hv_order.specs.Certified.{CertifiedPlans};

/// A plan for which there is a certificate has a solution. The function is empty: its contract
/// names what is proved, and a caller knows it from the call on.
pub fn certified_plans_are_solved()
    ensures { CertifiedPlans }
{}

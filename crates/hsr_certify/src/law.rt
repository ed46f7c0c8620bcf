//! What `run` plays of a setup that is certified.
ghost use Rattle.hsr_certify.specs.AnyOrder.{RunCertifies};

/// Where a scenario is certified in any order and no time is told that a copy lives, what `run` plays of it has all premises of a
/// certificate: `audit_network` certifies it. A drain moves copies in an order of its own, and that is one of the orders.
pub fn run_certifies()
    ensures { RunCertifies }
{}

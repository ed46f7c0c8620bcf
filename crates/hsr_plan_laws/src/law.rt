//! What one ring of DANHs in a plan means.
ghost use Rattle.hsr_plan_laws.specs.Rings.{OneRingIsARing, UsualAddressesDiffer};

/// One ring of DANHs in modes H and U, each with an address of its own, is a ring in every run of the topology that it means, as the law of
/// exactly once and the audit ask for: the nodes stand round the ring in the order of the plan.
pub fn one_ring_is_a_ring()
    ensures { OneRingIsARing }
{}

/// The nodes of one ring have addresses of their own where the plan gives none.
pub fn usual_addresses_differ()
    ensures { UsualAddressesDiffer }
{}

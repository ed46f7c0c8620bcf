//! What a verdict names is listed in the plan.
ghost use Rattle.hsr_plan_certify.specs.Occasions.{OrdersComeFromOccasions};

/// Each order of a plan that sends comes from an occasion of the plan, of that moment and that node: supervision, or a frame of that stream.
/// So it is also where copies move by hops or wires, once their moves are left out.
pub fn orders_come_from_occasions()
    ensures { OrdersComeFromOccasions }
{}

//! What holds with a fault that cuts no send off.
ghost use Rattle.hsr_faults.specs.Law.{Leaves, Sweeps};

/// With a fault from the start all conditions hold of a setup that is clear but two: that no step is refused, and that no send is cut off.
pub fn leaves()
    ensures { Leaves }
{}

/// Where a fault cuts no send off, routes lead each send to each node that it is due at and that is on, over links that are up in all its span.
/// So with links off alone the setup is clear, if no step is refused.
pub fn sweeps()
    ensures { Sweeps }
{}

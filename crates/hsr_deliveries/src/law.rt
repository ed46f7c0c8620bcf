//! What deliveries have to do with the laws of finished runs.
ghost use Rattle.hsr_deliveries.specs.Delivered.{OnceIsComplete};

/// In a closed run of a ring of DANHs in modes H and U that delivered each frame exactly once (IEC 62439-3 clause 5.3), each
/// send is complete.
pub fn once_is_complete()
    ensures { OnceIsComplete }
{}

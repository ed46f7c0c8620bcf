//! What another unit of time changes in a record: nothing but its moments.
ghost use Rattle.hsr_node.specs.Units.{AnswersInFinerUnit, LegalFromMilliseconds, LegalInFinerUnit};

/// Where the times after which a node forgets and all moments are multiplied alike, each past answers each event the
/// same. So a record is legal in the finer unit just where it was legal before: what was legal in milliseconds is legal
/// in microseconds with each moment times 1000.
pub fn same_in_finer_unit()
    ensures answers { AnswersInFinerUnit }
    ensures legal { LegalInFinerUnit }
    ensures records { LegalFromMilliseconds }
{}

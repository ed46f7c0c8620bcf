//! The keys of tables.
//!
//! Each text makes its own fault at the place where it is met. So no type of faults is turned into another, and
//! scenarios and plans read their tables by the same functions.
ghost use Rattle.std.specs.Prelude.{◌≡◌, true};
ghost use Rattle.hsr_toml.specs.Faults.{Faults};

/// A key that tables of a text may have, and what is told of it where a table isn't as it has to be.
pub trait TableKey: Copy {
    /// What is told of a table.
    type Fault: Drop;

    ghost faults: { Faults Self Self.Fault };

    /// The key as it is written.
    fn text(self) -> &'static str
        ensures { result.now ≡ faults.text self };

    /// That the key has to be there and isn't.
    fn missing(self) -> Self::Fault
        ensures { result ≡ faults.missing self };

    /// That the value of the key has another type.
    fn wrong_kind(self) -> Self::Fault
        ensures { result ≡ faults.wrong_kind self };

    /// That the value of the key isn't one of those that it may have.
    fn bad_value(self) -> Self::Fault
        ensures { result ≡ faults.bad_value self };

    /// That an allocation for what the value of the key says failed.
    fn no_memory(self) -> Self::Fault
        ensures { faults.is_memory result ≡ true };
}

//! Which rule a stimulus tries, and what a device that follows it does.
ghost use Rattle.std.specs.Prelude.{◌≡◌};
ghost use Rattle.hsr_stimuli.specs.Rules.{again, awaited, delivered, onward, rule_word};

use hsr_frame::{Cause, FrameFault, Mode};

/// The rule that a stimulus tries (docs/RULES.md). A second copy comes by the ring's other port, and one that comes again by the same.
#[derive(Clone, Copy)]
pub enum Rule {
    // What comes by a ring.
    ToGroup,
    ToGroupSecond,
    ToGroupAgain,
    ToAnother,
    ToAnotherSecond,
    ToAnotherAgain,
    ToDevice,
    ToDeviceSecond,
    ToDeviceAgain,
    FromDevice,
    InVlan,
    OtherPath,
    WrongSize,
    LeastPayload,
    LongestPayload,
    Untagged,
    // Supervision.
    SupervisionHsr,
    SupervisionRedBox,
    SupervisionDiscard,
    SupervisionAccept,
    SupervisionCutOff,
    SupervisionKind,
    SupervisionLength,
    SupervisionRedBoxLength,
    // Octets that are no frame.
    Short,
    Long,
    LongUntagged,
    GroupSource,
    TwoVlanTags,
    VlanTagBehind,
    ShortTag,
    NestedTag,
    // What a table remembers.
    First,
    Remembered,
    Forgotten,
    Fill,
    Full,
    OneMore,
    Kept,
    PushedOut,
    // Numbers.
    NumberWraps,
    NumberAgain,
    NumberOfAnother,
    // Whom a node knows.
    Node,
    // What comes by an interlink.
    StationToAnother,
    StationToGroup,
    StationToDevice,
    StationToStation,
    StationInVlan,
    DeviceAtInterlink,
    TaggedAtInterlink,
    // What comes by the ring to a station, or from one.
    ToStation,
    ToStationSecond,
    ToStationAgain,
    StationOnRing,
    CameBack,
    GroupCameBack,
    // Which stations a RedBox knows.
    Station,
    ToOldestStation,
    StationMore,
    ToStationPushedOut,
    ToStationKept,
    ToStationRemembered,
    ToStationForgotten,
}

impl Rule {
    /// Its word in a list and in a capture.
    pub fn word(self) -> &'static str
        ensures { result.now ≡ rule_word self }
    {
        match self {
            Rule::ToGroup => "to-group",
            Rule::ToGroupSecond => "to-group-second",
            Rule::ToGroupAgain => "to-group-again",
            Rule::ToAnother => "to-another",
            Rule::ToAnotherSecond => "to-another-second",
            Rule::ToAnotherAgain => "to-another-again",
            Rule::ToDevice => "to-device",
            Rule::ToDeviceSecond => "to-device-second",
            Rule::ToDeviceAgain => "to-device-again",
            Rule::FromDevice => "from-device",
            Rule::InVlan => "vlan-tag",
            Rule::OtherPath => "other-path",
            Rule::WrongSize => "wrong-size",
            Rule::LeastPayload => "least-payload",
            Rule::LongestPayload => "longest-payload",
            Rule::Untagged => "untagged",
            Rule::SupervisionHsr => "supervision-hsr",
            Rule::SupervisionRedBox => "supervision-redbox",
            Rule::SupervisionDiscard => "supervision-prp",
            Rule::SupervisionAccept => "supervision-prp-accept",
            Rule::SupervisionCutOff => "supervision-cut-off",
            Rule::SupervisionKind => "supervision-kind",
            Rule::SupervisionLength => "supervision-length",
            Rule::SupervisionRedBoxLength => "supervision-redbox-length",
            Rule::Short => "short",
            Rule::Long => "long",
            Rule::LongUntagged => "long-untagged",
            Rule::GroupSource => "group-source",
            Rule::TwoVlanTags => "two-vlan-tags",
            Rule::VlanTagBehind => "vlan-tag-behind",
            Rule::ShortTag => "short-tag",
            Rule::NestedTag => "nested-tag",
            Rule::First => "first",
            Rule::Remembered => "remembered",
            Rule::Forgotten => "forgotten",
            Rule::Fill => "table",
            Rule::Full => "table-full",
            Rule::OneMore => "table-one-more",
            Rule::Kept => "table-kept",
            Rule::PushedOut => "table-pushed-out",
            Rule::NumberWraps => "number-wraps",
            Rule::NumberAgain => "number-again",
            Rule::NumberOfAnother => "number-of-another",
            Rule::Node => "node",
            Rule::StationToAnother => "station-to-another",
            Rule::StationToGroup => "station-to-group",
            Rule::StationToDevice => "station-to-device",
            Rule::StationToStation => "station-to-station",
            Rule::StationInVlan => "station-vlan-tag",
            Rule::DeviceAtInterlink => "device-at-interlink",
            Rule::TaggedAtInterlink => "tagged-at-interlink",
            Rule::ToStation => "to-station",
            Rule::ToStationSecond => "to-station-second",
            Rule::ToStationAgain => "to-station-again",
            Rule::StationOnRing => "station-on-ring",
            Rule::CameBack => "came-back",
            Rule::GroupCameBack => "group-came-back",
            Rule::Station => "station",
            Rule::ToOldestStation => "to-oldest-station",
            Rule::StationMore => "station-one-more",
            Rule::ToStationPushedOut => "to-station-pushed-out",
            Rule::ToStationKept => "to-station-kept",
            Rule::ToStationRemembered => "to-station-remembered",
            Rule::ToStationForgotten => "to-station-forgotten",
        }
    }

    /// The cause that a device in this mode has for its answer. A QuadBox has that of mode H.
    pub fn awaited(self, mode: Mode) -> Cause
        ensures { result ≡ awaited self mode }
    {
        match self {
            Rule::ToAnother
            | Rule::ToAnotherSecond
            | Rule::ToStationPushedOut
            | Rule::ToStationForgotten => onward(mode, Cause::Foreign),
            Rule::ToAnotherAgain | Rule::CameBack => again(mode),
            Rule::ToGroupSecond => onward(mode, Cause::Duplicate),
            Rule::ToDeviceSecond | Rule::ToStationSecond => delivered(mode),
            Rule::ToGroupAgain
            | Rule::ToDeviceAgain
            | Rule::Remembered
            | Rule::Full
            | Rule::Kept
            | Rule::NumberAgain
            | Rule::ToStationAgain
            | Rule::GroupCameBack => Cause::Duplicate,
            Rule::FromDevice | Rule::DeviceAtInterlink => Cause::Returned,
            Rule::StationToStation => Cause::Local,
            Rule::Untagged => Cause::Untagged,
            Rule::TaggedAtInterlink => Cause::Tagged,
            Rule::Short => Cause::Malformed(FrameFault::Short),
            Rule::Long | Rule::LongUntagged => Cause::Malformed(FrameFault::Long),
            Rule::GroupSource => Cause::Malformed(FrameFault::GroupSource),
            Rule::TwoVlanTags | Rule::VlanTagBehind => Cause::Malformed(FrameFault::DoubleVlan),
            Rule::ShortTag => Cause::Malformed(FrameFault::ShortTag),
            Rule::NestedTag => Cause::Malformed(FrameFault::NestedTag),
            _ => Cause::Passed,
        }
    }
}

/// What goes on round the ring passes there, but not in mode N.
fn onward(mode: Mode, otherwise: Cause) -> Cause
    ensures { result ≡ onward mode otherwise }
{
    match mode {
        Mode::H | Mode::U => Cause::Passed,
        Mode::N => otherwise,
    }
}

/// What only goes on round the ring, and comes again.
fn again(mode: Mode) -> Cause
    ensures { result ≡ again mode }
{
    match mode {
        Mode::H | Mode::U => Cause::Duplicate,
        Mode::N => Cause::Foreign,
    }
}

/// The second copy of what was delivered goes on in mode U alone.
fn delivered(mode: Mode) -> Cause
    ensures { result ≡ delivered mode }
{
    match mode {
        Mode::H | Mode::N => Cause::Duplicate,
        Mode::U => Cause::Passed,
    }
}

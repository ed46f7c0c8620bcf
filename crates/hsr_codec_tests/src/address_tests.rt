//! Addresses as text.
use hsr_frame::{Mac, MacFault};

#[test]
fn addresses_as_text(rt: HostRuntime) {
    let told = [
        ("02-00-00-00-00-0a", Ok([2, 0, 0, 0, 0, 10])),
        ("01-15-4E-00-01-00", Ok([1, 0x15, 0x4E, 0, 1, 0])),
        ("02-00", Err(MacFault::Length)),
        ("02:00:00:00:00:01", Err(MacFault::Separator)),
        ("0G-00-00-00-00-01", Err(MacFault::Digit)),
        ("02-00-00-00-00:0G", Err(MacFault::Separator)),
        ("02-00-00-00-0G:01", Err(MacFault::Digit)),
    ];
    for (text, octets) in told {
        assert!(rt; Mac::from_text(text) == octets.map(Mac::new), "{text}");
    }
}

//! Which ends are tapped, and which way.
ghost use Rattle.std.specs.Prelude.{◌≡◌, ◌||◌, false};
ghost use Rattle.hsr_tap_device.specs.Words.{is_same_end};
ghost use Rattle.hsr_tap_device.specs.declared.device.End.{End};
ghost use Rattle.hsr_playback.specs.Letting.{has_in, has_out};

use hsr_tap_device::End;

/// Of each end, whether what goes in there is captured, and what leaves by it.
#[derive(Clone, Copy, PartialEq, Eq)]
pub struct Taps {
    ins: [bool; 6],
    outs: [bool; 6],
}

impl Taps {
    /// No end is tapped.
    #[tactic(auto, using(crate::proofs::Tapped::none_tapped))]
    pub fn none() -> Taps
        ensures ins { (end : End) → has_in result end ≡ false }
        ensures outs { (end : End) → has_out result end ≡ false }
    {
        Taps {
            ins: [false; 6],
            outs: [false; 6],
        }
    }

    /// With what goes into the device at an end.
    #[tactic(auto, using(crate::proofs::Tapped::with_end, crate::proofs::Tapped::end_below))]
    pub fn with_in(self, tapped: End) -> Taps
        ensures ins { (end : End) → has_in result end
            ≡ (is_same_end end tapped || has_in self end) }
        ensures outs { (end : End) → has_out result end ≡ has_out self end }
    {
        let mut taps = self;
        taps.ins[usize::from(tapped.number())] = true;
        taps
    }

    /// With what leaves the device by an end.
    #[tactic(auto, using(crate::proofs::Tapped::with_end, crate::proofs::Tapped::end_below))]
    pub fn with_out(self, tapped: End) -> Taps
        ensures ins { (end : End) → has_in result end ≡ has_in self end }
        ensures outs { (end : End) → has_out result end
            ≡ (is_same_end end tapped || has_out self end) }
    {
        let mut taps = self;
        taps.outs[usize::from(tapped.number())] = true;
        taps
    }

    /// Whether what goes in at an end is captured.
    pub fn has_in(&self, end: End) -> bool
        ensures { result ≡ has_in self.now end }
    {
        self.ins
            .get(usize::from(end.number()))
            .copied()
            .unwrap_or(false)
    }

    /// Whether what leaves by an end is captured.
    pub fn has_out(&self, end: End) -> bool
        ensures { result ≡ has_out self.now end }
    {
        self.outs
            .get(usize::from(end.number()))
            .copied()
            .unwrap_or(false)
    }
}

//! Stimuli, and what those of a scene have in common.
ghost use Rattle.std.specs.Prelude.{◌≡◌};
ghost use Rattle.hsr_stimuli.specs.Scene.{end_tlv, from, group_address, moment, no_address, other, plain, shaped, source, supervision, tag_at, tagged, tlv, turned, usual_load, with_port};

use crate::rule::Rule;
use crate::shape::{Form, Load, Shape, Tag, Tlv, Told};
use hsr_frame::{ETHERTYPE_SUPERVISION, Mac};

/// A frame that comes to a port of a device at a moment, in microseconds, and the rule that it tries.
#[derive(Clone, Copy)]
pub struct Stimulus {
    pub at: u64,
    /// A is 0 and B is 1; a RedBox has its interlink 2, a QuadBox has C 2 and D 3.
    pub port: u8,
    pub rule: Rule,
    pub shape: Shape,
}

/// What stimuli of a scene have in common.
#[derive(Clone, Copy)]
pub(crate) struct Scene {
    /// The device's address; zeros where it has none.
    pub own: Mac,
    /// When the scene begins, in microseconds.
    pub start: u32,
    /// Where frames come in, and the ring's other port.
    pub port: u8,
    pub beyond: u8,
    /// Who sends them.
    pub sender: u16,
}

/// The EtherType of experiments (IEEE 802 clause 9).
pub(crate) const EXPERIMENTAL: u16 = 0x88B5;

/// The path of what comes to ports A and C: the next node sent it by its B (IEC 62439-3 clause 5.6).
const LANE: u16 = 0x1000;

/// The octets of a usual payload, the least of an untagged frame (IEEE 802.3 clause 4).
const USUAL_LEN: u16 = 46;

/// The size that the tag of a usual frame has.
const USUAL_SIZE: u16 = 52;

/// A group of nobody: an address that is locally administered.
pub(crate) fn group() -> Mac
    ensures { result ≡ group_address }
{
    Mac::new([0x03, 0x48, 0x53, 0x52, 0, 0])
}

/// Zeros in the place of an address.
pub(crate) fn no_address() -> Mac
    ensures { result ≡ no_address }
{
    Mac::new([0; 6])
}

/// The address of another node or station, by its number: one that is locally administered, and never the device's own.
pub(crate) fn other(own: Mac, number: u16) -> Mac
    ensures { result ≡ other own number }
{
    let first = if own.octets()[0] == 2 { 6 } else { 2 };
    let high = (number / 256) as u8;
    let low = (number % 256) as u8;
    Mac::new([first, 0x48, 0x53, 0x52, high, low])
}

/// The usual payload.
pub(crate) fn usual_load() -> Load
    ensures { result ≡ usual_load }
{
    Load::Filled(USUAL_LEN)
}

/// A TLV.
pub(crate) fn tlv(kind: u8, len: u8, mac: Mac) -> Tlv
    ensures { result ≡ tlv kind len mac }
{
    Tlv { kind, len, mac }
}

/// The TLV that ends a supervision payload.
pub(crate) fn end() -> Tlv
    ensures { result ≡ end_tlv }
{
    tlv(0, 0, no_address())
}

impl Scene {
    /// The moment so many milliseconds behind the scene's start.
    fn moment(&self, ms: u16) -> u64
        ensures { result ≡ moment self.now ms }
    {
        u64::from(self.start) + 1000 * u64::from(ms)
    }

    /// Who sends its frames.
    pub(crate) fn source(&self) -> Mac
        ensures { result ≡ source self.now }
    {
        other(self.own, self.sender)
    }

    /// The scene with another sender.
    pub(crate) fn from(&self, sender: u16) -> Scene
        ensures { result ≡ from self.now sender }
    {
        Scene { sender, ..*self }
    }

    /// The scene at another port.
    pub(crate) fn at_port(&self, port: u8) -> Scene
        ensures { result ≡ with_port self.now port }
    {
        Scene { port, ..*self }
    }

    /// The scene by the ring's other port.
    pub(crate) fn turned(&self) -> Scene
        ensures { result ≡ turned self.now }
    {
        Scene {
            port: self.beyond,
            beyond: self.port,
            ..*self
        }
    }

    /// The tag of a usual frame with this number that comes to its port.
    pub(crate) fn tag(&self, number: u16) -> Tag
        ensures { result ≡ tag_at self.now number }
    {
        let first = if self.port % 2 == 0 {
            LANE + USUAL_SIZE
        } else {
            USUAL_SIZE
        };
        Tag { first, number }
    }

    /// A frame of this source, form and payload.
    pub(crate) fn shaped(
        &self,
        ms: u16,
        rule: Rule,
        dst: Mac,
        src: Mac,
        form: Form,
        load: Load,
    ) -> Stimulus
        ensures { result ≡ shaped self.now ms rule dst src form load }
    {
        let shape = Shape {
            dst,
            src,
            form,
            kind: EXPERIMENTAL,
            load,
        };
        let at = self.moment(ms);
        let port = self.port;
        Stimulus {
            at,
            port,
            rule,
            shape,
        }
    }

    /// A usual tagged frame.
    pub(crate) fn tagged(&self, ms: u16, rule: Rule, dst: Mac, number: u16) -> Stimulus
        ensures { result ≡ tagged self.now ms rule dst number }
    {
        let tag = self.tag(number);
        let src = self.source();
        self.shaped(ms, rule, dst, src, Form::Tagged(tag), usual_load())
    }

    /// A usual plain frame.
    pub(crate) fn plain(&self, ms: u16, rule: Rule, dst: Mac) -> Stimulus
        ensures { result ≡ plain self.now ms rule dst }
    {
        let src = self.source();
        self.shaped(ms, rule, dst, src, Form::Plain, usual_load())
    }

    /// A supervision frame with this number in its tag and in its payload.
    pub(crate) fn supervision(
        &self,
        ms: u16,
        rule: Rule,
        number: u16,
        first: Tlv,
        second: Tlv,
    ) -> Stimulus
        ensures { result ≡ supervision self.now ms rule number first second }
    {
        let src = self.source();
        let tag = self.tag(number);
        let told = Told {
            number,
            first,
            second,
        };
        let shape = Shape {
            dst: Mac::supervision(),
            src,
            form: Form::Tagged(tag),
            kind: ETHERTYPE_SUPERVISION,
            load: Load::Supervision(told),
        };
        let at = self.moment(ms);
        let port = self.port;
        Stimulus {
            at,
            port,
            rule,
            shape,
        }
    }
}

//! Supervision, readable and not, and octets that are no frame.
ghost use Rattle.std.specs.Prelude.{◌≡◌, ◌<◌};
ghost use Rattle.hsr_stimuli.specs.Scene.{tlv};
ghost use Rattle.hsr_stimuli.specs.Scenes.{malformed, node, supervisions};
ghost use Rattle.hsr_stimuli.specs.declared.shape.Load.TheVariants.{Filled};

use crate::ring::CONTROL;
use crate::rule::Rule;
use crate::scene::{Scene, Stimulus, end, group, other, tlv, usual_load};
use crate::shape::{Form, Load, Tlv};
use hsr_frame::Mac;

/// The type of TLV1 for a node of HSR (IEC 62439-3 clause 5.7), and one that no kind of node has.
const HSR: u8 = 23;

const NO_KIND: u8 = 22;

/// The types of TLV1 for nodes of PRP (IEC 62439-3 clause 5.7).
const DISCARD: u8 = 20;

const ACCEPT: u8 = 21;

/// The type of a TLV that names a RedBox (IEC 62439-3 clause 5.7).
const REDBOX: u8 = 30;

/// The length of an address, and one that isn't.
const NAME_LEN: u8 = 6;

const WRONG_LEN: u8 = 5;

/// A TLV of a type that says nothing, whose value is cut off: no payload here has so many octets.
const UNKNOWN: u8 = 5;

const CUT_LEN: u8 = 200;

/// One octet more than the longest payload (IEEE 802.3 clause 3).
const TOO_LONG: u16 = 1501;

/// TLV1 for a node of HSR.
fn hsr(mac: Mac) -> Tlv
    ensures { result ≡ tlv 23 6 mac }
{
    tlv(HSR, NAME_LEN, mac)
}

/// A payload that is too long.
fn too_long() -> Load
    ensures { result ≡ Filled 1501 }
{
    Load::Filled(TOO_LONG)
}

/// Supervision: what can be read, and of what can't one of each fault.
#[tactic(auto, unfolding(crate::specs::Scenes::supervisions))]
pub(crate) fn supervisions(scene: &Scene) -> [Stimulus; 8]
    ensures { result ≡ supervisions scene.now }
{
    let src = scene.source();
    let station = hsr(other(scene.own, 501));
    let redbox = tlv(REDBOX, NAME_LEN, src);
    let discard = tlv(DISCARD, NAME_LEN, src);
    let accept = tlv(ACCEPT, NAME_LEN, src);
    let cut = tlv(UNKNOWN, CUT_LEN, src);
    let kind = tlv(NO_KIND, NAME_LEN, src);
    let length = tlv(HSR, WRONG_LEN, src);
    let box_length = tlv(REDBOX, WRONG_LEN, src);
    [
        scene.supervision(30, Rule::SupervisionHsr, 30, hsr(src), end()),
        scene.supervision(31, Rule::SupervisionRedBox, 31, station, redbox),
        scene.supervision(32, Rule::SupervisionDiscard, 32, discard, end()),
        scene.supervision(33, Rule::SupervisionAccept, 33, accept, end()),
        scene.supervision(34, Rule::SupervisionCutOff, 34, hsr(src), cut),
        scene.supervision(35, Rule::SupervisionKind, 35, kind, end()),
        scene.supervision(36, Rule::SupervisionLength, 36, length, end()),
        scene.supervision(37, Rule::SupervisionRedBoxLength, 37, hsr(src), box_length),
    ]
}

/// Octets that are no frame, for each reason.
#[tactic(auto, unfolding(crate::specs::Scenes::malformed))]
pub(crate) fn malformed(scene: &Scene) -> [Stimulus; 8]
    ensures { result ≡ malformed scene.now }
{
    let to = group();
    let src = scene.source();
    let tag = scene.tag(40);
    let cut = Form::CutVlan { control: CONTROL };
    let two = Form::TwoVlans { control: CONTROL };
    let behind = Form::VlanBehind {
        tag,
        control: CONTROL,
    };
    [
        scene.shaped(40, Rule::Short, to, src, cut, Load::Filled(0)),
        scene.shaped(41, Rule::Long, to, src, Form::Tagged(tag), too_long()),
        scene.shaped(42, Rule::LongUntagged, to, src, Form::Plain, too_long()),
        scene.shaped(
            43,
            Rule::GroupSource,
            to,
            to,
            Form::Tagged(tag),
            usual_load(),
        ),
        scene.shaped(44, Rule::TwoVlanTags, to, src, two, usual_load()),
        scene.shaped(45, Rule::VlanTagBehind, to, src, behind, usual_load()),
        scene.shaped(
            46,
            Rule::ShortTag,
            to,
            src,
            Form::CutTag(tag),
            Load::Filled(0),
        ),
        scene.shaped(
            47,
            Rule::NestedTag,
            to,
            src,
            Form::TwoTags(tag),
            usual_load(),
        ),
    ]
}

/// Supervision of a node of its own.
pub(crate) fn node(scene: &Scene, n: u16) -> Stimulus
    requires { n < 1000 }
    ensures { result ≡ node scene.now n }
{
    let heard = scene.from(1000 + n);
    let src = heard.source();
    heard.supervision(n, Rule::Node, 0, hsr(src), end())
}

//! What comes by a ring: frames to a group, to another node and to the device.
ghost use Rattle.std.specs.Prelude.{◌≡◌, ◌≤◌};
ghost use Rattle.hsr_stimuli.specs.Scenes.{addressed, group_shaped, groups, other_path, others, sized, wrong_size};

use crate::rule::Rule;
use crate::scene::{Scene, Stimulus, group, other, usual_load};
use crate::shape::{Form, Load, Tag};

/// The control information of VLAN tags: priority 1 in VLAN 100 (IEEE 802.1Q clause 9).
pub(crate) const CONTROL: u16 = 0x2064;

/// Path 5, and the size of a usual payload.
const OTHER_PATH: u16 = 0x5034;

/// The longest payload (IEEE 802.3 clause 3).
const LONGEST: u16 = 1500;

/// The payload of the least frame that a cable carries, of 60 octets with an HSR tag (IEEE 802.3 clause 4).
const LEAST: u16 = 40;

/// A tagged frame to the group with this tag and payload.
fn group_shaped(scene: &Scene, ms: u16, rule: Rule, tag: Tag, load: Load) -> Stimulus
    ensures { result ≡ group_shaped scene.now ms rule tag load }
{
    let src = scene.source();
    scene.shaped(ms, rule, group(), src, Form::Tagged(tag), load)
}

/// A tag with a path of no port.
fn other_path(number: u16) -> Tag
    ensures { result ≡ other_path number }
{
    Tag {
        first: OTHER_PATH,
        number,
    }
}

/// A tag with a size that isn't that of its payload.
fn wrong_size(scene: &Scene, number: u16) -> Tag
    ensures { result ≡ wrong_size scene.now number }
{
    let tag = scene.tag(number);
    Tag {
        first: tag.first + 100,
        number,
    }
}

/// The tag of a payload with so many octets.
fn sized(scene: &Scene, len: u16, number: u16) -> Tag
    requires { len ≤ 1500 }
    ensures { result ≡ sized scene.now len number }
{
    let tag = scene.tag(number);
    Tag {
        first: tag.first - 46 + len,
        number,
    }
}

/// Frames to a group, of every form.
#[tactic(auto, unfolding(crate::specs::Scenes::groups))]
pub(crate) fn groups(scene: &Scene) -> [Stimulus; 9]
    ensures { result ≡ groups scene.now }
{
    let to = group();
    let src = scene.source();
    let turned = scene.turned();
    let in_vlan = Form::TaggedInVlan {
        control: CONTROL,
        tag: scene.tag(1),
    };
    let path = other_path(2);
    let wrong = wrong_size(scene, 3);
    let least = sized(scene, LEAST, 4);
    let longest = sized(scene, LONGEST, 5);
    [
        scene.tagged(0, Rule::ToGroup, to, 0),
        turned.tagged(1, Rule::ToGroupSecond, to, 0),
        scene.tagged(2, Rule::ToGroupAgain, to, 0),
        scene.shaped(3, Rule::InVlan, to, src, in_vlan, usual_load()),
        group_shaped(scene, 4, Rule::OtherPath, path, usual_load()),
        group_shaped(scene, 5, Rule::WrongSize, wrong, usual_load()),
        group_shaped(scene, 6, Rule::LeastPayload, least, Load::Filled(LEAST)),
        group_shaped(
            scene,
            7,
            Rule::LongestPayload,
            longest,
            Load::Filled(LONGEST),
        ),
        scene.plain(8, Rule::Untagged, to),
    ]
}

/// Frames to another node.
#[tactic(auto, unfolding(crate::specs::Scenes::others))]
pub(crate) fn others(scene: &Scene) -> [Stimulus; 3]
    ensures { result ≡ others scene.now }
{
    let to = other(scene.own, 500);
    let turned = scene.turned();
    [
        scene.tagged(10, Rule::ToAnother, to, 10),
        turned.tagged(11, Rule::ToAnotherSecond, to, 10),
        scene.tagged(12, Rule::ToAnotherAgain, to, 10),
    ]
}

/// Frames to the device, and one from its own address.
#[tactic(auto, unfolding(crate::specs::Scenes::addressed))]
pub(crate) fn addressed(scene: &Scene) -> [Stimulus; 4]
    ensures { result ≡ addressed scene.now }
{
    let own = scene.own;
    let turned = scene.turned();
    let tag = scene.tag(21);
    [
        scene.tagged(20, Rule::ToDevice, own, 20),
        turned.tagged(21, Rule::ToDeviceSecond, own, 20),
        scene.tagged(22, Rule::ToDeviceAgain, own, 20),
        scene.shaped(
            23,
            Rule::FromDevice,
            group(),
            own,
            Form::Tagged(tag),
            usual_load(),
        ),
    ]
}

//! Why a node refuses to send.
ghost use Rattle.std.specs.Prelude.{◌≡◌, ◌≢◌, ◌≤◌, ◌<◌, ◌^◌, IfNone};
ghost use Rattle.hsr_frame.specs.Layout.{ethertype_hsr, ethertype_vlan, max_payload};
ghost use Rattle.hsr_frame.specs.Send.{send_refusal};

use crate::fault::SendFault;
use crate::layout::{ETHERTYPE_HSR, ETHERTYPE_VLAN, MAX_PAYLOAD};
use crate::mac::Mac;
use crate::node::STEP_LIMIT;

/// Why a send is refused, if it is: it goes to its own source, its type is that of a VLAN or HSR tag, as
/// many steps as a node accepts are spent, or its payload has more than `MAX_PAYLOAD` octets. The first reason counts.
/// `accepted` counts the sends, supervisions and arrivals so far, `len` is in octets (the order is this profile's).
pub fn send_fault(
    src: Mac,
    accepted: u64,
    dst: Mac,
    ethertype: u16,
    len: usize,
) -> Option<SendFault>
    requires { accepted ≤ 2 ^ 62 }
    ensures fault { result ≡ send_refusal src accepted dst ethertype len }
    ensures room { IfNone result (accepted < 2 ^ 62) }
    ensures formed { IfNone result ((ethertype ≢ ethertype_vlan) × (ethertype ≢ ethertype_hsr)
        × (len ≤ max_payload)) }
{
    if dst == src {
        Some(SendFault::SelfAddressed)
    } else if ethertype == ETHERTYPE_HSR || ethertype == ETHERTYPE_VLAN {
        Some(SendFault::ReservedType)
    } else if accepted == STEP_LIMIT {
        // Equal is enough: `accepted` is never above the limit.
        Some(SendFault::Spent)
    } else if len > MAX_PAYLOAD {
        Some(SendFault::TooLong)
    } else {
        None
    }
}

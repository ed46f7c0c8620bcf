//! Which egresses want a frame of the interlink, or of the RedBox's own.
ghost use Rattle.std.specs.Prelude.{◌≡◌, ◌≤◌, Result};
ghost use Rattle.hsr_tables.specs.Proxies.{is_known};
ghost use Rattle.hsr_redbox.specs.Wanted.{handling_interlink, handling_plain, handling_send, numbered, unnumbered};

use hsr_frame::{Cause, Exits, FrameFault, Mac, Wants, is_supervision};
use hsr_tables::ProxyTable;
use hsr_tag::{EitherView, FrameView, SeenView};

/// What is done with a frame that passes without a look: which egresses want it, and for which source it gets a
/// number, if it does.
#[derive(Clone, Copy, PartialEq, Eq)]
pub struct Handling {
    pub wants: Wants,
    pub source: Option<Mac>,
}

/// It goes out with no number.
fn unnumbered(wants: Wants) -> Handling
    ensures { result ≡ unnumbered wants }
{
    Handling {
        wants,
        source: None,
    }
}

/// It goes out with a number for its source.
fn numbered(src: Mac, exits: Exits) -> Handling
    ensures { result ≡ numbered src (record { exits = exits; cause = Cause.Foreign }) }
{
    Handling {
        wants: Wants::to(exits),
        source: Some(src),
    }
}

/// What is done with what came to the interlink.
pub fn interlink_handling(
    own: Mac,
    proxies: &ProxyTable,
    seen: &Result<SeenView<'_>, FrameFault>,
    now: u64,
) -> Handling
    requires { proxies.now.last ≤ now }
    ensures { result ≡ handling_interlink own (is_known now proxies.now.heard) seen.now }
{
    let seen = match seen {
        Ok(seen) => seen,
        Err(fault) => return unnumbered(Wants::nowhere(Cause::Malformed(*fault))),
    };
    match &seen.frame {
        EitherView::Tagged(_) => unnumbered(Wants::nowhere(Cause::Tagged)),
        EitherView::Plain(frame) => plain_handling(own, proxies, frame, now),
    }
}

/// What is done with a plain frame of the interlink.
fn plain_handling(own: Mac, proxies: &ProxyTable, frame: &FrameView<'_>, now: u64) -> Handling
    requires { proxies.now.last ≤ now }
    ensures { result ≡ handling_plain own (is_known now proxies.now.heard) frame.now }
{
    if frame.src == own {
        return unnumbered(Wants::nowhere(Cause::Returned));
    }
    if frame.dst == own {
        return unnumbered(Wants::to(Exits {
            up: true,
            ..Exits::none()
        }));
    }
    // Both stand behind the interlink, so the RedBox leaves them to each other.
    if proxies.knows(frame.dst, now) {
        return unnumbered(Wants::nowhere(Cause::Local));
    }
    let ports = Exits::both_ports();
    // The number is the RedBox's and the source stays the station's: all copies on the ring are known by both.
    if frame.dst.is_group() {
        return numbered(frame.src, Exits { up: true, ..ports });
    }
    numbered(frame.src, ports)
}

/// What is done with a send, by its destination and type.
pub fn send_handling(own: Mac, proxies: &ProxyTable, dst: Mac, ethertype: u16, now: u64) -> Handling
    requires { proxies.now.last ≤ now }
    ensures { result ≡ handling_send own (is_known now proxies.now.heard) dst ethertype }
{
    // Without a number: frames on an interlink carry no tag.
    if proxies.knows(dst, now) {
        return unnumbered(Wants::to(Exits {
            c: true,
            ..Exits::none()
        }));
    }
    let ports = Exits::both_ports();
    // Supervision is for the ring alone.
    if dst.is_group() && !is_supervision(dst, ethertype) {
        return numbered(own, Exits { c: true, ..ports });
    }
    numbered(own, ports)
}

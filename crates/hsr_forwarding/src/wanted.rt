//! Which egresses of a node on a ring want what came to a ring port.
ghost use Rattle.std.specs.Prelude.{[], ◌∷◌, ◌≡◌, ◌≤◌, IfSome, option_map, Result};
ghost use Rattle.hsr_frame.specs.Egress.{beyond, exits_of, in_mode, onward};
ghost use Rattle.hsr_forwarding.specs.Wanted.{is_behind, stations_at, wanted, wanted_tagged};

use hsr_frame::{Cause, Exits, FrameFault, Mac, Mode, RingPort, Wants, is_supervision};
use hsr_tables::ProxyTable;
use hsr_tag::{EitherView, SeenView, TaggedView};

/// The ring port from which a frame goes on.
fn beyond(x: RingPort) -> Exits
    ensures { result ≡ exits_of (beyond x ∷ []) }
{
    match x {
        RingPort::A => Exits {
            b: true,
            ..Exits::none()
        },
        RingPort::B => Exits {
            a: true,
            ..Exits::none()
        },
    }
}

/// The ring port from which a unicast that is delivered goes on, in mode U.
fn onward(mode: Mode, x: RingPort) -> Exits
    ensures { result ≡ exits_of (onward mode x) }
{
    match mode {
        Mode::H | Mode::N => Exits::none(),
        Mode::U => beyond(x),
    }
}

/// What is wanted where no frame goes on round the ring in mode N.
fn in_mode(mode: Mode, wants: Wants) -> Wants
    ensures { result ≡ in_mode mode wants }
{
    match mode {
        Mode::H | Mode::U => wants,
        Mode::N => Wants {
            exits: Exits {
                a: false,
                b: false,
                ..wants.exits
            },
            ..wants
        },
    }
}

/// Whether an address stands behind the interlink.
fn is_behind(stations: Option<&ProxyTable>, mac: Mac, now: u64) -> bool
    requires { IfSome stations (λ table. table.now.last ≤ now) }
    ensures { result ≡ is_behind (stations_at now
        (option_map (λ table. table.now) stations.entry)) mac }
{
    match stations {
        Some(table) => table.knows(mac, now),
        None => false,
    }
}

/// What is wanted of what came to a ring port of a node with this address and mode (IEC 62439-3 clause 5.3), at a moment in
/// microseconds. `stations` are those that a RedBox heard on its interlink; a node without an interlink has none.
// Inline, so that the frame that was read needn't stand in memory.
#[inline(always)]
pub fn ring_wants(
    own: Mac,
    mode: Mode,
    stations: Option<&ProxyTable>,
    x: RingPort,
    seen: &Result<SeenView<'_>, FrameFault>,
    now: u64,
) -> Wants
    requires { IfSome stations (λ table. table.now.last ≤ now) }
    ensures { result ≡ wanted own mode (stations_at now
        (option_map (λ table. table.now) stations.entry)) x seen.now }
{
    let seen = match seen {
        Ok(seen) => seen,
        Err(fault) => return Wants::nowhere(Cause::Malformed(*fault)),
    };
    match &seen.frame {
        EitherView::Plain(_) => Wants::nowhere(Cause::Untagged),
        EitherView::Tagged(frame) => {
            // Mode N takes the ring ports away at the end, so all other cases are those of mode H.
            in_mode(mode, tagged_wants(own, mode, stations, x, frame, now))
        }
    }
}

/// What is wanted of a tagged frame, in mode H or U.
fn tagged_wants(
    own: Mac,
    mode: Mode,
    stations: Option<&ProxyTable>,
    x: RingPort,
    frame: &TaggedView<'_>,
    now: u64,
) -> Wants
    requires { IfSome stations (λ table. table.now.last ≤ now) }
    ensures { result ≡ wanted_tagged own mode (stations_at now
        (option_map (λ table. table.now) stations.entry)) x frame.now }
{
    let on = beyond(x);
    let delivered_on = onward(mode, x);
    let interlink = stations.is_some();
    // The sender comes first: a frame ends its way round the ring here, whomever it is to (RULES, Arrivals).
    if frame.src == own {
        return Wants::nowhere(Cause::Returned);
    }
    if frame.dst == own {
        return Wants::to(Exits {
            up: true,
            ..delivered_on
        });
    }
    // Before other groups, since supervision isn't let out by an interlink.
    if is_supervision(frame.dst, frame.kind) {
        return Wants::to(Exits { up: true, ..on });
    }
    if frame.dst.is_group() {
        return Wants::to(Exits {
            up: true,
            c: interlink,
            ..on
        });
    }
    // A known station is behind the interlink alone, so in mode H the frame goes no further.
    if is_behind(stations, frame.dst, now) {
        return Wants::to(Exits {
            c: true,
            ..delivered_on
        });
    }
    Wants::to(on)
}

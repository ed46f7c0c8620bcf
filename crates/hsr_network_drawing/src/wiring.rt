//! How ports are wired: which links make loops, and which hang nodes on them.
use crate::stops::Passage;
use hsr_node::Place;
use hsr_topology::End;

/// Whether an end is a ring port: A and B of a DANH or a RedBox, each port of a QuadBox.
fn is_ring_end(places: &[Place], end: End) -> bool {
    match places.get(end.node) {
        Some(Place::Danh { .. }) | Some(Place::QuadBox) => true,
        Some(Place::RedBox { .. }) => end.port < 2,
        _ => false,
    }
}

/// Whether a link is no part of a loop: an interlink, or one of a Station.
pub(crate) fn is_beside(places: &[Place], link: [End; 2]) -> bool {
    let [a, b] = link;
    !is_ring_end(places, a) || !is_ring_end(places, b)
}

/// The port by which a copy leaves that came in by a ring port: A and B are partners, and C and D.
pub(crate) fn partner(end: End) -> End {
    let port = match end.port {
        0 => 1,
        1 => 0,
        2 => 3,
        _ => 2,
    };
    End {
        node: end.node,
        port,
    }
}

/// Whether two ends are the same port.
pub(crate) fn is_same(a: End, b: End) -> bool {
    a.node == b.node && a.port == b.port
}

/// The link of a port.
pub(crate) fn passage_from(links: &[[End; 2]], end: End) -> Option<Passage> {
    for (link, [a, b]) in links.iter().enumerate() {
        if is_same(*a, end) {
            return Some(Passage {
                link,
                is_forth: true,
            });
        }
        if is_same(*b, end) {
            return Some(Passage {
                link,
                is_forth: false,
            });
        }
    }
    None
}

/// The end to which a passage leads.
pub(crate) fn end_behind(links: &[[End; 2]], passage: Passage) -> Option<End> {
    match links.get(passage.link) {
        Some([a, b]) => Some(if passage.is_forth { *b } else { *a }),
        None => None,
    }
}

/// The other node of a link of this node.
pub(crate) fn peer(link: [End; 2], node: usize) -> Option<usize> {
    let [a, b] = link;
    if a.node == node {
        Some(b.node)
    } else if b.node == node {
        Some(a.node)
    } else {
        None
    }
}

/// Whether a link beside the loops is one of this node's.
pub(crate) fn has_beside(places: &[Place], links: &[[End; 2]], node: usize) -> bool {
    links.iter().any(|link| peer(*link, node).is_some() && is_beside(places, *link))
}

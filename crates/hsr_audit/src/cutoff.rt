//! The first send that doesn't come to a node that it is due at.
ghost use Rattle.std.specs.Prelude.{◌≡◌, ◌↔◌, ◌<◌, [], length, IfOk, IsTrue, OnOk};
ghost use Rattle.hsr_deliveries.specs.Delivered.{lost};
ghost use Rattle.hsr_run_laws.specs.Premises.{is_redbox};
ghost use Rattle.hsr_run_laws.specs.Run.{place_of, record_of};
ghost use Rattle.hsr_audit.specs.Coming.{Comes};
ghost use Rattle.hsr_audit.specs.Reaching.{AreReached, IsCutAt, IsCutIn, IsFirstCut, IsFirstUnserved, IsLossOf, IsSpreadOf, is_last_in};
ghost use Rattle.hsr_audit.specs.Shared.{AreFound};
ghost use Rattle.hsr_network_laws.specs.Network.{start_of};

use crate::covered::{is_redbox, is_to_station};
use crate::lossy::channels_of;
use crate::sends::send_at;
use crate::shared::{Found, found_of, keep};
use hsr_bitset::Numbers;
use hsr_deliveries::{Loss, Losses, is_due};
use hsr_finished_run::{Closed, from_end};
use hsr_frame::NoMemory;
use hsr_link::Dir;
use hsr_node::{Place, Probe};
use hsr_routes::{Channel, Heading, Routes};
use hsr_tag::FrameView;
use indexmap::IndexMap;
use std::alloc::Global;
use std::marker::Model;

/// A send, by its node and place, and the lowest node that it is due at and doesn't come to.
#[derive(Clone, Copy)]
pub(crate) struct Cut {
    pub(crate) node: usize,
    pub(crate) place: usize,
    pub(crate) receiver: usize,
}

/// The nodes that a send reaches, and the channels on which copies of it were lost, by their numbers.
#[derive(Clone, Copy)]
struct Spread {
    nodes: Numbers,
    lossy: Numbers,
}

/// A finished run, the routes of its topology, and the losses of each of its sends.
#[derive(Drop)]
pub(crate) struct Reach<'a, const C: usize> {
    closed: &'a Closed<C>,
    routes: Routes<'a>,
    losses: Losses<'a, C>,
}

impl<'a, const C: usize> Model for Reach<'a, C> {
    ghost use Rattle.std.specs.Prelude.{◌≡◌};
    ghost use Rattle.hsr_run_laws.specs.Run.{Run};
    ghost use Rattle.hsr_routes.specs.Routes.{bare};

    ghost Value = { Run };

    ghost view = { λ r. r.closed.now.run };

    ghost invariant = { λ r. (r.routes ≡ bare r.closed.now.run.places r.closed.now.run.links) × (r.losses ≡ r.closed.now.run) };
}

impl<'a, const C: usize> Reach<'a, C> {
    /// What a finished run tells of channels and losses.
    pub(crate) fn new(alloc: Global, closed: &'a Closed<C>) -> Result<Reach<'a, C>, NoMemory>
        ensures { IfOk result (λ reach. reach ≡ closed.now.run) }
    {
        Ok(Reach {
            closed,
            routes: Routes::new(alloc, closed.topology())?,
            losses: Losses::new(alloc, closed)?,
        })
    }

    /// The kind of a node.
    fn place(&self, node: usize) -> &Place
        requires { node < length self.now.places }
        ensures { result.now ≡ place_of self.now node }
    {
        &self.closed.topology().places()[node]
    }

    /// The channels on which copies of a send were lost, where these are all its losses.
    fn lossy(&self, send: Probe, losses: &[Loss]) -> Numbers
        requires { losses.now ≡ lost self.now send }
        ensures { IsLossOf self.now send result }
    {
        // What it answers isn't used: its contract says that the run is finished, so it has 128 links at most, and the set
        // each channel.
        let _ = self.closed.topology();
        channels_of(losses)
    }

    /// The nodes that a send reaches, where it lost copies on these channels.
    fn search(&self, send: Probe, frame: &FrameView<'_>, lossy: &Numbers) -> Numbers
        requires node { send.node < length self.now.places }
        requires lossy { IsLossOf self.now send lossy.now }
        ensures { AreReached self.now send frame.now result }
    {
        let heading = Heading {
            sender: send.node,
            dst: frame.dst,
            kind: frame.kind,
        };
        self.routes.reached(&heading, lossy)
    }

    /// The nodes that a send reaches that lost nothing: those of an earlier one to its destination, of its type, if
    /// there was one.
    fn shared(
        &self,
        found: &mut Found,
        send: Probe,
        frame: &FrameView<'_>,
        lossy: &Numbers,
    ) -> Result<Numbers, NoMemory>
        requires node { send.node < length self.now.places }
        requires whole { lost self.now send ≡ [] }
        requires lossy { IsLossOf self.now send lossy.now }
        requires found { AreFound self.now send.node found.old }
        ensures reached { IfOk result (λ nodes. AreReached self.now send frame.now nodes) }
        ensures found { OnOk result (AreFound self.now send.node found.new) }
    {
        // Sends that lost nothing and go alike take the same channels, so they share a search.
        if let Some(nodes) = found_of(found, frame) {
            return Ok(nodes);
        }
        let nodes = self.search(send, frame, lossy);
        keep(found, frame, nodes)?;
        Ok(nodes)
    }

    /// The nodes that a send reaches, and the channels on which copies of it were lost, where these nodes were found of
    /// earlier sends of its node.
    fn spread(
        &self,
        alloc: Global,
        found: &mut Found,
        send: Probe,
        frame: &FrameView<'_>,
    ) -> Result<Spread, NoMemory>
        requires node { send.node < length self.now.places }
        requires found { AreFound self.now send.node found.old }
        ensures spread { IfOk result (IsSpreadOf self.now send frame.now) }
        ensures found { OnOk result (AreFound self.now send.node found.new) }
    {
        let losses = self.losses.of_send(alloc, send)?;
        let lossy = self.lossy(send, losses.as_slice());
        let nodes = if losses.is_empty() {
            self.shared(found, send, frame, &lossy)?
        } else {
            self.search(send, frame, &lossy)
        };
        Ok(Spread { nodes, lossy })
    }

    /// The node where a channel starts.
    fn start(&self, channel: Channel) -> usize
        requires { channel.link < length self.now.links }
        ensures { result ≡ (start_of self.now channel).node }
    {
        from_end(self.closed.topology().links()[channel.link], channel.dir).node
    }

    /// Whether a node is a RedBox.
    fn is_redbox(&self, node: usize) -> bool
        ensures { result ≡ is_redbox (place_of self.now node) }
    {
        match self.closed.topology().places().get(node) {
            Some(place) => is_redbox(place),
            None => false,
        }
    }

    /// Whether a channel ends at a node and lost no copy of a send, and starts at its sender or at a RedBox that it reaches.
    fn is_last(&self, sender: usize, spread: &Spread, node: usize, channel: Channel) -> bool
        requires { channel.link < length self.now.links }
        ensures { result ≡ is_last_in self.now sender spread.now node channel }
    {
        // As above: a channel's number asks for few links.
        let _ = self.closed.topology();
        let start = self.start(channel);
        self.routes.stop(channel).node == node
            && !spread.lossy.has(channel.number())
            && (start == sender || self.is_redbox(start) && spread.nodes.has(start))
    }

    /// Whether a send comes to a node: whether it reaches it; but a frame to one address comes to a Station by the node
    /// that the Station is joined with.
    fn comes(&self, send: Probe, frame: &FrameView<'_>, spread: &Spread, node: usize) -> bool
        requires node { node < length self.now.places }
        requires spread { IsSpreadOf self.now send frame.now spread.now }
        ensures { IsTrue result ↔ Comes self.now send frame.now node }
    {
        let topology = self.closed.topology();
        if !is_to_station(frame, self.place(node)) {
            return spread.nodes.has(node);
        }
        for link in 0..topology.links().len() {
            let (forth, back) = (Dir::Forth, Dir::Back);
            if self.is_last(send.node, spread, node, Channel { link, dir: forth })
                || self.is_last(send.node, spread, node, Channel { link, dir: back })
            {
                return true;
            }
        }
        false
    }

    /// The lowest node that a send is due at and doesn't come to.
    fn first_unserved(&self, send: Probe, frame: &FrameView<'_>, spread: &Spread) -> Option<usize>
        requires { IsSpreadOf self.now send frame.now spread.now }
        ensures { IsFirstUnserved self.now send frame.now result }
    {
        for (node, place) in self.closed.topology().places().iter().enumerate() {
            if is_due(place, send.node, node, frame.dst, frame.kind)
                && !self.comes(send, frame, spread, node)
            {
                return Some(node);
            }
        }
        None
    }

    /// The lowest node that the entry at a place of a node's record, if it is a send, is due at and doesn't come to.
    fn cut_at(
        &self,
        alloc: Global,
        found: &mut Found,
        node: usize,
        place: usize,
    ) -> Result<Option<usize>, NoMemory>
        requires node { node < length self.now.places }
        requires place { place < length (record_of self.now node) }
        requires found { AreFound self.now node found.old }
        ensures cut { IfOk result (IsCutAt self.now node place) }
        ensures found { OnOk result (AreFound self.now node found.new) }
    {
        let Some(sending) = send_at(self.closed, node, place) else {
            return Ok(None);
        };
        let send = Probe { node, place };
        let spread = self.spread(alloc, found, send, &sending.frame)?;
        Ok(self.first_unserved(send, &sending.frame, &spread))
    }

    /// The first send of a node that doesn't come to a node that it is due at, by its place, and that node.
    #[tactic(auto, using(crate::proofs::Reached::cut_fails))]
    fn cut_in(&self, alloc: Global, node: usize) -> Result<Option<(usize, usize)>, NoMemory>
        requires { node < length self.now.places }
        ensures { IfOk result (IsCutIn self.now node (length (record_of self.now node))) }
    {
        // Anew for each node: where a send goes depends on its sender.
        let mut found = IndexMap::new(alloc);
        for place in 0..self.closed.entries(node).len() {
            if let Some(receiver) = self.cut_at(alloc, &mut found, node, place)? {
                return Ok(Some((place, receiver)));
            }
        }
        Ok(None)
    }

    /// The first send that doesn't come to a node that it is due at.
    pub(crate) fn first_cut(&self, alloc: Global) -> Result<Option<Cut>, NoMemory>
        ensures { IfOk result (IsFirstCut self.now) }
    {
        for node in 0..self.closed.topology().places().len() {
            if let Some((place, receiver)) = self.cut_in(alloc, node)? {
                return Ok(Some(Cut {
                    node,
                    place,
                    receiver,
                }));
            }
        }
        Ok(None)
    }
}

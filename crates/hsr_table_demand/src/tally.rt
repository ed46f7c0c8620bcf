//! How many notes an egress made, and the latest of each send.
ghost use Rattle.std.specs.Prelude.{◌≡◌, ◌+◌, ◌<◌, ◌^◌, if◌then◌else◌, Some, None, OnOk};
ghost use Rattle.hsr_node.specs.declared.event.Probe.{Probe};
ghost use Rattle.hsr_run_laws.specs.Run.{is_same_send};
ghost use Rattle.hsr_table_demand.specs.Tallied.{IsTalliedAfter, latest_of, reach_of};

use hsr_duptable::ENTRY_FORGET;
use hsr_frame::NoMemory;
use hsr_node::Probe;
use indexmap::IndexMap;
use std::alloc::Global;

/// The latest note of a send.
#[derive(Clone, Copy)]
pub(crate) struct Latest {
    /// Its index among the notes of its egress: how many are older.
    index: usize,
    /// Its effective moment in microseconds.
    moment: u64,
}

/// How many notes an egress made, and the latest of each send, by the send's node and place.
#[derive(Drop)]
pub(crate) struct Tally {
    count: usize,
    sends: IndexMap<(usize, usize), Latest>,
}

/// The latest note that an index has of a send.
fn latest_of(sends: &IndexMap<(usize, usize), Latest>, send: Probe) -> Option<Latest>
    ensures { result ≡ latest_of sends.now send }
{
    sends.get(&(send.node, send.place)).copied()
}

/// Names the latest note of a send, if it is of one.
fn name_latest(
    sends: &mut IndexMap<(usize, usize), Latest>,
    send: Option<Probe>,
    latest: Latest,
) -> Result<(), NoMemory>
    ensures { OnOk result ((p : Probe) → latest_of sends.new p
        ≡ (if is_same_send (Some p) send then Some latest else latest_of sends.old p)) }
{
    let Some(probe) = send else {
        return Ok(());
    };
    match sends.insert((probe.node, probe.place), latest) {
        Ok(_) => Ok(()),
        Err(_) => Err(NoMemory),
    }
}

impl Tally {
    /// An egress that noted nothing.
    pub(crate) fn new(alloc: Global) -> Tally
        ensures count { result.count ≡ 0 }
        ensures sends { (p : Probe) → latest_of result.sends p ≡ None }
    {
        Tally {
            count: 0,
            sends: IndexMap::new(alloc),
        }
    }

    /// How many notes there are from the latest one of a send to the youngest, both counted; 0 where there is none, or where
    /// that one is expired.
    pub(crate) fn reach(&self, at: u64, send: Option<Probe>) -> usize
        ensures { result ≡ reach_of self.now at send }
    {
        let Some(send) = send else {
            return 0;
        };
        match latest_of(&self.sends, send) {
            // A difference and no sum, which may overflow.
            Some(latest) if at.saturating_sub(latest.moment) < ENTRY_FORGET => {
                self.count.saturating_sub(latest.index)
            }
            _ => 0,
        }
    }

    /// Counts one more note, if it is one.
    pub(crate) fn note(
        &mut self,
        is_noted: bool,
        moment: u64,
        send: Option<Probe>,
    ) -> Result<(), NoMemory>
        requires { self.old.count + 1 < 2 ^ 64 }
        ensures { OnOk result (IsTalliedAfter self.old is_noted moment send self.new) }
    {
        if is_noted {
            let latest = Latest {
                index: self.count,
                moment,
            };
            name_latest(&mut self.sends, send, latest)?;
            self.count += 1;
        }
        Ok(())
    }
}

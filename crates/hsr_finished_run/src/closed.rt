//! A run that is finished, and agrees with itself.
ghost use Rattle.std.specs.Prelude.{◌≡◌, ◌<◌, ◌≤◌, ◌^◌, length, IfErr, IfOk};
ghost use Rattle.hsr_frame.specs.Counters.{AreWithin};
ghost use Rattle.hsr_finished_run.specs.Finished.{IsFinished};
ghost use Rattle.hsr_run_laws.specs.Run.{ends_of, from_end, past_of, place_of, record_of, rows_of, to_end};

use crate::check::{fault_of, fault_of_records};
use crate::disagree::CheckFault;
use crate::ends;
use crate::parts::Parts;
use crate::planned::Planned;
use crate::records::Records;
use hsr_frame::Counters;
use hsr_link::{Dir, Row};
use hsr_node::{Entry, Kept, Pass};
use hsr_topology::{End, Topology};
use std::alloc::Global;
use std::marker::Model;

/// A finished run: its nodes with their records, its links with their rows, and its plan. Each outcome is what the past
/// of its node answers, links and records agree, each copy is of a send, nothing was injected and nothing waits.
/// Duplicate tables have `C` entries each; there is a closed run only where `C` is from 1 to 65535, so that a table has
/// fewer entries than there are sequence numbers (IEC 62439-3 clause 5).
#[derive(Drop)]
pub struct Closed<const C: usize> {
    topology: Topology,
    kept: Vec<Kept<C>>,
    rows: Vec<Vec<Row>>,
    plan: Vec<Planned>,
}

impl<const C: usize> Model for Closed<C> {
    ghost use Rattle.std.specs.Prelude.{◌≡◌, map};
    ghost use Rattle.hsr_finished_run.specs.Finished.{Finished, IsFinished, run_of};
    ghost use Rattle.hsr_node.specs.Kept.{Record};

    ghost Value = { Finished };

    ghost view = { λ c. record { run = run_of C c.topology c.kept.items c.rows.items; plan = c.plan.items } };

    ghost invariant = { λ c.
        (map (λ (r : Record). r.place) c.kept.items ≡ c.topology.places)
        × IsFinished (record {
          run = run_of C c.topology c.kept.items c.rows.items;
          plan = c.plan.items;
        }) };
}

impl<const C: usize> Closed<C> {
    ghost use Rattle.hsr_node.specs.Counts.{counters};
    ghost use Rattle.hsr_finished_run.specs.Checked.{Agrees, HasNoStorm, IfDisagree, IsFirst};
    ghost use Rattle.hsr_finished_run.specs.Finished.{run_of};
    ghost use Rattle.hsr_finished_run.specs.OfRecords.{AllAgreeOf, IsClosedOf, IsOpenOf};

    /// The run of these parts, if they agree: if `C` is from 1 to 65535, records, rows and receipts tell the same, and
    /// nothing is under way. Else the parts come back as they were, with the first cause, which is there exactly where
    /// they don't agree; or with `NoMemory` if allocation fails. For any other `C` the cause is `Shape`.
    #[tactic(auto, using(crate::proofs::Agreed::calm, crate::proofs::Agreed::refused))]
    pub fn check(
        alloc: Global,
        topology: Topology,
        plan: Vec<Planned>,
        kept: Vec<Kept<C>>,
        rows: Vec<Vec<Row>>,
        passes: Vec<Pass>,
    ) -> Result<Closed<C>, (Parts<C>, CheckFault)>
        ensures closed { IfOk result (λ closed. closed
            ≡ record { run = run_of C topology kept.entry.items rows.items; plan = plan.items }) }
        ensures agrees { IfOk result (λ closed.
            Agrees C topology kept.entry.items rows.items passes.items plan.items) }
        ensures first { IfErr result (λ e.
            IfDisagree e.1 (IsFirst C topology kept.entry.items rows.items passes.items
            plan.items)) }
        ensures refused { IfErr result (λ e. IfDisagree e.1 (λ d.
            ¬ Agrees C topology kept.entry.items rows.items passes.items plan.items)) }
        ensures whole { IfErr result (λ e. e.0 ≡ record {
          topology = topology;
          plan = plan;
          kept = kept.entry;
          rows = rows;
          passes = passes;
        }) }
        ensures no_storm { IfOk result (λ closed. HasNoStorm closed.run) }
    {
        match fault_of(
            alloc,
            &topology,
            kept.as_slice(),
            rows.as_slice(),
            passes.as_slice(),
            plan.as_slice(),
        ) {
            Some(fault) => Err((
                Parts {
                    topology,
                    plan,
                    kept,
                    rows,
                    passes,
                },
                fault,
            )),
            // The passes were compared, and are dropped: what stays is the run and its plan.
            None => Ok(Closed {
                topology,
                kept,
                rows,
                plan,
            }),
        }
    }

    /// The run of these records, if `C` is from 1 to 65535 and they agree with the passes that they and the plan tell.
    /// Else the records come back as they were, with the first cause, which is there exactly where they don't agree; or
    /// with `NoMemory` if allocation fails. For any other `C` the cause is `Shape`. The passes aren't made: all but the
    /// main worker's are right as they are told.
    pub fn of_records(
        alloc: Global,
        records: Records<C>,
    ) -> Result<Closed<C>, (Records<C>, CheckFault)>
        ensures closed { IfOk result (λ closed.
            IsClosedOf C records.entry.topology records.entry.kept.items records.entry.rows.items
            records.entry.plan.items closed) }
        ensures open { IfErr result (λ e.
            IfDisagree e.1 (IsOpenOf C records.entry.topology records.entry.kept.items
            records.entry.rows.items records.entry.plan.items)) }
        ensures whole { IfErr result (λ e. e.0 ≡ records.entry) }
        ensures no_storm { IfOk result (λ closed. HasNoStorm closed.run) }
    {
        match fault_of_records(
            alloc,
            &records.topology,
            records.kept.as_slice(),
            records.rows.as_slice(),
            records.plan.as_slice(),
        ) {
            Some(fault) => Err((records, fault)),
            None => {
                let Records {
                    topology,
                    plan,
                    kept,
                    rows,
                } = records;
                Ok(Closed {
                    topology,
                    kept,
                    rows,
                    plan,
                })
            }
        }
    }

    /// The run of these records, which are known to agree with the passes that they and the plan tell, whatever these are: nothing
    /// is compared. It is for who has played the run itself, and so knows what holds of all that was played.
    #[tactic(auto, using(crate::proofs::OfRecords::calm_of, crate::proofs::OfRecords::closed_of))]
    pub fn known(records: Records<C>) -> Closed<C>
        requires agree { AllAgreeOf C records.topology records.kept.items records.rows.items
            records.plan.items }
        ensures closed { IsClosedOf C records.entry.topology records.entry.kept.items
            records.entry.rows.items records.entry.plan.items result }
        ensures no_storm { HasNoStorm result.run }
    {
        // What it answers isn't used: its contract says that links are wired as a topology's, which holds of a finished run.
        let _ = records.topology.places();
        let Records {
            topology,
            plan,
            kept,
            rows,
        } = records;
        Closed {
            topology,
            kept,
            rows,
            plan,
        }
    }

    /// The nodes and links of the run.
    pub fn topology(&self) -> &Topology
        ensures places { result.now.places ≡ self.now.run.places }
        ensures links { result.now.links ≡ self.now.run.links }
        ensures capacity { self.now.run.capacity ≡ C }
        ensures finished { IsFinished self.now }
    {
        &self.topology
    }

    /// The end of a link from which the copies of a direction come.
    pub fn from_end(&self, link: usize, dir: Dir) -> End
        requires { link < length self.now.run.links }
        ensures { result ≡ from_end dir (ends_of self.now.run link) }
    {
        ends::from_end(self.topology.links()[link], dir)
    }

    /// The end of a link to which the copies of a direction go.
    pub fn to_end(&self, link: usize, dir: Dir) -> End
        requires { link < length self.now.run.links }
        ensures { result ≡ to_end dir (ends_of self.now.run link) }
    {
        ends::to_end(self.topology.links()[link], dir)
    }

    /// The record of a node, the oldest entry first.
    pub fn entries(&self, node: usize) -> &[Entry]
        requires { node < length self.now.run.places }
        ensures { result.now ≡ record_of self.now.run node }
    {
        self.kept[node].entries()
    }

    /// The record of a node; nothing where there is no such node.
    pub fn entries_at(&self, node: usize) -> &[Entry]
        ensures { result.now ≡ record_of self.now.run node }
    {
        if node < self.topology().places().len() {
            self.entries(node)
        } else {
            &[]
        }
    }

    /// How often each thing happened at a node, counted over its record.
    pub fn counters(&self, node: usize) -> Counters
        requires { node < length self.now.run.places }
        ensures value { result ≡ counters (place_of self.now.run node) (past_of self.now.run node) }
        ensures within { AreWithin result (2 ^ 62) }
    {
        self.kept[node].counters()
    }

    /// The row of each copy that was put on a link, in order.
    pub fn rows(&self, link: usize) -> &[Row]
        requires { link < length self.now.run.links }
        ensures { result.now ≡ rows_of self.now.run link }
    {
        self.rows[link].as_slice()
    }

    /// The rows of a link; none where there is no such link. No topology has over 128 links.
    pub fn rows_at(&self, link: usize) -> &[Row]
        ensures rows { result.now ≡ rows_of self.now.run link }
        ensures few { length self.now.run.links ≤ 128 }
    {
        if link < self.topology().links().len() {
            self.rows(link)
        } else {
            &[]
        }
    }

    /// What the main worker brought about, in order.
    pub fn plan(&self) -> &[Planned]
        ensures { result.now ≡ self.now.plan }
    {
        self.plan.as_slice()
    }
}

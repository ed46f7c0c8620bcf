//! The effective moments of a finished run.
ghost use Rattle.std.specs.Prelude.{◌≡◌, ◌++◌, ◌∷◌, [], IfOk, OnOk};
ghost use Rattle.hsr_run_laws.specs.Budget.{moment_of};
ghost use Rattle.hsr_finished_run.specs.Finished.{IsFinished};
ghost use Rattle.hsr_moments.specs.Recorded.{lists_of, moment_in, moments_of, moments_recorded};

use hsr_finished_run::Closed;
use hsr_frame::NoMemory;
use hsr_node::{Entry, Probe};
use std::alloc::Global;
use std::marker::Model;

/// The effective moment of each entry of a record.
fn recorded(alloc: Global, entries: &[Entry]) -> Result<Vec<u64>, NoMemory>
    ensures { IfOk result (λ moments. moments.items ≡ moments_recorded entries.now) }
{
    let mut moments = Vec::new(alloc);
    let mut moment = 0_u64;
    for x in entries {
        moment = moment.max(x.at);
        moments.push(moment)?;
    }
    Ok(moments)
}

/// Puts the moments of a record last.
fn add_record(records: &mut Vec<Vec<u64>>, moments: Vec<u64>) -> Result<(), NoMemory>
    ensures { OnOk result (records.new.items ≡ records.old.items ++ moments ∷ []) }
{
    records.push(moments)?;
    Ok(())
}

/// The effective moment of each entry of a run, by node and place.
fn all_recorded<const C: usize>(
    alloc: Global,
    closed: &Closed<C>,
) -> Result<Vec<Vec<u64>>, NoMemory>
    ensures finished { IsFinished closed.now }
    ensures moments { IfOk result (λ records. lists_of records.items ≡ moments_of closed.now.run) }
{
    let mut records = Vec::new(alloc);
    for node in 0..closed.topology().places().len() {
        add_record(&mut records, recorded(alloc, closed.entries(node))?)?;
    }
    Ok(records)
}

/// The moment of an entry; 0 where there is none.
fn moment_in(moments: &[Vec<u64>], here: Probe) -> u64
    ensures { result ≡ moment_in (lists_of moments.now) here }
{
    match moments.get(here.node) {
        Some(record) => record.get(here.place).copied().unwrap_or(0),
        None => 0,
    }
}

/// The effective moment of an entry of a run, of those of all entries; 0 where there is none. The run stands there for the contract
/// alone.
fn moment_at<const C: usize>(closed: &Closed<C>, records: &[Vec<u64>], here: Probe) -> u64
    requires { lists_of records.now ≡ moments_of closed.now.run }
    ensures { result ≡ moment_of closed.now.run here }
{
    moment_in(records, here)
}

/// A finished run, and the effective moment of each of its entries in microseconds.
#[derive(Drop)]
pub struct Moments<'a, const C: usize> {
    // Kept for its model: contracts speak of moments by the run that they are of.
    closed: &'a Closed<C>,
    records: Vec<Vec<u64>>,
}

impl<'a, const C: usize> Model for Moments<'a, C> {
    ghost use Rattle.std.specs.Prelude.{◌≡◌};
    ghost use Rattle.hsr_run_laws.specs.Run.{Run};
    ghost use Rattle.hsr_moments.specs.Recorded.{lists_of, moments_of};

    ghost Value = { Run };

    ghost view = { λ m. m.closed.now.run };

    ghost invariant = { λ m. lists_of m.records.items ≡ moments_of m.closed.now.run };
}

impl<'a, const C: usize> Moments<'a, C> {
    /// The effective moments of a run. `NoMemory` if allocation fails.
    pub fn new(alloc: Global, closed: &'a Closed<C>) -> Result<Moments<'a, C>, NoMemory>
        ensures { IfOk result (λ moments. moments ≡ closed.now.run) }
    {
        let records = all_recorded(alloc, closed)?;
        Ok(Moments { closed, records })
    }

    /// The effective moment of an entry: the greatest that was given in its record up to it. 0 where there is no such
    /// entry.
    pub fn at(&self, here: Probe) -> u64
        ensures { result ≡ moment_of self.now here }
    {
        moment_at(self.closed, self.records.as_slice(), here)
    }
}

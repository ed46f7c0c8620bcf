//! Numbers put into the run of their group, or into a new one.
ghost use Rattle.std.specs.Prelude.{◌≡◌, ℕ, ◌+◌, ◌<◌, ◌^◌, ◌∷◌, ◌++◌, if◌then◌else◌, [], false, List, length, reverse, slice_index_or, option_to_list, IfOk, IfSome, OnOk, nat_eq};
ghost use Rattle.std.specs.HashMap.{get};
ghost use Rattle.hsr_number_runs.specs.Counting.{AreMarked, IsPlaced, Knows, is_marked, same_block};
ghost use Rattle.hsr_number_runs.specs.Runs.{AreRunsOf, begun, extended_by, gone_on, greater, is_there, put_in, restart_by, restarts_by, top_of};
ghost use Rattle.hsr_number_runs.specs.declared.run.InRun.{InRun};

use hsr_frame::NoMemory;
use std::alloc::Global;
use std::collections::HashMap;
use std::marker::Model;

/// How long a node remembers a frame, in nanoseconds.
pub const FORGET_TIME: u64 = 400_000_000;

/// A number that is further than this from the greatest so far begins a new run.
const NEAR: u64 = 4096;

/// How many numbers there are.
const ROUND: u64 = 65536;

/// How many extended numbers have their marks together: a capture's numbers mostly follow one another, so that a mark takes little more
/// than an octet of room.
const BLOCK: u64 = 8;

/// A number that came: of which group, who in it sent it, when, and by which copy.
#[derive(Clone, Copy, PartialEq, Eq)]
pub struct Numbered {
    pub at: u64,
    pub group: u32,
    pub sender: u32,
    pub copy: u32,
    pub number: u16,
}

/// A number in a run: extended, it counts on where numbers begin anew, from 65536 on. It takes 32 octets of room.
#[derive(Clone, Copy, PartialEq, Eq)]
pub struct InRun {
    pub extended: u64,
    pub at: u64,
    pub group: u32,
    pub sender: u32,
    pub run: u32,
    pub copy: u32,
}

/// A number that began a new run of its group, behind the greatest number of the run before.
#[derive(Clone, Copy, PartialEq, Eq)]
pub struct Restart {
    pub group: u32,
    pub sender: u32,
    pub number: u16,
    pub copy: u32,
    /// When it came.
    pub at: u64,
    /// The greatest number before, and when it came.
    pub after: u16,
    pub since: u64,
}

/// Numbers, in the order of time, each in its run, and the restarts among them.
#[derive(Drop)]
pub struct Runs {
    pub in_runs: Vec<InRun>,
    pub restarts: Vec<Restart>,
}

/// What is kept of the numbers that came.
#[derive(Drop)]
struct Counting {
    /// Of each group the greatest number of its latest run.
    tops: HashMap<u32, InRun>,
    /// Of each eight extended numbers of a run whether they are there.
    there: HashMap<(u32, u64), [bool; 8]>,
    /// How many runs were begun.
    runs: u32,
}

/// A number in its run, and the restart that it is, if it is one.
#[derive(Clone, Copy)]
struct Placed {
    in_run: InRun,
    restart: Option<Restart>,
}

/// A number, extended so that it is next to the greatest so far, on whichever side it is nearer.
fn extended_by(top: u64, number: u16) -> u64
    ensures { top + 65536 < 2 ^ 64 → result ≡ extended_by top number }
{
    let ahead = (u64::from(number) + ROUND - top % ROUND) % ROUND;
    if ahead < ROUND / 2 {
        top.saturating_add(ahead)
    } else {
        top.saturating_sub(ROUND - ahead)
    }
}

/// Whether an extended number begins a new run: it is more than 4096 from the greatest so far, or it isn't greater, and the greatest came
/// 400 ms ago or more, or the number was there before.
fn restarts(top: InRun, extended: u64, at: u64, was_there: bool) -> bool
    ensures { result ≡ restarts_by top extended at was_there }
{
    extended.abs_diff(top.extended) > NEAR
        || (extended <= top.extended && (at.saturating_sub(top.at) >= FORGET_TIME || was_there))
}

/// A number, put into a run.
fn put_in(run: u32, extended: u64, n: Numbered) -> InRun
    ensures { result ≡ put_in run extended n }
{
    InRun {
        run,
        extended,
        group: n.group,
        sender: n.sender,
        at: n.at,
        copy: n.copy,
    }
}

/// The first number of a run: it counts on from 65536, so that one may be behind it.
fn begun(run: u32, n: Numbered) -> InRun
    ensures { result ≡ begun run n }
{
    put_in(run, ROUND + u64::from(n.number), n)
}

/// An extended number in the run of the greatest so far; none where it begins a new one.
fn gone_in(top: InRun, extended: u64, n: Numbered, was_there: bool) -> Option<InRun>
    ensures { result ≡ (if restarts_by top extended n.at was_there then None else Some (put_in top.run extended n)) }
{
    if restarts(top, extended, n.at, was_there) {
        None
    } else {
        Some(put_in(top.run, extended, n))
    }
}

/// The greater one of a number and the greatest before it; in a new run it is the first.
fn greater(p: InRun, top: Option<InRun>) -> InRun
    ensures { result ≡ greater p top }
{
    match top {
        None => p,
        Some(top) => {
            if p.run == top.run && p.extended <= top.extended {
                top
            } else {
                p
            }
        }
    }
}

/// The restart that a number is, by the greatest before it and by the number in the run that goes on.
fn restart_by(n: Numbered, top: Option<InRun>, gone: Option<InRun>) -> Option<Restart>
    ensures { result ≡ restart_by n top gone }
{
    match (top, gone) {
        (Some(top), None) => Some(Restart {
            group: n.group,
            sender: n.sender,
            number: n.number,
            copy: n.copy,
            at: n.at,
            after: (top.extended % ROUND) as u16,
            since: top.at,
        }),
        _ => None,
    }
}

/// Puts a restart behind others, if there is one.
fn put_restart(restarts: &mut Vec<Restart>, restart: Option<Restart>) -> Result<(), NoMemory>
    ensures { OnOk result (restarts.new.items ≡ restarts.old.items ++ option_to_list restart) }
{
    if let Some(restart) = restart {
        restarts.push(restart)?;
    }
    Ok(())
}

impl Counting {
    /// Nothing came.
    fn new(alloc: Global) -> Counting
        ensures { Knows result [] }
    {
        Counting {
            tops: HashMap::new(alloc),
            there: HashMap::new(alloc),
            runs: 0,
        }
    }

    /// The greatest number of a group's latest run.
    fn top_of(&self, group: u32) -> Option<InRun>
        ensures { result ≡ get nat_eq self.now.tops group }
    {
        self.tops.get(&group).copied()
    }

    /// Whether the eight extended numbers of a block of a run are there.
    fn marks_of(&self, run: u32, block: u64) -> [bool; 8]
        ensures { (k : ℕ) → slice_index_or result k false ≡ is_marked (get same_block self.now.there (run, block)) k }
    {
        match self.there.get(&(run, block)) {
            None => [false; 8],
            Some(marks) => *marks,
        }
    }

    /// Whether a run has an extended number.
    fn is_there(&self, run: u32, extended: u64) -> bool
        ensures { (before : List InRun) → Knows self.now before → result ≡ is_there run extended before }
    {
        let marks = self.marks_of(run, extended / BLOCK);
        marks[(extended % BLOCK) as usize]
    }

    /// Notes that a run has an extended number.
    fn put_there(&mut self, run: u32, extended: u64) -> Result<(), NoMemory>
        ensures there { OnOk result ((before : List InRun) → AreMarked self.old before
            → (p : InRun) → p.run ≡ run → p.extended ≡ extended → AreMarked self.new (p ∷ before)) }
        ensures tops { self.new.tops ≡ self.old.tops }
        ensures runs { self.new.runs ≡ self.old.runs }
    {
        let block = extended / BLOCK;
        let mut marks = self.marks_of(run, block);
        marks[(extended % BLOCK) as usize] = true;
        self.there.insert((run, block), marks)?;
        Ok(())
    }

    /// The number in the run that has this greatest one so far; none where it begins a new run.
    fn gone_from(&self, n: Numbered, top: InRun) -> Option<InRun>
        ensures { (before : List InRun) → Knows self.now before → top.extended + 65536 < 2 ^ 64 → result ≡ gone_on before n (Some top) }
    {
        let extended = extended_by(top.extended, n.number);
        let was_there = self.is_there(top.run, extended);
        gone_in(top, extended, n, was_there)
    }

    /// The number in the run that goes on, by the greatest so far; none where it begins a new run.
    fn gone_on(&self, n: Numbered, top: Option<InRun>) -> Option<InRun>
        ensures { (before : List InRun) → Knows self.now before → IfSome top (λ t. t.extended + 65536 < 2 ^ 64)
            → result ≡ gone_on before n top }
    {
        match top {
            None => None,
            Some(top) => self.gone_from(n, top),
        }
    }

    /// A number in its run.
    fn place(&self, n: Numbered) -> Placed
        ensures { (before : List InRun) → Knows self.now before → ((group : ℕ) → IfSome (top_of group before) (λ t. t.extended + 65536 < 2 ^ 64))
            → IsPlaced before n result }
    {
        let top = self.top_of(n.group);
        let gone = self.gone_on(n, top);
        let first = begun(self.runs, n);
        let in_run = gone.unwrap_or(first);
        let restart = restart_by(n, top, gone);
        Placed { in_run, restart }
    }

    /// Puts a number that is in a run.
    fn put(&mut self, alloc: Global, p: InRun) -> Result<(), NoMemory>
        requires { p.run + 1 < 2 ^ 32 }
        ensures { OnOk result ((before : List InRun) → Knows self.old before → Knows self.new (p ∷ before)) }
    {
        let own = self.top_of(p.group);
        let top = greater(p, own);
        self.tops.insert(p.group, top)?;
        self.put_there(p.run, p.extended)?;
        self.runs = self.runs.max(p.run + 1);
        Ok(())
    }
}

/// Numbers that are put into runs, one after the other, in the order of time. No list of the numbers themselves is kept: each can be told
/// by its place in its run.
#[derive(Drop)]
pub struct RunsSoFar {
    counting: Counting,
    in_runs: Vec<InRun>,
    restarts: Vec<Restart>,
}

impl Model for RunsSoFar {
    ghost use Rattle.std.specs.Prelude.{List, reverse};
    ghost use Rattle.hsr_number_runs.specs.declared.run.Numbered.{Numbered};

    ghost Value = { List Numbered };

    ghost use Rattle.hsr_number_runs.specs.Counting.{AreSoFar};
    ghost use Rattle.hsr_number_runs.specs.Runs.{numbers_of};

    ghost view = { λ s. numbers_of s.in_runs.items };

    ghost invariant = { λ s. AreSoFar s.counting s.in_runs.items s.restarts.items (reverse (numbers_of s.in_runs.items)) };
}

impl RunsSoFar {
    /// No number was put. As much room is taken as so many numbers need: a list that grows by doubling takes up to twice that.
    /// `NoMemory` where room is refused.
    pub fn with_capacity(alloc: Global, many: usize) -> Result<RunsSoFar, NoMemory>
        ensures { IfOk result (λ so_far. so_far ≡ []) }
    {
        Ok(RunsSoFar {
            counting: Counting::new(alloc),
            in_runs: Vec::with_capacity(alloc, many)?,
            restarts: Vec::new(alloc),
        })
    }

    /// With the next number in its run. `NoMemory` where room is refused.
    pub fn put(self, alloc: Global, n: Numbered) -> Result<RunsSoFar, NoMemory>
        requires { length self < 2 ^ 31 }
        ensures { IfOk result (λ so_far. so_far ≡ self ++ n ∷ []) }
    {
        let RunsSoFar {
            counting,
            in_runs,
            restarts,
        } = self;
        let (mut counting, mut in_runs, mut restarts) = (counting, in_runs, restarts);
        let placed = counting.place(n);
        counting.put(alloc, placed.in_run)?;
        in_runs.push(placed.in_run)?;
        put_restart(&mut restarts, placed.restart)?;
        Ok(RunsSoFar {
            counting,
            in_runs,
            restarts,
        })
    }

    /// All numbers in their runs, and the restarts among them.
    pub fn runs(self) -> Runs
        ensures { AreRunsOf self result }
    {
        let RunsSoFar {
            counting: _,
            in_runs,
            restarts,
        } = self;
        Runs { in_runs, restarts }
    }
}

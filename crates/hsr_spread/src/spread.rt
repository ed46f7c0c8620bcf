//! The least, the lower median and the greatest of numbers.
ghost use Rattle.std.specs.Prelude.{◌≡◌, ◌<◌, ◌++◌, ◌∷◌, [], List, length, replicate, slice_index_or, slice_set, IfOk, OnOk};
ghost use Rattle.hsr_spread.specs.Spreads.{AreAmounts, AreSpreads, AreTold, IsSpread, lists_of, many_of, spread_in};
ghost use Rattle.hsr_spread.specs.declared.spread.Told as the_told;

use hsr_frame::NoMemory;
use std::alloc::Global;

/// The least, the lower median and the greatest of some numbers.
#[derive(Clone, Copy, PartialEq, Eq)]
pub struct Spread {
    pub min: u64,
    pub mid: u64,
    pub max: u64,
}

/// A number that is told of one of several, by its index.
#[derive(Clone, Copy, PartialEq, Eq)]
pub struct Told {
    pub of: usize,
    pub amount: u64,
}

/// The spread of numbers in order; none where there are none.
fn spread_in(sorted: &[u64]) -> Option<Spread>
    ensures { result ≡ spread_in sorted.now }
{
    let many = sorted.len();
    if many == 0 {
        return None;
    }
    Some(Spread {
        min: sorted[0],
        mid: sorted[(many - 1) / 2],
        max: sorted[many - 1],
    })
}

/// The spread of numbers; none where there are none. `NoMemory` where room is refused.
pub fn spread_of(alloc: Global, numbers: &[u64]) -> Result<Option<Spread>, NoMemory>
    ensures { IfOk result (IsSpread numbers.now) }
{
    let mut sorted = Vec::from_slice(alloc, numbers)?;
    sorted.sort()?;
    Ok(spread_in(sorted.as_slice()))
}

/// Puts a number behind those that are told of one.
fn push_amount(amounts: &mut Vec<Vec<u64>>, one: Told) -> Result<(), NoMemory>
    requires { one.of < length amounts.old.items }
    ensures long { length amounts.new.items ≡ length amounts.old.items }
    ensures amounts { OnOk result (lists_of amounts.new.items
        ≡ slice_set (lists_of amounts.old.items) one.of (slice_index_or (lists_of amounts.old.items) one.of [] ++ one.amount ∷ [])) }
{
    amounts[one.of].push(one.amount)?;
    Ok(())
}

/// Puts a number behind those that are told of one, if that is among them.
fn put_amount(amounts: &mut Vec<Vec<u64>>, one: Told) -> Result<(), NoMemory>
    ensures long { length amounts.new.items ≡ length amounts.old.items }
    ensures amounts { OnOk result ((told : List the_told.Told) → AreAmounts told (lists_of amounts.old.items)
        → AreAmounts (told ++ one ∷ []) (lists_of amounts.new.items)) }
{
    if one.of < amounts.len() {
        push_amount(amounts, one)?;
    }
    Ok(())
}

/// No numbers yet of so many.
fn no_amounts(alloc: Global, many: usize) -> Result<Vec<Vec<u64>>, NoMemory>
    ensures { IfOk result (λ amounts. lists_of amounts.items ≡ replicate many []) }
{
    let mut amounts = Vec::new(alloc);
    for _k in 0..many {
        amounts.push(Vec::new(alloc))?;
    }
    Ok(amounts)
}

/// The numbers that are told of each of several. Each is kept once, with those of its own, so that no list of all is needed beside them.
#[derive(Drop)]
pub struct Amounts {
    lists: Vec<Vec<u64>>,
}

impl Amounts {
    /// Nothing is told yet of so many. `NoMemory` where room is refused.
    pub fn new(alloc: Global, many: usize) -> Result<Amounts, NoMemory>
        ensures many { IfOk result (λ amounts. many_of amounts ≡ many) }
        ensures told { IfOk result (AreTold []) }
    {
        let lists = no_amounts(alloc, many)?;
        Ok(Amounts { lists })
    }

    /// Puts a number behind those that are told of one; what is told of others isn't kept. `NoMemory` where room is refused.
    pub fn put(&mut self, one: Told) -> Result<(), NoMemory>
        ensures many { many_of self.new ≡ many_of self.old }
        ensures told { OnOk result ((told : List the_told.Told) → AreTold told self.old → AreTold (told ++ one ∷ []) self.new) }
    {
        put_amount(&mut self.lists, one)
    }

    /// The spread of what is told of each: one for each, none of whom nothing is told. `NoMemory` where room is refused.
    pub fn spreads(&self, alloc: Global) -> Result<Vec<Option<Spread>>, NoMemory>
        ensures long { IfOk result (λ spreads. length spreads.items ≡ many_of self.now) }
        ensures spreads { IfOk result (λ spreads. (told : List the_told.Told) → AreTold told self.now → AreSpreads told spreads.items) }
    {
        let mut spreads = Vec::new(alloc);
        for k in 0..self.lists.len() {
            spreads.push(spread_of(alloc, self.lists[k].as_slice())?)?;
        }
        Ok(spreads)
    }
}

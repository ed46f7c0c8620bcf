//! Which rows are wanted.
ghost use Rattle.std.specs.Prelude.{◌≡◌, filter, IfOk};
ghost use Rattle.hsr_diagram.specs.Wanted.{has_all, is_of_any, is_of_one, is_pictured};

use crate::span::Span;
use hsr_finished_run::{Closed, push_if};
use hsr_frame::NoMemory;
use hsr_node::Probe;
use hsr_timeline::{Choice, Shown, check_choice, is_wanted};
use std::alloc::Global;

/// The rows of one send.
fn of_send(send: Probe) -> Choice
    ensures { result ≡ record { link = None; send = Some send } }
{
    Choice {
        link: None,
        send: Some(send),
    }
}

/// Whether a run has all of these sends.
pub(crate) fn has_all<const C: usize>(closed: &Closed<C>, sends: &[Probe]) -> bool
    ensures { result ≡ has_all closed.now.run sends.now }
{
    // The index is used by the loop's invariant alone.
    for (i, send) in sends.iter().enumerate() {
        if check_choice(closed, of_send(*send)).is_err() {
            return false;
        }
    }
    true
}

/// Whether a row's copy is of one of these sends.
fn is_of_one<const C: usize>(closed: &Closed<C>, sends: &[Probe], shown: &Shown) -> bool
    ensures { result ≡ is_of_one closed.now.run sends.now shown.now }
{
    // The index is used by the loop's invariant alone.
    for (i, send) in sends.iter().enumerate() {
        if is_wanted(closed, of_send(*send), shown) {
            return true;
        }
    }
    false
}

/// Whether a row's copy is of one of these sends, or there are none.
fn is_of_any<const C: usize>(closed: &Closed<C>, sends: &[Probe], shown: &Shown) -> bool
    ensures { result ≡ is_of_any closed.now.run sends.now shown.now }
{
    sends.is_empty() || is_of_one(closed, sends, shown)
}

/// Whether a row is wanted.
fn is_pictured<const C: usize>(
    closed: &Closed<C>,
    sends: &[Probe],
    span: Span,
    shown: &Shown,
) -> bool
    ensures { result ≡ is_pictured closed.now.run sends.now span shown.now }
{
    span.has(shown.moment) && is_of_any(closed, sends, shown)
}

/// The rows that are wanted, of these and in their order.
pub(crate) fn pictured<const C: usize>(
    alloc: Global,
    closed: &Closed<C>,
    sends: &[Probe],
    span: Span,
    rows: &[Shown],
) -> Result<Vec<Shown>, NoMemory>
    ensures { IfOk result (λ list. list.items
        ≡ filter (is_pictured closed.now.run sends.now span) rows.now) }
{
    let mut list = Vec::new(alloc);
    // The index is used by the loop's invariant alone.
    for (i, row) in rows.iter().enumerate() {
        push_if(&mut list, is_pictured(closed, sends, span, row), *row)?;
    }
    Ok(list)
}

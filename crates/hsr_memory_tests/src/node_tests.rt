//! A step of a node, by itself and under a lock, and a receipt that a worker keeps.
use crate::fixtures::{kept, send_event};
use hsr_frame::NoMemory;
use hsr_node::{Event, Kept, NodeCell, Pass, Receipt, StepFault};
use std::process::Abort;
use std::sync::Wait;
use std::test::Fail;

/// The receipt of a new node's first send. If allocation fails, the event comes back and is brought again.
fn receipt_again(kept: &mut Kept<4>, event: Event) -> Result<Receipt, Fail> {
    match kept.step(0, 0, event) {
        Ok(receipt) => Ok(receipt),
        Err((event, StepFault::NoMemory)) => match kept.step(0, 0, event) {
            Ok(receipt) => Ok(receipt),
            Err(_refused) => Err("refused twice".into()),
        },
        Err(_refused) => Err("refused".into()),
    }
}

/// Checks that a worker keeps a receipt. If allocation fails, it comes back and is kept then.
fn check_keep_again(rt: &impl Abort, pass: &mut Pass, receipt: Receipt) {
    if let Err((receipt, NoMemory)) = pass.keep(receipt) {
        assert!(rt; pass.receipts().is_empty());
        assert!(rt; pass.keep(receipt).is_ok());
    }
}

#[test]
fn step_and_receipt(rt: HostRuntime) -> Result<(), Fail> {
    let event = send_event(rt.alloc()).ok_or("event")?;
    let mut kept = kept(rt.alloc()).ok_or("node")?;
    let receipt = receipt_again(&mut kept, event)?;
    assert!(rt; kept.entries().len() == 1);
    let mut pass = Pass::new(rt.alloc(), 0);
    check_keep_again(&rt, &mut pass, receipt);
    assert!(rt; pass.receipts().len() == 1);
    Ok(())
}

/// Checks that a node under a lock takes its first step. If allocation fails, the pass hasn't grown, and the event is brought again.
fn check_step_again<R: Abort + Wait>(
    rt: &R,
    cell: &NodeCell<4>,
    pass: &mut Pass,
    event: Event,
) -> Result<(), Fail> {
    match cell.step(rt, pass, 0, event) {
        Ok(receipt) => {
            assert!(rt; receipt.place == 0);
        }
        Err((event, StepFault::NoMemory)) => {
            assert!(rt; pass.receipts().is_empty());
            let again = cell.step(rt, pass, 0, event);
            assert!(rt; again.is_ok_and(|receipt| receipt.place == 0));
        }
        Err(_refused) => return Err("refused".into()),
    }
    Ok(())
}

#[test]
fn step_under_a_lock(rt: HostRuntime) -> Result<(), Fail> {
    let event = send_event(rt.alloc()).ok_or("event")?;
    let cell = NodeCell::new(kept(rt.alloc()).ok_or("node")?);
    let mut pass = Pass::new(rt.alloc(), 0);
    check_step_again(&rt, &cell, &mut pass, event)?;
    assert!(rt; cell.into_kept().entries().len() == 1);
    Ok(())
}

//! Copies that are put on a link, by itself and under a lock.
use crate::fixtures::carried;
use hsr_link::{Dir, Fate, Link, LinkCell};
use hsr_node::Carried;
use std::alloc::Global;
use std::process::Abort;
use std::sync::Wait;
use std::test::Fail;

/// A link on which one copy may wait in each direction; if allocation fails, it is asked for again.
fn link(alloc: Global) -> Option<Link> {
    match Link::new(alloc, 1) {
        Ok(link) => Some(link),
        Err(_refused) => Link::new(alloc, 1).ok(),
    }
}

/// Checks that a link takes a copy. If allocation fails, it has no row more, and takes the copy then.
fn check_put_again(rt: &impl Abort, link: &mut Link, carried: Carried) {
    match link.put(Dir::Forth, carried) {
        Ok(fate) => {
            assert!(rt; fate == Fate::Queued);
        }
        Err((carried, _refused)) => {
            assert!(rt; link.rows().is_empty());
            let again = link.put(Dir::Forth, carried);
            assert!(rt; again.is_ok_and(|fate| fate == Fate::Queued));
        }
    }
}

/// The same of octets that no port sent, the other way, behind one copy.
fn check_inject_again(rt: &impl Abort, link: &mut Link, carried: Carried) {
    match link.inject(Dir::Back, carried) {
        Ok(fate) => {
            assert!(rt; fate == Fate::Queued);
        }
        Err((carried, _refused)) => {
            assert!(rt; link.rows().len() == 1);
            let again = link.inject(Dir::Back, carried);
            assert!(rt; again.is_ok_and(|fate| fate == Fate::Queued));
        }
    }
}

#[test]
fn put_and_inject(rt: HostRuntime) -> Result<(), Fail> {
    let mut link = link(rt.alloc()).ok_or("link")?;
    let first = carried(rt.alloc()).ok_or("copy")?;
    check_put_again(&rt, &mut link, first);
    let second = carried(rt.alloc()).ok_or("copy")?;
    check_inject_again(&rt, &mut link, second);
    assert!(rt; link.rows().len() == 2);
    Ok(())
}

/// Whether a link under a lock takes a copy, which comes back if allocation fails.
fn puts_under_a_lock(rt: &impl Wait, cell: &LinkCell, carried: Carried) -> bool {
    match cell.put(rt, Dir::Forth, carried) {
        Ok(fate) => fate == Fate::Queued,
        Err((carried, _refused)) => {
            let again = cell.put(rt, Dir::Forth, carried);
            again.is_ok_and(|fate| fate == Fate::Queued)
        }
    }
}

#[test]
fn put_under_a_lock(rt: HostRuntime) -> Result<(), Fail> {
    let cell = LinkCell::new(link(rt.alloc()).ok_or("link")?);
    let copy = carried(rt.alloc()).ok_or("copy")?;
    assert!(rt; puts_under_a_lock(&rt, &cell, copy));
    assert!(rt; cell.into_link().rows().len() == 1);
    Ok(())
}

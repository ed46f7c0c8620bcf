//! Links apart from their rows, and with them again.
//!
//! A world that is closed hands its rows over and gets them back if it isn't finished. So they are moved, and not copied.
ghost use Rattle.std.specs.Prelude.{◌≡◌, ◌≤◌, [], IfErr, IfOk, map, vec_capacity, vec_len};
ghost use Rattle.hsr_link.specs.Parts.{link_of, queues_of};
ghost use Rattle.hsr_finished_run.specs.Finished.{items_of};
ghost use Rattle.hsr_world_links.specs.Parting.{AreWhole, IsParted, bare_of, bare_view, joined, rows_in, whole};
ghost use Rattle.hsr_world_links.specs.Views.{span_view};

use crate::lane::Lane;
use crate::span::Span;
use hsr_link::{Link, Queues, Row};
use std::alloc::Global;

/// A link without its rows, with what the ports at its ends keep.
#[derive(Drop)]
pub struct Bare {
    queues: Queues,
    forth: Lane,
    back: Lane,
}

/// The rows of each link, all else, and room for the links again.
#[derive(Drop)]
pub struct Parted {
    pub rows: Vec<Vec<Row>>,
    pub bares: Vec<Bare>,
    // Made before any link is taken apart, so that the way back needs no memory.
    pub home: Vec<Span>,
}

/// A link's rows, and all else.
fn part_of(span: Span) -> (Vec<Row>, Bare)
    ensures rows { items_of result.0 ≡ rows_in (span_view span) }
    ensures bare { bare_view result.1 ≡ bare_of (span_view span) }
{
    let Span { link, forth, back } = span;
    let (rows, queues) = link.into_parts();
    let bare = Bare {
        queues,
        forth,
        back,
    };
    (rows, bare)
}

/// A link with its rows again.
fn whole(rows: Vec<Row>, bare: Bare) -> Span
    requires { bare.queues ≡ queues_of (link_of rows.items bare.queues) }
    ensures { span_view result ≡ whole (items_of rows) (bare_view bare) }
{
    let Bare {
        queues,
        forth,
        back,
    } = bare;
    Span {
        link: Link::of_parts(rows, queues),
        forth,
        back,
    }
}

/// Moves the rows of each link, and all else.
fn part_into(spans: Vec<Span>, rows: &mut Vec<Vec<Row>>, bares: &mut Vec<Bare>)
    requires rows { (rows.old.items ≡ []) × (vec_len rows.old ≡ 0)
        × (vec_len spans ≤ vec_capacity rows.old) }
    requires bares { (bares.old.items ≡ []) × (vec_len bares.old ≡ 0)
        × (vec_len spans ≤ vec_capacity bares.old) }
    ensures rows { map items_of rows.new.items ≡ map rows_in (map span_view spans.items) }
    ensures bares { map bare_view bares.new.items ≡ map bare_of (map span_view spans.items) }
    ensures len { vec_len bares.new ≡ vec_len spans }
{
    let mut rest = spans.into_iter();
    // Links are moved out one by one: each is used up, and both lists have room already.
    while let Some(span) = rest.next() {
        let (own, bare) = part_of(span);
        rows.push_reserved(own);
        bares.push_reserved(bare);
    }
}

/// Links apart from their rows. If allocation fails the links come back as they were.
pub fn part(alloc: Global, spans: Vec<Span>) -> Result<Parted, Vec<Span>>
    ensures ok { IfOk result (λ p. IsParted (map span_view spans.items) p) }
    ensures err { IfErr result (λ back. map span_view back.items ≡ map span_view spans.items) }
{
    let count = spans.len();
    let Ok(mut rows) = Vec::with_capacity(alloc, count) else {
        return Err(spans);
    };
    let Ok(mut bares) = Vec::with_capacity(alloc, count) else {
        return Err(spans);
    };
    let Ok(home) = Vec::with_capacity(alloc, count) else {
        return Err(spans);
    };
    part_into(spans, &mut rows, &mut bares);
    Ok(Parted { rows, bares, home })
}

/// Links with their rows again, in room that was kept for them.
pub fn join(rows: Vec<Vec<Row>>, bares: Vec<Bare>, home: Vec<Span>) -> Vec<Span>
    requires whole { AreWhole (map items_of rows.items) (map bare_view bares.items) }
    requires room { (home.items ≡ []) × (vec_len home ≡ 0) × (vec_len bares ≤ vec_capacity home) }
    ensures { map span_view result.items ≡ joined (map items_of rows.items)
        (map bare_view bares.items) }
{
    let mut spans = home;
    let mut of_links = rows.into_iter();
    let mut rest = bares.into_iter();
    while let Some(bare) = rest.next() {
        // There are as many rows as links, by the first clause.
        let Some(rows) = of_links.next() else {
            unreachable!()
        };
        spans.push_reserved(whole(rows, bare));
    }
    spans
}

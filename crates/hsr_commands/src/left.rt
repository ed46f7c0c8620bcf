//! What there is of a run that can't be closed.
ghost use Rattle.std.specs.Prelude.{◌≡◌, ◌++◌, length, IfOk, OnOk};
ghost use Rattle.hsr_commands.specs.OpenRun.{open_links, open_nodes, open_text, role_at};

use hsr_frame::NoMemory;
use hsr_naming::Naming;
use hsr_node::{Place, Role};
use hsr_report::{put_head, put_link, put_node};
use hsr_ring::World;
use std::alloc::Global;

/// The role of a node among these; that of a QuadBox where there is no such node.
fn role_at(places: &[Place], node: usize) -> Role
    ensures { result ≡ role_at places.now node }
{
    match places.get(node) {
        Some(place) => place.role(),
        // Never so: the world's nodes are the topology's.
        None => Role::QuadBox,
    }
}

/// Puts the line of each node.
fn put_nodes<const C: usize>(
    text: &mut Vec<u8>,
    naming: &Naming,
    world: &World<C>,
    places: &[Place],
) -> Result<(), NoMemory>
    ensures { OnOk result (text.new.items ≡ text.old.items
        ++ open_nodes naming.now places.now world.now (length world.now.places)) }
{
    for node in 0..world.node_count() {
        put_node(
            text,
            naming,
            node,
            role_at(places, node),
            &world.counters(node),
        )?;
    }
    Ok(())
}

/// Puts the line of each link.
fn put_links<const C: usize>(text: &mut Vec<u8>, world: &World<C>) -> Result<(), NoMemory>
    ensures { OnOk result (text.new.items ≡ text.old.items
        ++ open_links world.now (length world.now.spans)) }
{
    for link in 0..world.link_count() {
        put_link(text, link, world.rows(link))?;
    }
    Ok(())
}

/// What there is of a world of these nodes, which are called as by `naming`: the lines of the bench, of each node and of each link, and the
/// last line `open`.
/// `NoMemory` if allocation fails.
#[tactic(auto, unfolding(crate::specs::OpenRun::open_text))]
pub fn open_text<const C: usize>(
    alloc: Global,
    naming: &Naming,
    world: &World<C>,
    places: &[Place],
) -> Result<Vec<u8>, NoMemory>
    ensures { IfOk result (λ text. text.items ≡ open_text naming.now C places.now world.now) }
{
    let mut text = Vec::new(alloc);
    put_head(&mut text, C, world.node_count(), world.link_count())?;
    put_nodes(&mut text, naming, world, places)?;
    put_links(&mut text, world)?;
    text.extend_from_slice(b"open\n")?;
    Ok(text)
}

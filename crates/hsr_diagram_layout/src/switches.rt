//! The marks of nodes that go off or come on, on their lines.
ghost use Rattle.std.specs.Prelude.{◌≡◌, ◌++◌, OnOk};
ghost use Rattle.std.specs.List.{flat_map};
ghost use Rattle.hsr_svg.specs.Elements.{shapes};
ghost use Rattle.hsr_diagram_layout.specs.Switches.{switch_if, switch_shapes};

use crate::shades::add_mark_if;
use crate::sheet::Sheet;
use hsr_diagram_text::switch_word;
use hsr_downs::Switch;
use hsr_frame::NoMemory;
use hsr_svg::{Element, Spot};
use std::alloc::Global;

/// Adds the mark of a node that goes off or comes on, if a line is of this node, and a picture of these moments shows
/// the change.
fn add_switch_if(
    alloc: Global,
    elements: &mut Vec<Element>,
    moments: &[u64],
    switch: &Switch,
    node: usize,
    spot: Spot,
) -> Result<(), NoMemory>
    ensures { OnOk result (shapes elements.new.items ≡ shapes elements.old.items
        ++ switch_if moments.now switch.now node) }
{
    if node == switch.node {
        add_mark_if(
            alloc,
            elements,
            moments,
            switch_word(switch.is_off),
            &switch.change,
            spot,
        )
    } else {
        Ok(())
    }
}

/// Adds the marks of a node that goes off or comes on, one on each of its lines.
#[tactic(auto, using(hsr_frame::proofs::OneMore::grown))]
fn add_switch(
    alloc: Global,
    elements: &mut Vec<Element>,
    sheet: &Sheet,
    moments: &[u64],
    nodes: &[usize],
    number: usize,
    switch: &Switch,
) -> Result<(), NoMemory>
    ensures { OnOk result (shapes elements.new.items ≡ shapes elements.old.items
        ++ switch_shapes moments.now nodes.now switch.now) }
{
    for (line, node) in nodes.iter().enumerate() {
        let spot = sheet.flag_at(number, line);
        add_switch_if(alloc, elements, moments, switch, *node, spot)?;
    }
    Ok(())
}

/// Adds the marks of all nodes that go off or come on, on lines of these nodes.
#[tactic(auto, using(hsr_frame::proofs::OneMore::grown))]
pub(crate) fn add_switches(
    alloc: Global,
    elements: &mut Vec<Element>,
    sheet: &Sheet,
    moments: &[u64],
    nodes: &[usize],
    switches: &[Switch],
) -> Result<(), NoMemory>
    ensures { OnOk result (shapes elements.new.items ≡ shapes elements.old.items
        ++ flat_map (switch_shapes moments.now nodes.now) switches.now) }
{
    for (number, switch) in switches.iter().enumerate() {
        add_switch(alloc, elements, sheet, moments, nodes, number, switch)?;
    }
    Ok(())
}

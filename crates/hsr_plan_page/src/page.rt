//! The page of a plan, its call.
ghost use Rattle.std.specs.Prelude.{◌≡◌, ◌++◌, Some, IfOk, OnOk};
ghost use Rattle.hsr_page.specs.Frame.{whole_text};
ghost use Rattle.hsr_page.specs.declared.frame.Kind.TheVariants.{Plan as OfPlan};
ghost use Rattle.hsr_plan_page.specs.Data.{data_text, numbers_of};
ghost use Rattle.hsr_plan_page.specs.Whole.{IsPlanPage};

use crate::data::put_data;
use crate::ends::put_ends;
use crate::facts::Facts;
use crate::head::{FRONT, put_first, put_head};
use crate::latency::put_latency;
use crate::load::put_load;
use crate::network::put_network;
use crate::streams::put_streams;
use crate::sweep::put_sweep;
use hsr_frame::NoMemory;
use hsr_page::{Kind, Page, put_page};
use hsr_text::put;
use std::alloc::Global;

/// How many characters of the title stand at the foot of each sheet: as many as are beside the sum and the date on one line of A4.
const TITLE: usize = 56;

/// Puts the first characters of a title last, and an ellipsis where more follow.
fn put_front(text: &mut Vec<u8>, title: &str) -> Result<(), NoMemory> {
    let mut octets = [0; 4];
    for (at, c) in title.chars().enumerate() {
        if at == TITLE {
            return put(text, "…");
        }
        put(text, c.encode_utf8(&mut octets))?;
    }
    Ok(())
}

/// What stands at the foot of each sheet: the begin of the plan's sum, the date, and the title.
fn foot_of(alloc: Global, facts: Facts<'_>) -> Result<String, NoMemory> {
    let mut foot = Vec::new(alloc);
    put(&mut foot, "plan ")?;
    put(&mut foot, facts.sum.get(..FRONT).unwrap_or(facts.sum))?;
    put(&mut foot, "   ")?;
    put(&mut foot, facts.date.unwrap_or("no date"))?;
    put(&mut foot, "   ")?;
    put_front(&mut foot, facts.title)?;
    let text = String::from_utf8_lossy(alloc, foot.as_slice())?;
    Ok(text)
}

/// The content of the body.
fn body_of(alloc: Global, facts: Facts<'_>) -> Result<Vec<u8>, NoMemory> {
    let mut text = Vec::new(alloc);
    put_head(&mut text, facts)?;
    put(&mut text, "<main><div class=\"left\">\n")?;
    put_first(alloc, &mut text, facts)?;
    put_network(alloc, &mut text, facts)?;
    put(&mut text, "</div><div class=\"right\">\n")?;
    put_streams(alloc, &mut text, facts)?;
    put_load(alloc, &mut text, facts)?;
    put_latency(alloc, &mut text, facts)?;
    put_sweep(alloc, &mut text, facts)?;
    put_ends(alloc, &mut text, facts)?;
    put(&mut text, "</div></main>\n")?;
    Ok(text)
}

/// Puts the page of a plan last, by its title, its foot, its body and its data.
fn put_whole<'a>(
    alloc: Global,
    text: &mut Vec<u8>,
    title: &'a str,
    foot: &'a str,
    body: &'a [u8],
    json: &'a [u8],
) -> Result<(), NoMemory>
    ensures { OnOk result (text.new.items ≡ text.old.items
        ++ whole_text (record { kind = OfPlan; title = title.now; foot = Some foot.now; body = body.now; json = json.now })) }
{
    let page = Page {
        kind: Kind::Plan,
        title,
        foot: Some(foot),
        body,
        json,
    };
    put_page(alloc, text, &page)
}

/// The page of a plan, as one file of HTML that stands alone and prints on A4: the verdict in any order, the network as it is wired, streams,
/// load, latency, each link and each node off, tables, events, and what the paper names. Its data (JSON) has the same numbers. No octets of
/// payloads are in it. `NoMemory` if allocation fails.
pub fn plan_page(alloc: Global, facts: Facts<'_>) -> Result<Vec<u8>, NoMemory>
    ensures { IfOk result (λ octets. IsPlanPage facts.entry octets.items) }
{
    let body = body_of(alloc, facts)?;
    let foot = foot_of(alloc, facts)?;
    let mut json = Vec::new(alloc);
    put_data(&mut json, facts)?;
    let mut text = Vec::new(alloc);
    put_whole(
        alloc,
        &mut text,
        facts.title,
        foot.as_str(),
        body.as_slice(),
        json.as_slice(),
    )?;
    Ok(text)
}

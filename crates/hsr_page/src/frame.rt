//! The whole of a page.
ghost use Rattle.std.specs.Prelude.{◌≡◌, ◌++◌, Option, IfOk, OnOk, chars, codes, encode_utf8_all, option_map, string_bytes};
ghost use Rattle.base64.specs.Engines.{standard};
ghost use Rattle.base64.specs.GeneralPurpose.{encode_of};
ghost use Rattle.sha2.specs.Sha256.{sha256};
ghost use Rattle.hsr_page.specs.Frame.{content_text, data_begin, end_text, foot_text, head_text, kind_word, metas_text, opening_text, page_text, policy_text, script_of, source_text, style_element, style_text, whole_text};
ghost use Rattle.hsr_page.specs.Hidden.{seen};
ghost use Rattle.hsr_page.specs.Spelling.{style_string};

use crate::plan_script::PLAN_SCRIPT;
use crate::script::SCRIPT;
use crate::spelling::{put_escaped, put_style_text};
use crate::style::STYLE;
use base64::engine::general_purpose::STANDARD;
use hsr_frame::NoMemory;
use hsr_text::{put, put_octets};
use sha2::{Digest, Sha256};
use std::alloc::Global;
use std::marker::Model;

/// What a page is of.
#[derive(Clone, Copy, PartialEq, Eq)]
pub enum Kind {
    Run,
    Plan,
}

/// What a page is made of.
#[derive(Drop)]
pub struct Page<'a> {
    pub kind: Kind,
    pub title: &'a str,
    /// What stands at the foot of each sheet of paper.
    pub foot: Option<&'a str>,
    /// The content of the body, in HTML.
    pub body: &'a [u8],
    /// What the script reads, in JSON; no `<` may be in it.
    pub json: &'a [u8],
}

impl<'a> Model for Page<'a> {
    ghost use Rattle.std.specs.Prelude.{option_map};
    ghost use Rattle.hsr_page.specs.Frame.{Parts};

    ghost Value = { Parts };

    ghost view = { λ p. record { kind = p.kind; title = p.title.now; foot = option_map (λ s. s.now) p.foot; body = p.body.now; json = p.json.now } };
}

/// Puts octets between words last.
fn put_between(
    text: &mut Vec<u8>,
    before: &str,
    octets: &[u8],
    behind: &str,
) -> Result<(), NoMemory>
    ensures { OnOk result (text.new.items ≡ text.old.items
        ++ (before.now ++ octets.now ++ behind.now)) }
{
    put(text, before)?;
    put_octets(text, octets)?;
    put(text, behind)
}

// ---- the policy

/// The sum of octets, in base 64.
fn sum_of(alloc: Global, octets: &[u8]) -> Result<String, NoMemory>
    ensures { IfOk result (λ sum. string_bytes sum ≡ encode_of standard (sha256 octets.now)) }
{
    let sum = Sha256::digest(octets);
    Ok(STANDARD.encode(alloc, &sum)?)
}

/// Puts last what the policy says of octets that it allows.
#[tactic(auto, unfolding(crate::specs::Frame::source_text))]
fn put_source(alloc: Global, text: &mut Vec<u8>, name: &str, octets: &[u8]) -> Result<(), NoMemory>
    ensures { OnOk result (text.new.items ≡ text.old.items ++ source_text name.now octets.now) }
{
    let sum = sum_of(alloc, octets)?;
    put(text, name)?;
    put_between(text, " 'sha256-", sum.as_bytes(), "'; ")
}

/// Puts last which script and which style the policy allows, between words.
fn put_sources(
    alloc: Global,
    text: &mut Vec<u8>,
    before: &str,
    script: &[u8],
    style: &[u8],
    behind: &str,
) -> Result<(), NoMemory>
    ensures { OnOk result (text.new.items ≡ text.old.items
        ++ (before.now ++ source_text (codes "script-src") script.now
        ++ source_text (codes "style-src") style.now ++ behind.now)) }
{
    put(text, before)?;
    put_source(alloc, text, "script-src", script)?;
    put_source(alloc, text, "style-src", style)?;
    put(text, behind)
}

/// Puts the policy last: a page loads nothing, and runs this script alone.
#[tactic(auto, unfolding(crate::specs::Frame::policy_text))]
fn put_policy(
    alloc: Global,
    text: &mut Vec<u8>,
    script: &[u8],
    style: &[u8],
) -> Result<(), NoMemory>
    ensures { OnOk result (text.new.items ≡ text.old.items ++ policy_text script.now style.now) }
{
    put_sources(
        alloc,
        text,
        "default-src 'none'; ",
        script,
        style,
        "base-uri 'none'; form-action 'none'",
    )
}

// ---- the style

/// Puts a text between words last, as a style spells it.
fn put_content_rule(
    text: &mut Vec<u8>,
    before: &str,
    said: &str,
    behind: &str,
) -> Result<(), NoMemory>
    ensures { OnOk result (text.new.items ≡ text.old.items
        ++ (before.now ++ encode_utf8_all (style_string (seen (chars said.now))) ++ behind.now)) }
{
    put(text, before)?;
    put_style_text(text, said)?;
    put(text, behind)
}

/// Puts the rule for the foot of each sheet last, if there is one.
fn put_foot(text: &mut Vec<u8>, foot: Option<&str>) -> Result<(), NoMemory>
    ensures { OnOk result (text.new.items ≡ text.old.items
        ++ foot_text (option_map (λ s. s.now) foot.entry)) }
{
    match foot {
        Some(foot) => put_content_rule(
            text,
            "@page{@bottom-left{content:",
            foot,
            ";font:8pt sans-serif}}\n",
        ),
        None => Ok(()),
    }
}

/// The style with the foot of each sheet, if there is one.
#[tactic(auto, unfolding(crate::specs::Frame::style_text))]
fn style_of(alloc: Global, sheet: &str, foot: Option<&str>) -> Result<Vec<u8>, NoMemory>
    ensures { IfOk result (λ style. style.items ≡ style_text sheet.now (option_map (λ s. s.now) foot.entry)) }
{
    let mut style = Vec::new(alloc);
    put(&mut style, sheet)?;
    put_foot(&mut style, foot)?;
    Ok(style)
}

// ---- the page

/// Puts what stands before the policy last.
#[tactic(auto, unfolding(crate::specs::Frame::opening_text))]
fn put_opening(text: &mut Vec<u8>) -> Result<(), NoMemory>
    ensures { OnOk result (text.new.items ≡ text.old.items ++ opening_text) }
{
    put(
        text,
        "<!DOCTYPE html>\n<html lang=\"en\">\n<head>\n<meta charset=\"utf-8\">\n<meta http-equiv=\"Content-Security-Policy\" content=\"",
    )
}

/// Puts what stands between the policy and the title last.
#[tactic(auto, unfolding(crate::specs::Frame::metas_text))]
fn put_metas(text: &mut Vec<u8>) -> Result<(), NoMemory>
    ensures { OnOk result (text.new.items ≡ text.old.items ++ metas_text) }
{
    put(
        text,
        "\">\n<meta name=\"viewport\" content=\"width=device-width, initial-scale=1\">\n<meta name=\"color-scheme\" content=\"light dark\">\n<meta name=\"referrer\" content=\"no-referrer\">\n<title>",
    )
}

/// Puts the end of the title, the style and the end of the head last.
#[tactic(auto, unfolding(crate::specs::Frame::style_element))]
fn put_style_element(text: &mut Vec<u8>, style: &[u8]) -> Result<(), NoMemory>
    ensures { OnOk result (text.new.items ≡ text.old.items ++ style_element style.now) }
{
    put_between(text, "</title>\n<style>", style, "</style>\n</head>\n")
}

/// Puts the head last.
#[tactic(auto, unfolding(crate::specs::Frame::head_text))]
fn put_head(
    alloc: Global,
    text: &mut Vec<u8>,
    script: &[u8],
    style: &[u8],
    title: &str,
) -> Result<(), NoMemory>
    ensures { OnOk result (text.new.items ≡ text.old.items
        ++ head_text script.now style.now title.now) }
{
    put_opening(text)?;
    put_policy(alloc, text, script, style)?;
    put_metas(text)?;
    put_escaped(text, title)?;
    put_style_element(text, style)
}

/// The word for what a page is of.
fn kind_word(kind: Kind) -> &'static str
    ensures { result.now ≡ kind_word kind }
{
    match kind {
        Kind::Run => "run",
        Kind::Plan => "plan",
    }
}

/// Puts where the data begins last.
#[tactic(auto, unfolding(crate::specs::Frame::data_begin))]
fn put_data_begin(text: &mut Vec<u8>) -> Result<(), NoMemory>
    ensures { OnOk result (text.new.items ≡ text.old.items ++ data_begin) }
{
    put(text, "\n<script type=\"application/json\" id=\"data\">")
}

/// Puts the content of the body and the data last.
#[tactic(auto, unfolding(crate::specs::Frame::content_text))]
fn put_content(text: &mut Vec<u8>, kind: Kind, body: &[u8], json: &[u8]) -> Result<(), NoMemory>
    ensures { OnOk result (text.new.items ≡ text.old.items
        ++ content_text kind body.now json.now) }
{
    put(text, "<body class=\"")?;
    put(text, kind_word(kind))?;
    put_between(text, "\">\n", body, "")?;
    put_data_begin(text)?;
    put_between(text, "", json, "</script>\n")
}

/// Puts the script and the end of a page last.
#[tactic(auto, unfolding(crate::specs::Frame::end_text))]
fn put_end(text: &mut Vec<u8>, script: &[u8]) -> Result<(), NoMemory>
    ensures { OnOk result (text.new.items ≡ text.old.items ++ end_text script.now) }
{
    put_between(text, "<script>", script, "</script>\n</body>\n</html>\n")
}

/// Puts a page with a script and a style last.
#[tactic(auto, unfolding(crate::specs::Frame::page_text))]
fn put_page_with(
    alloc: Global,
    text: &mut Vec<u8>,
    script: &str,
    sheet: &str,
    page: &Page<'_>,
) -> Result<(), NoMemory>
    ensures { OnOk result (text.new.items ≡ text.old.items
        ++ page_text script.now sheet.now page.now) }
{
    let style = style_of(alloc, sheet, page.foot)?;
    put_head(alloc, text, script.as_bytes(), style.as_slice(), page.title)?;
    put_content(text, page.kind, page.body, page.json)?;
    put_end(text, script.as_bytes())
}

/// The script of what a page is of.
fn script_of(kind: Kind) -> &'static str
    ensures { result.now ≡ script_of kind }
{
    match kind {
        Kind::Run => SCRIPT,
        Kind::Plan => PLAN_SCRIPT,
    }
}

/// Puts a whole page last: one text of HTML that stands alone. Its policy (Content Security Policy Level 3) names the sums of its script
/// and its style (SHA-256, in base 64), so that a browser loads nothing for it and runs nothing else that stands in it. The title and the
/// foot of each sheet are spelled so that they read as they are; the body and the data stand as they were handed in. `NoMemory` if
/// allocation fails; a front of it may stand there then.
#[tactic(auto, unfolding(crate::specs::Frame::whole_text))]
pub fn put_page(alloc: Global, text: &mut Vec<u8>, page: &Page<'_>) -> Result<(), NoMemory>
    ensures { OnOk result (text.new.items ≡ text.old.items
        ++ whole_text page.now) }
{
    put_page_with(alloc, text, script_of(page.kind), STYLE, page)
}

//! What a text is that isn't what was asked for.
use std::alloc::Global;

/// What a text is, and which program takes it.
fn by_front(octets: &[u8]) -> Option<&'static str> {
    match octets {
        [] => Some("nothing came: give a text by < FILE or by a pipe"),
        [0x1F, 0x8B, ..] => Some("this is a gzip file: unpack it first"),
        [0x0A, 0x0D, 0x0D, 0x0A, ..] => Some(
            "this is a capture: look at it by a tool that reads pcapng",
        ),
        [
            b'h',
            b's',
            b'r',
            b'-',
            b'b',
            b'e',
            b'n',
            b'c',
            b'h',
            b' ',
            ..
        ] => { Some("this is a transcript: hsr_bench audit and hsr_view take it") }
        [b'b', b'e', b'n', b'c', b'h', b' ', ..] => {
            Some("this is a report: no program takes it; --transcript writes what audit takes")
        }
        [b'<', b's', b'v', b'g', ..] => Some("this is a picture: look at it by a browser"),
        _ => None,
    }
}

/// Whether a document has one of the words of a plan.
fn has_plan_word(alloc: Global, text: &str) -> bool {
    match toml::table_from_str(alloc, text) {
        Ok(document) => {
            document.get("ring").is_some()
                || document.get("rings").is_some()
                || document.get("stream").is_some()
        }
        // If allocation fails too: then the fault itself is explained.
        Err(_) => false,
    }
}

/// What octets are that are no scenario, and which program takes them; none where that can't be told.
pub(crate) fn given(alloc: Global, octets: &[u8]) -> Option<&'static str> {
    if let Some(words) = by_front(octets) {
        return Some(words);
    }
    match str::from_utf8(octets) {
        Ok(text) if has_plan_word(alloc, text) => Some(
            "this is a plan: hsr_plan makes a scenario of it",
        ),
        _ => None,
    }
}

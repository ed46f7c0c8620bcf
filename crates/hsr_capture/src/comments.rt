//! What a capture says of links and rows, in words.
ghost use Rattle.std.specs.Prelude.{◌≡◌, ◌++◌, ◌∷◌, [], codes, if◌then◌else◌, slice_get, OnOk, Some};
ghost use Rattle.hsr_frame.specs.declared.node.Cause.TheVariants.{Passed};
ghost use Rattle.hsr_node.specs.Words.{letter};
ghost use Rattle.hsr_tag.specs.Seen.{classified};
ghost use Rattle.hsr_run_laws.specs.Run.{ends_of, to_end};
ghost use Rattle.hsr_timeline.specs.Fronts.{lists_of};
ghost use Rattle.hsr_capture.specs.Comments.{became, comment, entry_text, interface_description, judge_if, judge_text, judge_words, judged_if, judged_text, judgement, letters_from, loss_reason, loss_text, name_from, number_text, outcome_text, send_if, send_text, send_words, sequence_text};

use hsr_finished_run::Closed;
use hsr_frame::{Cause, NoMemory};
use hsr_link::{Dir, Fate, Row};
use hsr_node::{Entry, Outcome, Place, Probe};
use hsr_tag::{EitherView, look_at};
use hsr_text::{put, put_number, put_octets};
use hsr_timeline::{Shown, put_name, put_port};
use hsr_topology::End;

/// Puts the name of an interface last: the port from which its copies come, and the one to which they go.
pub(crate) fn put_interface_name(
    text: &mut Vec<u8>,
    names: &[Vec<u8>],
    places: &[Place],
    from: End,
    to: End,
) -> Result<(), NoMemory>
    ensures { OnOk result (text.new.items ≡ text.old.items
        ++ name_from (lists_of names.now) places.now from to) }
{
    put_port(text, b".", names, places, from)?;
    put(text, ">")?;
    put_port(text, b".", names, places, to)
}

/// Puts the description of an interface last: its link and its direction.
#[tactic(auto, unfolding(crate::specs::Comments::interface_description))]
pub(crate) fn put_interface_description(
    text: &mut Vec<u8>,
    link: usize,
    dir: Dir,
) -> Result<(), NoMemory>
    ensures { OnOk result (text.new.items ≡ text.old.items ++ interface_description link dir) }
{
    put(text, "link ")?;
    put_number(text, link as u64)?;
    put(text, " ")?;
    put(text, dir.word())
}

/// Puts the words before a send last.
#[tactic(auto, unfolding(crate::specs::Comments::send_words))]
fn put_send_words(text: &mut Vec<u8>) -> Result<(), NoMemory>
    ensures { OnOk result (text.new.items ≡ text.old.items ++ send_words) }
{
    // In a function of its own: a long literal at the head of a text keeps search from the rest of it.
    put(text, "; copy of send ")
}

/// Puts an entry last: its node, and its place in that node's record.
#[tactic(auto, unfolding(crate::specs::Comments::entry_text))]
fn put_spot(
    text: &mut Vec<u8>,
    names: &[Vec<u8>],
    node: usize,
    place: usize,
) -> Result<(), NoMemory>
    ensures { OnOk result (text.new.items ≡ text.old.items
        ++ entry_text (lists_of names.now) node place) }
{
    put_name(text, names, node)?;
    put(text, ":")?;
    put_number(text, place as u64)
}

/// Puts last of which send a copy is.
#[tactic(auto, unfolding(crate::specs::Comments::send_text))]
fn put_send(text: &mut Vec<u8>, names: &[Vec<u8>], send: Probe) -> Result<(), NoMemory>
    ensures { OnOk result (text.new.items ≡ text.old.items ++ send_text (lists_of names.now) send) }
{
    put_send_words(text)?;
    put_spot(text, names, send.node, send.place)
}

/// Puts last of which send a copy is, if it is of one.
fn put_send_if(text: &mut Vec<u8>, names: &[Vec<u8>], probe: Option<Probe>) -> Result<(), NoMemory>
    ensures { OnOk result (text.new.items ≡ text.old.items ++ send_if (lists_of names.now) probe) }
{
    match probe {
        Some(send) => put_send(text, names, send),
        None => Ok(()),
    }
}

/// Why a copy was lost.
fn loss_reason(fate: Fate) -> &'static [u8]
    ensures { result.now ≡ loss_reason fate }
{
    match fate {
        Fate::LostDown => b"the link was cut",
        Fate::LostCut => b"the link was cut while it waited",
        Fate::LostOverrun => b"no room on the link",
        // A copy that waits or was taken wasn't lost. Only lost ones are asked for.
        Fate::Queued | Fate::Taken => b"",
    }
}

/// Puts a loss last.
#[tactic(auto, unfolding(crate::specs::Comments::loss_text))]
fn put_loss(text: &mut Vec<u8>, fate: Fate) -> Result<(), NoMemory>
    ensures { OnOk result (text.new.items ≡ text.old.items ++ loss_text fate) }
{
    put(text, "lost (")?;
    put(text, fate.word())?;
    put(text, ": ")?;
    put_octets(text, loss_reason(fate))?;
    put(text, ")")
}

/// Puts a port's letter behind a space, if a copy left by it.
fn put_left(text: &mut Vec<u8>, place: &Place, port: u8, leaves: bool) -> Result<(), NoMemory>
    ensures { OnOk result (text.new.items ≡ text.old.items
        ++ (if leaves then codes " " ++ letter place.now port ∷ [] else [])) }
{
    if leaves {
        put(text, " ")?;
        text.push(place.letter(port))?;
    }
    Ok(())
}

/// Puts the ports by which a copy left.
fn put_ports(text: &mut Vec<u8>, place: &Place, ports: [bool; 4]) -> Result<(), NoMemory>
    ensures { OnOk result (text.new.items ≡ text.old.items ++ letters_from place.now 0 ports) }
{
    let [a, b, c, d] = ports;
    put_left(text, place, 0, a)?;
    put_left(text, place, 1, b)?;
    put_left(text, place, 2, c)?;
    put_left(text, place, 3, d)
}

/// Puts the number that a node gave to a frame, if it did.
fn put_seq(text: &mut Vec<u8>, seq: Option<u16>) -> Result<(), NoMemory>
    ensures { OnOk result (text.new.items ≡ text.old.items ++ number_text seq) }
{
    match seq {
        Some(seq) => {
            put(text, ", numbered ")?;
            put_number(text, u64::from(seq))
        }
        None => Ok(()),
    }
}

/// Puts last that an arrival was passed, and where.
fn put_passed(
    text: &mut Vec<u8>,
    place: &Place,
    up: bool,
    ports: [bool; 4],
    seq: Option<u16>,
) -> Result<(), NoMemory>
    ensures { OnOk result (text.new.items ≡ text.old.items
        ++ judgement place.now up ports seq Passed) }
{
    put(text, "passed")?;
    put(text, if up { " up" } else { "" })?;
    put_ports(text, place, ports)?;
    put_seq(text, seq)
}

/// Puts last what became of an arrival.
fn put_outcome(text: &mut Vec<u8>, place: &Place, outcome: &Outcome) -> Result<(), NoMemory>
    ensures { OnOk result (text.new.items ≡ text.old.items ++ outcome_text place.now outcome.now) }
{
    match *outcome {
        Outcome::Judged {
            up,
            ports,
            seq,
            cause: Cause::Passed,
        } => put_passed(text, place, up, ports, seq),
        Outcome::Judged { cause, .. } => put(text, cause.word()),
        _ => Ok(()),
    }
}

/// Puts last what became of the arrival that an entry is, if there is one.
fn put_entry(
    text: &mut Vec<u8>,
    place: &Place,
    entries: &[Entry],
    at: usize,
) -> Result<(), NoMemory>
    ensures { OnOk result (text.new.items ≡ text.old.items
        ++ judged_if (Some place.now) (slice_get entries.now at)) }
{
    match entries.get(at) {
        Some(entry) => put_outcome(text, place, &entry.outcome),
        None => Ok(()),
    }
}

/// Puts that last, if there is such a node.
fn put_judged(
    text: &mut Vec<u8>,
    places: &[Place],
    node: usize,
    entries: &[Entry],
    at: usize,
) -> Result<(), NoMemory>
    ensures { OnOk result (text.new.items ≡ text.old.items
        ++ judged_if (slice_get places.now node) (slice_get entries.now at)) }
{
    match places.get(node) {
        Some(place) => put_entry(text, place, entries, at),
        None => Ok(()),
    }
}

/// Puts last where a copy came, and what became of it by the entry at a place of that node's record.
fn put_arrival<const C: usize>(
    text: &mut Vec<u8>,
    names: &[Vec<u8>],
    closed: &Closed<C>,
    end: End,
    place: usize,
) -> Result<(), NoMemory>
    ensures { OnOk result (text.new.items ≡ text.old.items
        ++ judged_text (lists_of names.now) closed.now.run end place) }
{
    let places = closed.topology().places();
    put_port(text, b" ", names, places, end)?;
    put(text, ": ")?;
    put_judged(text, places, end.node, closed.entries_at(end.node), place)
}

/// Puts the words before an entry that judged a copy last.
#[tactic(auto, unfolding(crate::specs::Comments::judge_words))]
fn put_judge_words(text: &mut Vec<u8>) -> Result<(), NoMemory>
    ensures { OnOk result (text.new.items ≡ text.old.items ++ judge_words) }
{
    // In a function of its own, as the words before a send.
    put(text, "; judged by entry ")
}

/// Puts last which entry judged a copy.
#[tactic(auto, unfolding(crate::specs::Comments::judge_text))]
fn put_judge_entry(
    text: &mut Vec<u8>,
    names: &[Vec<u8>],
    node: usize,
    place: usize,
) -> Result<(), NoMemory>
    ensures { OnOk result (text.new.items ≡ text.old.items
        ++ judge_text (lists_of names.now) node place) }
{
    put_judge_words(text)?;
    put_spot(text, names, node, place)
}

/// Puts last which entry judged a copy, if one did.
fn put_judge(text: &mut Vec<u8>, names: &[Vec<u8>], shown: &Shown) -> Result<(), NoMemory>
    ensures { OnOk result (text.new.items ≡ text.old.items
        ++ judge_if (lists_of names.now) shown.now) }
{
    // A lost copy was judged by no entry.
    if shown.is_lost {
        return Ok(());
    }
    put_judge_entry(text, names, shown.node, shown.place)
}

/// Puts the sequence number of a frame last, if it has a tag.
fn put_sequence(text: &mut Vec<u8>, octets: &[u8]) -> Result<(), NoMemory>
    ensures { OnOk result (text.new.items ≡ text.old.items
        ++ sequence_text (classified octets.now)) }
{
    // What is no frame has no number, and its comment says nothing of one.
    let Ok(seen) = look_at(octets) else {
        return Ok(());
    };
    match &seen.frame {
        EitherView::Plain(_) => Ok(()),
        EitherView::Tagged(tagged) => {
            put(text, "; sequence number ")?;
            put_number(text, u64::from(tagged.seq))
        }
    }
}

/// Puts last what became of the copy of a row, by the entry that judged it or by its fate. `to` is the end to which it went.
fn put_became<const C: usize>(
    text: &mut Vec<u8>,
    names: &[Vec<u8>],
    closed: &Closed<C>,
    shown: &Shown,
    row: &Row,
    to: End,
) -> Result<(), NoMemory>
    requires { to ≡ to_end row.now.dir (ends_of closed.now.run shown.now.link) }
    ensures { OnOk result (text.new.items ≡ text.old.items
        ++ became (lists_of names.now) closed.now.run shown.now row.now) }
{
    if shown.is_lost {
        put_loss(text, row.fate)
    } else {
        put_arrival(text, names, closed, to, shown.place)
    }
}

/// Puts the comment of a row last: what became of its copy, of which send it is, which entry judged it, and the sequence number of its
/// frame. `to` is the end to which it went.
pub(crate) fn put_comment<const C: usize>(
    text: &mut Vec<u8>,
    names: &[Vec<u8>],
    closed: &Closed<C>,
    shown: &Shown,
    row: &Row,
    to: End,
) -> Result<(), NoMemory>
    requires { to ≡ to_end row.now.dir (ends_of closed.now.run shown.now.link) }
    ensures { OnOk result (text.new.items ≡ text.old.items
        ++ comment (lists_of names.now) closed.now.run shown.now row.now) }
{
    put_became(text, names, closed, shown, row, to)?;
    put_send_if(text, names, row.carried.probe)?;
    put_judge(text, names, shown)?;
    put_sequence(text, row.carried.octets.as_slice())
}

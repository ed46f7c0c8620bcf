//! Where a port leads, and what came, left and was lost there.
ghost use Rattle.std.specs.Prelude.{◌≡◌, ◌<◌, ◌≤◌, ◌+◌, ◌^◌, count_by, length, option_map, IfOk, IsSomeAnd, OnErr};
ghost use Rattle.std.specs.List.{sum_by};
ghost use Rattle.hsr_link.specs.Rows.{goes};
ghost use Rattle.hsr_topology.specs.Links.{link_from};
ghost use Rattle.hsr_devices.specs.Port.{in_dir, is_among, is_loss, octets_among, out_dir, port_link, port_link_at};
ghost use Rattle.hsr_devices.specs.Uncounted.{IsUncounted};

use hsr_finished_run::Closed;
use hsr_frame::NoMemory;
use hsr_link::{Dir, Fate, Row};
use hsr_topology::End;

/// The link of a port, counted from 0: the port at its other end; how many copies were lost on the way to the port, and
/// how many of those that left by it; and the octets of those that came and of all that were put there.
#[derive(Clone, Copy, PartialEq, Eq)]
pub struct PortLink {
    pub link: usize,
    pub peer: End,
    pub lost_in: usize,
    pub lost_out: usize,
    pub octets_in: u64,
    pub octets_out: u64,
}

/// The direction of the copies that leave by an end of a link, the link's first or its second.
fn out_dir(is_first: bool) -> Dir
    ensures { result ≡ out_dir is_first }
{
    if is_first { Dir::Forth } else { Dir::Back }
}

/// The direction of the copies that come to an end of a link, its first or its second.
fn in_dir(is_first: bool) -> Dir
    ensures { result ≡ in_dir is_first }
{
    if is_first { Dir::Back } else { Dir::Forth }
}

/// Whether a row is of a direction.
fn goes(dir: Dir, row: &Row) -> bool
    ensures { result ≡ goes dir row.now }
{
    matches!(
        (dir, row.dir),
        (Dir::Forth, Dir::Forth) | (Dir::Back, Dir::Back)
    )
}

/// Whether a row is of a lost copy of a direction.
fn is_loss(dir: Dir, row: &Row) -> bool
    ensures { result ≡ is_loss dir row.now }
{
    goes(dir, row) && row.fate.is_lost()
}

/// Which copies of a direction: all that were put on a link, or those that were taken from it.
#[derive(Clone, Copy)]
enum Copies {
    Put,
    Taken,
}

/// Whether a row is of such a copy of a direction.
fn is_among(copies: Copies, dir: Dir, row: &Row) -> bool
    ensures { result ≡ is_among copies dir row.now }
{
    match copies {
        Copies::Put => goes(dir, row),
        Copies::Taken => goes(dir, row) && matches!(row.fate, Fate::Taken),
    }
}

/// The octets of a row's copy, if it is such a copy of a direction.
fn octets_among(copies: Copies, dir: Dir, row: &Row) -> u64
    ensures { result ≡ octets_among copies dir row.now }
{
    if is_among(copies, dir, row) {
        row.carried.octets.as_slice().len() as u64
    } else {
        0
    }
}

/// A sum with one more term. More octets than a number counts don't fit into memory.
fn more(sum: u64, octets: u64) -> Result<u64, NoMemory>
    ensures ok { IfOk result (λ n. n ≡ sum + octets) }
    ensures err { OnErr result (2 ^ 64 ≤ sum + octets) }
{
    match sum.checked_add(octets) {
        Some(n) => Ok(n),
        None => Err(NoMemory),
    }
}

/// The octets of all such copies of a direction.
#[tactic(auto, using(crate::proofs::Octets::front_sum))]
fn octets(rows: &[Row], copies: Copies, dir: Dir) -> Result<u64, NoMemory>
    ensures ok { IfOk result (λ n. n ≡ sum_by (octets_among copies dir) rows.now) }
    ensures err { OnErr result (2 ^ 64 ≤ sum_by (octets_among copies dir) rows.now) }
{
    let mut sum = 0;
    for row in rows {
        sum = more(sum, octets_among(copies, dir, row))?;
    }
    Ok(sum)
}

/// How many copies of a direction were lost.
fn lost(rows: &[Row], dir: Dir) -> usize
    ensures { result ≡ count_by (is_loss dir) rows.now }
{
    rows.iter().filter(|row| is_loss(dir, row)).count()
}

/// The link of a port that is its first end, or its second.
fn port_link_at<const C: usize>(
    closed: &Closed<C>,
    link: usize,
    is_first: bool,
) -> Result<PortLink, NoMemory>
    requires { link < length closed.now.run.links }
    ensures ok { IfOk result (λ at. at ≡ port_link_at closed.now.run (link, is_first)) }
    ensures err { OnErr result (IsUncounted (port_link_at closed.now.run (link, is_first))) }
{
    let rows = closed.rows(link);
    Ok(PortLink {
        link,
        peer: closed.to_end(link, out_dir(is_first)),
        lost_in: lost(rows, in_dir(is_first)),
        lost_out: lost(rows, out_dir(is_first)),
        octets_in: octets(rows, Copies::Taken, in_dir(is_first))?,
        octets_out: octets(rows, Copies::Put, out_dir(is_first))?,
    })
}

/// The link of a port, if it has one. `NoMemory` where its octets are more than 64 bits count, which fit into no
/// memory, and only there.
pub fn port_link<const C: usize>(closed: &Closed<C>, end: End) -> Result<Option<PortLink>, NoMemory>
    ensures ok { IfOk result (λ link. link ≡ port_link closed.now.run end) }
    ensures err { OnErr result (IsSomeAnd (port_link closed.now.run end) IsUncounted) }
{
    match closed.topology().link_at(end) {
        Some((link, is_first)) => Ok(Some(port_link_at(closed, link, is_first)?)),
        None => Ok(None),
    }
}

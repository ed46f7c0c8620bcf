//! The ends of a link, by the direction of its copies.
ghost use Rattle.std.specs.Prelude.{◌≡◌};
ghost use Rattle.hsr_run_laws.specs.Run.{from_end, to_end};

use hsr_link::Dir;
use hsr_topology::End;

/// The end of a link from which the copies of a direction come.
pub fn from_end(link: [End; 2], dir: Dir) -> End
    ensures { result ≡ from_end dir link }
{
    let [a, b] = link;
    match dir {
        Dir::Forth => a,
        Dir::Back => b,
    }
}

/// The end of a link to which the copies of a direction go.
pub fn to_end(link: [End; 2], dir: Dir) -> End
    ensures { result ≡ to_end dir link }
{
    let [a, b] = link;
    match dir {
        Dir::Forth => b,
        Dir::Back => a,
    }
}

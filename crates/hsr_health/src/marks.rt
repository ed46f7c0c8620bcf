//! What is counted of a copy.
ghost use Rattle.std.specs.Prelude.{◌≡◌, ◌<◌, ℕ, Bool, false, count_by, length, slice_get, IfOk, Some};
ghost use Rattle.hsr_health.specs.Counted.{changed, mark_but_late, mark_by, with_late};
ghost use Rattle.hsr_health.specs.Marks.{Marked, bits_of, with_bit};
ghost use Rattle.hsr_sightings.specs.Copies.{is_clash};
ghost use Rattle.hsr_sightings.specs.Frames.{begins};
ghost use Rattle.hsr_sightings.specs.Read.{TellsEach};
ghost use Rattle.hsr_taps.specs.Tallies.{is_at};

use hsr_frame::NoMemory;
use hsr_frame_copies::has_right_size;
use hsr_frame_groups::Caught;
use hsr_sightings::Ring;
use std::alloc::Global;
use std::marker::Model;

/// Of a copy what is counted, in one octet: a truth is a bit of it.
#[derive(Clone, Copy)]
pub(crate) struct Marks {
    bits: u8,
}

impl Model for Marks {
    ghost use Rattle.std.specs.Prelude.{◌≡◌};
    ghost use Rattle.std.proofs.Common.{ap, sym};
    ghost use Rattle.hsr_health.specs.Marks.{Marked, bits_of, marked};

    ghost Value = { Marked };

    ghost view = { λ m. marked m.bits };

    ghost invariant = { λ m. m.bits ≡ bits_of (marked m.bits) };

    ghost inverse = { λ v. record { bits = bits_of v } };

    ghost inverse_ok = { λ m is. ap (λ n. record m { bits = n }) (sym is) };
}

/// With one more bit, as the lowest.
fn with_bit(bits: u8, is_so: bool) -> u8
    requires { bits < 128 }
    ensures { result ≡ with_bit bits is_so }
{
    if is_so { bits * 2 + 1 } else { bits * 2 }
}

/// All five as bits.
fn bits_of(
    begins: bool,
    is_clash: bool,
    is_late: bool,
    is_wrong_size: bool,
    is_wrong_lane: bool,
) -> u8
    ensures { result ≡ bits_of (record { begins = begins; is_clash = is_clash; is_late = is_late; is_wrong_size = is_wrong_size; is_wrong_lane = is_wrong_lane }) }
{
    let one = with_bit(0, begins);
    let two = with_bit(one, is_clash);
    let three = with_bit(two, is_late);
    let four = with_bit(three, is_wrong_size);
    with_bit(four, is_wrong_lane)
}

impl Marks {
    /// What is counted of a copy of which this is so.
    pub(crate) fn new(
        begins: bool,
        is_clash: bool,
        is_late: bool,
        is_wrong_size: bool,
        is_wrong_lane: bool,
    ) -> Marks
        ensures { result ≡ record { begins = begins; is_clash = is_clash; is_late = is_late; is_wrong_size = is_wrong_size; is_wrong_lane = is_wrong_lane } }
    {
        Marks {
            bits: bits_of(begins, is_clash, is_late, is_wrong_size, is_wrong_lane),
        }
    }

    /// Whether it begins a frame.
    pub(crate) fn begins(self) -> bool
        ensures { result ≡ self.begins }
    {
        self.bits / 16 % 2 == 1
    }

    /// Whether another device has its address.
    pub(crate) fn is_clash(self) -> bool
        ensures { result ≡ self.is_clash }
    {
        self.bits / 8 % 2 == 1
    }

    /// Whether its frame came to its point so long before that nodes have forgotten it.
    pub(crate) fn is_late(self) -> bool
        ensures { result ≡ self.is_late }
    {
        self.bits / 4 % 2 == 1
    }

    /// Whether the size in its tag is wrong.
    pub(crate) fn is_wrong_size(self) -> bool
        ensures { result ≡ self.is_wrong_size }
    {
        self.bits / 2 % 2 == 1
    }

    /// Whether its lane isn't the way of its direction, where directions aren't told apart by lane.
    pub(crate) fn is_wrong_lane(self) -> bool
        ensures { result ≡ self.is_wrong_lane }
    {
        self.bits % 2 == 1
    }

    /// The same, but for whether it is late.
    fn with_late(self, is_late: bool) -> Marks
        ensures { result ≡ with_late is_late self }
    {
        let begins = self.begins();
        let is_clash = self.is_clash();
        let is_wrong_size = self.is_wrong_size();
        let is_wrong_lane = self.is_wrong_lane();
        Marks::new(begins, is_clash, is_late, is_wrong_size, is_wrong_lane)
    }
}

/// What is counted of a copy, by whether it begins a frame and clashes. Whether it is late isn't known yet.
fn mark_by(
    ring: &Ring<'_>,
    caught: &Caught<'_>,
    begins: bool,
    is_clash: bool,
    is_by_lane: &[bool],
) -> Marks
    ensures { result ≡ mark_by (is_at is_by_lane.now) ring.now begins is_clash false caught.now }
{
    let by_lane = is_by_lane.get(caught.direction()).copied().unwrap_or(false);
    let is_wrong_size = !has_right_size(&caught.copy());
    let is_wrong_lane = !by_lane && caught.copy().path % 2 != ring.way_at(caught.direction());
    Marks::new(begins, is_clash, false, is_wrong_size, is_wrong_lane)
}

/// What is counted of each copy, but whether it is late.
pub(crate) fn marks_of(
    alloc: Global,
    ring: &Ring<'_>,
    copies: &[Caught<'_>],
    began: &[bool],
    clashes: &[bool],
    is_by_lane: &[bool],
) -> Result<Vec<Marks>, NoMemory>
    requires began { TellsEach begins copies.now began.now }
    requires clashes { TellsEach is_clash copies.now clashes.now }
    ensures { IfOk result (λ marks. TellsEach (mark_but_late (is_at is_by_lane.now) ring.now) copies.now marks.items) }
{
    let mut marks = Vec::new(alloc);
    for i in 0..copies.len() {
        marks.push(mark_by(ring, &copies[i], began[i], clashes[i], is_by_lane))?;
    }
    Ok(marks)
}

/// Sets whether a copy is late.
fn put_late(marks: &mut Vec<Marks>, i: usize, is_late: bool)
    requires { i < length marks.old.items }
    ensures long { length marks.new.items ≡ length marks.old.items }
    ensures marks { marks.new.items ≡ changed (with_late is_late) i marks.old.items }
{
    marks[i] = marks[i].with_late(is_late);
}

/// What is counted of each copy, with whether it is late. No second list is made.
pub(crate) fn with_lates(marks: Vec<Marks>, lates: &[bool]) -> Vec<Marks>
    requires { length lates.now ≡ length marks.items }
    ensures long { length result.items ≡ length marks.items }
    ensures each { (k : ℕ) (m : Marked) (late : Bool) → slice_get marks.items k ≡ Some m → slice_get lates.now k ≡ Some late
        → slice_get result.items k ≡ Some (with_late late m) }
{
    let mut all = marks;
    for i in 0..lates.len() {
        put_late(&mut all, i, lates[i]);
    }
    all
}

/// How many copies begin a frame.
pub(crate) fn begun_among(marks: &[Marks]) -> usize
    ensures { result ≡ count_by (λ m. m.begins) marks.now }
{
    marks.iter().filter(|own| own.begins()).count()
}

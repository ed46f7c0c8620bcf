//! What holds of the order of rows in every finished run: laws alone.
#![tactic(auto)]

ghost use Rattle.hsr_timeline_laws.specs.Keeps.{ChosenKeepOrder, StoryKeepsOrder, StampsRise};
ghost use Rattle.hsr_timeline_laws.specs.Stands.{EachRowStands, OnlyCircles};

/// In a finished run the copy of each row was passed by an entry that is there. So where entries have stamps, each row stands at an
/// entry that has one.
pub fn each_row_stands()
    ensures { EachRowStands }
{}

/// The rows of a finished run have no order of time only where its entries have no stamps: where they follow one another in a
/// circle.
pub fn only_circles()
    ensures { OnlyCircles }
{}

/// By the stamps of a finished run an entry is earlier than the later ones of its node's record; an entry of the main worker is
/// earlier than its later ones, of whichever nodes; and the entry that passed a copy is earlier than the one that judged it.
pub fn stamps_rise()
    ensures { StampsRise }
{}

/// The list of a finished run's rows in the order of time has each row just once, at the entry that judged its copy, or else at the
/// one that passed it, and nothing else. It keeps three orders: that of each node's record, the main order, and that a copy is
/// passed before it is judged. Where an entry comes before another in one of them, the rows at the one stand before the rows at the
/// other.
pub fn story_keeps_order()
    ensures { StoryKeepsOrder }
{}

/// Of the rows that are wanted, those of a link or of a send, the list that is left of it has each just once, and nothing else; and it
/// keeps the same three orders.
pub fn chosen_keep_order()
    ensures { ChosenKeepOrder }
{}

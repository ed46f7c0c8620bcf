//! What holds of each step that is done in a world.
ghost use Rattle.hsr_under_way.specs.StepsOn.{StepsOn};

/// Let a step that injects nothing be done in a sound world. A send of which a copy is under way then had one under way before, or is
/// the step. Each record is as it was, or has the step's entry more, at the moment of the world. A send of which a copy was lost on a
/// link had one lost there before; or it had one under way, and the link is cut now, or the step puts a copy where as many wait as
/// there is room. The links that are cut, the moment, the room of a link and the number of moves are what the step makes of them.
pub fn steps_on()
    ensures { StepsOn }
{}

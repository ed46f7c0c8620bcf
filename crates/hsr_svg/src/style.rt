//! How arrows of each look are drawn.
ghost use Rattle.std.specs.Prelude.{◌≡◌, ◌∷◌, []};
ghost use Rattle.hsr_svg.specs.Style.{head_path, look_colour, look_dashes, look_point, look_words, looks};

use hsr_diagram::Look;

/// All looks, as the legend lists them.
pub fn looks() -> [Look; 6]
    ensures { result ≡ looks }
{
    [
        Look::TakenUp,
        Look::SentOn,
        Look::Again,
        Look::Home,
        Look::Refused,
        Look::Lost,
    ]
}

/// The colour of a look.
pub(crate) fn colour_of(look: Look) -> &'static str
    ensures { result.now ≡ look_colour look }
{
    // A printer may have no colours, so dashes and points tell the looks apart too.
    match look {
        Look::TakenUp => "#14732f",
        Look::SentOn => "#1f5fbf",
        Look::Again => "#b06a00",
        Look::Home => "#6e6e6e",
        Look::Refused => "#7b2d8b",
        Look::Lost => "#c8102e",
    }
}

/// The dashes of a look. Dashes and points alone tell the looks apart.
pub(crate) fn dashes_of(look: Look) -> &'static str
    ensures { result.now ≡ look_dashes look }
{
    match look {
        Look::TakenUp | Look::Lost => "none",
        Look::SentOn => "11 2",
        Look::Again => "5 3",
        Look::Home => "1.5 2.5",
        Look::Refused => "7 2 1.5 2",
    }
}

/// The name of what stands at the point of an arrow of a look.
pub(crate) fn point_of(look: Look) -> &'static str
    ensures { result.now ≡ look_point look }
{
    match look {
        Look::TakenUp => "up",
        Look::SentOn => "on",
        Look::Again => "again",
        Look::Home => "home",
        Look::Refused => "refused",
        Look::Lost => "lost",
    }
}

/// What the legend says of a look.
pub fn words_of(look: Look) -> &'static str
    ensures { result.now ≡ look_words look }
{
    match look {
        Look::TakenUp => "taken up",
        Look::SentOn => "only sent on",
        Look::Again => "second copy, dropped",
        Look::Home => "back at its sender, dropped",
        Look::Refused => "not for this way, dropped",
        Look::Lost => "lost",
    }
}

/// What stands at the point of an arrow: a head, with a dot where the copy was taken up; or a cross where it was lost.
#[tactic(auto, unfolding(crate::specs::Style::head_path))]
pub(crate) fn path_of(look: Look) -> &'static str
    ensures { result.now ≡ head_path look }
{
    match look {
        Look::TakenUp => "<path d=\"M0 0L-9 -3.2L-9 3.2Z\"/><circle r=\"3.6\"/>",
        Look::Lost => "<path d=\"M-4 -4L4 4M-4 4L4 -4\" stroke-width=\"1.8\"/>",
        _ => "<path d=\"M0 0L-8 -3L-8 3Z\"/>",
    }
}

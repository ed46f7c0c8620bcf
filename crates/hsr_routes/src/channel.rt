//! A direction of a link, and its number.
ghost use Rattle.std.specs.Prelude.{◌≡◌, ◌<◌};
ghost use Rattle.hsr_routes.specs.Numbered.{number_of, channel_at};

use hsr_link::Dir;
use std::marker::Model;

/// A direction of a link, by the link's number.
#[derive(Clone, Copy, PartialEq, Eq)]
pub struct Channel {
    pub link: usize,
    pub dir: Dir,
}

impl Model for Channel {
    ghost use Rattle.hsr_network_laws.specs.Network.{Channel};

    ghost Value = { Channel };

    ghost view = { λ w. record { link = w.link; dir = w.dir } };

    ghost inverse = { λ w. record { link = w.link; dir = w.dir } };
}

impl Channel {
    /// Its number: twice the link's, and one more where it goes back.
    pub fn number(self) -> usize
        requires { self.link < 256 }
        ensures { result ≡ number_of self }
    {
        2 * self.link
            + match self.dir {
                Dir::Forth => 0,
                Dir::Back => 1,
            }
    }

    /// The channel with a number, as `number` tells it.
    pub fn at(number: usize) -> Channel
        ensures { result ≡ channel_at number }
    {
        Channel {
            link: number / 2,
            dir: if number % 2 == 0 {
                Dir::Forth
            } else {
                Dir::Back
            },
        }
    }
}

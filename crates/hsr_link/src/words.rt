//! The words that texts have for directions and fates.
ghost use Rattle.std.specs.Prelude.{◌≡◌, Some};
ghost use Rattle.hsr_link.specs.Words.{dir_of, dir_word, fate_of, fate_word};

use crate::row::{Dir, Fate};

impl Dir {
    /// Its word in texts.
    pub fn word(self) -> &'static str
        ensures { result.now ≡ dir_word self }
    {
        match self {
            Dir::Forth => "forth",
            Dir::Back => "back",
        }
    }

    /// The direction whose word this is.
    #[tactic(auto, using(crate::proofs::Spelled::dir_again))]
    pub fn from_word(word: &[u8]) -> Option<Dir>
        ensures value { result ≡ dir_of word.now }
        ensures again { (dir : Dir) → dir_of (dir_word dir) ≡ Some dir }
    {
        if word == b"forth".as_slice() {
            Some(Dir::Forth)
        } else if word == b"back".as_slice() {
            Some(Dir::Back)
        } else {
            None
        }
    }
}

impl Fate {
    /// Its word in texts.
    pub fn word(self) -> &'static str
        ensures { result.now ≡ fate_word self }
    {
        match self {
            Fate::Queued => "queued",
            Fate::Taken => "taken",
            Fate::LostDown => "down",
            Fate::LostCut => "cut",
            Fate::LostOverrun => "overrun",
        }
    }

    /// The fate whose word this is.
    #[tactic(auto, using(crate::proofs::Spelled::fate_again))]
    pub fn from_word(word: &[u8]) -> Option<Fate>
        ensures value { result ≡ fate_of word.now }
        ensures again { (fate : Fate) → fate_of (fate_word fate) ≡ Some fate }
    {
        if word == b"queued".as_slice() {
            Some(Fate::Queued)
        } else if word == b"taken".as_slice() {
            Some(Fate::Taken)
        } else if word == b"down".as_slice() {
            Some(Fate::LostDown)
        } else if word == b"cut".as_slice() {
            Some(Fate::LostCut)
        } else if word == b"overrun".as_slice() {
            Some(Fate::LostOverrun)
        } else {
            None
        }
    }
}

//! What holds of texts.
ghost use Rattle.std.specs.Prelude.{◌≡◌, ℕ, List, Ok};
ghost use Rattle.hsr_transcript.specs.Form.{form_of};
ghost use Rattle.hsr_transcript_lines.specs.Lines.{text_of};
ghost use Rattle.hsr_transcript.specs.Readable.{AreLines};
ghost use Rattle.hsr_transcript.specs.Transcript.{Said, said_lines};

/// A text that is in form is the one text of what it says; and what has such lines is read again from them.
pub fn one_text()
    ensures only { (capacity : ℕ) (text : List ℕ) (t : Said) → form_of capacity text ≡ Ok t
        → text ≡ text_of (said_lines capacity t) }
    ensures again { (capacity : ℕ) (t : Said) → AreLines capacity t
        → form_of capacity (text_of (said_lines capacity t)) ≡ Ok t }
{}

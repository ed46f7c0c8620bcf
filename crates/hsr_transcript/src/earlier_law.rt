//! What holds of the texts of earlier releases.
ghost use Rattle.std.specs.Prelude.{◌↔◌, ℕ, List};
ghost use Rattle.hsr_node.specs.Times.{usual};
ghost use Rattle.hsr_run_laws.specs.Closed.{IsClosed};
ghost use Rattle.hsr_run_laws.specs.Run.{Run};
ghost use Rattle.hsr_finished_run.specs.Finished.{Finished, IsFinished};
ghost use Rattle.hsr_transcript.specs.Fits.{Fits};
ghost use Rattle.hsr_transcript.specs.Answers.{IsTextOf};
ghost use Rattle.hsr_transcript.specs.Earlier.{IsClosedBy, IsEarlier, IsEarlierText, in_microseconds};

use hsr_node::same_in_finer_unit;

/// A run that an earlier release finished, in milliseconds, is a finished run with each moment times 1000; and the text that was
/// written of it, of version 1, is a text of that run. So `read` answers it (`earlier`). What an earlier release called closed is
/// what is closed today, but for the unit of the times after which a node forgets.
pub fn earlier_is_read()
    ensures same { (run : Run) → IsClosedBy usual run ↔ IsClosed run }
    ensures finished { (f : Finished) → IsEarlier f → IsFinished (in_microseconds f) }
    ensures told { (capacity : ℕ) (f : Finished) (text : List ℕ) → IsEarlierText capacity f text
        → Fits (in_microseconds f) × IsTextOf capacity (in_microseconds f) text }
{
    same_in_finer_unit();
}

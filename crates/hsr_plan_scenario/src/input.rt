//! The line that tells why a text isn't read.
ghost use Rattle.std.specs.Prelude.{◌≡◌};
ghost use Rattle.hsr_plan_scenario.specs.Input.{input_line};

use hsr_text::InputFault;

/// The line that tells why a text isn't read.
pub(crate) fn input_line(fault: InputFault) -> &'static [u8]
    ensures { result.now ≡ input_line fault }
{
    match fault {
        InputFault::Read => b"fault: read\n",
        InputFault::Memory => b"fault: memory\n",
    }
}

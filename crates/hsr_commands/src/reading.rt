//! Scenarios that are read.
ghost use Rattle.std.specs.Prelude.{◌≡◌, ◌≤◌, IfErr, IfOk, Ok};
ghost use Rattle.hsr_scenario.specs.Meaning.{scenario_view};
ghost use Rattle.hsr_commands.specs.Reading.{IsNoScenario, scenario_of, text_fault};

use crate::fault::Fault;
use hsr_scenario::{Scenario, ScenarioFault, Spot, What, read};
use std::alloc::Global;

/// Why a text is no scenario, as a fault of the run.
fn text_fault(fault: ScenarioFault) -> Fault
    ensures { result ≡ text_fault fault fault.what }
{
    match fault.what {
        // A failed allocation is one fault of a run, wherever it comes.
        What::NoMemory => Fault::Memory,
        _ => Fault::Scenario(fault),
    }
}

/// The scenario that octets mean.
/// `Fault::Scenario` at the top with `text`, where they are no UTF-8, or else with the first fault; `Fault::Memory`
/// if allocation fails.
pub fn scenario_of(alloc: Global, octets: &[u8]) -> Result<Scenario, Fault>
    ensures ok { IfOk result (λ s. scenario_of octets.now ≡ Ok (scenario_view s)) }
    ensures room { IfOk result (λ s. (1 ≤ s.capacity) × (s.capacity ≤ 4096)) }
    ensures err { IfErr result (λ f. IsNoScenario (scenario_of octets.now) f) }
{
    let Ok(text) = str::from_utf8(octets) else {
        return Err(Fault::Scenario(ScenarioFault {
            spot: Spot::Top,
            what: What::Text,
        }));
    };
    match read(alloc, text) {
        Ok(scenario) => Ok(scenario),
        Err(fault) => Err(text_fault(fault)),
    }
}

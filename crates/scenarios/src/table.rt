// The worked scenarios that are proved, as one theorem.
ghost use Rattle.scenarios.specs.Table.{AllHold, scenarios};

use kinds::depth::Depth;
use kinds::kind::Kind;

// Every row of the table holds of Depth.
pub fn table_holds()
    ensures { AllHold ⟦<Depth as Kind>⟧.meaning scenarios }
{}

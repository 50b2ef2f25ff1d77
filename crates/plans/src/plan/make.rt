ghost use Rattle.plans.specs.Calls.{Made};

use crate::plan::Plan;
use crate::refusal::Refusal;

impl Plan {
    // A plan of 1 to 10 harbours, a threshold of 1 to that many, and 1 to 8 components.
    pub fn new(harbours: usize, threshold: usize, components: usize) -> Result<Plan, Refusal>
        ensures { Made harbours threshold components result }
    {
        if harbours < 1 || harbours > 10 {
            return Err(Refusal::Harbours);
        }
        if threshold < 1 || threshold > harbours {
            return Err(Refusal::Threshold);
        }
        if components < 1 || components > 8 {
            return Err(Refusal::Components);
        }
        Ok(Plan {
            harbours,
            threshold,
            components,
        })
    }
}

ghost use Rattle.std.specs.Prelude.{◌≡◌};
ghost use Rattle.plans.specs.Shape.{shape_of};

use crate::plan::Plan;

impl Plan {
    // T, the number of harbours.
    pub fn harbours(&self) -> usize
        ensures { result ≡ (shape_of self.now).harbours }
    {
        self.harbours
    }

    // t, how many harbours restore the key.
    pub fn threshold(&self) -> usize
        ensures { result ≡ (shape_of self.now).threshold }
    {
        self.threshold
    }

    // k, of how many elements the key is.
    pub fn components(&self) -> usize
        ensures { result ≡ (shape_of self.now).components }
    {
        self.components
    }
}

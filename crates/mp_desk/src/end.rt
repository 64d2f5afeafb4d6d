//! The end of all flights at a desk.

ghost use Rattle.mp_desk.specs.Calls.{EndsAll, Sits};
ghost use Rattle.mp_desk.specs.Desks.{desk_of, KeepsStand, Leaves};

use crate::desk::Desk;
use mp_core::steps::Steps;

impl Desk {
    /// Ends all flights, one step each, without a word of it; their requests leave the run. It takes no memory. The pass
    /// sits at this desk.
    pub fn end_all<S: Steps>(&mut self, steps: &mut S)
        requires sits { Sits (S.core steps.old) (desk_of self.old) }
        ensures ends { EndsAll (S.core steps.old) (S.core steps.new) (desk_of self.old) (desk_of self.new) }
        ensures leaves { Leaves (S.core steps.old) (S.core steps.new) (desk_of self.new) }
        ensures stands { KeepsStand (S.core steps.old) (S.core steps.new) }
    {
        for _ in 0..self.flights.count(&None) {
            match self.flights.take(&None) {
                None => (),
                Some(flying) => steps.end(flying.flight.flight()),
            }
        }
    }
}

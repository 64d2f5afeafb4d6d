//! The policy is set.

ghost use Rattle.std.specs.Prelude.{◌≡◌, ◌≤◌, None};
ghost use Rattle.mp_keep.specs.Keeper.{StandsTo};
ghost use Rattle.mp_keep.specs.Keeps.{SetsPolicy};

use crate::clear::clear_all;
use crate::keep::{copied, store};
use crate::keeper::Keeper;
use crate::orders::with_policy;
use mp_core::steps::KeeperSteps;
use mp_words::entry::OrderEntry;
use mp_words::op::Maker;
use mp_words::row::Policy;

impl Keeper {
    /// Sets the policy, the same again too: the next list of paths has it, and every node's current path is none. No
    /// section is open, at least one unit is left, and there is room for 80 entries. It takes no memory.
    pub fn set_policy<S: KeeperSteps>(
        &mut self,
        steps: &mut S,
        policy: Policy,
        by: Maker,
    ) -> OrderEntry
        requires left { 1 ≤ (S.core steps.old).view.left }
        requires closed { (S.core steps.old).view.inside ≡ None }
        requires spare { 80 ≤ self.old.spare }
        requires stands { StandsTo self.old (S.core steps.old).view }
        ensures { SetsPolicy self.old self.new (S.core steps.old) (S.core steps.new) policy by result }
    {
        let order = self.list();
        let entry = OrderEntry {
            order: with_policy(&order, policy),
            by,
        };
        store(steps, &entry);
        clear_all(steps);
        self.take_order(&entry);
        copied(&entry)
    }
}

//! The next list of paths.

ghost use Rattle.std.specs.Prelude.{◌≡◌, ◌<◌, ◌==◌, ◌++◌, ◌∷◌, [], ◌+◌, not, filter, slice_set, if◌then◌else◌};
ghost use Rattle.mp_words.specs.Facts.{IsOrder};
ghost use Rattle.mp_words.specs.Order.{slots_of, next_order};

use mp_words::numbers::Slot;
use mp_words::order::Order;
use mp_words::row::Policy;

/// The next list of paths, with this policy.
pub(crate) fn with_policy(order: &Order, policy: Policy) -> Order
    requires order { IsOrder order.now }
    requires version { order.now.version < 4294967295 }
    ensures { result ≡ next_order order.now policy (slots_of order.now) }
{
    Order {
        version: order.version + 1,
        policy,
        len: order.len,
        slots: order.slots,
    }
}

/// The next list of paths, with this slot listed last.
pub(crate) fn with_slot(order: &Order, slot: Slot) -> Order
    requires order { IsOrder order.now }
    requires version { order.now.version < 4294967295 }
    requires room { order.now.len < 8 }
    ensures { result ≡ next_order order.now order.now.policy (slots_of order.now ++ slot ∷ []) }
{
    let mut slots = order.slots;
    slots[usize::from(order.len)] = slot;
    Order {
        version: order.version + 1,
        policy: order.policy,
        len: order.len + 1,
        slots,
    }
}

/// The next list of paths, without this slot.
pub(crate) fn without_slot(order: &Order, slot: Slot) -> Order
    requires order { IsOrder order.now }
    requires version { order.now.version < 4294967295 }
    ensures { result ≡ next_order order.now order.now.policy (filter (λ s. not (s == slot)) (slots_of order.now)) }
{
    let mut slots = [no_slot(); 8];
    let mut len: usize = 0;
    for place in 0..usize::from(order.len) {
        len = keep_unless(&mut slots, len, order.slots[place], slot);
    }
    Order {
        version: order.version + 1,
        policy: order.policy,
        len: len as u8,
        slots,
    }
}

/// The slot that stands in places past the listed ones.
fn no_slot() -> Slot
    ensures { result ≡ 0 }
{
    Slot::make(0).unwrap()
}

/// Lists a slot behind the first `len` ones, unless it is this one, and says how many are listed then.
fn keep_unless(slots: &mut [Slot; 8], len: usize, listed: Slot, slot: Slot) -> usize
    requires { len < 8 }
    ensures len { result ≡ (if listed == slot then len else len + 1) }
    ensures slots { slots.new ≡ (if listed == slot then slots.old else slice_set slots.old len listed) }
{
    if listed.get() == slot.get() {
        return len;
    }
    slots[len] = listed;
    len + 1
}

//! What the attempts of a hop mean, whatever the statuses are.

ghost use Rattle.std.specs.Prelude.{◌≡◌, ◌≤◌, ℕ, false, true, length, map};
ghost use Rattle.std.specs.List.{range_with_len};
ghost use Rattle.mp_status.specs.Disposition.{is_retry};
ghost use Rattle.mp_status.specs.Hop.{hop_statuses, class_of_hop, IsHop};

/// The last status of a hop is never one to be retried.
pub fn last_status_is_not_retried()
    ensures { (status_at : ℕ → ℕ) (attempt : ℕ) → is_retry (class_of_hop (hop_statuses status_at attempt)) ≡ false }
{}

/// A hop's statuses are those of the next attempts, from one to six of them; each but the last is retried, and the last
/// isn't.
pub fn hop_is_retried_up_to_its_last()
    ensures { (status_at : ℕ → ℕ) (attempt : ℕ) → IsHop status_at attempt (hop_statuses status_at attempt) }
{}

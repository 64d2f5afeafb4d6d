//! The attempts of a hop.

ghost use Rattle.std.specs.Prelude.{◌≡◌, ℕ, ◌≤◌, ◌+◌, false, Some, None, length, take, slice_index};
ghost use Rattle.std.specs.List.{last_or};
ghost use Rattle.mp_words.specs.Answers.{answer_for};
ghost use Rattle.mp_status.specs.Disposition.{is_retry};
ghost use Rattle.mp_status.specs.Hop.{hop_statuses, class_of_hop, ends_hop};
ghost use Rattle.mp_submit.specs.Finishes.{class_by, six_of};

use mp_status::class::Class;
use mp_status::disposition::class;
use mp_status::laws::last_status_is_not_retried;
use mp_words::answers::Answers;
use mp_words::numbers::ReqId;

/// The statuses of one hop, of which the first `count` count.
#[derive(Clone, Copy)]
pub(crate) struct Hop {
    pub statuses: [u16; 6],
    pub count: u8,
}

/// Whether this status ends the hop after so many retries.
fn ends_hop(status: u16, retries: u8) -> bool
    ensures { result ≡ ends_hop (retries, status) }
{
    match class(status, retries) {
        Class::Retry => false,
        Class::Complete => true,
        Class::Failover { ana: _ } => true,
    }
}

/// The statuses of a hop from an attempt on: those through the first that isn't retried. The last of them is never one to
/// be retried.
pub(crate) fn hop_from(answers: &Answers, req: ReqId, attempt: u32) -> Hop
    requires { attempt ≤ 402653185 }
    ensures statuses { take result.count result.statuses ≡ hop_statuses (answer_for answers.now req) attempt }
    ensures six { result.statuses ≡ six_of (hop_statuses (answer_for answers.now req) attempt) }
    ensures count { result.count ≡ length (hop_statuses (answer_for answers.now req) attempt) }
    ensures low { 1 ≤ result.count }
    ensures high { result.count ≤ 6 }
    ensures last { is_retry (class_of_hop (take result.count result.statuses)) ≡ false }
{
    last_status_is_not_retried();
    attempts(answers, req, attempt)
}

/// The statuses of a hop from an attempt on.
fn attempts(answers: &Answers, req: ReqId, attempt: u32) -> Hop
    requires { attempt ≤ 402653185 }
    ensures statuses { take result.count result.statuses ≡ hop_statuses (answer_for answers.now req) attempt }
    ensures low { 1 ≤ result.count }
    ensures high { result.count ≤ 6 }
    ensures places { length result.statuses ≡ 6 }
    ensures rest { (i : ℕ) → result.count ≤ i → slice_index result.statuses i ≡ 0 }
{
    let mut hop = Hop {
        statuses: [0; 6],
        count: 0,
    };
    'attempts: for k in 0..6u8 {
        let status = answers.status(req, attempt + u32::from(k));
        hop.statuses[k as usize] = status;
        hop.count = k + 1;
        if ends_hop(status, k) {
            return hop;
        }
    }
    hop
}

/// The last status of a hop.
pub(crate) fn last_status(statuses: &[u16; 6], count: u8) -> u16
    requires low { 1 ≤ count }
    requires high { count ≤ 6 }
    ensures { Some result ≡ last_or None (take count statuses.now) }
{
    statuses[usize::from(count) - 1]
}

/// How the last status of a hop fails over, by an ANA status or by another, or `None` where it completes.
pub(crate) fn failover_by(statuses: &[u16; 6], count: u8) -> Option<bool>
    requires low { 1 ≤ count }
    requires high { count ≤ 6 }
    requires last { is_retry (class_of_hop (take count statuses.now)) ≡ false }
    ensures { class_of_hop (take count statuses.now) ≡ class_by result }
{
    match class(last_status(statuses, count), count - 1) {
        Class::Failover { ana } => Some(ana),
        Class::Complete | Class::Retry => None,
    }
}

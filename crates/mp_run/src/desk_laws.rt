//! The laws of desks.

ghost use Rattle.mp_run.specs.DeskLaws.{DeskLaws};

use mp_legal::desk_turns::{
    a_desk_has_the_lanes_flights, a_keeper_looks_at_no_request, a_list_is_given, a_list_is_taken,
    a_new_request_may_be_submitted, finishes_may_be_made, submits_may_be_made,
    the_other_lanes_still_sit,
};
use mp_legal::desks::{
    a_call_is_the_plain_call, a_spent_lane_is_settled, calls_are_the_plain_calls,
    calls_keep_the_requests, stopped_calls_are_the_plain_stop,
};
use mp_page::laws::stated_state_is_in_range;

/// The laws of desks, as one fact. It does nothing.
pub fn desk_laws()
    ensures { DeskLaws }
{
    a_call_is_the_plain_call();
    calls_are_the_plain_calls();
    stopped_calls_are_the_plain_stop();
    a_spent_lane_is_settled();
    calls_keep_the_requests();
    a_desk_has_the_lanes_flights();
    finishes_may_be_made();
    submits_may_be_made();
    a_new_request_may_be_submitted();
    a_list_is_taken();
    a_list_is_given();
    the_other_lanes_still_sit();
    a_keeper_looks_at_no_request();
    stated_state_is_in_range();
}

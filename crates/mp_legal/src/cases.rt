//! Worked cases of the plain run, computed to the last byte of its text.

ghost use Rattle.std.specs.Prelude.{◌≡◌};
ghost use Rattle.mp_record.specs.RunText.{run_text};
ghost use Rattle.mp_legal.specs.PlainRun.{plain_run};
ghost use Rattle.mp_legal.specs.CaseAllFifteenSlots as CaseAllFifteenSlots;
ghost use Rattle.mp_legal.specs.CaseChangeArmsAndTimerExpires as CaseChangeArmsAndTimerExpires;
ghost use Rattle.mp_legal.specs.CaseDeadControllersFailARequest as CaseDeadControllersFailARequest;
ghost use Rattle.mp_legal.specs.CaseDoNotRetryCompletes as CaseDoNotRetryCompletes;
ghost use Rattle.mp_legal.specs.CaseEmptyScript as CaseEmptyScript;
ghost use Rattle.mp_legal.specs.CaseFailoverHostErrorKeepsPath as CaseFailoverHostErrorKeepsPath;
ghost use Rattle.mp_legal.specs.CaseFailoverSetsPending as CaseFailoverSetsPending;
ghost use Rattle.mp_legal.specs.CaseKeeperAnswers as CaseKeeperAnswers;
ghost use Rattle.mp_legal.specs.CaseNumaFirstOfTwoNonOptimized as CaseNumaFirstOfTwoNonOptimized;
ghost use Rattle.mp_legal.specs.CaseNumaTwoRequests as CaseNumaTwoRequests;
ghost use Rattle.mp_legal.specs.CasePolicyChanges as CasePolicyChanges;
ghost use Rattle.mp_legal.specs.CaseQueueDepthFirstOfEquals as CaseQueueDepthFirstOfEquals;
ghost use Rattle.mp_legal.specs.CaseRemoveReapAdd as CaseRemoveReapAdd;
ghost use Rattle.mp_legal.specs.CaseResettingControllersListARequest as CaseResettingControllersListARequest;
ghost use Rattle.mp_legal.specs.CaseRoundRobinNonoptimizedWalk as CaseRoundRobinNonoptimizedWalk;
ghost use Rattle.mp_legal.specs.CaseRoundRobinNothingUsable as CaseRoundRobinNothingUsable;
ghost use Rattle.mp_legal.specs.CaseSixAttemptsEndRetries as CaseSixAttemptsEndRetries;
ghost use Rattle.mp_legal.specs.CaseStorageFailover as CaseStorageFailover;

/// The run of the case "all fifteen slots" has the text that the rules give it.
pub fn all_fifteen_slots()
    ensures { run_text CaseAllFifteenSlots.inputs.topology (plain_run CaseAllFifteenSlots.inputs CaseAllFifteenSlots.lanes) ≡ CaseAllFifteenSlots.text }
{}

/// The run of the case "change arms and timer expires" has the text that the rules give it.
pub fn change_arms_and_timer_expires()
    ensures { run_text CaseChangeArmsAndTimerExpires.inputs.topology (plain_run CaseChangeArmsAndTimerExpires.inputs CaseChangeArmsAndTimerExpires.lanes) ≡ CaseChangeArmsAndTimerExpires.text }
{}

/// The run of the case "dead controllers fail a request" has the text that the rules give it.
pub fn dead_controllers_fail_a_request()
    ensures { run_text CaseDeadControllersFailARequest.inputs.topology (plain_run CaseDeadControllersFailARequest.inputs CaseDeadControllersFailARequest.lanes) ≡ CaseDeadControllersFailARequest.text }
{}

/// The run of the case "do not retry completes" has the text that the rules give it.
pub fn do_not_retry_completes()
    ensures { run_text CaseDoNotRetryCompletes.inputs.topology (plain_run CaseDoNotRetryCompletes.inputs CaseDoNotRetryCompletes.lanes) ≡ CaseDoNotRetryCompletes.text }
{}

/// The run of the case "empty script" has the text that the rules give it.
pub fn empty_script()
    ensures { run_text CaseEmptyScript.inputs.topology (plain_run CaseEmptyScript.inputs CaseEmptyScript.lanes) ≡ CaseEmptyScript.text }
{}

/// The run of the case "failover host error keeps path" has the text that the rules give it.
pub fn failover_host_error_keeps_path()
    ensures { run_text CaseFailoverHostErrorKeepsPath.inputs.topology (plain_run CaseFailoverHostErrorKeepsPath.inputs CaseFailoverHostErrorKeepsPath.lanes) ≡ CaseFailoverHostErrorKeepsPath.text }
{}

/// The run of the case "failover sets pending" has the text that the rules give it.
pub fn failover_sets_pending()
    ensures { run_text CaseFailoverSetsPending.inputs.topology (plain_run CaseFailoverSetsPending.inputs CaseFailoverSetsPending.lanes) ≡ CaseFailoverSetsPending.text }
{}

/// The run of the case "keeper answers" has the text that the rules give it.
pub fn keeper_answers()
    ensures { run_text CaseKeeperAnswers.inputs.topology (plain_run CaseKeeperAnswers.inputs CaseKeeperAnswers.lanes) ≡ CaseKeeperAnswers.text }
{}

/// The run of the case "numa first of two non optimized" has the text that the rules give it.
pub fn numa_first_of_two_non_optimized()
    ensures { run_text CaseNumaFirstOfTwoNonOptimized.inputs.topology (plain_run CaseNumaFirstOfTwoNonOptimized.inputs CaseNumaFirstOfTwoNonOptimized.lanes) ≡ CaseNumaFirstOfTwoNonOptimized.text }
{}

/// The run of the case "numa two requests" has the text that the rules give it.
pub fn numa_two_requests()
    ensures { run_text CaseNumaTwoRequests.inputs.topology (plain_run CaseNumaTwoRequests.inputs CaseNumaTwoRequests.lanes) ≡ CaseNumaTwoRequests.text }
{}

/// The run of the case "policy changes" has the text that the rules give it.
pub fn policy_changes()
    ensures { run_text CasePolicyChanges.inputs.topology (plain_run CasePolicyChanges.inputs CasePolicyChanges.lanes) ≡ CasePolicyChanges.text }
{}

/// The run of the case "queue depth first of equals" has the text that the rules give it.
pub fn queue_depth_first_of_equals()
    ensures { run_text CaseQueueDepthFirstOfEquals.inputs.topology (plain_run CaseQueueDepthFirstOfEquals.inputs CaseQueueDepthFirstOfEquals.lanes) ≡ CaseQueueDepthFirstOfEquals.text }
{}

/// The run of the case "remove reap add" has the text that the rules give it.
pub fn remove_reap_add()
    ensures { run_text CaseRemoveReapAdd.inputs.topology (plain_run CaseRemoveReapAdd.inputs CaseRemoveReapAdd.lanes) ≡ CaseRemoveReapAdd.text }
{}

/// The run of the case "resetting controllers list a request" has the text that the rules give it.
pub fn resetting_controllers_list_a_request()
    ensures { run_text CaseResettingControllersListARequest.inputs.topology (plain_run CaseResettingControllersListARequest.inputs CaseResettingControllersListARequest.lanes) ≡ CaseResettingControllersListARequest.text }
{}

/// The run of the case "round robin nonoptimized walk" has the text that the rules give it.
pub fn round_robin_nonoptimized_walk()
    ensures { run_text CaseRoundRobinNonoptimizedWalk.inputs.topology (plain_run CaseRoundRobinNonoptimizedWalk.inputs CaseRoundRobinNonoptimizedWalk.lanes) ≡ CaseRoundRobinNonoptimizedWalk.text }
{}

/// The run of the case "round robin nothing usable" has the text that the rules give it.
pub fn round_robin_nothing_usable()
    ensures { run_text CaseRoundRobinNothingUsable.inputs.topology (plain_run CaseRoundRobinNothingUsable.inputs CaseRoundRobinNothingUsable.lanes) ≡ CaseRoundRobinNothingUsable.text }
{}

/// The run of the case "six attempts end retries" has the text that the rules give it.
pub fn six_attempts_end_retries()
    ensures { run_text CaseSixAttemptsEndRetries.inputs.topology (plain_run CaseSixAttemptsEndRetries.inputs CaseSixAttemptsEndRetries.lanes) ≡ CaseSixAttemptsEndRetries.text }
{}

/// The run of the case "storage failover" has the text that the rules give it.
pub fn storage_failover()
    ensures { run_text CaseStorageFailover.inputs.topology (plain_run CaseStorageFailover.inputs CaseStorageFailover.lanes) ≡ CaseStorageFailover.text }
{}

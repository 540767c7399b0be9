//! What the definitions say of entries that were judged by hand.

ghost use Rattle.std.specs.Prelude.{pos, Bool, true, false, [], ◌∷◌, ◌++◌, Some, None, Ok, Err};
ghost use Rattle.ert_defs.specs.{Entries.{off_entry, orphan_entry, mark_entry, take_entry, watch_entry}, States.state, Worked.{small, timer, start_after, leapt_back, told}, declared.settings.Mode.TheVariants.Multi};
ghost use Rattle.ert_defs.specs.{declared.settings.OffsetState.TheVariants.Final, declared.entry.Actor.TheVariants.Caller, declared.timer.Status.TheVariants.{Armed, Cancelled}};
ghost use Rattle.ert_effects.specs.{Chains.{Exits, Turns}, TimerCalls.{Reads, Cancels, Starts}, Ways.alone, WheelCalls.{Advances, Sweeps}, MailCalls.{Takes, Monitors, Notifies}, declared.answers.MonitorErr.TheVariants.Full as MonitorsFull};
ghost use Rattle.ert_effects.specs.{declared.answers.Taken.TheVariants.{Empty, Exited}, declared.answers.StartErr.TheVariants.{BadArg, Full}, Worked.{one, idle, armed, start_before, look, starting, orphaned_by_exit, probed, reading}};
ghost use Rattle.ert_effects.specs.{Worked.{cancelling, unbound, two, first_timer_of, both_armed, exiting, asked_at_once, turning, advancing, missing, missing_twice, delivering, worked_turn, notifying}};

/// A start of a timer for a process that had exited cancels it, or finds it settled: it doesn't leave it
/// armed.
pub fn starts_are_judged()
    ensures ok { Starts one 0 0 (start_after 5) (Ok timer) idle (starting false []) }
    ensures orphaned { Starts one 0 0 (start_after 5) (Ok timer) idle (starting true orphaned_by_exit) }
    ensures missed { Starts one 0 0 (start_after 5) (Ok timer) idle (starting true (probed (Some Cancelled))) }
    ensures left_armed { Starts one 0 0 (start_after 5) (Ok timer) idle (starting true []) → ⊥ }
    ensures found_armed { Starts one 0 0 (start_after 5) (Ok timer) idle (starting true (probed (Some Armed))) → ⊥ }
{}

/// A start is refused for its time by the call's look alone, and for want of a slot only after a look at
/// each.
pub fn refusals_are_judged()
    ensures bad { Starts one 0 0 start_before (Err BadArg) idle (look ∷ []) }
    ensures good { Starts one 0 0 (start_after 5) (Err BadArg) idle (look ∷ []) → ⊥ }
    ensures full { Starts one 0 0 (start_after 5) (Err Full) armed (look ∷ probed (Some Armed)) }
    ensures unseen { Starts one 0 0 (start_after 5) (Err Full) armed (look ∷ []) → ⊥ }
    ensures free { Starts one 0 0 (start_after 5) (Err Full) armed (look ∷ probed (Some Cancelled)) → ⊥ }
{}

/// A cancel answers what its own step found left, and nothing where it made none.
pub fn cancels_are_judged()
    ensures hit { Cancels one (Caller 0) timer (Some 5) armed (cancelling (Some 5)) }
    ensures miss { Cancels one (Caller 0) timer None armed (cancelling None) }
    ensures settled { Cancels one (Caller 0) timer None armed (reading None) }
    ensures untold { Cancels one (Caller 0) timer None armed (cancelling (Some 5)) → ⊥ }
    ensures uncancelled { Cancels one (Caller 0) timer (Some 5) armed (reading (Some 5)) → ⊥ }
    ensures made_up { Cancels one (Caller 0) timer (Some 5) armed (reading None) → ⊥ }
    ensures unbound { Cancels one (Caller 0) unbound None armed (look ∷ []) }
    ensures nothing_read { Reads one (Caller 0) unbound (Some 5) armed (look ∷ []) → ⊥ }
{}

/// An exit cancels the timers of its process on every wheel, and no others. It looks at no other slot.
pub fn exits_are_judged()
    ensures all { Exits two (alone two) 0 0 true (both_armed 0) (exiting (orphan_entry 0 0 (first_timer_of 0) ∷ (orphan_entry 0 1 (first_timer_of 1) ∷ []))) }
    ensures one_wheel { Exits two (alone two) 0 0 true (both_armed 0) (exiting (orphan_entry 0 0 (first_timer_of 0) ∷ [])) → ⊥ }
    ensures own { Exits two (alone two) 0 0 true (both_armed 1) (exiting (orphan_entry 0 0 (first_timer_of 0) ∷ [])) }
    ensures other_process { Sweeps two 0 1 0 (state two (both_armed 1)) (orphan_entry 0 1 (first_timer_of 1) ∷ []) → ⊥ }
    ensures stray { Sweeps one 0 0 0 idle (probed (Some Cancelled)) → ⊥ }
{}

/// A turn serves, advances and delivers, until nothing is left to deliver.
pub fn turns_are_judged()
    ensures done { Turns one (alone one) 0 (Ok (worked_turn 1 1)) asked_at_once (turning ++ delivering) }
    ensures undelivered { Turns one (alone one) 0 (Ok (worked_turn 1 0)) asked_at_once turning → ⊥ }
{}

/// An advance answers how many timers expired, and not how many it tried. It tries timers that are due, each once. A
/// try that missed found its timer settled.
pub fn advances_are_judged()
    ensures expired { Advances one 0 (Ok (1, 1)) (state one asked_at_once) advancing }
    ensures missed { Advances one 0 (Ok (1, 0)) (state one asked_at_once) (missing Cancelled) }
    ensures miscounted { Advances one 0 (Ok (1, 1)) (state one asked_at_once) (missing Cancelled) → ⊥ }
    ensures unsettled { Advances one 0 (Ok (1, 0)) (state one asked_at_once) (missing Armed) → ⊥ }
    ensures stray { Advances one 0 (Ok (1, 0)) idle (missing Cancelled) → ⊥ }
    ensures early { Advances one 0 (Ok (1, 0)) armed (missing Cancelled) → ⊥ }
    ensures tried_twice { Advances one 0 (Ok (1, 0)) (state one asked_at_once) (missing_twice Cancelled) → ⊥ }
{}

/// A process is told an offset once for each monitor that it is new to. A monitor's number has 32 bits, and
/// none is refused while fewer than 64 stand.
pub fn monitors_are_judged()
    ensures told { Notifies (small Multi) 0 0 (Ok 1) (state (small Multi) leapt_back) notifying }
    ensures not_again { Notifies (small Multi) 0 0 (Ok 0) (state (small Multi) told) notifying }
    ensures untold { Notifies (small Multi) 0 0 (Ok 0) (state (small Multi) leapt_back) notifying → ⊥ }
    ensures first { Monitors one 0 0 (Ok 0) idle (watch_entry 0 0 0 (pos 0) ∷ []) }
    ensures beyond { Monitors one 0 0 (Ok 4294967296) idle (watch_entry 0 0 4294967296 (pos 0) ∷ []) → ⊥ }
    ensures refused { Monitors one 0 0 (Err MonitorsFull) idle (off_entry (Caller 0) (pos 0) Final ∷ []) → ⊥ }
{}

/// A process that has exited is told so, and one that hasn't gets the first message or nothing.
pub fn messages_are_judged()
    ensures exited { Takes one 0 0 Exited idle (mark_entry (Caller 0) 0 false true ∷ []) }
    ensures empty { Takes one 0 0 Empty idle (mark_entry (Caller 0) 0 false false ∷ (take_entry 0 0 None ∷ [])) }
    ensures not_exited { Takes one 0 0 Exited idle (mark_entry (Caller 0) 0 false false ∷ []) → ⊥ }
    ensures unasked { Takes one 0 0 Empty idle (mark_entry (Caller 0) 0 false false ∷ []) → ⊥ }
{}

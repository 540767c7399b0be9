//! Worked scenarios, of which the rules tell what they print and leave.

ghost use Rattle.std.specs.Prelude.{◌≡◌, ◌++◌, [], codes};
ghost use Rattle.ert_ops.specs.{Labels.{label_of, ref_of}, Worked.{IsPrinted, one_cancel, Prints, EndsWith, Leaves, repeated}, WorkedClocks.{frozen, warped, fallen, finalized_once, volatile, too_wide, strong, gentle, conversions}};
ghost use Rattle.ert_ops.specs.{WorkedTimers.{rounding, cancelled_again, deadlines, times_below_zero, in_order, one_slot, exits, orphan, by_starting, refused_label}, WorkedTurns.{requests, too_late, many_requests, quiet, monitors}};
ghost use Rattle.ert_ops.specs.{WorkedTurns.{many_monitors, one_day, idle_turn, cancelled_once, delivered_once, orphaned_once}};

/// A timer of 5 milliseconds that is cancelled at once has a legal history with this text. A label that no start
/// bound stands for a reference that is printed as the label.
pub fn a_cancel_has_a_transcript()
    ensures one_cancel { IsPrinted one_cancel (codes "start ok\ncancel 5\nend 0\n") }
    ensures unbound { label_of [] (ref_of [] 9) ≡ 9 }
{}

/// The plain service prints of the worked scenarios what the rules say, and leaves the timers that they say.
pub fn transcripts_are_judged()
    ensures frozen { Prints frozen (codes "tick 2000000000\ntick 2000000000\ntime 2000000000\ntick 3000000000\nsystem 13000000000\nend 3000000000\n") }
    ensures warped { Prints warped (codes "tick 2000000000\ncheck 2000000000 offset 9000000000\nsystem 11000000000\ntick 2500000000\nend 2500000000\n") }
    ensures fallen { Prints fallen (codes "tick 0\ntick 50\nend 50\n") }
    ensures finalized { Prints finalized_once (codes "tick 5000000000\nsystem 5000000000\nfinalize preliminary 6000000000 offset 1000000000000\nsystem 1006000000000\nfinalize final 6000000000\ntick 7000000000\nend 7000000000\n") }
    ensures volatile { Prints volatile (codes "finalize volatile 0\noffset 0 volatile\nend 0\n") }
    ensures too_wide { Prints too_wide (codes "tick 4611686018427387903\nfinalize offset_wide -6917529027641081854\noffset 0 preliminary\nend 4611686018427387903\n") }
    ensures strong { Prints strong (codes "check 60000000000\ntick 61010000000\ncheck 80200000000\ntick 81200000000\nend 81200000000\n") }
    ensures gentle { Prints gentle (codes "check 60000000000\ntick 61000500000\nend 61000500000\n") }
    ensures conversions { Prints conversions (codes "convert -1\nconvert too_wide\nconvert 3\nconvert -4\nconvert 3\nconvert 9223372036854\nend 0\n") }
    ensures rounding { Prints rounding (codes "tick 500000\nstart ok\nread 10\ntick 10900000\nread 0\nadvance 10 0\ntick 11000000\nadvance 11 1\ndeliver 1 0\nreceive timeout 1 77\nread false\nreceive empty\nend 11000000\n") }
    ensures cancelling { Prints cancelled_again (codes "start ok\ncancel 5\ncancel false\ncancel false\nstart ok\ntick 1000000\nadvance 1 1\ncancel false\nreceive empty\ndeliver 1 0\nreceive timeout 2 8\nend 1000000\n") }
    ensures deadlines { Prints deadlines (codes "start badarg\nstart ok\nstart badarg\nstart ok\ntick 10000000\nstart badarg\nstart ok\nread 0\nadvance 10 1\nend 10000000\n") }
    ensures below_zero { Prints times_below_zero (codes "time -1000000000\nstart badarg\nstart ok\nadvance 0 1\nend -1000000000\n") }
    ensures in_order { Prints in_order (codes "start ok\nstart ok\nstart ok\ntick 5000000\nturn 0 5 2 2 0\nreceive timeout 2 2\nreceive timeout 3 3\nreceive empty\ntick 1029000000\nturn 0 1029 1 1 0\nreceive timeout 1 1\nend 1029000000\n") }
    ensures one_slot { Prints one_slot (codes "start ok\nstart full\ncancel 4\nstart ok\nread false\nread 6\ntick 6000000\nadvance 6 1\nstart full\ndeliver 1 0\nstart ok\nread 1\nend 6000000\n") }
    ensures exits { Prints exits (codes "start ok\nstart ok\nstart ok\nstart ok\nadvance 0 1\nexit ok\ndeliver 0 1\nexit ok\nread false\nread false\nread 5\nstart ok\nread false\nreceive exited\nexit already\nalive false\nalive true\nend 0\n") }
    ensures orphan { Prints orphan (codes "exit ok\nstart ok\nstart ok\nstart full\nend 0\n") }
    ensures by_starting { Prints by_starting (codes "start ok\nstart ok\ntick 5000000\nturn 0 5 2 2 0\nreceive timeout 9 1\nreceive timeout 2 2\nend 5000000\n") }
    ensures refused_label { Prints refused_label (codes "start ok\nstart full\ncancel false\nread_async ok\nserve 1\nreceive read_timer 2 false\nread 4\nend 0\n") }
    ensures requests { Prints requests (codes "start ok\nread_async ok\nreceive empty\nserve 1\nreceive read_timer 1 7\ncancel_async ok\nserve 1\nreceive cancel_timer 9 false\nserve 0\nend 0\n") }
    ensures too_late { Prints too_late (codes "start ok\ncancel_async ok\nread_async ok\ncancel 9\nturn 2 0 0 0 0\nreceive cancel_timer 1 false\nreceive read_timer 1 false\nreceive empty\nend 0\n") }
    ensures many_requests { Prints many_requests (repeated 65 (codes "read_async ok\n") ++ codes "turn 64 0 0 0 0\nserve 1\nserve 0\nend 0\n") }
    ensures quiet { Prints quiet (codes "send_after ok\nstart ok\ncancel_async ok\nserve 1\nreceive empty\ncancel_quiet ok\ntick 3000000\nturn 0 3 1 1 0\nreceive message 55\nreceive empty\nend 3000000\n") }
    ensures monitors { Prints monitors (codes "monitor 0\nmonitor 1\ndemonitor true\ndemonitor false\ncheck 0 offset 9000000000\nnotify 1\nnotify 0\nreceive change 1 9000000000\nreceive empty\nend 0\n") }
    ensures many_monitors { EndsWith many_monitors (codes "monitor 63\nmonitor full\nend 0\n") }
    ensures one_day { Prints one_day (codes "info start 0 end 8796093022207000000 mode multi correction true offset 1767225600000000000 state volatile\nmonitor 0\nstart ok\nstart ok\ntick 250000000\nturn 0 250 1 1 0\nreceive timeout 2 200\nstart ok\ncancel_async ok\nreceive empty\ntick 300000000\nturn 1 300 0 0 0\nreceive cancel_timer 1 700\ncheck 400000000 offset 1767225610000000000\nsystem 1767225610400000000\nnotify 1\nreceive change 0 1767225610000000000\nread 350\nexit ok\nread false\nreceive exited\ntick 60400000000\nturn 0 60400 0 0 0\nend 60400000000\n") }
    ensures idle { Leaves idle_turn (codes "settled armed 0 expired 0 delivered 0 dropped 0 cancelled 0 orphaned 0\n") }
    ensures cancelled_once { Leaves cancelled_once (codes "settled armed 0 expired 0 delivered 0 dropped 0 cancelled 1 orphaned 0\n") }
    ensures delivered_once { Leaves delivered_once (codes "settled armed 0 expired 0 delivered 1 dropped 0 cancelled 0 orphaned 0\n") }
    ensures orphaned_once { Leaves orphaned_once (codes "settled armed 0 expired 0 delivered 0 dropped 0 cancelled 0 orphaned 1\n") }
{}

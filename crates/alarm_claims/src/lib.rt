// What the alarms mean for a board that follows the rules, stated where a reader meets it. The functions do nothing.
#![tactic(auto)]

ghost use Rattle.alarm_claims.specs.Claims.{KeptLosesNothing, FinalizeLosesNothing, IgnoredUntouched};

// A call that leaves the upload as it was loses nothing.
pub fn kept_loses_nothing()
    ensures { KeptLosesNothing }
{}

// A finalize loses nothing, whatever becomes of its reply.
pub fn finalize_loses_nothing()
    ensures { FinalizeLosesNothing }
{}

// A frame that is ignored gets no reply and changes nothing: neither state nor flash.
pub fn ignored_untouched()
    ensures { IgnoredUntouched }
{}

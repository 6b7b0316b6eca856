ghost use Rattle.std.specs.Prelude.{List};
ghost use Rattle.strand_inputs.specs.declared.mode.Mode.{Mode};
ghost use Rattle.strand_events.specs.declared.event.Event.{Event};
ghost use Rattle.strand_events.specs.Order.{Set};
ghost use Rattle.strand_judge.specs.Judged.{Crash, IsJudged, IsSettled, IsLeastSettled, both, all_persists};
ghost use Rattle.strand_judge.specs.Verdicts.{IsVerdict, IsYesWithin};
ghost use Rattle.strand_judge.specs.declared.verdict.Verdict.{Verdict};

/// Why there is a least set, for every trace and crash image: judged sets meet in a judged set and settled sets in
/// a settled one, all persists are a settled set, and the least settled set is judged where any set is.
pub fn least_sets_are_judged()
    ensures judged { (mode : Mode) (t : List Event) (crash : Crash) (set other : Set) → IsJudged mode t crash set
        → IsJudged mode t crash other → IsJudged mode t crash (both set other) }
    ensures settled { (mode : Mode) (t : List Event) (crash : Crash) (set other : Set) → IsSettled mode t crash set
        → IsSettled mode t crash other → IsSettled mode t crash (both set other) }
    ensures all { (mode : Mode) (t : List Event) (crash : Crash) → IsSettled mode t crash all_persists }
    ensures least { (mode : Mode) (t : List Event) (crash : Crash) (least set : Set) → IsLeastSettled mode t crash least
        → IsJudged mode t crash set → IsJudged mode t crash least }
{}

/// Where any set is judged, a verdict is a yes whose persists are all in that set, for every trace and crash image.
pub fn verdicts_are_within_judged_sets()
    ensures { (mode : Mode) (t : List Event) (crash : Crash) (set : Set) (verdict : Verdict) → IsJudged mode t crash set
        → IsVerdict mode t crash verdict → IsYesWithin t set verdict }
{}

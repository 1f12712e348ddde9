//! What a tally counts, and that a drill's lines break no rule.

ghost use Rattle.play_script.specs.DrillRefusal.{NeverRefused};
ghost use Rattle.play_script.specs.Summary.{TalliesCount};

/// What a tally of the lines of a run says is the summary of the frames that the lines tell of.
pub fn tallies_count()
    ensures { TalliesCount }
{}

/// No line of a drill breaks a rule where the lines before it have led.
pub fn drills_are_never_refused()
    ensures { NeverRefused }
{}

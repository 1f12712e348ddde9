//! Laws by which a worker's list says how its launches ended, and why its crashes were entered.

ghost use Rattle.worker_lives.specs.Ending.{LaunchesEnd, BegunsEnd, CrashesWere};

/// What ended by the first items of a worker's pieces ended by its list.
pub fn launches_end()
    ensures { LaunchesEnd }
{}

/// A launch that a list begins came up, failed, or wanted memory.
pub fn beguns_end()
    ensures { BegunsEnd }
{}

/// Each Crashed of a worker's list had its cause where each of its pieces had it.
pub fn crashes_were()
    ensures { CrashesWere }
{}

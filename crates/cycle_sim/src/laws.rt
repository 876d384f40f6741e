//! Which results the machine takes.

ghost use Rattle.cycle_sim.specs.Judged.{JudgedCanLoad, JudgedCanRun};

/// The machine can run all results of which A2 and A5 hold.
pub fn judged_can_run()
    ensures { JudgedCanRun }
{}

/// Where A7 holds, a machine of the results can be loaded from a valuation of the design.
pub fn judged_can_load()
    ensures { JudgedCanLoad }
{}

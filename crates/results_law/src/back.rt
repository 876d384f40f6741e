//! Printed texts stand for what was printed.

ghost use Rattle.results_law.specs.ReadBack.{MapsReadBack, NetlistsReadBack, ResultsReadBack, SchedulesReadBack, WhatIsReadFits};

/// The text of a schedule stands for this schedule.
pub fn schedules_read_back()
    ensures { SchedulesReadBack }
{}

/// The text of a map stands for this map, with the chips that it fits.
pub fn maps_read_back()
    ensures { MapsReadBack }
{}

/// The text of a netlist is the netlist of its chips.
pub fn netlists_read_back()
    ensures { NetlistsReadBack }
{}

/// The three texts of results stand for these results. So, by `results_are_told_apart`, nothing else is
/// read from them.
pub fn results_read_back()
    ensures { ResultsReadBack }
{}

/// What three texts stand for is within the forms of results, so it can be printed and read again.
pub fn what_is_read_fits()
    ensures { WhatIsReadFits }
{}

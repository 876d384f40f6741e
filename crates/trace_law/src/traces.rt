//! The laws of traces.

ghost use Rattle.trace_law.specs.Traces.{BrokenTraces, LoadedTraceIsOne, OpenedAreSame, OutputsAreMapped, SettledTraceIsOne, SettledTraces, TracesAgree};

/// Where the twelve rules hold, a machine that is loaded from the opened valuation has the trace of the
/// original, whatever the opening and the events.
pub fn traces_agree()
    ensures { TracesAgree }
{}

/// Where rules A2, A5 and A7 hold, all machines that are loaded from one valuation, with 0 in each free
/// register and read net, have one trace, whatever the events and whatever the wires carry at first.
pub fn loaded_trace_is_one()
    ensures { LoadedTraceIsOne }
{}

/// Two opened valuations of one opening are the same.
pub fn opened_are_same()
    ensures { OpenedAreSame }
{}

/// What a run of the original has shown after its first events is what the one history shows there.
pub fn settled_traces()
    ensures { SettledTraces }
{}

/// The trace of a run of the original over all events is the trace of the one history.
pub fn settled_trace_is_one()
    ensures { SettledTraceIsOne }
{}

/// A trace that breaks off is some first bytes of the whole trace.
pub fn broken_traces()
    ensures { BrokenTraces }
{}

/// By rule A9 the map has as many outputs as the design has output bits.
pub fn outputs_are_mapped()
    ensures { OutputsAreMapped }
{}

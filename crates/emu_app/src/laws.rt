//! Laws of texts. There is nothing to run.

ghost use Rattle.emu_app.specs.Answers.{SettleAndReplayAgree};
ghost use Rattle.emu_app.specs.Reading.{RefusedTextsStandForNothing, TextsTellRecordingsApart, TextsTellRunsApart};

use case_texts::faulty_texts_are_unread;
use flattening::laws::each_text_has_one_design;

/// Texts stand for one recording of a design at most.
pub fn texts_tell_recordings_apart()
    ensures { TextsTellRecordingsApart }
{
    domain_groups::each_text_has_one_answer();
    domain_groups::each_opening_has_one_answer();
    domain_groups::each_recording_has_one_answer();
}

/// Texts stand for one design and one recording of it at most.
pub fn texts_tell_runs_apart()
    ensures { TextsTellRunsApart }
{
    each_text_has_one_design();
    texts_tell_recordings_apart();
}

/// Texts that a command refuses stand for nothing that it reads.
pub fn refused_texts_stand_for_nothing()
    ensures { RefusedTextsStandForNothing }
{
    faulty_texts_are_unread();
}

/// Where the twelve rules hold, `settle` and `replay` print one trace.
pub fn settle_and_replay_agree()
    ensures { SettleAndReplayAgree }
{
    trace_law::traces::settled_trace_is_one();
}

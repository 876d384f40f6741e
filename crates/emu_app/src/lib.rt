//! The command line of `emu`, over any texts and any sink.
//!
//! `run` takes the words of a command, fetches the texts that they name, does the command's work and
//! prints what came of it. Its contract says for each status what was read and found. With status Ok of
//! `check`, the texts stand for one design, board and results, the rules A1 to A12 hold for them, and
//! the machine agrees with the design after every event, for every opening and every list of events.
//! With status Ok of `settle` the trace of the one history is written, and with Ok of `replay` the
//! machine's trace, which is the same where the twelve rules hold.
#![tactic(auto)]

mod answer;
mod check;
mod command;
mod design_text;
mod ending;
mod fetch;
mod laws;
mod reading;
mod recording;
mod replay;
mod settle;
mod status;
mod top;
mod verdict_text;

pub use laws::{
    refused_texts_stand_for_nothing, settle_and_replay_agree, texts_tell_recordings_apart,
    texts_tell_runs_apart,
};
pub use status::Status;
pub use top::run;

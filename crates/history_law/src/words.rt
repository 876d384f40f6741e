//! What holds of the words of memories.

ghost use Rattle.history_law.specs.Words.{EventsKeepWordsFit, HistoryWordsFit, OpenedWordsFit};

/// Where the words of an opening are below 2 to the width, those of the opened valuation are.
pub fn opened_words_fit()
    ensures { OpenedWordsFit }
{}

/// An event leaves words below 2 to the width where they were.
pub fn events_keep_words_fit()
    ensures { EventsKeepWordsFit }
{}

/// Each valuation of a history has words below 2 to the width, where its opening gives such words.
pub fn history_words_fit()
    ensures { HistoryWordsFit }
{}

//! Laws of the definitions. None of these functions does anything: their contracts are what they are for.
ghost use Rattle.lt_state.specs.Laws.{PresentOpens, PublishKeepsPast, SparingKeepsFacts, ClosedIsJob, JobTakesAlong, FlushHolds, FlushSplitsNone, FlushIsWhole, FlushLeavesMemory, FlushKeepsFacts, FactsOutlive, FactsBySameRecords, OthersLeaveMemory, OthersSplitNone, PublishedFacts, FaultKeepsFacts, RowJoinsMemory, RowSplitsNone, NewKeyStaysApart, InsertStands, FoundIsPresent, NoneFoundIsNew, CountFits};

/// Each image that a stop may leave opens to what a stop leaves of the history.
pub fn possible_images_open()
    ensures now { PresentOpens }
    ensures publishing { PublishKeepsPast }
    ensures sparing { SparingKeepsFacts }
{}

/// A closed set of tablets in memory takes all along that has to go with it, also when it is committed later.
pub fn a_closed_set_takes_all_along()
    ensures closed { ClosedIsJob }
    ensures later { JobTakesAlong }
{}

/// What a flush publishes, and what is left in memory.
pub fn a_flush_keeps_the_facts()
    ensures rows { FlushHolds }
    ensures none_split { FlushSplitsNone }
    ensures whole { FlushIsWhole }
    ensures memory { FlushLeavesMemory }
    ensures facts { FlushKeepsFacts }
{}

/// The facts hold of a history with more entries, and by more notes.
pub fn the_facts_outlive_entries_and_notes()
    ensures entries { FactsOutlive }
    ensures notes { FactsBySameRecords }
    ensures memory { OthersLeaveMemory }
    ensures none_split { OthersSplitNone }
{}

/// The facts after a stone was published, and after a publishing that failed.
pub fn other_stones_keep_the_facts()
    ensures published { PublishedFacts }
    ensures fault { FaultKeepsFacts }
{}

/// What a row changes of the tablets in memory.
pub fn a_row_joins_memory()
    ensures memory { RowJoinsMemory }
    ensures none_split { RowSplitsNone }
    ensures keys { NewKeyStaysApart }
{}

/// A core with one record more stands for its story with one row more.
pub fn an_insert_stands()
    ensures { InsertStands }
{}

/// The records that are held tell which keys are present.
pub fn the_verdict_is_by_records()
    ensures found { FoundIsPresent }
    ensures new { NoneFoundIsNew }
{}

/// The number of a story's elements fits a word.
pub fn the_count_fits()
    ensures { CountFits }
{}

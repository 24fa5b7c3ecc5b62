//! Laws of the definitions. None of these functions does anything: their contracts are what they are for.
ghost use Rattle.lt_trace.specs.Laws.{RowsCanRise, RisingIsOne, SomeOpening, OneOpening, BackedOpens, PastOutlives, ReachedStays, RowsOutlive, SameRecordsHold, FewerIsWhole, MergeIsWhole, NewRowHasNewKey, ListingCounts};

/// Rows with different keys have one order by number and key.
pub fn rows_rise_in_one_way()
    ensures some { RowsCanRise }
    ensures one { RisingIsOne }
{}

/// An image of a whole stone opens to one opening.
pub fn an_image_has_one_opening()
    ensures some { SomeOpening }
    ensures one { OneOpening }
{}

/// An image of a backed stone opens to what a stop leaves of the history.
pub fn backed_images_open()
    ensures { BackedOpens }
{}

/// What was true of the past stays true while the history grows.
pub fn the_past_stays_true()
    ensures { PastOutlives }
{}

/// A number below which all was durable at a moment stays so.
pub fn what_was_reached_stays()
    ensures { ReachedStays }
{}

/// A stone holds its rows while the history grows.
pub fn rows_outlive_entries()
    ensures { RowsOutlive }
{}

/// A stone that keeps each record from its low on holds its rows.
pub fn same_records_hold_the_rows()
    ensures { SameRecordsHold }
{}

/// A stone that lists fewer tablets, or one merged file in place of several, is whole.
pub fn fewer_and_merged_tablets_are_whole()
    ensures fewer { FewerIsWhole }
    ensures merged { MergeIsWhole }
{}

/// A row whose key is new has a record whose key is new.
pub fn a_new_row_has_a_new_key()
    ensures { NewRowHasNewKey }
{}

/// The tablets of the present stone count the rows on disk.
pub fn the_list_counts()
    ensures { ListingCounts }
{}

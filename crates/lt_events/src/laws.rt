//! Laws of the definitions. None of these functions does anything: their contracts are what they are for.
ghost use Rattle.lt_events.specs.Committing.{GivenTakesAlong, GivenIsSame};
ghost use Rattle.lt_events.specs.Flushing.{FlushStands, FlushFaultStands};
ghost use Rattle.lt_events.specs.Laws.{LoadStands, RoomBegins, LendStands, TicketStands, ReleaseStands, SpentStands, SpentIsNoted, SpareStands, AlterStands, AlterFaultStands};
ghost use Rattle.lt_events.specs.Purging.{PurgeStands, PurgeFaultStands};

use lt_codec::rows_have_one_spelling;

/// A core that was loaded stands for what its stone opens to.
pub fn a_load_stands()
    ensures { LoadStands }
{}

/// While file numbers are lent, and tickets go out and come back, a core stands for the same story.
pub fn tickets_stand()
    ensures room { RoomBegins }
    ensures lend { LendStands }
    ensures ticket { TicketStands }
    ensures release { ReleaseStands }
{}

/// It is noted once from which number on files are free.
pub fn spent_numbers_are_noted()
    ensures stands { SpentStands }
    ensures noted { SpentIsNoted }
{}

/// While files come and go that no possible stone names, a core stands for the same story.
pub fn entered_and_swept_files_stand()
    ensures { SpareStands }
{}

/// A change of the schema that was published, and one whose publishing failed.
pub fn a_change_stands()
    ensures ok { AlterStands }
    ensures fault { AlterFaultStands }
{}

/// A flush that was published, and one whose publishing failed.
pub fn a_flush_stands()
    ensures ok { FlushStands }
    ensures fault { FlushFaultStands }
{}

/// A flush that was given out takes along what must go when it is committed, and its files are its tablets.
pub fn a_given_flush_is_its_tablets()
    ensures takes { GivenTakesAlong }
    ensures same { GivenIsSame }
{
    rows_have_one_spelling();
}

/// A purge that was published, and one whose publishing failed.
pub fn a_purge_stands()
    ensures ok { PurgeStands }
    ensures fault { PurgeFaultStands }
{}

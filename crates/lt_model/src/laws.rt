//! Laws of the definitions. None of these functions does anything: their contracts are what they are for.
ghost use Rattle.lt_model.specs.Laws.{FrontsStay, TheLastFront, EntriesStay, AddedAtTheEnd, ReadingsAfter, OpeningsAreLegal, FrontsAreLegal, LawfulEntriesKeepItLegal, AcceptedRowsKeepItLegal, AnswersByFront, LatestByFront, VerdictsByFront, StepsByFront, SomeVerdict, OneVerdict, OneAnswer, OneLatest, BeginsWithNothing, GrowsByACommand, GrowsByABadLine, IsASessionOfOne, IsASessionOfNobody, RepliesShowTheirRows, EachNumberIsShown, CrashesByFront};

/// A history keeps its fronts, and its entries their places, while it grows.
pub fn fronts_stay()
    ensures fronts { FrontsStay }
    ensures last { TheLastFront }
    ensures entries { EntriesStay }
    ensures added { AddedAtTheEnd }
{}

/// What a history says once it has one more entry.
pub fn readings_after_an_entry()
    ensures { ReadingsAfter }
{}

/// An opening, each front, and a history with one more lawful entry are legal.
pub fn legal_histories()
    ensures opening { OpeningsAreLegal }
    ensures fronts { FrontsAreLegal }
    ensures entry { LawfulEntriesKeepItLegal }
{}

/// A row that is accepted keeps its history legal.
pub fn an_accepted_row_keeps_it_legal()
    ensures { AcceptedRowsKeepItLegal }
{}

/// A row has one verdict at each front of a legal history.
pub fn each_row_has_one_verdict()
    ensures some { SomeVerdict }
    ensures one { OneVerdict }
{}

/// A scan and a look at the latest row have one answer at each front of a legal history.
pub fn each_query_has_one_answer()
    ensures answer { OneAnswer }
    ensures latest { OneLatest }
{}

/// Answers, verdicts and steps know their front alone.
pub fn answers_depend_on_the_front_alone()
    ensures answers { AnswersByFront }
    ensures latest { LatestByFront }
    ensures verdicts { VerdictsByFront }
    ensures steps { StepsByFront }
{}

/// A session of one client grows by one line at a time.
pub fn a_session_grows_by_a_line()
    ensures nothing { BeginsWithNothing }
    ensures command { GrowsByACommand }
    ensures bad { GrowsByABadLine }
{}

/// What has grown so is a session.
pub fn a_session_of_one()
    ensures one { IsASessionOfOne }
    ensures nobody { IsASessionOfNobody }
{}

/// The replies of a session show the rows that it added and their numbers, each once.
pub fn replies_show_the_rows()
    ensures shown { RepliesShowTheirRows }
    ensures once { EachNumberIsShown }
{}

/// A stop leaves of a history what it leaves of each front from whose next number on nothing is durable.
pub fn later_rows_are_not_durable()
    ensures { CrashesByFront }
{}

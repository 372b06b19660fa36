//! Laws of the presence table, of checkpoints and of what other nodes make of cuts: functions that do nothing, and whose
//! contracts are the laws.

ghost use Rattle.presence_journal_laws.specs.Laws.{IsSound, BeginsLegal, BeginsKept, BeginsWithRoom, KeepsCounts, KeepsStatus, KeepsHearing, KeepsCoveredDots, KeepsTop, KeepsKnown, KeepsShown, KeepsLive, KeepsRemoved, LiveIsKept, KeepsPresent, KeepsListed, KeepsSet, KeepsFull, FullStands, KeepsCut, KeepsOlder, KeepsRecent, KeepsShownChains, KeepsUnusedChains, OneKept, OthersKeep, KeepsKeptDeltas, KeepsToldFrom, KeepsTopics, SubscribersAreBehind, NoneIsCurrent, CurrentAreServed, FoldsStay, OthersFallBehind, QuietStays};
ghost use Rattle.presence_journal_laws.specs.Later.{BeginsAlike, AlikeTellTheSame, SameOutcomes, StepsLeaveAlike, StaysAlike, GoOnTellingTheSame, BeginsWaitingAlike, TakesAlike, StepsWaitAlike};
ghost use Rattle.presence_journal_laws.specs.Worked.{StartStands};
ghost use Rattle.presence_journal.specs.Laws.{FoldsToPresent, PresentIsShown, ChangesLead, DiffsLead, NewIsUnknown, NewIsCounted, RowsAreKnown, RefsAreDistinct, OnlyNamedLeave, OthersStay, OthersHearNothing, RefusedStays, HoldsMost, QueuesItems, FallsBehind, StaysBehind, StaysLegal, StaysKept, RebirthLosesNoRow, AsWorked};
ghost use Rattle.presence_journal.specs.Merges.{RemovedIsKnown, KnownIsLiveOrRemoved, MergeIsKnown, MergeIsLive, LiveStays, ShownStays, OwnStepsAlone};
ghost use Rattle.presence_journal_cuts.specs.Parting.{PartsCutShort};
ghost use Rattle.presence_journal_laws.specs.Joined.{MergesInTurn, StaysWithinLimits};
ghost use Rattle.presence_journal_laws.specs.Plain.{NeedChains};

/// What a subscriber took since its last state, followed by what waits for it, folds to the present
/// rows of its topic.
pub fn fold_law()
    ensures { FoldsToPresent }
{}

/// A row is present on its topic, at its key and dot, exactly while it is shown under the dot.
pub fn present_law()
    ensures { PresentIsShown }
{}

/// A table with the joins of a difference put in and its leaves taken out is the later table.
pub fn joins_and_leaves()
    ensures tables { ChangesLead }
    ensures entries { DiffsLead }
{}

/// A new dot is one that was not counted before, and rows stand under counted dots alone; no two rows
/// that a history ever had have the same reference.
pub fn new_dots()
    ensures fresh { NewIsUnknown }
    ensures counted { NewIsCounted }
    ensures rows { RowsAreKnown }
    ensures references { RefsAreDistinct }
{}

/// A step of the own replica alone takes out the rows that its outcome names, and leaves every other.
/// Any step leaves the present rows of each topic that it does not concern, makes nothing for the
/// subscribers of a topic that it does not reach, and leaves everything where it is refused.
pub fn nothing_else_changes()
    ensures rows { OnlyNamedLeave }
    ensures others { OthersStay }
    ensures items { OthersHearNothing }
    ensures refused { RefusedStays }
{}

/// A dot that was removed is known, and a known dot without a live row was removed.
pub fn known_is_live_or_removed()
    ensures of_removed { RemovedIsKnown }
    ensures live { KnownIsLiveOrRemoved }
{}

/// A merge makes known what it tells of replicas that are heard. A row that is told comes where its
/// dot was not known, and a live row goes where its dot is told without one. Nothing else changes.
pub fn merges_take_in()
    ensures known { MergeIsKnown }
    ensures live { MergeIsLive }
{}

/// An entry changes what is live of a dot only where it adds it, takes it out or tells of it, and
/// what is shown only there and where it changes the status of the dot's replica.
pub fn touched_dots_change()
    ensures live { LiveStays }
    ensures shown { ShownStays }
{}

/// Tracks, updates and untracks alone change the own count, and what is known, live and removed of
/// own dots: a merge does not.
pub fn own_steps_alone()
    ensures { OwnStepsAlone }
{}

/// A step within its limits leads from a legal history to a legal one, and from what a journal keeps to what it keeps.
pub fn steps_stay_legal()
    ensures legal { StaysLegal }
    ensures kept { StaysKept }
{}

/// After a rebirth each own row stands under its new dot, counted from 1 in the order of the old dots, with the old dot as
/// the one before it and all else as it was; none stands under its old dot, and all rows of others are as they were.
pub fn no_row_is_lost()
    ensures { RebirthLosesNoRow }
{}

/// At most `MAX_WAITING` items wait for a subscriber. An entry puts what it makes behind them, and where
/// that is more the subscriber falls behind, until it takes.
pub fn queue_limit()
    ensures most { HoldsMost }
    ensures items { QueuesItems }
    ensures behind { FallsBehind }
    ensures until { StaysBehind }
{}

/// The worked runs hold of the definitions.
pub fn worked_rows()
    ensures { AsWorked }
{}

/// A checkpoint is a sound Start: a history that begins with it is legal, and a journal can be one. Entries can
/// follow it, while numbers are left.
pub fn checkpoints_are_starts()
    ensures start { IsSound }
    ensures legal { BeginsLegal }
    ensures kept { BeginsKept }
    ensures room { BeginsWithRoom }
{}

/// The numbers go on behind a checkpoint's, and the own replica, its count, the time and the last cut stay.
pub fn counts_stay()
    ensures { KeepsCounts }
{}

/// Each replica has the status that it had, and what is told of it is heard as before. The same dots are
/// covered, and each replica's up to the same count. What was known of a replica that is not gone still is.
pub fn covered_dots_stay()
    ensures status { KeepsStatus }
    ensures heard { KeepsHearing }
    ensures covered { KeepsCoveredDots }
    ensures top { KeepsTop }
    ensures known { KeepsKnown }
{}

/// The same rows are shown, and so the same are present on each topic, in the same order. The live rows and the
/// removed dots of each replica that is not gone stay, and no row is live of one that is.
pub fn present_rows_stay()
    ensures shown { KeepsShown }
    ensures live { KeepsLive }
    ensures removed { KeepsRemoved }
    ensures kept { LiveIsKept }
    ensures present { KeepsPresent }
    ensures listed { KeepsListed }
{}

/// What is told in full is what would have been told, of the same set. It can be a checkpoint's content.
pub fn full_values_stay()
    ensures set { KeepsSet }
    ensures full { KeepsFull }
    ensures content { FullStands }
{}

/// What the next cut tells is what it would have told. The own rows that are shown, and the counts that are
/// not used yet, have the chains that they had.
pub fn cuts_stay()
    ensures cut { KeepsCut }
    ensures older { KeepsOlder }
    ensures recent { KeepsRecent }
    ensures chains { KeepsShownChains }
    ensures unused { KeepsUnusedChains }
{}

/// A history has its kept deltas once. Every entry but a cut leaves them, and so does a checkpoint: what is told from
/// a count on is what would have been told.
pub fn kept_deltas_stay()
    ensures once { OneKept }
    ensures others { OthersKeep }
    ensures kept { KeepsKeptDeltas }
    ensures told { KeepsToldFrom }
{}

/// Each subscriber keeps its topic. One that the Start doesn't count as current is owed the whole state, and so is each where
/// it counts none so.
pub fn subscribers_stay()
    ensures topics { KeepsTopics }
    ensures behind { SubscribersAreBehind }
    ensures all { NoneIsCurrent }
{}

/// For a subscriber that the Start counts as current nothing waited, and nothing waits; what it took before folds to the rows
/// of its topic behind the Start. Where each for whom nothing waits is counted so, the others are behind; and where no item
/// waited for anybody, what waits for each subscriber stays as it was.
pub fn current_subscribers_stay()
    ensures current { CurrentAreServed }
    ensures folds { FoldsStay }
    ensures others { OthersFallBehind }
    ensures queues { QuietStays }
{}

/// A checkpoint and the history that it stands for are alike, and histories that are alike say the same.
pub fn checkpoints_are_alike()
    ensures begins { BeginsAlike }
    ensures say { AlikeTellTheSame }
{}

/// In histories that are alike, each step that is not a subscriber's has one outcome, and each step leaves
/// both alike where both have room for it.
pub fn steps_leave_alike()
    ensures outcomes { SameOutcomes }
    ensures alike { StepsLeaveAlike }
{}

/// Behind entries that were asked and answered the same, a checkpoint and the history that it stands for are
/// still alike, and say the same, whatever the numbers and seats, and whatever subscribers did in between.
pub fn later_entries_agree()
    ensures alike { StaysAlike }
    ensures say { GoOnTellingTheSame }
{}

/// Where no item waits, the same waits for each subscriber behind a checkpoint that counts as current each for whom nothing
/// waits. So each take gives the same as it would have, and after each step but a subscribe it is still so.
pub fn subscribers_wait_alike()
    ensures begins { BeginsWaitingAlike }
    ensures takes { TakesAlike }
    ensures steps { StepsWaitAlike }
{}

/// A worked Start stands for its run, in which a row was updated and another replica went for good.
pub fn worked_checkpoint()
    ensures { StartStands }
{}

/// A joined delta tells a history what its two parts tell it in turn: the same dots are known and removed
/// then, the same rows are live, and the same are present on each topic. Where both parts are within a
/// step's limits, so is the joined delta.
pub fn joined_deltas_merge_in_turn()
    ensures told { MergesInTurn }
    ensures limits { StaysWithinLimits }
{}

/// Cuts that tell the counts that went, but not those that their rows had replaced, are not enough: a node that lost
/// one of them comes to know every count of the owner, and shows a row that went. What a cut tells takes it out.
pub fn cuts_need_chains()
    ensures { NeedChains }
{}

/// A part that is cut short at any count is a part.
pub fn parts_cut_short()
    ensures { PartsCutShort }
{}

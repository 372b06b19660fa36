//! Laws of what stays true: functions that do nothing, and whose contracts are the laws.

ghost use Rattle.presence_journal_laws.specs.DeedLaws.{EntriesStayTrue, EntriesAreDeeds, EntriesGoOn, RebirthsStayTrue, RebirthsAreDeeds, RebirthsGoOn, OthersStayTrue, ToldStaysTrue, CutsTellTrue, FullsTellTrue, JoinedTellTrue, KeptTellTrue, PartsTellTrue, CheckpointsStayTrue, LivesBeginTrue};
ghost use Rattle.presence_journal_laws.specs.OneDiff.{RebirthTellsOnce};
ghost use Rattle.presence_journal_laws.specs.Forms.{FormsTellInTurn, FormsMergeInTurn};
ghost use Rattle.presence_journal_laws.specs.PartsStay.{KeepsParts, KeepsLargestParts};

use crate::laws::joined_deltas_merge_in_turn;

/// Behind a legal entry that tells nothing false, all that was true of a history is true of the longer one, and what its
/// owner did hangs together. The owner did no less than before, and no count that it had used removes more.
pub fn entries_stay_true()
    ensures history { EntriesStayTrue }
    ensures deeds { EntriesAreDeeds }
    ensures later { EntriesGoOn }
{}

/// Behind a rebirth all that was true of the history is true of the one that goes on under the new replica, which made the
/// rows that go on under its dots, and removed nothing yet. All others did what they did.
pub fn rebirths_stay_true()
    ensures history { RebirthsStayTrue }
    ensures deeds { RebirthsAreDeeds }
    ensures later { RebirthsGoOn }
{}

/// A rebirth tells each subscriber that isn't behind one diff, where its topic has own rows: what is shown under the new replica
/// joins, what was shown under the old one leaves, and no other row does.
pub fn rebirths_tell_once()
    ensures { RebirthTellsOnce }
{}

/// While one owner goes on, all stays true of the other histories, and of what was told before.
pub fn others_stay_true()
    ensures histories { OthersStayTrue }
    ensures told { ToldStaysTrue }
{}

/// A cut, a part, a full value, two deltas that are joined and what is told from a count on are true: each row that is told was
/// made by its owner, each dot that is told as removed went there, and who is told a removal is told all that it removed. So it is
/// in whatever forms they are told.
pub fn told_values_are_true()
    ensures cut { CutsTellTrue }
    ensures full { FullsTellTrue }
    ensures joined { JoinedTellTrue }
    ensures from { KeptTellTrue }
    ensures part { PartsTellTrue }
{}

/// A delta and the one that goes on from it are the joined one, in whatever forms each is told: to a set, and to a history.
pub fn forms_tell_in_turn()
    ensures set { FormsTellInTurn }
    ensures history { FormsMergeInTurn }
{
    joined_deltas_merge_in_turn();
}

/// A checkpoint leaves the parts that are told from a count on as they were, and how far the largest one goes.
pub fn parts_stay()
    ensures parts { KeepsParts }
    ensures largest { KeepsLargestParts }
{}

/// All that is true of a history is true of a checkpoint that stands for it.
pub fn checkpoints_stay_true()
    ensures { CheckpointsStayTrue }
{}

/// All is true of a replica that did nothing yet.
pub fn lives_begin_true()
    ensures { LivesBeginTrue }
{}

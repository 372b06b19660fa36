//! Laws of marked texts: functions that do nothing, and whose contracts are the laws.
ghost use Rattle.number_texts.specs.Allowed.{TextsComeBack, WholeNumbersStay};
ghost use Rattle.number_texts.specs.Laws.{MarksComeOff, MarkedStay, NamesStay, ToldIsJson, UnmarkedStay};

/// Whatever bytes a text has, once it is marked and unmarked it is as it was.
pub fn marks_come_off()
    ensures { MarksComeOff }
{}

/// A text stays as it is where it is marked, if it has no number to mark and no text that begins with the mark.
pub fn texts_without_such_numbers_stay()
    ensures { MarkedStay }
{}

/// A text stays as it is where it is unmarked, if none of its texts begins with the mark.
pub fn texts_without_marks_stay()
    ensures { UnmarkedStay }
{}

/// No name of an object's member becomes a number, whoever wrote it, and no number that stands as one becomes a text.
pub fn names_stay()
    ensures { NamesStay }
{}

/// What a session writes as JSON, with no white space, goes out as JSON.
pub fn told_texts_are_json()
    ensures { ToldIsJson }
{}

/// By default each text stays as it is, as it comes in and as it goes out.
pub fn whole_numbers_stay()
    ensures { WholeNumbersStay }
{}

/// Whichever numbers are allowed, what a client sent comes to clients byte for byte.
pub fn texts_come_back()
    ensures { TextsComeBack }
{}

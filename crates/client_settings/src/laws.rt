//! Laws of what clients may do: functions that do nothing, and whose contracts are the laws.
ghost use Rattle.client_settings.specs.Laws.{EventsAreShouts, EventsComeThrough, LateIsUnjoined, NumbersAlone, OwnEventsAreFree, PlainChangesNothing, PresentJoinsStay, ShoutsAreKept, ShoutsComeThrough, UnjoinedStays};

/// By default each text is read as it came, and a client gets each as it is.
pub fn plain_changes_nothing()
    ensures { PlainChangesNothing }
{}

/// Where numbers alone are allowed each text is read as its numbers are marked, and told as they are unmarked.
pub fn numbers_alone()
    ensures { NumbersAlone }
{}

/// A message on a topic that isn't joined is read as it came, but for a shout that would be taken for something else. So a
/// token is renewed on the topic `phoenix` whatever events are a client's own.
pub fn unjoined_stays()
    ensures { UnjoinedStays }
{}

/// No event of the channel's, and none that a server alone sends, is a client's own.
pub fn own_events_are_free()
    ensures { OwnEventsAreFree }
{}

/// A message that is late is answered as the rules answer it on a topic that isn't joined: nothing is asked, and the
/// session stays as it is.
pub fn late_is_unjoined()
    ensures { LateIsUnjoined }
{}

/// A message under the reference of the present join is not late.
pub fn present_joins_stay()
    ensures { PresentJoinsStay }
{}

/// Of an event of one's own a session reads the shout that it is kept as.
pub fn events_are_shouts()
    ensures { EventsAreShouts }
{}

/// Of a shout a session reads the shout that it is kept as, whatever its payload.
pub fn shouts_are_kept()
    ensures { ShoutsAreKept }
{}

/// Of an event of one's own clients get the event, its payload and nothing else, and who sent it nothing where it goes to
/// the others.
pub fn events_come_through()
    ensures { EventsComeThrough }
{}

/// Of a shout clients get what was sent, whatever that was.
pub fn shouts_come_through()
    ensures { ShoutsComeThrough }
{}

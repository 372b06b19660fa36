//! Laws of messages: functions that do nothing, and whose contracts are the laws.

ghost use Rattle.phx_message.specs.Laws.{DecodedIsOrderly, LimitsAreThese, ReadsBack};
ghost use Rattle.phx_message.specs.Lines.{TextsAreLines};
ghost use Rattle.phx_message.specs.Pushing.{PushesAreWritten, RepliesAreWritten};

/// The text of a message within the limits of a frame, as a value that was read is, is decoded to
/// that message; and what a text is decoded to is such a message.
pub fn texts_read_back()
    ensures decoded { DecodedIsOrderly }
    ensures again { ReadsBack }
{}

/// The limits of a client's messages, and of the frames that it reads.
pub fn limits_are_these()
    ensures { LimitsAreThese }
{}

/// The text of a value has no line feed in it, so that messages that are written one a line are
/// read line by line.
pub fn texts_are_lines()
    ensures { TextsAreLines }
{}

/// A push's text round the text of a value is what is written for the message that pushes the value.
pub fn pushes_are_written()
    ensures { PushesAreWritten }
{}

/// A reply's text round the text of a value is what is written for the reply that all went well,
/// whose response the value is.
pub fn replies_are_written()
    ensures { RepliesAreWritten }
{}

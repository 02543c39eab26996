// The laws of all that is kept and shown.
ghost use Rattle.think_text.specs.Last.{LinesDifferByHint};
ghost use Rattle.think_text.specs.Kept.{StaysWritable};
ghost use Rattle.think_text.specs.Short.{LinesAreReplies, LinesAreShort, StaysBounded, StatIsShort};

/// A current move that is kept has a text.
pub fn current_stays_writable()
    ensures { StaysWritable }
{}

/// A thinking line has at most 128 bytes more than the engine's line that it tells, or than 8/5 of it if its moves are
/// in standard algebraic notation, and its text is read as this line. The answer to `.` has at most 128 bytes.
pub fn thinking_lines_are_short()
    ensures short { LinesAreShort }
    ensures replies { LinesAreReplies }
    ensures bounded { StaysBounded }
    ensures stat01 { StatIsShort }
{}

/// A thinking line that is shown again has the numbers and the moves that were shown, the moves behind the hint.
pub fn lines_differ_by_hint()
    ensures { LinesDifferByHint }
{}

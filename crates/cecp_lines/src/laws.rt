//! Laws about the definitions that contracts cite, each a clause of a function that does nothing.
ghost use Rattle.cecp_lines.specs.Quit.{QuitIsReadAlike};
ghost use Rattle.cecp_lines.specs.Reading.{SpellsOneIfaceMessage};
ghost use Rattle.cecp_lines.specs.Replies.{RepliesAreShort};

/// A line of the interface spells at most one message, and those that spell `quit` are those whose
/// first token it is.
pub fn lines_are_unambiguous()
    ensures one_message { SpellsOneIfaceMessage }
    ensures quit { QuitIsReadAlike }
{}

/// The text of a reply has at most 128 bytes besides those that it borrows.
pub fn replies_are_short()
    ensures { RepliesAreShort }
{}

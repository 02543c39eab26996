// Laws about the definitions that contracts cite, each a clause of a function that does nothing.
ghost use Rattle.uci_interface_lines.specs.Again.{EngineMessagesReadBack, TextsFitTheLine};

// The most bytes that the canonical text of a message may have beyond the line that spells it.
const RESPELLED: usize = 256;

/// The text that `write_engine` writes of a message that some line spells is a line that spells it, so `read_engine`
/// gives it back: each field is the same, the moves of a pv and the values of a combo as lists.
pub fn written_messages_are_read_again()
    ensures { EngineMessagesReadBack }
{}

/// The text that `write_engine` writes of the message that a line spells is at most `RESPELLED` bytes longer than
/// the line.
pub fn written_messages_fit_the_line()
    ensures { TextsFitTheLine }
{}

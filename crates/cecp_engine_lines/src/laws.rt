// Laws about the definitions that contracts cite, each a clause of a function that does nothing.
ghost use Rattle.cecp_engine_lines.specs.Texts.{IfaceMessagesReadBack};

/// The text that `write_iface` writes of a message is a line that spells it, so `read_iface` gives it back.
pub fn written_messages_are_read_again()
    ensures { IfaceMessagesReadBack }
{}

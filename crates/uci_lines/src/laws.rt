// Laws about the definitions that contracts cite, each a clause of a function that does nothing.
ghost use Rattle.uci_lines.specs.Spells.{SpellsOneEngineMessage};

/// A line of the engine spells exactly one message.
pub fn lines_say_one_message()
    ensures { SpellsOneEngineMessage }
{}

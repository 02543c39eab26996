// Laws about the definitions that contracts cite.
ghost use Rattle.san_text.specs.GameSan.{SanLaw};

/// The text of a move in a game is the one that the standard gives it.
pub fn sans_are_lawful()
    ensures { SanLaw }
{}

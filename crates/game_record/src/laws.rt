//! Laws about the definitions that contracts cite, each a clause of a function that does nothing.
ghost use Rattle.game_record.specs.Ending.{SameLaw, StateLaw, EndingLaw};
ghost use Rattle.game_record.specs.Line.{StandardLaw, PositionLineIsShort};

/// The test for the same position decides the relation of the Laws (article 9.2.3).
pub fn sameness_is_lawful()
    ensures { SameLaw }
{}

/// The state of a position is what the Laws say.
pub fn states_are_lawful()
    ensures { StateLaw }
{}

/// The end of a game is what the Laws say.
pub fn endings_are_lawful()
    ensures { EndingLaw }
{}

/// The standard start is one position.
pub fn standard_start_is_one()
    ensures { StandardLaw }
{}

/// No `position` line has more than 6 bytes for each move and 120 for the rest.
pub fn position_lines_are_short()
    ensures { PositionLineIsShort }
{}

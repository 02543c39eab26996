// The laws of all clocks.
ghost use Rattle.clock_map.specs.Clocks.{StayShort, StayShortAtNew};
ghost use Rattle.clock_map.specs.Search.{SearchOrdersAreSpelled, AreFewBytes};

/// The lines of the interface never set clocks to numbers of more than ten digits.
pub fn clocks_stay_short()
    ensures lines { StayShort }
    ensures new_game { StayShortAtNew }
{}

/// Under such clocks the order of a search may be written, and its text is short.
pub fn searches_are_short()
    ensures spelled { SearchOrdersAreSpelled }
    ensures short { AreFewBytes }
{}

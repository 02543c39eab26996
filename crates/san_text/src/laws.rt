// Laws of what is written and read.
ghost use Rattle.san_text.specs.Fit.{IsReadBack, TextsDiffer};
ghost use Rattle.san_text.specs.Writing.{SanTextsAreShort, CastlingsAreWritten, IsTheText};

/// The text of a legal move fits it and no other legal move, and different legal moves of a position
/// have different texts.
pub fn texts_tell_moves_apart()
    ensures read_back { IsReadBack }
    ensures differ { TextsDiffer }
{}

/// A move has one text, of at most seven bytes.
pub fn moves_have_one_text()
    ensures one { IsTheText }
    ensures short { SanTextsAreShort }
{}

/// In each position, of normal chess or of Chess960, a legal move is written as `O-O` exactly if the king castles on the
/// h-side, and as `O-O-O` exactly if he castles on the a-side.
pub fn castlings_are_written()
    ensures { CastlingsAreWritten }
{}

// Laws of the lines of scripts.
ghost use Rattle.script_lines.specs.Scripts.{ReadsSpelling, HasLines, HasShortLines, ScriptReadsBack, ReadsOneWay};
ghost use Rattle.script_lines.specs.Kinds.{LinesAreOfOneKind, HeadersAreLines, StepLinesAreLines};

/// A line is read as the mark that it spells. The lines of a script are the texts of its marks,
/// and it is read in one way only.
pub fn scripts_are_read_back()
    ensures spelling { ReadsSpelling }
    ensures lines { HasLines }
    ensures short { HasShortLines }
    ensures back { ScriptReadsBack }
    ensures one_way { ReadsOneWay }
{}

/// A line is a mark, a step line or a header, and no two of them. Headers and step lines are lines:
/// there is no line feed in them, and they are short.
pub fn lines_are_of_one_kind()
    ensures kinds { LinesAreOfOneKind }
    ensures headers { HeadersAreLines }
    ensures steps { StepLinesAreLines }
{}

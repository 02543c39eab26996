// The command words.
ghost use Rattle.std.specs.Prelude.{◌≡◌};
ghost use Rattle.cecp_lines.specs.Words.{iface_command_of};

use protocol_tokens::named;

/// The meaning of a command word.
#[derive(Clone, Copy)]
pub(crate) enum Command {
    /// The line asks for nothing.
    Ignored,
    /// The word is the message, whatever follows it.
    Bare(BareWord),
    /// The rest behind the word is read.
    With(Verb),
}

/// A command that takes no arguments.
#[derive(Clone, Copy)]
pub(crate) enum BareWord {
    New,
    Quit,
    Force,
    Go,
    PlayOther,
    MoveNow,
    Draw,
    Hint,
    Undo,
    Remove,
    Hard,
    Easy,
    Post,
    NoPost,
    Analyze,
    Exit,
    Dot,
    Result,
}

/// A command that takes arguments.
#[derive(Clone, Copy)]
pub(crate) enum Verb {
    Protover,
    Ping,
    UserMove,
    SetBoard,
    Level,
    St,
    Sd,
    Time,
    Otim,
    SetOption,
    Memory,
    Cores,
    EgtPath,
}

static COMMANDS: [(&[u8], Command); 40] = [
    (b"xboard", Command::Ignored),
    (b"accepted", Command::Ignored),
    (b"rejected", Command::Ignored),
    (b"random", Command::Ignored),
    (b"computer", Command::Ignored),
    (b"name", Command::Ignored),
    (b"rating", Command::Ignored),
    (b"ics", Command::Ignored),
    (b"bk", Command::Ignored),
    (b"new", Command::Bare(BareWord::New)),
    (b"quit", Command::Bare(BareWord::Quit)),
    (b"force", Command::Bare(BareWord::Force)),
    (b"go", Command::Bare(BareWord::Go)),
    (b"playother", Command::Bare(BareWord::PlayOther)),
    (b"?", Command::Bare(BareWord::MoveNow)),
    (b"draw", Command::Bare(BareWord::Draw)),
    (b"hint", Command::Bare(BareWord::Hint)),
    (b"undo", Command::Bare(BareWord::Undo)),
    (b"remove", Command::Bare(BareWord::Remove)),
    (b"hard", Command::Bare(BareWord::Hard)),
    (b"easy", Command::Bare(BareWord::Easy)),
    (b"post", Command::Bare(BareWord::Post)),
    (b"nopost", Command::Bare(BareWord::NoPost)),
    (b"analyze", Command::Bare(BareWord::Analyze)),
    (b"exit", Command::Bare(BareWord::Exit)),
    (b".", Command::Bare(BareWord::Dot)),
    (b"result", Command::Bare(BareWord::Result)),
    (b"protover", Command::With(Verb::Protover)),
    (b"ping", Command::With(Verb::Ping)),
    (b"usermove", Command::With(Verb::UserMove)),
    (b"setboard", Command::With(Verb::SetBoard)),
    (b"level", Command::With(Verb::Level)),
    (b"st", Command::With(Verb::St)),
    (b"sd", Command::With(Verb::Sd)),
    (b"time", Command::With(Verb::Time)),
    (b"otim", Command::With(Verb::Otim)),
    (b"option", Command::With(Verb::SetOption)),
    (b"memory", Command::With(Verb::Memory)),
    (b"cores", Command::With(Verb::Cores)),
    (b"egtpath", Command::With(Verb::EgtPath)),
];

/// The meaning of a word. None if it is no command word.
pub(crate) fn command_named(word: &[u8]) -> Option<Command>
    ensures { result ≡ iface_command_of word.now }
{
    named(&COMMANDS, word)
}

// The text of help.

/// The text that `--help` shows. It is clap's text of the command (a test compares them), and stands here so that a
/// contract can name it.
pub const HELP: &str = "A UCI chess engine under an interface of the XBoard family

Usage: wineravine [SETTINGS] ENGINE [ARG..]

Options:
  -h, --help     Print help
  -V, --version  Print version

Settings:
      --Resign <true|false>           Whether a lost game is resigned [default: false]
      --ResignMoves <number>          How many scores in a row decide, 1 to 1000 [default: 3]
      --ResignScore <centipawns>      How bad each of them is at least, 0 to 100000 [default: 600]
      --ShowPonder <true|false>       Whether thinking is shown while the engine ponders [default: true]
      --EarlySettings <true|false>    Whether settings that come before the engine's options wait for them [default: true]
      --ResignWhenGone <true|false>   Whether an engine that is gone resigns the game in which it owes a move [default: true]
      --HandleDraws <true|false>      Whether an offer of a draw is answered, by the last scores [default: true]
      --ShowSan <true|false>          Whether thinking lines have Nf3 and not g1f3 [default: true]
      --StrengthOptions <true|false>  Whether the options that limit the engine's strength are shown [default: true]
      --FenceStops <true|false>       Whether a search waits until the engine has read the stop before it [default: true]
      --ResultReasons <true|false>    Whether the result of a game that the engine loses by a fault says which [default: true]
      --TimeMargin <milliseconds>     What is kept back of a fixed time for a move, 0 to 10000 [default: 20]
      --PlainTexts <true|false>       Whether options with control characters are left out, and the name has blanks for them [default: true]
      --PathOptions <true|false>      Whether options for paths and files are shown as such [default: true]
      --RepeatThinking <true|false>   Whether the last thinking line is shown again once the expected move is played [default: true]
      --LogFile <file>                The log, made anew by each run [default: wineravine.log]
      --LogDir <folder>               The folder of the logs, in which each run makes a new one, in place of --LogFile
      --Option <name=value>           Sets an option of the engine, or presses a button if there is no =; may be repeated

Engine:
  <ENGINE>...  The engine's program, and all of its arguments behind it
";

// The program.
ghost use Rattle.std.specs.Prelude.{◌≡◌, ◌↔◌, ℕ, List, [], length, None, MatchResult};
ghost use Rattle.line_io.specs.Lines.{empty_reader, SourceGave};
ghost use Rattle.line_io.specs.Source.{Supplied};
ghost use Rattle.scripted_engine.specs.Blocks.{Block};
ghost use Rattle.scripted_engine.specs.Script.{blocks_of, first_bad};
ghost use Rattle.scripted_engine.specs.Answers.{ScriptAfterLines};
ghost use Rattle.scripted_engine.specs.Ends.{scripted_streams, ScriptIsRead, NoScript, Answered, Session};
ghost use Rattle.scripted_engine.specs.Ends.{AnswersInput, CompletesScripted, scripted_status};
ghost use Rattle.scripted_engine.specs.declared.ending.ScriptedEnding.{ScriptedEnding};
ghost use Rattle.line_io.specs.declared.limits.TheConstants.{PEER_LINE};

use crate::answering::ending_of;
use crate::{ScriptFault, Scripted, ScriptedEnding};
use line_io::{Lines, PEER_LINE, Sink, Source, Status, take_lines};
use std::alloc::Global;

const SCRIPT_LIMIT: usize = 16_777_216;

const CHUNK: usize = 65_536;

// The script in the file.
fn read_script<F: Source>(alloc: Global, file: &mut F) -> Result<Vec<u8>, ScriptedEnding>
    ensures { let old = F.state file.old in
        let new = F.state file.new in
        (script : List ℕ) × SourceGave old new script
        × MatchResult result (λ read. (read.items ≡ script) × ScriptIsRead new script)
        (NoScript old new script) }
{
    let mut chunk = vec![in alloc; 0; CHUNK]?;
    let mut script = Vec::new(alloc);
    loop {
        match file.read(&mut chunk) {
            Err(_) => return Err(ScriptedEnding::ReadFailed),
            Ok(0) => return Ok(script),
            Ok(count) => {
                if count > SCRIPT_LIMIT - script.len() {
                    return Err(ScriptedEnding::TooLarge);
                }
                script.extend_from_slice(&chunk[..count])?;
            }
        }
    }
}

// Answers the lines of the input.
fn answer_lines<I: Source, O: Sink>(
    scripted: &mut Scripted,
    lines: &mut Lines,
    input: &mut I,
    output: &mut O,
) -> ScriptedEnding
    requires { lines.old ≡ empty_reader PEER_LINE }
    ensures { (blocks : List Block) (file file' : Supplied) → ScriptAfterLines scripted.old
        blocks []
        → Answered result blocks
        (scripted_streams file (I.state input.old) (O.state output.old))
        (scripted_streams file' (I.state input.new) (O.state output.new)) }
{
    ending_of(take_lines(lines, input, scripted, output))
}

// The script in the file, ready to answer.
fn open_script<F: Source>(alloc: Global, file: &mut F) -> Result<Scripted, ScriptedEnding>
    ensures { let old = F.state file.old in
        let new = F.state file.new in
        (script : List ℕ) × SourceGave old new script
        × MatchResult result (λ scripted. ScriptIsRead new script × (first_bad script ≡ None)
        × ScriptAfterLines scripted (blocks_of script) []) (NoScript old new script) }
{
    let script = read_script(alloc, file)?;
    match Scripted::make(alloc, script.as_slice()) {
        Ok(scripted) => Ok(scripted),
        Err(ScriptFault::NoMemory) => Err(ScriptedEnding::NoMemory),
        Err(ScriptFault::BadLine { line: _ }) => Err(ScriptedEnding::BadScript),
    }
}

fn run<F: Source, I: Source, O: Sink>(
    alloc: Global,
    file: &mut F,
    input: &mut I,
    output: &mut O,
) -> ScriptedEnding
    ensures { Session result
        (scripted_streams (F.state file.old) (I.state input.old) (O.state output.old))
        (scripted_streams (F.state file.new) (I.state input.new) (O.state output.new)) }
{
    let Ok(mut lines) = Lines::make(alloc, PEER_LINE) else {
        return ScriptedEnding::NoMemory;
    };
    match open_script(alloc, file) {
        Ok(mut scripted) => answer_lines(&mut scripted, &mut lines, input, output),
        Err(ending) => ending,
    }
}

/// The program `scripted FILE`: answers the lines of the input by the script in the file.
///
/// The word is the file's name; the file itself is a source, whose first read opens it. A line of
/// more than 65,536 bytes is ignored. It stops after the answer to a line whose first token is
/// `quit`, or at the end of the input. The exit statuses are those of [`ScriptedEnding`].
pub fn scripted_main<F: Source, I: Source, O: Sink>(
    alloc: Global,
    arguments: &[Vec<u8>],
    file: &mut F,
    input: &mut I,
    output: &mut O,
) -> Status
    ensures usage { (result.code ≡ 2) ↔ (length arguments.now ≡ 1 → ⊥) }
    ensures untouched { result.code ≡ 2
        → (file.new ≡ file.old) × (input.new ≡ input.old) × (output.new ≡ output.old) }
    ensures session { let old = scripted_streams (F.state file.old) (I.state input.old)
        (O.state output.old) in
        let new = scripted_streams (F.state file.new) (I.state input.new) (O.state output.new) in
        length arguments.now ≡ 1
        → (ending : ScriptedEnding) × (result.code ≡ scripted_status ending) × Session ending old
        new }
    ensures answers { let old = scripted_streams (F.state file.old) (I.state input.old)
        (O.state output.old) in
        let new = scripted_streams (F.state file.new) (I.state input.new) (O.state output.new) in
        length arguments.now ≡ 1 → AnswersInput result.code old new }
    ensures complete { let old = scripted_streams (F.state file.old) (I.state input.old)
        (O.state output.old) in
        let new = scripted_streams (F.state file.new) (I.state input.new) (O.state output.new) in
        length arguments.now ≡ 1 → CompletesScripted result.code old new }
{
    if arguments.len() != 1 {
        return Status {
            code: ScriptedEnding::Usage.code(),
        };
    }
    let ending = run(alloc, file, input, output);
    Status {
        code: ending.code(),
    }
}

// Hosts in memory and over real programs: what engines get and say, and what is kept of it.
ghost use Rattle.std.specs.Prelude.{◌≡◌, ◌<◌, [], length, IfOk};
ghost use Rattle.child_engine.specs.Hosts.{HostIsUnused};
ghost use Rattle.child_engine.specs.Memory.{memory_ledger};

use crate::expected::{expect, expect_bytes};
use child_engine::{
    AskedLog, ClosableSink, Closing, EngineInput, Fails, Host, HostFault, LogPlace, MemHost,
    NewLog, RealHost, SteadyHost,
};
use line_io::{Sink, Source, write_all};
use program_lifecycle::{Opened, close_log, is_open_failure, is_open_memory, open_log};
use std::alloc::Global;
use std::fs::{File, Files};
use std::io::Read;
use std::process::{Abort, ChildStdin};
use std::{fs, process};

/// These arguments, as a host gets them.
fn arguments_of(rt: &impl Abort, alloc: Global, texts: &[&str]) -> Vec<String>
    ensures { 0 < length result.items }
{
    let mut arguments: Vec<String> = Vec::new(alloc);
    for text in texts {
        let word = String::from_str(alloc, text).expect(rt, "a word");
        arguments.push(word).expect(rt, "room for a word");
    }
    assert!(rt; !arguments.is_empty());
    arguments
}

fn are_texts(arguments: &[String], texts: &[&str]) -> bool {
    for (word, text) in arguments.iter().zip(texts) {
        if word.as_str() != *text {
            return false;
        }
    }
    arguments.len() == texts.len()
}

/// The text written to an engine, if any, and the text that it says at a read then.
type Turn = (&'static [u8], &'static [u8]);

fn is_turn<S: Source, K: Sink>(source: &mut S, sink: &mut K, piece: &[u8], said: &[u8]) -> bool {
    if !piece.is_empty() && sink.write(piece) != Ok(piece.len()) {
        return false;
    }
    let mut buf = [0; 20];
    source.read(&mut buf) == Ok(said.len()) && buf.starts_with(said)
}

fn are_turns<S: Source, K: Sink>(source: &mut S, sink: &mut K, turns: &[Turn]) -> bool {
    for (piece, said) in turns {
        if !is_turn(source, sink, piece, said) {
            return false;
        }
    }
    true
}

// Starts an engine and closes it after these turns: whether all went well.
fn run_engine<H: Host>(
    host: &mut H,
    alloc: Global,
    arguments: &[String],
    turns: &[Turn],
) -> Result<bool, HostFault>
    requires arguments { 0 < length arguments.now }
    requires unused { HostIsUnused (H.ledger host.old) }
    ensures runs { IfOk result (λ _. length (H.ledger host.new).runs ≡ 1) }
    ensures logs { (H.ledger host.new).logs ≡ [] }
    ensures logs_out { (H.ledger host.new).logs_out ≡ 0 }
{
    let mut run = host.start(alloc, arguments)?;
    let are_as_reported = are_turns(&mut run.source, &mut run.sink, turns);
    Ok(host.close(run).is_ok() && are_as_reported)
}

// The same, if its input is closed after the turns, and its output ends then.
fn run_to_its_end<H: Host>(
    host: &mut H,
    alloc: Global,
    arguments: &[String],
    turns: &[Turn],
) -> Result<bool, HostFault>
where
    H::EngineSink: ClosableSink,
    requires arguments { 0 < length arguments.now }
    requires unused { HostIsUnused (H.ledger host.old) }
{
    let mut run = host.start(alloc, arguments)?;
    let are_as_reported = are_turns(&mut run.source, &mut run.sink, turns);
    run.sink.close_sink();
    let ends = run.source.read(&mut [0; 20]) == Ok(0);
    Ok(host.close(run).is_ok() && are_as_reported && ends)
}

// Opens a log, writes this into it and closes it: whether all went well, or why it was not opened.
fn log_once<H: Host>(
    host: &mut H,
    alloc: Global,
    place: &LogPlace,
    piece: &[u8],
) -> Result<bool, Option<HostFault>>
    requires logs { (H.ledger host.old).logs ≡ [] }
    requires logs_out { (H.ledger host.old).logs_out ≡ 0 }
    ensures { IfOk result (λ _. length (H.ledger host.new).logs ≡ 1) }
{
    let Opened { log, fault } = open_log(host, alloc, place);
    match log {
        Some(mut log) => {
            let is_written = write_all(&mut log, piece).is_ok();
            close_log(host, Some(log));
            Ok(is_written && !is_open_failure(fault) && !is_open_memory(fault))
        }
        None => Err(fault),
    }
}

const WORDS: [&str; 2] = ["toy", "two words"];

/// An engine's six bytes, at most four at a read.
const TURNS: [Turn; 2] = [(b"uci\n", b"ucio"), (b"", b"k\n")];

// The host keeps what it was asked for, also in vain.
fn was_asked_once(host: &MemHost) -> bool {
    for arguments in host.engines() {
        if !are_texts(arguments.as_slice(), &WORDS) {
            return false;
        }
    }
    let is_asked = matches!(host.log_places(), [AskedLog::File(name)] if name.as_str() == "a.log");
    host.engines().len() == 1 && is_asked
}

// True if an engine's start was refused, or it went as reported.
fn has_started(host: &MemHost, ran: Result<bool, HostFault>, refuses: bool) -> bool
    requires { IfOk ran (λ _. length (memory_ledger host.now).runs ≡ 1) }
{
    match ran {
        Ok(is_as_reported) => !refuses && is_as_reported && host.wrote(0) == b"uci\n".as_slice(),
        Err(fault) => refuses && fault == HostFault::Failed,
    }
}

// True if a log was refused, or took what was written.
fn has_logged(host: &MemHost, written: Result<bool, Option<HostFault>>, refuses: bool) -> bool
    requires { IfOk written (λ _. length (memory_ledger host.now).logs ≡ 1) }
{
    match written {
        Ok(is_written) => !refuses && is_written && host.logged(0) == b"U uci\n".as_slice(),
        Err(fault) => refuses && is_open_failure(fault) && !is_open_memory(fault),
    }
}

fn expect_kept(rt: &impl Abort, alloc: Global, refuses: bool) {
    let fails = Fails {
        start: refuses,
        log: refuses,
        ..Fails::default()
    };
    let mut host = MemHost::make(alloc, b"uciok\n", 4, 16, &fails).expect(rt, "a host");
    let arguments = arguments_of(rt, alloc, &WORDS);
    let ran = run_engine(&mut host, alloc, arguments.as_slice(), &TURNS);
    expect(rt, has_started(&host, ran, refuses), "start", 0);
    let written = log_once(&mut host, alloc, &LogPlace::File("a.log"), b"U uci\n");
    expect(rt, has_logged(&host, written, refuses), "log", 0);
    expect(rt, was_asked_once(&host), "asked", 0);
}

#[test]
fn a_host_in_memory_keeps_what_it_was_asked_for(rt: HostRuntime) {
    expect_kept(&rt, rt.alloc(), false);
    expect_kept(&rt, rt.alloc(), true);
}

#[test]
fn a_steady_host_says_the_same_bytes(rt: HostRuntime) {
    let mut host = SteadyHost::make(rt.alloc(), b"uciok\n", 4).expect(&rt, "a host");
    let arguments = arguments_of(&rt, rt.alloc(), &["cat"]);
    let ran = run_engine(&mut host, rt.alloc(), arguments.as_slice(), &TURNS);
    expect(&rt, ran == Ok(true), "start", 0);
    let written = log_once(&mut host, rt.alloc(), &LogPlace::File("a.log"), b"U uci\n");
    expect(&rt, written == Ok(true), "log", 0);
}

/// The arguments of a program, and its turns until its input is closed and it ends.
type Run = (&'static [&'static str], &'static [Turn]);

const RUNS: [Run; 2] = [
    // it gives its input back, after `quit` too
    (&["cat"], &[(b"quit\n", b"quit\n"), (b"stop\n", b"stop\n")]),
    // it writes the arguments after its first one
    (
        &["printf", "%s.%s", "uci", "two words"],
        &[(b"", b"uci.two words")],
    ),
];

#[test]
fn an_engine_gets_its_arguments(rt: HostRuntime) {
    for (arguments, turns) in &RUNS {
        let mut host = RealHost::<_, Closing<ChildStdin>>::new(&rt, true);
        let arguments = arguments_of(&rt, rt.alloc(), arguments);
        let ran = run_to_its_end(&mut host, rt.alloc(), arguments.as_slice(), turns);
        expect(&rt, ran == Ok(true), "start", turns.len());
    }
}

// `cat` gives its input back, and ends at the end of it, which comes after `quit`.
#[test]
fn an_engine_that_quits_gets_no_more(rt: HostRuntime) {
    let mut host = RealHost::<_, EngineInput<ChildStdin>>::new(&rt, true);
    let arguments = arguments_of(&rt, rt.alloc(), &["cat"]);
    let turns: [Turn; 2] = [(b"quit\n", b"quit\n"), (b"", b"")];
    let ran = run_engine(&mut host, rt.alloc(), arguments.as_slice(), &turns);
    expect(&rt, ran == Ok(true), "start", 0);
}

// The second log of a name has nothing of the first.
#[test]
fn a_log_is_made_anew(rt: HostRuntime) {
    let number = process::id(rt.process());
    let name = format!(in rt.alloc(); "/tmp/log-of-edge_tests-{number}").expect(&rt, "a name");
    for line in [b"x a first log\n".as_slice(), b"u one\n"] {
        let mut host = RealHost::<_, Closing<ChildStdin>>::new(&rt, true);
        let written = log_once(&mut host, rt.alloc(), &LogPlace::File(name.as_str()), line);
        expect(&rt, written == Ok(true), "log", line.len());
    }
    let bytes = fs::read(&rt, name.as_str()).ok();
    expect(&rt, fs::remove_file(&rt, name.as_str()).is_ok(), "log", 0);
    expect_bytes(&rt, bytes.expect(&rt, "the log").as_slice(), b"u one\n");
}

// The file of this name, which is removed.
fn taken_file<R: Files + Abort>(rt: &R, alloc: Global, folder: &str, name: &str) -> Vec<u8> {
    let path = format!(in alloc; "{folder}/{name}").expect(rt, "a name");
    let mut bytes = Vec::new(alloc);
    let mut file = File::open(rt, path.as_str()).expect(rt, "the log");
    file.read_to_end(&mut bytes).expect(rt, "the log's bytes");
    fs::remove_file(rt, path.as_str()).expect(rt, "the log, to be removed");
    bytes
}

// The folder is made, and no log overwrites another.
#[test]
fn a_new_log_has_the_first_name_that_no_file_has(rt: HostRuntime) {
    let number = process::id(rt.process());
    let folder = format!(in rt.alloc(); "/tmp/logs-of-edge_tests-{number}").expect(&rt, "a name");
    let log = NewLog {
        folder: folder.as_str(),
        name: "toy-7",
    };
    for line in [b"x one\n".as_slice(), b"x two\n", b"x three\n"] {
        let mut host = RealHost::<_, Closing<ChildStdin>>::new(&rt, true);
        let written = log_once(&mut host, rt.alloc(), &LogPlace::New(log), line);
        expect(&rt, written == Ok(true), "log", line.len());
    }
    for (name, line) in [
        ("toy-7.log", b"x one\n".as_slice()),
        ("toy-7-2.log", b"x two\n"),
        ("toy-7-3.log", b"x three\n"),
    ] {
        let bytes = taken_file(&rt, rt.alloc(), folder.as_str(), name);
        expect_bytes(&rt, bytes.as_slice(), line);
    }
    expect(
        &rt,
        fs::remove_dir(&rt, folder.as_str()).is_ok(),
        "folder",
        0,
    );
}

// A run that makes a new log in a folder.
ghost use Rattle.std.specs.Prelude.{◌≡◌};
ghost use Rattle.child_engine.specs.Hosts.{HostIsUnused};
ghost use Rattle.child_engine.specs.Memory.{memory_ledger};

use crate::expected::{expect, words_of};
use child_engine::{AskedLog, Fails, MemHost};
use line_io::{MemSink, MemSource};
use program_lifecycle::Interface;
use std::alloc::Global;
use std::process::Abort;
use std::sync::Wait;
use std::thread::Threads;
use wineravine_runner::{ProgramCall, wineravine_main};

// True if the names are these.
fn are_texts(names: &[String], texts: &[&str]) -> bool {
    if names.len() != texts.len() {
        return false;
    }
    for (name, text) in names.iter().zip(texts) {
        if name.as_str() != *text {
            return false;
        }
    }
    true
}

// True if the names are these and then this one.
fn are_texts_and(names: &[String], texts: &[&str], last: &str) -> bool {
    match names.split_last() {
        Some((name, before)) => name.as_str() == last && are_texts(before, texts),
        None => false,
    }
}

fn put_file(rt: &impl Abort, alloc: Global, file: &str, host: &mut MemHost)
    requires { HostIsUnused (memory_ledger host.old) }
    ensures { HostIsUnused (memory_ledger host.new) }
{
    let name = String::from_str(alloc, file).expect(rt, "memory");
    host.put_file(name).expect(rt, "memory");
}

// A host that has these files, and whose engine ends at once.
fn host_with(rt: &impl Abort, alloc: Global, files: &[&str], fails: &Fails) -> MemHost
    ensures { HostIsUnused (memory_ledger result) }
{
    let mut host = MemHost::make(alloc, b"uciok\n", 200, 10_000, fails).expect(rt, "memory");
    for file in files {
        put_file(rt, alloc, file, &mut host);
    }
    host
}

// Runs the program with these words in the process of number 77, and gives its status.
fn run_program<R: Threads + Wait + Sync + Abort>(
    rt: &R,
    alloc: Global,
    words: &str,
    host: &mut MemHost,
) -> u8
    requires { HostIsUnused (memory_ledger host.old) }
{
    let arguments = words_of(rt, alloc, words);
    let mut interface = Interface {
        input: MemSource::make(alloc, b"quit\n", 200, &[]).expect(rt, "memory"),
        output: MemSink::make(alloc, 5_000, &[]).expect(rt, "memory"),
    };
    let mut diag = MemSink::make(alloc, 1_000, &[]).expect(rt, "memory");
    let call = ProgramCall {
        arguments: arguments.as_slice(),
        process_id: 77,
    };
    wineravine_main(rt, alloc, &call, &mut interface, host, &mut diag).code
}

/// The words behind the folder, the files that are there, and the one that is made.
type Run = (&'static str, &'static [&'static str], &'static str);

const RUNS: [Run; 6] = [
    ("toy|-x", &[], "logs/toy-77.log"),
    ("toy", &["logs/toy-77.log"], "logs/toy-77-2.log"),
    (
        "toy",
        &["logs/toy-77-3.log", "logs/toy-77.log", "logs/toy-77-2.log"],
        "logs/toy-77-4.log",
    ),
    ("/opt/my engines/Toy_2.1+x", &[], "logs/Toy_2.1+x-77.log"),
    ("./t\u{f6}y (a)", &[], "logs/t__y__a_-77.log"),
    ("/opt/", &[], "logs/engine-77.log"),
];

#[test]
fn a_new_log_has_the_name_of_the_engine_and_of_the_process(rt: HostRuntime) {
    let alloc = rt.alloc();
    for (number, (engine, files, made)) in RUNS.iter().enumerate() {
        let words = format!(in alloc; "--LogDir=logs|{engine}").expect(&rt, "words");
        let mut host = host_with(&rt, alloc, files, &Fails::default());
        let status = run_program(&rt, alloc, words.as_str(), &mut host);
        expect(&rt, status == 0, "status", number);
        expect(&rt, are_texts(host.folders(), &["logs"]), "folder", number);
        let is_made = are_texts_and(host.files(), files, made);
        expect(&rt, is_made, "files", number);
    }
}

#[test]
fn the_host_is_asked_for_a_log_in_the_folder(rt: HostRuntime) {
    let mut host = host_with(&rt, rt.alloc(), &[], &Fails::default());
    let status = run_program(&rt, rt.alloc(), "--LogDir|a/b|toy", &mut host);
    expect(&rt, status == 0, "status", 0);
    let is_asked = match host.log_places() {
        [AskedLog::New { folder, name }] => folder.as_str() == "a/b" && name.as_str() == "toy-77",
        _ => false,
    };
    expect(&rt, is_asked, "place", 0);
}

#[test]
fn without_an_engine_there_is_neither_folder_nor_log(rt: HostRuntime) {
    let fails = Fails {
        start: true,
        ..Fails::default()
    };
    let mut host = host_with(&rt, rt.alloc(), &[], &fails);
    let status = run_program(&rt, rt.alloc(), "--LogDir=logs|toy", &mut host);
    expect(&rt, status == 8, "status", 0);
    expect(
        &rt,
        host.folders().is_empty() && host.files().is_empty(),
        "files",
        0,
    );
}

#[test]
fn a_file_and_a_folder_are_wrong_words(rt: HostRuntime) {
    for words in [
        "--LogDir=logs|--LogFile=a.log|toy",
        "--LogFile=a.log|--LogDir|logs|toy",
        "--LogDir=|toy",
        "--LogDir=a\nb|toy",
        "--LogDir=a|--LogDir=b|toy",
    ] {
        let mut host = host_with(&rt, rt.alloc(), &[], &Fails::default());
        let status = run_program(&rt, rt.alloc(), words, &mut host);
        expect(&rt, status == 2, words, 0);
        expect(&rt, host.log_places().is_empty(), words, 1);
    }
}

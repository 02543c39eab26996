// Standard streams that may be closed when the program starts.
ghost use Rattle.std.specs.Prelude.{◌≡◌};
ghost use Rattle.program_command_line.specs.Streams.Closed.{has_input, has_output, has_diag, is_stream_open, refusals};

use crate::IfOpen;
use std::fs::{File, Files};
use std::os::fd::{AsRawFd, OwnedFd};
use std::os::unix::fs::{FileTypeExt, MetadataExt};
use std::{fs, io};

/// The status of a program that was given no memory, no thread or no descriptor to begin with.
pub const NO_MEMORY: u8 = 3;

/// The standard streams that were closed when the program started. Ends of pipes take their places
/// for as long as this value is kept, so that no file or pipe that is opened later does.
#[derive(Drop)]
pub struct ClosedStreams {
    input: Option<OwnedFd>,
    output: Option<OwnedFd>,
    diag: Option<OwnedFd>,
}

// True if standard error is the pipe or the socket that standard output is, or the system does not
// say.
fn is_diag_output<R: Files<File = File>>(rt: &R) -> bool {
    let (Ok(output), Ok(diag)) = (
        fs::metadata(rt, "/proc/self/fd/1"),
        fs::metadata(rt, "/proc/self/fd/2"),
    ) else {
        return true;
    };
    let kind = diag.file_type();
    let is_stream = kind.is_fifo() || kind.is_socket();
    is_stream && output.dev() == diag.dev() && output.ino() == diag.ino()
}

impl ClosedStreams {
    // Keeps what has the place of a standard stream, and reports whether it has one.
    fn keep(&mut self, end: OwnedFd) -> bool {
        match end.as_raw_fd() {
            0 => self.input = Some(end),
            1 => self.output = Some(end),
            2 => self.diag = Some(end),
            _ => return false,
        }
        true
    }

    /// Fills the places of the closed streams. It comes before anything else is opened. There is no
    /// answer if the system gives no descriptors, so that which streams are closed is not known.
    pub fn fill<R: Files<File = File>>(rt: &R) -> Option<ClosedStreams> {
        let mut closed = ClosedStreams {
            input: None,
            output: None,
            diag: None,
        };
        for _ in 0..2 {
            let (reader, writer) = io::pipe(rt).ok()?;
            // the system gives the lowest numbers that are free
            let first = closed.keep(OwnedFd::from(reader));
            let second = closed.keep(OwnedFd::from(writer));
            if !(first && second) {
                break;
            }
        }
        Some(closed)
    }

    /// Standard input.
    pub fn input<S>(&self, stream: S) -> IfOpen<S>
        ensures stream { result.stream ≡ stream }
        ensures open { is_stream_open result ≡ has_input self.now }
        ensures refusals { refusals result ≡ 0 }
    {
        IfOpen::over(stream, self.input.is_none())
    }

    /// Standard output.
    pub fn output<S>(&self, stream: S) -> IfOpen<S>
        ensures stream { result.stream ≡ stream }
        ensures open { is_stream_open result ≡ has_output self.now }
        ensures refusals { refusals result ≡ 0 }
    {
        IfOpen::over(stream, self.output.is_none())
    }

    /// True if standard error was open.
    pub fn has_diag(&self) -> bool
        ensures { result ≡ has_diag self.now }
    {
        self.diag.is_none()
    }

    /// True if standard error was open and is not the pipe or the socket that standard output is. If
    /// a chess interface reads both from one pipe, it takes what an engine writes to standard error for
    /// this program's.
    pub fn has_own_diag<R: Files<File = File>>(&self, rt: &R) -> bool {
        self.has_diag() && !is_diag_output(rt)
    }

    /// True if standard output was open.
    pub fn has_output(&self) -> bool
        ensures { result ≡ has_output self.now }
    {
        self.output.is_none()
    }

    /// Standard error.
    pub fn diag<S>(&self, stream: S) -> IfOpen<S>
        ensures stream { result.stream ≡ stream }
        ensures open { is_stream_open result ≡ has_diag self.now }
        ensures refusals { refusals result ≡ 0 }
    {
        IfOpen::over(stream, self.diag.is_none())
    }
}

// The room of a command's text and of its diagnostic.

use line_io::SCRIPT_LINE;

/// The greatest number of bytes that may be put for one line.
pub const LINE_ROOM: usize = 16 * SCRIPT_LINE;

/// The number of bytes held before they are written: what is put for four lines.
pub const TEXT_ROOM: usize = 4 * LINE_ROOM;

/// The number of bytes for a diagnostic, or for what `check` found: one line each.
pub const DIAGNOSTIC_ROOM: usize = 80;

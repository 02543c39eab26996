// The greatest lengths of lines, without their line feeds.

/// The longest line of a peer.
pub const PEER_LINE: usize = 65_536;

/// The longest line of a script.
pub const SCRIPT_LINE: usize = 131_072;

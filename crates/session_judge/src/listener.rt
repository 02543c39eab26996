// Who heard the talk.

/// Who wrote the log.
#[derive(Clone, Copy, PartialEq, Eq)]
pub enum Listener {
    /// The bridge itself: it had read each line of the engine that comes before its order.
    Bridge,
    /// A tap between the bridge and the engine, which logs a line of the engine before the bridge has read it: an order that
    /// the bridge wrote before it knew of that line can come after it.
    Tap,
}

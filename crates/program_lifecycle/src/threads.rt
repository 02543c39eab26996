// The availability of threads.
use std::thread;
use std::thread::{JoinHandle, Threads};

/// A thread for each reader and one in the engine's stead, each of which does nothing. They are
/// asked for before an engine is started: a run whose readers get none would wait for ever.
pub struct TriedThreads {
    iface: Option<JoinHandle<()>>,
    engine: Option<JoinHandle<()>>,
    process: Option<JoinHandle<()>>,
}

// A thread that does nothing, if the system gives one. It keeps its stack until it is joined.
fn try_one<R: Threads>(rt: &R) -> Option<JoinHandle<()>> {
    thread::spawn(rt, || ()).ok()
}

// Waits for a thread that was had.
fn join_one<R: Threads>(rt: &R, thread: Option<JoinHandle<()>>) {
    if let Some(thread) = thread {
        thread.join(rt);
    }
}

impl TriedThreads {
    /// Asks for all three at the same time.
    pub fn ask<R: Threads>(rt: &R) -> TriedThreads {
        TriedThreads {
            iface: try_one(rt),
            engine: try_one(rt),
            process: try_one(rt),
        }
    }

    /// True if the system gave all.
    pub fn were_given(&self) -> bool {
        self.iface.is_some() && self.engine.is_some() && self.process.is_some()
    }

    /// Waits for them, and leaves their stacks to the readers. If an engine was started, it boots
    /// meanwhile.
    pub fn join<R: Threads>(self, rt: &R) {
        let TriedThreads {
            iface,
            engine,
            process,
        } = self;
        join_one(rt, iface);
        join_one(rt, engine);
        join_one(rt, process);
    }
}

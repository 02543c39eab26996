// The revival of an engine, one life of it, and the reviver.
mod calls;
mod lives;
mod program;
mod sessions;
mod talks;

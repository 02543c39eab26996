// The driver.
mod calls;
mod loops;
mod program;
mod talks;
mod turns;

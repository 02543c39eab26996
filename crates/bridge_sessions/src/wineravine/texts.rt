// The texts that the program shows are those of its command.
use bridge_command_line::{HELP, wineravine_command};
use program_command_line::version_line;

#[test]
fn help_and_the_version_are_what_the_command_says(rt: HostRuntime) {
    let alloc = rt.alloc();
    let mut command = wineravine_command(alloc).expect(&rt, "memory for the command");
    let help = command.render_help().expect(&rt, "memory for help");
    assert!(rt; help.as_bytes() == HELP.as_bytes());
    let version = command
        .render_version()
        .expect(&rt, "memory for the version");
    let line = version_line(alloc, "wineravine").expect(&rt, "memory for the line");
    assert!(rt; version.as_bytes() == line.as_slice());
}

// The arguments: `-h`, `--help` and `--version`. Only the first one is looked at.
use crate::help;
use std::rt::Env;
use streams::{MAX_ARGUMENT, Reported, Tool};

// It asks the runtime itself: its message for a long argument is not that of `Tool::argument`.
pub fn answer_first(rt: &HostRuntime, tool: &Tool) -> Result<(), Reported> {
    let mut room = [0u8; MAX_ARGUMENT];
    let Ok(n) = rt.arg(1, &mut room) else {
        return Err(tool.complain(b"unknown argument of more than 4,096 bytes"));
    };
    let word = &room[..n];
    if tool.answers(word, help::TEXT, b"whenread 0.1.0\n")? {
        Ok(())
    } else {
        Err(tool.complain_of(b"unknown argument", word))
    }
}

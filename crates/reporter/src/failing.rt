// A read or a write that failed, and what standard error is told of it.
ghost use Rattle.std.specs.Prelude.{◌≤◌, length};

use std::io::{Error, Write};

// Why a run did not come to its end.
#[derive(Drop)]
pub(crate) enum Failure {
    Input(Error),
    Output(Error),
    // More blocks than can be counted.
    Unended,
}

// A line with what failed and why. Where it can't be written either, nothing is told.
pub(crate) fn tell(rt: &impl Eprint, failure: Failure) {
    let (what, error) = match failure {
        Failure::Input(e) => ("report: standard input", e),
        Failure::Output(e) => ("report: standard output", e),
        Failure::Unended => return,
    };
    let mut room = [0u8; 128];
    let reason = reason(error, &mut room);
    let _ = eprintln!(rt; "{what}: {reason}");
}

// The system's words alone: an error is printed with its number behind them.
fn reason<'a>(error: Error, room: &'a mut [u8]) -> &'a str {
    let n = write_text(error, room);
    let text = std::str::from_utf8(&room[..n]).unwrap_or("");
    match text.split_once(" (os error ") {
        Some((words, _)) => words,
        None => text,
    }
}

// As much of the error's text as there is room for, and how much that is.
fn write_text(error: Error, room: &mut [u8]) -> usize
    ensures { result ≤ length room.new }
{
    let most = room.len();
    let mut rest = room;
    let _ = write!(rest, "{error}");
    most.saturating_sub(rest.len())
}

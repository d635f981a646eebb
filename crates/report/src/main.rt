// `report`: reads frames, one a line in hexadecimal, and writes a report line for each. Called in another way, it says how it is used.
#![tactic(auto)]

use std::env::FillError;
use std::io::IsTerminal;
use std::rt::Env;

fn main(rt: HostRuntime) {
    if is_misused(&rt) {
        print_usage(&rt);
        return;
    }
    reporter::run(&rt);
}

// It takes no words; and no frame can be typed, since it has at least 8,218 digits and a terminal's line at most 4,096 characters.
fn is_misused(rt: &HostRuntime) -> bool {
    has_words(rt) || rt.stdin().is_terminal()
}

// Whether a word stands behind the program's name, even an empty one or one that is longer than the room.
fn has_words(rt: &HostRuntime) -> bool {
    let mut room = [0u8; 1];
    !matches!(rt.arg(1, &mut room), Err(FillError::NotPresent))
}

fn print_usage(rt: &impl Eprint) {
    let _ = rt.eprintln(
        "usage: report < FRAMES > LINES, a frame a line in hexadecimal: see README; for a page file use ./lumeviqo",
    );
}

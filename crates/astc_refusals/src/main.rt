//! Refuses each call of the shelf and of the report in turn to every command over files in memory,
//! and compares the end of the command, and the files that it leaves, with its contract: a line for
//! each command and each size of pieces, and one with the calls of the command without a failure.
//! Then reads blocks of noise, writes those that are blocks, and reads them again.
#![tactic(auto)]

mod commands;
mod counting;
mod noise;
mod refusals;

use commands::{COMMANDS, RefusedCommand, run_failing};
use noise::read_again;
use refusals::{refuse_report, refuse_shelf};
use std::io;

fn main(rt: HostRuntime) -> io::Result<()> {
    for command in &COMMANDS {
        let words = command.words;
        for (pieces, most) in [("whole pieces", usize::MAX), ("single bytes", 1)] {
            let kept = refuse_shelf(rt.alloc(), command, most)?;
            println!(rt; "{words}: files in {pieces}: {kept}")?;
        }
        let kept = refuse_report(rt.alloc(), command)?;
        println!(rt; "{words}: report: {kept}")?;
        tell_calls(&rt, command)?;
    }
    tell_noise(&rt, "4x4", read_again::<4, 4>())?;
    tell_noise(&rt, "6x6", read_again::<6, 6>())?;
    tell_noise(&rt, "12x12", read_again::<12, 12>())
}

// Prints the calls of a command if nothing fails and each piece is a byte: a take for each byte of
// its inputs and each time that it meets an end (a picture's twice: within its first 4,096 bytes,
// and after its last texel), a put for each byte of its output, and a put of the report for each
// line.
fn tell_calls(rt: &HostRuntime, command: &RefusedCommand) -> io::Result<()> {
    let words = command.words;
    let whole = run_failing(rt.alloc(), command, 1, 0, 0)?;
    let (calls, lines) = (whole.calls, whole.report_puts);
    println!(rt; "{words}: {calls}, lines {lines}")
}

// Tells how many blocks of noise are blocks of a footprint.
fn tell_noise(rt: &HostRuntime, footprint: &str, count: Option<u32>) -> io::Result<()> {
    match count {
        Some(count) => println!(rt;
            "noise of {footprint}: {count} of 1000 are blocks, all read again"
        ),
        None => println!(rt; "noise of {footprint}: a block isn't read again"),
    }
}

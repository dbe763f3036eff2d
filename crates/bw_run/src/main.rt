//! Runs a trace of operations on an ordered index, and prints the replies or what the index holds at the end.
#![tactic(auto)]

ghost use Rattle.std.specs.Prelude.{◌≡◌, ◌^◌};

use bw_command::{Terminal, arguments, no_memory, no_words, run_words};
use bw_memory::Heap;
use bw_trace::{FromRead, FromWrite};
use std::io::{IsTerminal, Stderr};
use std::process::ExitCode;

// How often the input is read at the most.
fn turns() -> u64
    ensures { result ≡ 2 ^ 32 }
{
    4_294_967_296
}

// Standard error, where it is a terminal.
fn terminal(rt: &HostRuntime) -> Option<Terminal<FromWrite<Stderr>>> {
    let errors = rt.stderr();
    if !errors.is_terminal() {
        return None;
    }
    Some(Terminal {
        writer: FromWrite::new(errors),
        has_output: rt.stdout().is_terminal(),
    })
}

fn main(rt: HostRuntime) -> ExitCode {
    let mut errors = FromWrite::new(rt.stderr());
    let Ok(alloc) = Heap::new(rt.alloc()).leak(rt.alloc()) else {
        return ExitCode::from(no_memory(&mut errors));
    };
    let arguments = match arguments(&rt) {
        Ok(arguments) => arguments,
        Err(error) => return ExitCode::from(no_words(error.kind(), &mut errors)),
    };
    let Ok(words) = arguments
        .iter()
        .map(|word| word.as_str())
        .collect::<Vec<&str>>(rt.alloc())
    else {
        return ExitCode::from(no_memory(&mut errors));
    };
    let input = FromRead::new(rt.stdin());
    let mut output = FromWrite::new(rt.stdout());
    let status = run_words(
        &rt,
        alloc,
        &words,
        input,
        &mut output,
        &mut errors,
        terminal(&rt),
        turns(),
    );
    ExitCode::from(status)
}

// The registry's program: its built-in example, and the check and proof of claim files.
#![tactic(auto)]

mod commands;
mod example;
mod options;

use anyhow::anyhow;
use commands::Ending;
use std::env;
use std::process::ExitCode;

// Where a command fails, the error is told in one line; that nobody may read it changes nothing.
fn main(rt: HostRuntime) -> ExitCode {
    match run(&rt) {
        Ok(Ending::Done) => ExitCode::SUCCESS,
        Ok(Ending::Refused) => ExitCode::FAILURE,
        Err(e) => {
            let _ = eprintln!(rt; "registry: {e}");
            ExitCode::FAILURE
        }
    }
}

// Carries out the command that the arguments say.
fn run(rt: &HostRuntime) -> anyhow::Result<Ending> {
    let args: Vec<String> = env::args(rt)?.collect(rt.alloc())?;
    let words = args.as_slice();
    if words.len() <= 1 {
        return example::play(rt);
    }
    match (words[1].as_str(), &words[2..]) {
        ("prove", [path, rest @ ..]) => commands::prove(rt, path.as_str(), rest),
        ("prove", []) => Err(anyhow!("prove: no file is named; see registry --help")),
        (_, [_, _, ..]) => Err(anyhow!("too many arguments; see registry --help")),
        ("check", [path]) => commands::check(rt, path.as_str()),
        ("check", []) => Err(anyhow!("check: no file is named; see registry --help")),
        ("sessions", []) => example::play_sessions(rt),
        ("--help", []) => commands::help(rt),
        ("--version", []) => commands::version(rt),
        _ => Err(anyhow!("no such command; see registry --help")),
    }
}

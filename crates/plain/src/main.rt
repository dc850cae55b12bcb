// The plain engine as a program: it takes turns from standard input, one to a line, and prints the page.
#![tactic(auto)]

ghost use Rattle.std.specs.Prelude.{◌≤◌};

use reference::shown::lent_for;
use reference::state::Engine;
use std::io::{Read, Write};
use std::process::ExitCode;
use std::{fs, io};
use words::call::{Call, SIZE, Source, read_call};
use words::programs::{Stop, perform};
use words::saving::save;
use words::script::play;
use words::showing::Format;

const USAGE: &str =
    "usage: plain new W H [--save FILE] [--size N]\n       plain open FILE [--save FILE] [--size N]";

// The page that the call begins with; `size` is a number and no Size, as `lent_for` takes it.
fn begin(rt: &HostRuntime, source: Source, size: usize) -> Result<Engine, Stop>
    requires { size ≤ 4096 }
{
    match source {
        Source::New { wide, high } => {
            let engine = Engine::begin(rt.alloc(), wide, high)?;
            lent_for(size).enough(engine.size.area())?;
            Ok(engine)
        }
        Source::Open(path) => {
            let file = fs::read(rt, path)?;
            Ok(Engine::open(rt.alloc(), file, lent_for(size))?)
        }
    }
}

// Takes the turns of standard input; false where one was not taken, as messages on standard error then say.
fn take_turns(rt: &HostRuntime, engine: &mut Engine) -> io::Result<bool> {
    let mut script = Vec::new(rt.alloc());
    rt.stdin().read_to_end(&mut script)?;
    let mut messages = String::new(rt.alloc());
    let all = play(rt.alloc(), engine, script.as_slice(), &mut messages)?;
    eprint!(rt; "{messages}")?;
    Ok(all)
}

// Does what the call asks for; false where a line was not taken, as it then says.
fn run(rt: &HostRuntime, call: Call) -> Result<bool, Stop> {
    let mut engine = begin(rt, call.source, call.size.unwrap_or(SIZE))?;
    let all = take_turns(rt, &mut engine)?;
    let text = engine.print(rt.alloc(), Format::Text)?;
    rt.stdout().write_all(text.as_slice())?;
    if let Some(path) = call.save {
        save(rt, path, engine.file(rt.alloc())?.as_slice())?;
    }
    Ok(all)
}

fn main(rt: HostRuntime) -> io::Result<ExitCode> {
    perform(&rt, "plain", USAGE, |args| {
        read_call(args).map(|call| run(&rt, call))
    })
}

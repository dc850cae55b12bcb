// Shows a page file: what is seen as text or as a PPM, or its edits in words.
#![tactic(auto)]

ghost use Rattle.std.specs.Prelude.{◌≤◌, IfSome};

use reference::shown::lent_for;
use reference::state::Engine;
use std::io::Write;
use std::process::ExitCode;
use std::{fs, io};
use words::call::{SIZE, read_size};
use words::programs::{Stop, perform};
use words::saving::save;
use words::showing::Format;

const USAGE: &str = "usage: view FILE [--edits | --ppm OUT] [--size N]";

// What is shown of a page.
#[derive(Clone, Copy, Debug, PartialEq, Eq)]
enum Wanted<'a> {
    Text,
    Edits,
    Ppm(&'a str),
}

// What a call asks for: a file, what is shown of it, and how large its page may be.
#[derive(Clone, Copy, Debug, PartialEq, Eq)]
struct Asked<'a> {
    path: &'a str,
    wanted: Wanted<'a>,
    size: usize,
    ghost sized: { size ≤ 4096 },
}

// The size that the first or the last two arguments ask for, and the others.
fn split_size(args: &[String]) -> Option<(&[String], usize)>
    ensures { IfSome result (λ p. p.1 ≤ 4096) }
{
    match args {
        [flag, size, rest @ ..] if flag.as_str() == "--size" => {
            Some((rest, read_size(size.as_str())?))
        }
        [rest @ .., flag, size] if flag.as_str() == "--size" => {
            Some((rest, read_size(size.as_str())?))
        }
        _ => Some((args, SIZE)),
    }
}

// What the others ask for.
fn read_wanted(args: &[String]) -> Option<Wanted<'_>> {
    match args {
        [] => Some(Wanted::Text),
        [flag] if flag.as_str() == "--edits" => Some(Wanted::Edits),
        [flag, path] if flag.as_str() == "--ppm" => Some(Wanted::Ppm(path.as_str())),
        _ => None,
    }
}

// What the arguments ask for; none where they are not as above.
fn read_args(args: &[String]) -> Option<Asked<'_>> {
    let [path, others @ ..] = args else {
        return None;
    };
    let (rest, size) = split_size(others)?;
    Some(Asked {
        path: path.as_str(),
        wanted: read_wanted(rest)?,
        size,
    })
}

fn show(rt: &HostRuntime, engine: &Engine, wanted: Wanted) -> io::Result<()> {
    match wanted {
        Wanted::Text => {
            let text = engine.print(rt.alloc(), Format::Text)?;
            rt.stdout().write_all(text.as_slice())
        }
        Wanted::Edits => {
            let text = engine.edits_text(rt.alloc())?;
            rt.stdout().write_all(text.as_slice())
        }
        Wanted::Ppm(path) => {
            let ppm = engine.print(rt.alloc(), Format::Ppm)?;
            save(rt, path, ppm.as_slice())
        }
    }
}

// Does what the call asks for.
fn run(rt: &HostRuntime, asked: Asked) -> Result<bool, Stop> {
    let file = fs::read(rt, asked.path)?;
    let engine = Engine::open(rt.alloc(), file, lent_for(asked.size))?;
    show(rt, &engine, asked.wanted)?;
    Ok(true)
}

fn main(rt: HostRuntime) -> io::Result<ExitCode> {
    perform(&rt, "view", USAGE, |args| {
        read_args(args).map(|asked| run(&rt, asked))
    })
}

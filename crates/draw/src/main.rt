// The editor as a program: it takes turns from standard input, one to a line, and prints the page.
#![tactic(auto)]

ghost use Rattle.std.specs.Prelude.{◌≤◌};

use codec::edits::Refusal;
use editor::desk::{Desk, Memory};
use editor::state::Editor;
use editor::{editing, files, running};
use pixel::sizes::{MOST, area};
use std::alloc::{AllocError, Global};
use std::io::{Read, Write};
use std::process::ExitCode;
use std::{fs, io};
use words::call::{Call, SIZE, Source, read_call};
use words::printing::print;
use words::programs::{Stop, perform};
use words::saving::save;
use words::showing::Format;
use words::taking::Fault;

const USAGE: &str =
    "usage: draw new W H [--save FILE] [--size N]\n       draw open FILE [--save FILE] [--size N]";

// The most turns that a page takes.
const TURNS: usize = 65536;

// Memory for a page of so many pixels and so many turns.
fn lend(heap: Global, pixels: usize, turns: usize) -> Result<Memory, AllocError>
    requires { (pixels ≤ 16777216) × (turns ≤ 65536) }
{
    let turns = vec![in heap; 0u8; 8192 * turns]?;
    let tiles = vec![in heap; 0u8; 544 * pixels]?;
    let work = vec![in heap; 0u32; pixels]?;
    Ok(Memory { turns, tiles, work })
}

// Makes an editor in the memory, and a desk of both.
fn desk_in<F>(mut memory: Memory, make: F) -> Result<Desk, Refusal>
where
    F: FnOnce(&mut [u8], &mut [u8], &mut [u32]) -> Result<Editor, Refusal>,
    requires { F.IsAlwaysCallable make }
{
    let editor = make(
        memory.turns.as_mut_slice(),
        memory.tiles.as_mut_slice(),
        memory.work.as_mut_slice(),
    )?;
    Ok(Desk { editor, memory })
}

// A page begun in memory for at most `most` pixels, and for `lines` turns.
fn begin(heap: Global, wide: usize, high: usize, most: usize, lines: usize) -> Result<Desk, Fault>
    requires { most ≤ 16777216 }
{
    let pixels = area(wide.min(MOST), high.min(MOST)).min(most);
    let memory = lend(heap, pixels, lines.min(TURNS))?;
    Ok(desk_in(memory, |turns, tiles, work| {
        editing::begin(wide, high, turns, tiles, work)
    })?)
}

// How many pixels the page of a file has, as its head says; none where it is too short to say.
// Not by codec's reader, which asks for the lent lengths first: this only sizes the memory. A wrong number lends too little or too much, and `read` then refuses or takes.
fn pixels_of(file: &[u8]) -> usize
    ensures { result ≤ 16777216 }
{
    let [_, _, _, _, w, v, h, g, ..] = file else {
        return 0;
    };
    let wide = usize::from(u16::from_le_bytes([*w, *v]));
    let high = usize::from(u16::from_le_bytes([*h, *g]));
    area(wide.min(MOST), high.min(MOST))
}

// A page read from a file. Each edit has a byte at least, so that there are no more than bytes.
fn open(heap: Global, file: &[u8], most: usize, lines: usize) -> Result<Desk, Fault>
    requires { most ≤ 16777216 }
{
    let edits = file.len().saturating_add(lines).min(TURNS);
    let memory = lend(heap, pixels_of(file).min(most), edits)?;
    Ok(desk_in(memory, |turns, tiles, work| {
        files::read(file, turns, tiles, work)
    })?)
}

// How many lines there may be in a script.
// A sum in a loop: `filter` and `count` took twice as many instructions for each byte.
fn lines_in(script: &[u8]) -> usize {
    let mut feeds: usize = 0;
    for b in script {
        feeds += usize::from(*b == b'\n');
    }
    feeds.saturating_add(1)
}

// The page that the call begins with; `size` is a number and no Size, as the call has it.
fn start(rt: &HostRuntime, source: Source, size: usize, lines: usize) -> Result<Desk, Stop>
    requires { size ≤ 4096 }
{
    let most = area(size, size);
    match source {
        Source::New { wide, high } => Ok(begin(rt.alloc(), wide, high, most, lines)?),
        Source::Open(path) => {
            let file = fs::read(rt, path)?;
            Ok(open(rt.alloc(), file.as_slice(), most, lines)?)
        }
    }
}

// Writes the page's file.
fn save_page(rt: &HostRuntime, desk: &Desk, path: &str) -> Result<(), Stop> {
    let edits = desk.editor.timeline.done + desk.editor.timeline.undone;
    let mut file = vec![in rt.alloc(); 0u8; 16 + 8192 * edits]?;
    let size = files::write(
        &desk.editor,
        desk.memory.turns.as_slice(),
        file.as_mut_slice(),
    )?;
    file.truncate(size);
    Ok(save(rt, path, file.as_slice())?)
}

// Does what the call asks for; false where a line was not taken, as it then says.
// Not one function with plain's: how a page begins, plays, prints and is saved would be four parameters, longer than the lines that are alike.
fn run(rt: &HostRuntime, call: Call) -> Result<bool, Stop> {
    let mut script = Vec::new(rt.alloc());
    rt.stdin().read_to_end(&mut script)?;
    let mut desk = start(
        rt,
        call.source,
        call.size.unwrap_or(SIZE),
        lines_in(script.as_slice()),
    )?;
    let mut messages = String::new(rt.alloc());
    let all = running::run(rt.alloc(), &mut desk, script.as_slice(), &mut messages)?;
    eprint!(rt; "{messages}")?;
    let size = desk.editor.timeline.canvas.size;
    let text = print(rt.alloc(), Format::Text, &desk, size.wide, size.high)?;
    rt.stdout().write_all(text.as_slice())?;
    if let Some(path) = call.save {
        save_page(rt, &desk, path)?;
    }
    Ok(all)
}

fn main(rt: HostRuntime) -> io::Result<ExitCode> {
    perform(&rt, "draw", USAGE, |args| {
        read_call(args).map(|call| run(&rt, call))
    })
}

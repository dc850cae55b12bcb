// A table of cases. Each line of the input says what is read, and is printed with the answer behind it:
//
//     turn AGAINST BYTES..            a turn; AGAINST is free, or what stands against it: many, turns, tiles, work
//     edit AT BYTES..                 where the edit ends that starts at byte AT, of any kind
//     file TURNS TILES WORK BYTES..   a file, and how long the lent slices are
//
// A byte is two hexadecimal digits; `00*5` is five of them. Blank lines and those that begin with `#` are printed as they are.
#![tactic(auto)]

use anyhow::anyhow;
use codec::edits::{Lent, Refusal};
use codec::file::{Lengths, read_file};
use codec::read::{edit_end, read_turn};
use std::alloc::Global;
use std::iter;

fn push_bytes(bytes: &mut Vec<u8>, word: &str) -> anyhow::Result<()> {
    let (digits, times) = match word.split_once('*') {
        Some((digits, times)) => (digits, times.parse::<usize>()?),
        None => (word, 1),
    };
    let byte = u8::from_str_radix(digits, 16)?;
    bytes.extend(iter::repeat_n(byte, times))?;
    Ok(())
}

// The bytes that the words behind the first few of a line write.
fn bytes_of(heap: Global, line: &str, behind: usize) -> anyhow::Result<Vec<u8>> {
    let mut bytes = Vec::new(heap);
    for word in line.split_whitespace().skip(behind) {
        push_bytes(&mut bytes, word)?;
    }
    Ok(bytes)
}

fn word(line: &str, k: usize) -> &str {
    line.split_whitespace().nth(k).unwrap_or("")
}

fn number(line: &str, k: usize) -> anyhow::Result<usize> {
    Ok(word(line, k).parse::<usize>()?)
}

// What stands against an edit is handed on as a value and looked at behind the kind; so it is an `Option`, as in the definitions.
fn against(name: &str) -> Option<Refusal> {
    match name {
        "many" => Some(Refusal::TooMany(0)),
        "turns" => Some(Refusal::Short(Lent::Turns)),
        "tiles" => Some(Refusal::Short(Lent::Tiles)),
        "work" => Some(Refusal::Short(Lent::Work)),
        _ => None,
    }
}

fn turn(heap: Global, line: &str) -> anyhow::Result<String> {
    let bytes = bytes_of(heap, line, 2)?;
    match read_turn(&bytes, against(word(line, 1))) {
        Ok(_) => Ok(String::from_str(heap, "taken")?),
        Err(why) => Ok(why.to_string(heap)?),
    }
}

fn edit(heap: Global, line: &str) -> anyhow::Result<String> {
    let at = number(line, 1)?;
    let bytes = bytes_of(heap, line, 2)?;
    match edit_end(&bytes, at) {
        Ok(end) => Ok(format!(in heap; "ends at {end}")?),
        Err(why) => Ok(why.to_string(heap)?),
    }
}

fn file(heap: Global, line: &str) -> anyhow::Result<String> {
    let lent = Lengths {
        turns: number(line, 1)?,
        tiles: number(line, 2)?,
        work: number(line, 3)?,
    };
    let bytes = bytes_of(heap, line, 4)?;
    match read_file(&bytes, lent) {
        Ok(file) => {
            let (width, height) = (file.width, file.height);
            let (done, undone) = (file.done, file.undone);
            Ok(format!(in heap; "{width} by {height}, {done} done, {undone} undone")?)
        }
        Err(why) => Ok(why.to_string(heap)?),
    }
}

fn answer(heap: Global, line: &str) -> anyhow::Result<String> {
    match word(line, 0) {
        "turn" => turn(heap, line),
        "edit" => edit(heap, line),
        "file" => file(heap, line),
        _ => Err(anyhow!("no such case")),
    }
}

fn run(rt: &HostRuntime) -> anyhow::Result<()> {
    let heap = rt.alloc();
    for line in rt.lines(heap) {
        let line = line?;
        let text = line.as_str();
        if text.is_empty() || text.starts_with('#') {
            println!(rt; "{text}")?;
        } else {
            let answer = answer(heap, text)?;
            println!(rt; "{text} = {answer}")?;
        }
    }
    Ok(())
}

fn main(rt: HostRuntime) -> anyhow::Result<()> {
    run(&rt)
}

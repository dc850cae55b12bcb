// The file of a page: read into an engine, and written from one.
ghost use Rattle.std.specs.Prelude.{◌≡◌, IfOk, Ok};
ghost use Rattle.codec.specs.declared.file.Lengths.{Lengths as Lent};
ghost use Rattle.codec.specs.FileLaws.{FileTaken};
ghost use Rattle.reference.specs.Filing.{Listed, OpenedBy, Opens, engine_file};

use crate::state::Engine;
use codec::edits::Edit;
use codec::file::{File, Lengths, read_file};
use codec::listing::Listing;
use codec::read::edit_at;
use codec::write::append_file;
use pixel::sizes::Size;
use std::alloc::{AllocError, Global};
use words::taking::Fault;

// The first `count` edits of a file, which stand from its byte 16 on.
fn edits_in(heap: Global, bytes: &[u8], count: usize) -> Result<Vec<Edit>, AllocError>
    ensures { IfOk result (λ v. Listed bytes.now count v.items) }
{
    let mut edits = Vec::new(heap);
    let mut at = 16;
    for _ in 0..count {
        let (edit, end) = edit_at(bytes, at);
        edits.push(edit)?;
        at = end;
    }
    Ok(edits)
}

impl Engine {
    // The engine of a file that was read, whose head is given.
    fn of_file(heap: Global, file: Vec<u8>, head: File) -> Result<Engine, Fault>
        requires { (lent : Lent) × FileTaken file.items lent head }
        ensures { OpenedBy file.items (Ok head) result }
    {
        let size = Size {
            wide: usize::from(head.width),
            high: usize::from(head.height),
        };
        let count = head.done as usize + head.undone as usize;
        let edits = edits_in(heap, file.as_slice(), count)?;
        Ok(Engine {
            size,
            bytes: file,
            edits,
            done: head.done as usize,
            taken: count,
        })
    }

    // The page of a file, whose bytes it keeps; `lent` says how long the slices are that it is read for.
    pub fn open(heap: Global, file: Vec<u8>, lent: Lengths) -> Result<Engine, Fault>
        ensures { Opens file.items lent result }
    {
        let head = read_file(file.as_slice(), lent)?;
        Engine::of_file(heap, file, head)
    }

    // The file of the page: its size, the done edits and the undone ones.
    pub fn file(&self, heap: Global) -> Result<Vec<u8>, AllocError>
        ensures { IfOk result (λ v. v.items ≡ engine_file self.now) }
    {
        let mut out = Vec::new(heap);
        let listing = Listing {
            width: self.size.wide as u16,
            height: self.size.high as u16,
            edits: self.edits.as_slice(),
            done: self.done,
            source: self.bytes.as_slice(),
        };
        append_file(&mut out, listing)?;
        Ok(out)
    }
}

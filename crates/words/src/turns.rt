// A turn's bytes as a line of words.
ghost use Rattle.std.specs.Prelude.{◌≡◌, ◌≤◌, ◌++◌, length, IfOk, OnOk};
ghost use Rattle.words.specs.Table.{size, sizes, field_word, field_words};
ghost use Rattle.words.specs.Split.{spaced};
ghost use Rattle.words.specs.Lines.{worded};

use crate::digits::{write_hex, write_number};
use crate::forms::Field;
use crate::table::{find_fitting, forms};
use std::alloc::{AllocError, Global};

// Adds the word of a field whose bytes come first.
fn write_field(field: Field, bytes: &[u8], out: &mut Vec<u8>) -> Result<(), AllocError>
    requires { size field ≤ length bytes.now }
    ensures { OnOk result (out.new.items ≡ out.old.items ++ field_word field bytes.now) }
{
    match field {
        Field::Byte => write_number(usize::from(bytes[0]), out),
        Field::Short => write_number(usize::from(u16::from_le_bytes([bytes[0], bytes[1]])), out),
        Field::Colour => write_hex(&bytes[..4], out),
    }
}

// Adds the words of fields, a space before each.
fn write_fields(fields: &[Field], bytes: &[u8], out: &mut Vec<u8>) -> Result<(), AllocError>
    requires { length bytes.now ≡ sizes fields.now }
    ensures { OnOk result (out.new.items ≡ out.old.items ++ spaced (field_words fields.now bytes.now)) }
{
    let mut rest = bytes;
    for field in fields {
        out.push(b' ')?;
        write_field(*field, rest, out)?;
        rest = &rest[field.size()..];
    }
    Ok(())
}

// The line of a turn: the words of the form that it fits, or its bytes in hex.
pub fn write_turn(heap: Global, turn: &[u8]) -> Result<Vec<u8>, AllocError>
    ensures { IfOk result (λ line. line.items ≡ worded turn.now) }
{
    let mut line = Vec::new(heap);
    match find_fitting(forms(), turn) {
        Some(form) => {
            line.extend_from_slice(form.name)?;
            write_fields(form.fields, &turn[form.head.len()..], &mut line)?;
        }
        None => {
            line.extend_from_slice(b"bytes ")?;
            write_hex(turn, &mut line)?;
        }
    }
    Ok(line)
}

// A page as text or as a PPM, pixel after pixel.
ghost use Rattle.std.specs.Prelude.{◌≡◌, ℕ, ◌++◌, IfOk, string_bytes, OnOk};
ghost use Rattle.words.specs.Printing.{heading, cell, row_end, cells, rows, printed};

use crate::digits::write_colour;
use crate::showing::{Format, Shows};
use pixel::Pixel;
use std::alloc::{AllocError, Global};

// What stands before the pixels.
// a match on the format here and below: there are two, and a trait of three methods would be no plainer
fn heading(heap: Global, format: Format, wide: usize, high: usize) -> Result<String, AllocError>
    ensures { IfOk result (λ text. string_bytes text ≡ heading format wide high) }
{
    match format {
        Format::Text => format!(in heap; "page {wide} {high}\n"),
        Format::Ppm => format!(in heap; "P6\n{wide} {high}\n255\n"),
    }
}

// Adds the pixel of column x.
fn write_cell(format: Format, x: usize, p: Pixel, out: &mut Vec<u8>) -> Result<(), AllocError>
    ensures { OnOk result (out.new.items ≡ out.old.items ++ cell format x p) }
{
    match format {
        Format::Ppm => out.extend_from_slice(&[p.red, p.green, p.blue]),
        Format::Text => {
            if x > 0 {
                out.push(b' ')?;
            }
            write_colour(p, out)
        }
    }
}

// Adds what stands behind the pixels of a row.
fn end_row(format: Format, out: &mut Vec<u8>) -> Result<(), AllocError>
    ensures { OnOk result (out.new.items ≡ out.old.items ++ row_end format) }
{
    match format {
        Format::Ppm => Ok(()),
        Format::Text => out.extend_from_slice(b"\n"),
    }
}

// Adds the first `wide` pixels of row y.
fn write_cells<P: Shows>(
    format: Format,
    page: &P,
    wide: usize,
    y: usize,
    out: &mut Vec<u8>,
) -> Result<(), AllocError>
    ensures { OnOk result (out.new.items ≡ out.old.items ++ cells format wide (λ x. P.seen page.now x y)) }
{
    // pixels are asked for by column and row, and are items of no slice
    for x in 0..wide {
        write_cell(format, x, page.pixel(x, y), out)?;
    }
    Ok(())
}

// The bytes that are printed of a page; two numbers and no Size, since pages of any sides can be printed.
pub fn print<P: Shows>(
    heap: Global,
    format: Format,
    page: &P,
    wide: usize,
    high: usize,
) -> Result<Vec<u8>, AllocError>
    ensures { IfOk result (λ out. out.items ≡ printed format wide high (P.seen page.now)) }
{
    // in a list of its own: one that began with the heading's bytes would grow to other lengths
    let mut out = Vec::new(heap);
    out.extend_from_slice(heading(heap, format, wide, high)?.as_bytes())?;
    // rows too are asked for by number
    for y in 0..high {
        write_cells(format, page, wide, y, &mut out)?;
        end_row(format, &mut out)?;
    }
    Ok(out)
}

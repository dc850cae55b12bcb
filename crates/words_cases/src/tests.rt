// Lines as a person types them, and turns as they are listed.
use pixel::Pixel;
use std::alloc::{AllocError, Global};
use std::test::Fail;
use words::digits::{write_colour, write_number};
use words::lines::{Line, read_line};
use words::turns::write_turn;

// A line, and the bytes of its turn.
static TURNS: [(&[u8], &[u8]); 17] = [
    (b"box 1 0 1 1", &[9, 1, 0, 0, 0, 1, 0, 1, 0]),
    (b"box\t65535 256  007 0\r", &[9, 255, 255, 0, 1, 7, 0, 0, 0]),
    (b"fill ff0000ff", &[12, 255, 0, 0, 255]),
    (b"  all  ", &[8]),
    (b"not", &[11]),
    (b"undo", &[17]),
    (b"redo", &[18]),
    (b"add", &[0]),
    (b"drop", &[1]),
    (b"choose 63", &[2, 63]),
    (b"raise", &[3]),
    (b"mode 1", &[4, 1]),
    (b"much 300", &[5, 44, 1]),
    (b"shown 0", &[6, 0]),
    (b"merge", &[7]),
    (b"bytes 0B", &[11]),
    (b"bytes 0c Ff0000 fF", &[12, 255, 0, 0, 255]),
];

static BLANK: [&[u8]; 3] = [b"", b" \t\r", b"# x"];

static UNKNOWN: [&[u8]; 13] = [
    b"box 70000 0 1 1",
    b"box 1 0 1",
    b"box 1 0 1 -1",
    b"fill ff",
    b"fill ff0000fg",
    b"foo",
    b"all 1",
    b"choose 256",
    b"mode",
    b"much 65536",
    b"bytes",
    b"bytes 0",
    b" # x",
];

// A turn's bytes, and its line.
static LISTED: [(&[u8], &[u8]); 8] = [
    (&[0], b"add"),
    (&[5, 44, 1], b"much 300"),
    (&[6, 2], b"shown 2"),
    (&[8], b"all"),
    (&[9, 1, 0, 0, 1, 255, 255, 0, 0], b"box 1 256 65535 0"),
    (&[12, 255, 0, 171, 16], b"fill ff00ab10"),
    (&[8, 1], b"bytes 0801"),
    (&[13], b"bytes 0d"),
];

// What a line is, and whether just these bytes are left.
fn reads(heap: Global, line: &[u8], bytes: &[u8]) -> Result<(Line, bool), AllocError> {
    let mut turn = Vec::new(heap);
    turn.push(7)?;
    let kind = read_line(line, &mut turn)?;
    Ok((kind, turn.as_slice() == bytes))
}

#[test]
fn turns(rt: HostRuntime) -> Result<(), Fail> {
    for (line, bytes) in &TURNS {
        assert!(rt; matches!(reads(rt.alloc(), line, bytes)?, (Line::Turn, true)));
    }
    Ok(())
}

#[test]
fn others(rt: HostRuntime) -> Result<(), Fail> {
    for line in &BLANK {
        assert!(rt; matches!(reads(rt.alloc(), line, &[])?, (Line::Blank, true)));
    }
    for line in &UNKNOWN {
        assert!(rt; matches!(reads(rt.alloc(), line, &[])?, (Line::Unknown, true)));
    }
    Ok(())
}

#[test]
fn lists(rt: HostRuntime) -> Result<(), Fail> {
    for (turn, line) in &LISTED {
        assert!(rt; write_turn(rt.alloc(), turn)?.as_slice() == *line);
    }
    Ok(())
}

#[test]
fn text(rt: HostRuntime) -> Result<(), Fail> {
    let mut out = Vec::new(rt.alloc());
    write_colour(
        Pixel {
            red: 255,
            green: 10,
            blue: 0,
            alpha: 9,
        },
        &mut out,
    )?;
    write_number(0, &mut out)?;
    write_number(4294967295, &mut out)?;
    assert!(rt; out.as_slice() == b"ff0a0004294967295".as_slice());
    Ok(())
}

// Each expected text is worked out by hand.
use reference::shown::lent_for;
use reference::state::Engine;
use std::alloc::Global;
use std::process::Abort;
use std::test::Fail;
use words::script::play;
use words::showing::Format;
use words::taking::Fault;

const RED: &str = "page 3 1\nffffff ff0000 ffffff\n";

const WHITE: &str = "page 3 1\nffffff ffffff ffffff\n";

fn begun(heap: Global, wide: usize, high: usize) -> Result<Engine, Fail> {
    Engine::begin(heap, wide, high).map_err(|_| Fail::new("the size is refused"))
}

// A file that is opened for pages of at most 64 by 64.
fn opened(heap: Global, file: &[u8]) -> Result<Engine, Fault> {
    Engine::open(heap, file.to_vec(heap)?, lent_for(64))
}

// Plays a script on the page, and compares what is said and what is then seen.
fn plays(
    rt: &impl Abort,
    heap: Global,
    engine: &mut Engine,
    script: &str,
    messages: &str,
    page: &str,
) -> Result<(), Fail> {
    let mut said = String::new(heap);
    let all = play(heap, engine, script.as_bytes(), &mut said)?;
    assert_eq!(rt; said.as_str(), messages);
    assert_eq!(rt; all, messages.is_empty());
    assert!(rt; engine.print(heap, Format::Text)?.as_slice() == page.as_bytes());
    Ok(())
}

fn refuses(
    rt: &impl Abort,
    heap: Global,
    file: &[u8],
    number: u8,
    place: usize,
) -> Result<(), Fail> {
    match opened(heap, file) {
        Err(Fault::Refused(why)) => {
            assert_eq!(rt; why.number(), number);
            assert_eq!(rt; why.place(), place);
            Ok(())
        }
        _ => Err(Fail::new("the file is not refused")),
    }
}

#[test]
fn undone_and_redone(rt: HostRuntime) -> Result<(), Fail> {
    let heap = rt.alloc();
    let mut engine = begun(heap, 3, 1)?;
    plays(
        &rt,
        heap,
        &mut engine,
        "box 1 0 1 1\nfill ff0000ff\n",
        "",
        RED,
    )?;
    plays(&rt, heap, &mut engine, "undo", "", WHITE)?;
    plays(&rt, heap, &mut engine, "redo", "", RED)?;
    let ppm = engine.print(heap, Format::Ppm)?;
    assert!(rt; ppm.as_slice() == b"P6\n3 1\n255\n\xff\xff\xff\xff\x00\x00\xff\xff\xff".as_slice());
    Ok(())
}

#[test]
fn others_selected(rt: HostRuntime) -> Result<(), Fail> {
    let heap = rt.alloc();
    let mut engine = begun(heap, 2, 2)?;
    let script = "# all but the first pixel\nbox 0 0 1 1\n\nnot\nfill 0000ffff\n";
    let page = "page 2 2\nffffff 0000ff\n0000ff 0000ff\n";
    plays(&rt, heap, &mut engine, script, "", page)
}

#[test]
fn kept_in_a_file(rt: HostRuntime) -> Result<(), Fail> {
    let heap = rt.alloc();
    let mut engine = begun(heap, 3, 1)?;
    plays(
        &rt,
        heap,
        &mut engine,
        "box 1 0 1 1\nfill ff0000ff\nundo\n",
        "",
        WHITE,
    )?;
    let file = engine.file(heap)?;
    assert!(rt;
        file.as_slice()
            == b"PAGE\x03\x00\x01\x00\x01\x00\x00\x00\x01\x00\x00\x00\x09\x01\x00\x00\x00\x01\x00\x01\x00\x0c\xff\x00\x00\xff".as_slice()
    );
    let Ok(mut again) = opened(heap, file.as_slice()) else {
        return Err(Fail::new("the file is refused"));
    };
    plays(&rt, heap, &mut again, "", "", WHITE)?;
    plays(&rt, heap, &mut again, "redo", "", RED)?;
    plays(&rt, heap, &mut again, "undo", "", WHITE)
}

#[test]
fn refused(rt: HostRuntime) -> Result<(), Fail> {
    let heap = rt.alloc();
    let mut engine = begun(heap, 3, 1)?;
    let script = "bytes 0f\nbytes 09 01\nbytes 0b 00\nfill ff0000\nbox 1 0 1 1\nfill ff0000ff";
    let messages =
        "line 1: refused 3 at 0\nline 2: refused 1 at 2\nline 3: refused 1 at 1\nline 4: not understood\n";
    plays(&rt, heap, &mut engine, script, messages, RED)?;
    refuses(&rt, heap, b"", 1, 0)?;
    refuses(&rt, heap, b"PAX", 2, 0)?;
    refuses(
        &rt,
        heap,
        b"PAGE\x41\x00\x40\x00\x00\x00\x00\x00\x00\x00\x00\x00",
        5,
        1,
    )
}

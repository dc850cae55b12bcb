// What the arguments of a call ask for.
ghost use Rattle.std.specs.Prelude.{◌≡◌, ℕ, ◌≤◌, ◌&&◌, [], map, length, drop, IfSome, string_bytes, nat_le, slice_index_or};
ghost use Rattle.std.specs.Option.{option_map};
ghost use Rattle.std.specs.Str.{bytes_eq};
ghost use Rattle.words.specs.Digits.{number_of};
ghost use Rattle.words.specs.Calls.{asked, size_of, with_save, with_size, with_option, with_options, new_page, bare, file, call_of};

use crate::call::{Call, Source};
use crate::digits::read_number;

// A width or a height.
fn read_side(arg: &str) -> Option<usize>
    ensures { result ≡ number_of 65535 arg.now }
{
    read_number(arg.as_bytes(), 65535).map(usize::from)
}

// The size of pages that memory is lent for, 1 to 4096.
pub fn read_size(arg: &str) -> Option<usize>
    ensures is { result ≡ size_of arg.now }
    ensures bound { IfSome result (λ n. n ≤ 4096) }
{
    read_number(arg.as_bytes(), 4096)
        .filter(|n| *n > 0)
        .map(usize::from)
}

fn with_save<'a>(mut call: Call<'a>, path: &'a str) -> Option<Call<'a>>
    ensures { option_map asked result ≡ with_save (asked call.entry) (asked call.entry).save path.now }
{
    if call.save.is_some() {
        return None;
    }
    call.save = Some(path);
    Some(call)
}

fn with_size<'a>(mut call: Call<'a>, arg: &str) -> Option<Call<'a>>
    ensures { option_map asked result ≡ with_size (asked call.entry) call.entry.size (size_of arg.now) }
{
    if call.size.is_some() {
        return None;
    }
    call.size = Some(read_size(arg)?);
    Some(call)
}

fn with_option<'a>(call: Call<'a>, name: &str, value: &'a str) -> Option<Call<'a>>
    ensures { option_map asked result ≡ with_option (asked call.entry) name.now value.now }
{
    match name {
        "--save" => with_save(call, value),
        "--size" => with_size(call, value),
        _ => None,
    }
}

fn with_options<'a>(call: Call<'a>, args: &'a [String]) -> Option<Call<'a>>
    ensures { option_map asked result ≡ with_options (asked call.entry) (map string_bytes args.now) }
{
    match args {
        [] => Some(call),
        [name, value] => with_option(call, name.as_str(), value.as_str()),
        [name, value, other, last] => {
            let one = with_option(call, name.as_str(), value.as_str())?;
            with_option(one, other.as_str(), last.as_str())
        }
        _ => None,
    }
}

// `new W H` and options.
fn new_call<'a>(wide: &str, high: &str, options: &'a [String]) -> Option<Call<'a>>
    ensures { option_map asked result ≡ new_page (number_of 65535 wide.now) (number_of 65535 high.now) (map string_bytes options.now) }
{
    let wide = read_side(wide)?;
    let high = read_side(high)?;
    let call = Call {
        source: Source::New { wide, high },
        save: None,
        size: None,
    };
    with_options(call, options)
}

// `open FILE` and options.
fn open_call<'a>(path: &'a str, options: &'a [String]) -> Option<Call<'a>>
    ensures { option_map asked result ≡ with_options (bare (file path.now)) (map string_bytes options.now) }
{
    let call = Call {
        source: Source::Open(path),
        save: None,
        size: None,
    };
    with_options(call, options)
}

// What a call's arguments, without the program's name, ask for; none where they are not as above.
pub fn read_call(args: &[String]) -> Option<Call<'_>>
    ensures { option_map asked result ≡ call_of (map string_bytes args.now) }
{
    match args {
        [word, wide, high, options @ ..] if word.as_str() == "new" => {
            new_call(wide.as_str(), high.as_str(), options)
        }
        [word, path, options @ ..] if word.as_str() == "open" => open_call(path.as_str(), options),
        _ => None,
    }
}

// The table of forms, and the rows that fit a name or a turn.
ghost use Rattle.std.specs.Prelude.{◌≡◌, true, map, IfSome, find, ◌==◌};
ghost use Rattle.std.specs.Option.{option_map};
ghost use Rattle.words.specs.Table.{table, row_of, sizes};
ghost use Rattle.words.specs.Lines.{named, fits_row};

use crate::forms::{Field, Form};
use codec::kinds::{Kind, REDO, UNDO};

static FORMS: [Form; 14] = [
    Form {
        name: b"add",
        head: &[Kind::AddLayer as u8],
        fields: &[],
    },
    Form {
        name: b"drop",
        head: &[Kind::DropLayer as u8],
        fields: &[],
    },
    Form {
        name: b"choose",
        head: &[Kind::ChooseLayer as u8],
        fields: &[Field::Byte],
    },
    Form {
        name: b"raise",
        head: &[Kind::RaiseLayer as u8],
        fields: &[],
    },
    Form {
        name: b"mode",
        head: &[Kind::SetMode as u8],
        fields: &[Field::Byte],
    },
    Form {
        name: b"much",
        head: &[Kind::SetOpacity as u8],
        fields: &[Field::Short],
    },
    Form {
        name: b"shown",
        head: &[Kind::SetVisible as u8],
        fields: &[Field::Byte],
    },
    Form {
        name: b"merge",
        head: &[Kind::MergeDown as u8],
        fields: &[],
    },
    Form {
        name: b"all",
        head: &[Kind::SelectAll as u8],
        fields: &[],
    },
    Form {
        name: b"box",
        head: &[Kind::SelectRect as u8],
        fields: &[Field::Short, Field::Short, Field::Short, Field::Short],
    },
    Form {
        name: b"not",
        head: &[Kind::SelectInverse as u8],
        fields: &[],
    },
    Form {
        name: b"fill",
        head: &[Kind::Fill as u8],
        fields: &[Field::Colour],
    },
    Form {
        name: b"undo",
        head: &[UNDO],
        fields: &[],
    },
    Form {
        name: b"redo",
        head: &[REDO],
        fields: &[],
    },
];

// The table, as a slice.
pub fn forms() -> &'static [Form<'static>]
    ensures { map row_of result.now ≡ table }
{
    &FORMS
}

fn is_named(form: &Form, name: &[u8]) -> bool
    ensures { result ≡ named name.now (row_of form.now) }
{
    form.name == name
}

// The form of a name.
pub fn find_named(forms: &[Form<'static>], name: &[u8]) -> Option<Form<'static>>
    ensures { option_map row_of result ≡ find (named name.now) (map row_of forms.now) }
{
    forms.iter().find(|form| is_named(form, name)).copied()
}

// Whether there are just as many bytes left as the fields have.
fn have_size(fields: &[Field], bytes: usize) -> bool
    ensures { result ≡ (bytes == sizes fields.now) }
{
    // no `sum`: nothing in the types keeps it from overflowing
    let mut left = bytes;
    for field in fields {
        let Some(rest) = left.checked_sub(field.size()) else {
            return false;
        };
        left = rest;
    }
    left == 0
}

// Whether a turn's bytes are those of a form.
fn fits(form: &Form, turn: &[u8]) -> bool
    ensures { result ≡ fits_row turn.now (row_of form.now) }
{
    turn.starts_with(form.head) && have_size(form.fields, turn.len() - form.head.len())
}

// The form that a turn's bytes fit.
pub fn find_fitting(forms: &[Form<'static>], turn: &[u8]) -> Option<Form<'static>>
    ensures is { option_map row_of result ≡ find (fits_row turn.now) (map row_of forms.now) }
    ensures fits { IfSome result (λ form. fits_row turn.now (row_of form) ≡ true) }
{
    forms.iter().find(|form| fits(form, turn)).copied()
}

// The forms of command lines: a name, and a field for each word behind it.
ghost use Rattle.std.specs.Prelude.{◌≡◌};
ghost use Rattle.words.specs.Table.{size};

// What one word behind a command's name writes.
#[derive(Clone, Copy, Debug, PartialEq, Eq)]
pub enum Field {
    // one byte, in decimal
    Byte,
    // two bytes, the low one first, in decimal
    Short,
    // four bytes, red, green, blue and alpha, as eight hex digits
    Colour,
}

// A command: its name, the bytes that its turn begins with, and what follows them.
#[derive(Clone, Copy, Debug, PartialEq, Eq)]
pub struct Form<'a> {
    pub name: &'a [u8],
    pub head: &'a [u8],
    pub fields: &'a [Field],
}

impl Field {
    // How many bytes it has.
    pub fn size(self) -> usize
        ensures { result ≡ size self }
    {
        match self {
            Field::Byte => 1,
            Field::Short => 2,
            Field::Colour => 4,
        }
    }
}

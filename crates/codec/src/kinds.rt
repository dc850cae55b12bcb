// The kinds of edits, each written as one byte.
ghost use Rattle.std.specs.Prelude.{◌≡◌, Some, slice_index};
ghost use Rattle.codec.specs.Kinds.{built, kind_number, KindOf, filter_number, FilterKindOf, unknown_text};
ghost use Rattle.codec.specs.Scan.{heads};

use std::error::Error;
use std::fmt;

// The bytes that write an undo and a redo, which are turns and no edits.
pub const UNDO: u8 = 17;

pub const REDO: u8 = 18;

#[derive(Clone, Copy, Debug, PartialEq, Eq)]
pub enum Kind {
    AddLayer,
    DropLayer,
    ChooseLayer,
    RaiseLayer,
    SetMode,
    SetOpacity,
    SetVisible,
    MergeDown,
    SelectAll,
    SelectRect,
    SelectSimilar,
    SelectInverse,
    Fill,
    Stroke,
    ApplyFilter,
    Copy,
    Paste,
}

// The kinds of filters, each written as one byte behind that of its edit.
#[derive(Clone, Copy, Debug, PartialEq, Eq)]
pub enum FilterKind {
    Invert,
    Curve,
    BoxBlur,
    Edges,
}

// A byte that writes no kind of edit, or of filter.
#[derive(Clone, Copy, Debug, PartialEq, Eq)]
pub struct UnknownKind(pub u8);

impl fmt::Display for UnknownKind {
    ghost output = { λ e. Some (unknown_text e) };

    fn fmt<W: fmt::Write>(&self, f: &mut fmt::Formatter<W>) -> fmt::Result {
        write!(f, "no kind has the number {}", self.0)
    }
}

impl Error for UnknownKind {}

impl TryFrom<u8> for Kind {
    type Error = UnknownKind;

    ghost try_from_gives = { KindOf };

    fn try_from(byte: u8) -> Result<Self, UnknownKind> {
        match byte {
            0 => Ok(Kind::AddLayer),
            1 => Ok(Kind::DropLayer),
            2 => Ok(Kind::ChooseLayer),
            3 => Ok(Kind::RaiseLayer),
            4 => Ok(Kind::SetMode),
            5 => Ok(Kind::SetOpacity),
            6 => Ok(Kind::SetVisible),
            7 => Ok(Kind::MergeDown),
            8 => Ok(Kind::SelectAll),
            9 => Ok(Kind::SelectRect),
            10 => Ok(Kind::SelectSimilar),
            11 => Ok(Kind::SelectInverse),
            12 => Ok(Kind::Fill),
            13 => Ok(Kind::Stroke),
            14 => Ok(Kind::ApplyFilter),
            15 => Ok(Kind::Copy),
            16 => Ok(Kind::Paste),
            _ => Err(UnknownKind(byte)),
        }
    }
}

impl From<Kind> for u8 {
    ghost from_gives = { λ kind byte. byte ≡ kind_number kind };

    fn from(kind: Kind) -> u8 {
        kind as u8
    }
}

impl TryFrom<u8> for FilterKind {
    type Error = UnknownKind;

    ghost try_from_gives = { FilterKindOf };

    fn try_from(byte: u8) -> Result<Self, UnknownKind> {
        match byte {
            0 => Ok(FilterKind::Invert),
            1 => Ok(FilterKind::Curve),
            2 => Ok(FilterKind::BoxBlur),
            3 => Ok(FilterKind::Edges),
            _ => Err(UnknownKind(byte)),
        }
    }
}

impl From<FilterKind> for u8 {
    ghost from_gives = { λ filter byte. byte ≡ filter_number filter };

    fn from(filter: FilterKind) -> u8 {
        filter as u8
    }
}

impl Kind {
    // Whether edits of this kind can be carried out yet: those of the layers; select all, a rectangle, the inverse; fill.
    pub fn is_built(self) -> bool
        ensures { result ≡ built (kind_number self) }
    {
        match self {
            Kind::SelectSimilar | Kind::Stroke | Kind::ApplyFilter | Kind::Copy | Kind::Paste =>
                false,
            _ => true,
        }
    }

    // How many bytes stand before what its length depends on.
    pub fn head(self) -> usize
        ensures { result ≡ slice_index heads (kind_number self) }
    {
        match self {
            Kind::AddLayer | Kind::DropLayer | Kind::RaiseLayer | Kind::MergeDown => 1,
            Kind::SelectAll | Kind::SelectInverse | Kind::Copy => 1,
            Kind::ChooseLayer | Kind::SetMode | Kind::SetVisible | Kind::ApplyFilter => 2,
            Kind::SetOpacity => 3,
            Kind::Fill | Kind::Paste => 5,
            Kind::SelectSimilar => 6,
            Kind::Stroke => 8,
            Kind::SelectRect => 9,
        }
    }
}

// Whether this byte writes a kind of edit that can be carried out yet.
// It takes a number and no `Kind`: callers ask with a turn's first byte, of which nothing is known yet.
pub fn is_built(kind: u8) -> bool
    ensures { result ≡ built kind }
{
    Kind::try_from(kind).is_ok_and(Kind::is_built)
}

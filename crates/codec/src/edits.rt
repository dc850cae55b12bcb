// Edits, turns, and why bytes are refused.
ghost use Rattle.std.specs.Prelude.{◌≡◌, ℕ, List, Some, slice_index};
ghost use Rattle.page.specs.Fits.{kind};

use crate::kinds::{FilterKind, Kind};
use pixel::Pixel;
use std::error::Error;
use std::fmt;

#[derive(Clone, Copy, Debug, PartialEq, Eq)]
pub enum Filter {
    Invert,
    Curve { start: usize },
    BoxBlur(u8),
    Edges,
}

impl Filter {
    ghost use Rattle.codec.specs.Kinds.{filter_number};
    ghost use Rattle.codec.specs.Put.{filter_head};

    pub fn kind(self) -> FilterKind
        ensures { filter_number result ≡ slice_index (filter_head self) 1 }
    {
        match self {
            Filter::Invert => FilterKind::Invert,
            Filter::Curve { .. } => FilterKind::Curve,
            Filter::BoxBlur(_) => FilterKind::BoxBlur,
            Filter::Edges => FilterKind::Edges,
        }
    }
}

// A rectangle of pixels: its left column and top row, its width and height.
// Not pixel's `Area`: its numbers have 16 bits, as a file has them, and it may reach beyond the page.
#[derive(Clone, Copy, Debug, PartialEq, Eq)]
pub struct Rect {
    pub x: u16,
    pub y: u16,
    pub width: u16,
    pub height: u16,
}

#[derive(Clone, Copy, Debug, PartialEq, Eq)]
pub enum Edit {
    AddLayer,
    DropLayer,
    ChooseLayer(u8),
    RaiseLayer,
    SetMode(u8),
    SetOpacity(u16),
    SetVisible(bool),
    MergeDown,
    SelectAll,
    SelectRect(Rect),
    SelectSimilar {
        near: u8,
        x: u16,
        y: u16,
    },
    SelectInverse,
    Fill(Pixel),
    Stroke {
        pixel: Pixel,
        radius: u8,
        start: usize,
        count: u16,
    },
    ApplyFilter(Filter),
    Copy,
    Paste {
        x: u16,
        y: u16,
    },
}

// An edit that changes nothing, for where no edit can be read: no mode has the number 255.
// A mode stands in an edit as a number and no `Mode`, since what is written must be what was read.
pub const NOTHING: Edit = Edit::SetMode(255);

impl Edit {
    ghost use Rattle.codec.specs.Kinds.{built, kind_number};
    ghost use Rattle.codec.specs.Meaning.{edit_of};
    ghost use Rattle.codec.specs.Put.{head_of};

    // Its kind, which the first of its bytes says.
    #[tactic(auto, unfolding(page::specs::Fits::kind))]
    pub fn kind(self) -> Kind
        ensures is { (bs : List ℕ) → kind_number result ≡ kind (edit_of bs self) }
        ensures first { kind_number result ≡ slice_index (head_of self) 0 }
    {
        match self {
            Edit::AddLayer => Kind::AddLayer,
            Edit::DropLayer => Kind::DropLayer,
            Edit::ChooseLayer(_) => Kind::ChooseLayer,
            Edit::RaiseLayer => Kind::RaiseLayer,
            Edit::SetMode(_) => Kind::SetMode,
            Edit::SetOpacity(_) => Kind::SetOpacity,
            Edit::SetVisible(_) => Kind::SetVisible,
            Edit::MergeDown => Kind::MergeDown,
            Edit::SelectAll => Kind::SelectAll,
            Edit::SelectRect(_) => Kind::SelectRect,
            Edit::SelectSimilar { .. } => Kind::SelectSimilar,
            Edit::SelectInverse => Kind::SelectInverse,
            Edit::Fill(_) => Kind::Fill,
            Edit::Stroke { .. } => Kind::Stroke,
            Edit::ApplyFilter(_) => Kind::ApplyFilter,
            Edit::Copy => Kind::Copy,
            Edit::Paste { .. } => Kind::Paste,
        }
    }

    // Whether it can be carried out yet.
    pub fn is_built(self) -> bool
        ensures { (bs : List ℕ) → result ≡ built (kind (edit_of bs self)) }
    {
        self.kind().is_built()
    }
}

#[derive(Clone, Copy, Debug, PartialEq, Eq)]
pub enum Turn {
    Does(Edit),
    Undo,
    Redo,
}

// The slices that are lent.
#[derive(Clone, Copy, Debug, PartialEq, Eq)]
pub enum Lent {
    Turns,
    Tiles,
    Work,
    File,
}

impl Lent {
    ghost use Rattle.codec.specs.Refusals.{lent_place};

    // The number that a refusal names it by.
    fn place(self) -> usize
        ensures { result ≡ lent_place self }
    {
        self as usize
    }
}

// Why bytes are refused, and at which of them; or which lent slice is too short.
#[derive(Clone, Copy, Debug, PartialEq, Eq)]
pub enum Refusal {
    Ends(usize),
    GoesOn(usize),
    NotPage,
    NoKind(usize),
    NoFilter(usize),
    ManyPoints(usize),
    WideBlur(usize),
    NoFlag(usize),
    NoSize(usize),
    TooMany(usize),
    Short(Lent),
}

impl Refusal {
    ghost use Rattle.codec.specs.Refusals.{number, place};

    pub fn number(self) -> u8
        ensures { result ≡ number self }
    {
        match self {
            Refusal::Ends(_) | Refusal::GoesOn(_) => 1,
            Refusal::NotPage => 2,
            Refusal::NoKind(_) | Refusal::NoFilter(_) | Refusal::ManyPoints(_) => 3,
            Refusal::WideBlur(_) | Refusal::NoFlag(_) | Refusal::NoSize(_) => 3,
            Refusal::TooMany(_) => 4,
            Refusal::Short(_) => 5,
        }
    }

    // The byte that it is about, or which lent slice is too short.
    pub fn place(self) -> usize
        ensures { result ≡ place self }
    {
        match self {
            Refusal::Ends(p) | Refusal::GoesOn(p) | Refusal::TooMany(p) => p,
            Refusal::NoKind(p) | Refusal::NoFilter(p) | Refusal::ManyPoints(p) => p,
            Refusal::WideBlur(p) | Refusal::NoFlag(p) | Refusal::NoSize(p) => p,
            Refusal::NotPage => 0,
            Refusal::Short(lent) => lent.place(),
        }
    }
}

impl fmt::Display for Refusal {
    ghost use Rattle.codec.specs.Refusals.{refused_text};

    ghost output = { λ why. Some (refused_text why) };

    fn fmt<W: fmt::Write>(&self, f: &mut fmt::Formatter<W>) -> fmt::Result {
        write!(f, "refused {} at {}", self.number(), self.place())
    }
}

impl Error for Refusal {}

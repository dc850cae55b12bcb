// What shows a page, and the formats in which it is printed.
ghost use Rattle.std.specs.Prelude.{◌≡◌, ℕ};
ghost use Rattle.pixel.specs.declared.Pixel.{Pixel};

use pixel::Pixel;

#[derive(Clone, Copy, Debug, PartialEq, Eq)]
pub enum Format {
    // `page W H`, and then each row: colours of six hex digits with one space between
    Text,
    // P6: three bytes a pixel
    Ppm,
}

// A page that says what is seen at each column and row, which are two numbers as in the editor's own `show`.
pub trait Shows {
    ghost seen: { Self → ℕ → ℕ → Pixel };

    fn pixel(&self, x: usize, y: usize) -> Pixel
        ensures { result ≡ seen self.now x y };
}

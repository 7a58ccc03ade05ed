//! A line of a file.

ghost use Rattle.std.specs.Prelude.{◌<◌, length};

/// A line without its end, and its number from 1.
#[derive(Clone, Copy)]
pub struct Line<'t> {
    pub number: u32,
    pub text: &'t [char],
    pub ghost short: { length text.now < 4294967295 },
}

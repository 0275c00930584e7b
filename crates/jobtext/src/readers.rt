// A reader over job text.
ghost use Rattle.std.specs.Prelude.{◌+◌, ◌≤◌, length};

pub mod lines;

// What has not been read of a text, and the number of the line that it begins with, from 1 on.
#[derive(Clone, Copy)]
pub struct Reader<'a> {
    rest: &'a [u8],
    line: u64,
    ghost some: { 1 ≤ line },
    ghost few: { line + length rest.now ≤ 16385 },
}

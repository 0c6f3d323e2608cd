// A sheet's lines: a line feed ends a line, and bytes after the last line feed are a last line.
ghost use Rattle.std.specs.Prelude.{◌≡◌, IfOk};
ghost use Rattle.std.specs.Iterator.{YieldsFirstRef, item_count};
ghost use Rattle.memchr.specs.Find.{IsFirstByte, is_byte};
ghost use Rattle.sheet.specs.Cutting.{FirstCut, NextCut, AllLines, lines_of, texts};

use memchr::memchr;
use std::alloc::{AllocError, Global};

/// Where the first line feed stands.
fn first_feed(sheet: &[u8]) -> Option<usize>
    ensures { IsFirstByte (is_byte 10) sheet.now result }
{
    match sheet {
        // Lines of fewer than eight bytes by themselves: `memchr` looks at a run of bytes before it answers, and the shortest lines
        // took twice as long so.
        [b'\n', _, _, _, _, _, _, _, ..] => Some(0),
        [_, b'\n', _, _, _, _, _, _, ..] => Some(1),
        [_, _, b'\n', _, _, _, _, _, ..] => Some(2),
        [_, _, _, b'\n', _, _, _, _, ..] => Some(3),
        [_, _, _, _, b'\n', _, _, _, ..] => Some(4),
        [_, _, _, _, _, b'\n', _, _, ..] => Some(5),
        [_, _, _, _, _, _, b'\n', _, ..] => Some(6),
        [_, _, _, _, _, _, _, b'\n', ..] => Some(7),
        _ => memchr(b'\n', sheet),
    }
}

/// The first line, and the bytes after it.
pub fn cut_line<'a>(sheet: &'a [u8]) -> Option<(&'a [u8], &'a [u8])>
    ensures { FirstCut sheet.now result }
{
    if sheet.is_empty() {
        return None;
    }
    match first_feed(sheet) {
        Some(feed) => Some((&sheet[..feed], &sheet[feed + 1..])),
        None => Some((sheet, &[])),
    }
}

/// The lines of a sheet that are still to come.
#[derive(Drop)]
pub struct Lines<'a> {
    rest: &'a [u8],
}

impl<'a> Lines<'a> {
    pub fn new(sheet: &'a [u8]) -> Lines<'a>
        ensures { result.rest.now ≡ sheet.now }
    {
        Lines { rest: sheet }
    }
}

impl<'a> Iterator for Lines<'a> {
    type Item = &'a [u8];

    ghost next_gives = { YieldsFirstRef (λ s. lines_of s.rest.now) };

    ghost remaining = { item_count (λ s. lines_of s.rest.now) };

    fn next(&mut self) -> Option<&'a [u8]>
        ensures cut { NextCut self.old.rest.now result self.new.rest.now }
    {
        let (line, rest) = cut_line(self.rest)?;
        self.rest = rest;
        Some(line)
    }
}

/// All lines of a sheet.
pub fn all_lines<'a>(heap: Global, sheet: &'a [u8]) -> Result<Vec<&'a [u8]>, AllocError>
    ensures { IfOk result (λ v. AllLines (texts v.items) sheet.now) }
{
    Lines::new(sheet).collect(heap)
}

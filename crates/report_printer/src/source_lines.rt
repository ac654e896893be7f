//! The lines of a source, found once.
ghost use Rattle.std.specs.Prelude.{◌≡◌, ◌<◌, ◌≤◌, ◌^◌, length, IfOk};
ghost use Rattle.memchr.specs.Find.{places, is_byte};
ghost use Rattle.report_printer.specs.SourceLines.{source_place, quoted_line};
ghost use Rattle.report_printer.specs.SourceSearch.{feeds_to, IsLineStart, IsLineEnd};

use memchr::memchr_iter;
use std::alloc::{AllocError, Global};

/// A source, and where its line feeds are.
#[derive(Drop)]
pub(crate) struct SourceLines<'s> {
    source: &'s [u8],
    feeds: Vec<usize>,
    ghost are_all: { feeds.items ≡ places (is_byte 10) source.now },
    ghost fits: { length source.now < 2 ^ 64 },
}

/// A line, and a column of it. Both count from 1.
#[derive(Clone, Copy)]
pub(crate) struct LineColumn {
    pub(crate) line: usize,
    pub(crate) column: usize,
}

impl<'s> SourceLines<'s> {
    /// Finds the line feeds of a source.
    ///
    /// # Errors
    /// [`AllocError`] if an allocation fails.
    pub(crate) fn new(alloc: Global, source: &'s [u8]) -> Result<SourceLines<'s>, AllocError>
        ensures { IfOk result (λ lines. lines.source.now ≡ source.now) }
    {
        let mut feeds = Vec::new(alloc);
        let mut found = memchr_iter(b'\n', source);
        'finding: while let Some(at) = found.next() {
            feeds.push(at)?;
        }
        Ok(SourceLines { source, feeds })
    }

    /// The line and the column of the byte at an offset; past the end, those of the end.
    pub(crate) fn place(&self, offset: u32) -> LineColumn
        ensures line { result.line ≡ (source_place self.now.source.now offset).line }
        ensures column { result.column ≡ (source_place self.now.source.now offset).column }
    {
        let at = usize::min(offset as usize, self.source.len());
        let feeds = self.feeds_before(at);
        LineColumn {
            line: feeds + 1,
            column: at - self.start_after(feeds) + 1,
        }
    }

    /// The line of the byte at an offset, without its line feed; past the end, the last line.
    pub(crate) fn quoted(&self, offset: u32) -> &[u8]
        ensures { result.now ≡ quoted_line self.now.source.now offset }
    {
        let at = usize::min(offset as usize, self.source.len());
        let feeds = self.feeds_before(at);
        &self.source[self.start_after(feeds)..self.end_after(feeds)]
    }

    /// How many line feeds there are before an offset.
    fn feeds_before(&self, at: usize) -> usize
        requires { at ≤ length self.now.source.now }
        ensures count { result ≡ feeds_to self.now.source.now at }
        ensures bound { result ≤ length self.now.feeds.items }
    {
        self.feeds.as_slice().partition_point(|feed| *feed < at)
    }

    /// Where the line begins that so many line feeds precede.
    fn start_after(&self, feeds: usize) -> usize
        requires { feeds ≤ length self.now.feeds.items }
        ensures { IsLineStart self.now.source.now feeds result }
    {
        if feeds == 0 {
            0
        } else {
            self.feeds[feeds - 1] + 1
        }
    }

    /// Where the line ends that so many line feeds precede.
    fn end_after(&self, feeds: usize) -> usize
        requires { feeds ≤ length self.now.feeds.items }
        ensures { IsLineEnd self.now.source.now feeds result }
    {
        if feeds < self.feeds.len() {
            self.feeds[feeds]
        } else {
            self.source.len()
        }
    }
}

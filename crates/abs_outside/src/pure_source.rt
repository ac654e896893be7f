//! A source that has one content under every name and never fails, for callers that have the bytes already.
ghost use Rattle.std.specs.Prelude.{◌≡◌, ℕ, ◌≤◌, List, [], Some, length, min, vec_len, IfOk, IsOk, OnOk, OnErr};
ghost use Rattle.std.specs.Io.KnownBytes.{ReadConsumes};
ghost use Rattle.abs_outside.specs.Counts.{Rose};
ghost use Rattle.abs_outside.specs.Names.{Selects, IsNotHeld};

use crate::{Failed, Source};

/// Holds one content under every name.
#[derive(Debug, Drop)]
pub struct PureSource {
    content: Vec<u8>,
    position: usize,
    ghost within: { position ≤ vec_len content },
}

impl PureSource {
    ghost use Rattle.abs_outside.specs.PureSource.{content_of, left_of};

    /// A source that holds this content under every name. Nothing is selected yet, so nothing is left to read.
    pub fn new(content: Vec<u8>) -> PureSource
        ensures content { content_of result ≡ content.items }
        ensures left { left_of result ≡ [] }
    {
        let position = content.len();
        PureSource { content, position }
    }

    /// The content that it holds under every name.
    pub fn content(&self) -> &Vec<u8>
        ensures { result.now.items ≡ content_of self.now }
    {
        &self.content
    }

    // The bytes that are left to read.
    fn left(&self) -> &[u8]
        ensures { result.now ≡ left_of self.now }
    {
        &self.content[self.position..]
    }
}

impl Source for PureSource {
    ghost use Rattle.abs_outside.specs.PureSource.{content_of, under_name, left_of, missing_of, faults_of};

    ghost under = { under_name };

    ghost left = { λ source. Some (left_of source) };

    ghost missing = { missing_of };

    ghost faults = { faults_of };

    fn select(&mut self, _name: &str) -> Result<(), Failed>
        ensures selected { OnOk result (Selects (under_name self.old _name.now) (Some (left_of self.new))) }
        ensures not_held { OnErr result (IsNotHeld (under_name self.old _name.now)) }
        ensures same_left { OnErr result (left_of self.new ≡ left_of self.old) }
        ensures same_names { (other : List ℕ) → under_name self.new other ≡ under_name self.old other }

        ensures counted { OnErr result (Rose (missing_of self.old) (missing_of self.new)) }
        ensures not_counted { OnOk result (missing_of self.new ≡ missing_of self.old) }
        ensures never_falls { missing_of self.old ≤ missing_of self.new }
        ensures same_faults { faults_of self.new ≡ faults_of self.old }

        // What this source promises besides: no selection fails.
        ensures succeeds { IsOk result }
        ensures same_content { content_of self.new ≡ content_of self.old }
    {
        self.position = 0;
        Ok(())
    }

    fn read(&mut self, buffer: &mut [u8]) -> Result<usize, Failed>
        ensures at_most { IfOk result (λ count. count ≤ length buffer.new) }
        ensures consumed { ReadConsumes (Some (left_of self.old)) (Some (left_of self.new)) result buffer.new }
        ensures same_names { (other : List ℕ) → under_name self.new other ≡ under_name self.old other }

        ensures counted { OnErr result (Rose (faults_of self.old) (faults_of self.new)) }
        ensures never_falls { faults_of self.old ≤ faults_of self.new }
        ensures same_missing { missing_of self.new ≡ missing_of self.old }

        // What this source promises besides: no read fails, and how many bytes each hands over.
        ensures succeeds { IsOk result }
        ensures count { IfOk result (λ count. count ≡ min (length buffer.old) (length (left_of self.old))) }
        ensures same_content { content_of self.new ≡ content_of self.old }
    {
        let left = self.left();
        let count = buffer.len().min(left.len());
        buffer[..count].copy_from_slice(&left[..count]);
        self.position += count;
        Ok(count)
    }
}

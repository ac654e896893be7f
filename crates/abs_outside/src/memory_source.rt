//! A source whose files are in memory, for tests and for callers that have the bytes already. How many bytes a read
//! hands over, and which reads fail, is chosen when it is made.
ghost use Rattle.std.specs.Prelude.{◌≡◌, ℕ, ◌<◌, ◌≤◌, ◌↔◌, List, [], Some, length, min, IfOk, IsErr, OnOk, OnErr, position};
ghost use Rattle.std.specs.Option.{ForSome};
ghost use Rattle.std.specs.Io.KnownBytes.{ReadConsumes};
ghost use Rattle.abs_outside.specs.CallOptions.{NextFails};
ghost use Rattle.abs_outside.specs.Calls.{one_more};
ghost use Rattle.abs_outside.specs.Counts.{Rose};
ghost use Rattle.abs_outside.specs.Files.{has_name, selected_content};
ghost use Rattle.abs_outside.specs.Names.{Selects, IsNotHeld};

use crate::{CallOptions, Failed, Source};

/// A file of a [`MemorySource`].
#[derive(Debug, Drop)]
pub struct NamedBytes {
    /// The bytes of its name.
    pub name: Vec<u8>,
    /// The bytes that are read from it.
    pub content: Vec<u8>,
}

/// Holds files in memory. If two files have one name, the first one counts. A read fails only if its number is among
/// those that are to fail.
#[derive(Debug, Drop)]
pub struct MemorySource {
    files: Vec<NamedBytes>,
    options: CallOptions,
    selected: Option<usize>,
    position: usize,
    reads: u64,
    faults: u64,
    missing: u64,
    // A read that hands over nothing means the end of the input, so each read before the end hands over something.
    ghost hands_over: { 0 < options.most },
    // The bytes that are left are those of a file that it holds.
    ghost held: { ForSome selected (λ index. index < length files.items) },
    ghost within: { position ≤ length (selected_content files.items selected) },
}

impl MemorySource {
    ghost use Rattle.abs_outside.specs.MemorySource.{files_of, options_of, reads_of, faults_of, missing_of, left_of};

    /// A source that holds these files, and whose reads go as the options say. Nothing is selected yet, so nothing is
    /// left to read.
    pub fn new(files: Vec<NamedBytes>, options: CallOptions) -> MemorySource
        requires { 0 < options.most }
        ensures files { files_of result ≡ files.items }
        ensures options { options_of result ≡ options }
        ensures left { left_of result ≡ [] }
        ensures reads { reads_of result ≡ 0 }
        ensures faults { faults_of result ≡ 0 }
        ensures missing { missing_of result ≡ 0 }
    {
        MemorySource {
            files,
            options,
            selected: None,
            position: 0,
            reads: 0,
            faults: 0,
            missing: 0,
        }
    }

    /// The files that it holds.
    pub fn files(&self) -> &Vec<NamedBytes>
        ensures { result.now.items ≡ files_of self.now }
    {
        &self.files
    }

    /// How its reads go.
    pub fn options(&self) -> &CallOptions
        ensures { result.now ≡ options_of self.now }
    {
        &self.options
    }

    // The index of the first file of this name.
    fn index_of(&self, name: &[u8]) -> Option<usize>
        ensures { result ≡ position (has_name name.now) (files_of self.now) }
    {
        self.files
            .iter()
            .position(|file| file.name.as_slice() == name)
    }

    // The bytes of the selected file that are left to read.
    fn left(&self) -> &[u8]
        ensures { result.now ≡ left_of self.now }
    {
        match self.selected {
            Some(index) => &self.files[index].content[self.position..],
            None => &[],
        }
    }
}

impl Source for MemorySource {
    ghost use Rattle.abs_outside.specs.MemorySource.{files_of, options_of, reads_of, faults_of, missing_of, left_of, under_name};

    ghost under = { under_name };

    ghost left = { λ source. Some (left_of source) };

    ghost missing = { missing_of };

    ghost faults = { faults_of };

    fn select(&mut self, name: &str) -> Result<(), Failed>
        ensures selected { OnOk result (Selects (under_name self.old name.now) (Some (left_of self.new))) }
        ensures not_held { OnErr result (IsNotHeld (under_name self.old name.now)) }
        ensures same_left { OnErr result (left_of self.new ≡ left_of self.old) }
        ensures same_names { (other : List ℕ) → under_name self.new other ≡ under_name self.old other }

        ensures counted { OnErr result (Rose (missing_of self.old) (missing_of self.new)) }
        ensures not_counted { OnOk result (missing_of self.new ≡ missing_of self.old) }
        ensures never_falls { missing_of self.old ≤ missing_of self.new }
        ensures same_faults { faults_of self.new ≡ faults_of self.old }

        // What this source promises besides: by how much the count rises, and what no selection changes.
        ensures one_missing { OnErr result (missing_of self.new ≡ one_more (missing_of self.old)) }
        ensures same_reads { reads_of self.new ≡ reads_of self.old }
        ensures same_files { files_of self.new ≡ files_of self.old }
        ensures same_options { options_of self.new ≡ options_of self.old }
    {
        match self.index_of(name.as_bytes()) {
            Some(index) => {
                self.selected = Some(index);
                self.position = 0;
                Ok(())
            }
            None => {
                self.missing = self.missing.saturating_add(1);
                Err(Failed)
            }
        }
    }

    fn read(&mut self, buffer: &mut [u8]) -> Result<usize, Failed>
        ensures at_most { IfOk result (λ count. count ≤ length buffer.new) }
        ensures consumed { ReadConsumes (Some (left_of self.old)) (Some (left_of self.new)) result buffer.new }
        ensures same_names { (other : List ℕ) → under_name self.new other ≡ under_name self.old other }

        ensures counted { OnErr result (Rose (faults_of self.old) (faults_of self.new)) }
        ensures never_falls { faults_of self.old ≤ faults_of self.new }
        ensures same_missing { missing_of self.new ≡ missing_of self.old }

        // What this source promises besides: which reads fail, how many bytes the others give, and what is counted.
        ensures fails { IsErr result ↔ NextFails (options_of self.old) (reads_of self.old) }
        ensures count { IfOk result
            (λ count. count ≡ min (min (options_of self.old).most (length buffer.old)) (length (left_of self.old))) }
        ensures one_read { reads_of self.new ≡ one_more (reads_of self.old) }
        ensures one_fault { OnErr result (faults_of self.new ≡ one_more (faults_of self.old)) }
        ensures no_fault { OnOk result (faults_of self.new ≡ faults_of self.old) }
        ensures same_files { files_of self.new ≡ files_of self.old }
        ensures same_options { options_of self.new ≡ options_of self.old }
    {
        self.reads = self.reads.saturating_add(1);
        if self.options.failing.contains(&self.reads) {
            self.faults = self.faults.saturating_add(1);
            return Err(Failed);
        }
        let left = self.left();
        let count = self.options.most.min(buffer.len()).min(left.len());
        buffer[..count].copy_from_slice(&left[..count]);
        self.position += count;
        Ok(count)
    }
}

//! A source over the files of the system: each name is a path.
ghost use Rattle.std.specs.Prelude.{◌≡◌, ℕ, ◌≤◌, List, Ok, IsSome, IsNone, length, IfOk, OnOk, OnErr};
ghost use Rattle.std.specs.Io.KnownBytes.{ReadConsumes};
ghost use Rattle.abs_outside.specs.Calls.{one_more};
ghost use Rattle.abs_outside.specs.Counts.{Rose};
ghost use Rattle.abs_outside.specs.FileSource.{missing_of, faults_of, under_name, left_of, selected_of, reported_by};
ghost use Rattle.abs_outside.specs.Names.{Selects, IsNotHeld};

use crate::{Failed, Source};
use std::fs;
use std::io::Read;
use std::rt::Files;

/// Reads files that the runtime opens. It does not tell their bytes, since a file may change at any time.
#[derive(Drop)]
pub struct FileSource<'a, R: Files> {
    rt: &'a R,
    selected: Option<R::File>,
    missing: u64,
    faults: u64,
}

impl<'a, R: Files> FileSource<'a, R> {
    /// A source of this runtime's files. Nothing is selected yet, so nothing is left to read.
    pub fn new(rt: &'a R) -> FileSource<'a, R>
        ensures selected { IsNone (selected_of result) }
        ensures missing { missing_of result ≡ 0 }
        ensures faults { faults_of result ≡ 0 }
    {
        FileSource {
            rt,
            selected: None,
            missing: 0,
            faults: 0,
        }
    }
}

impl<R: Files> Source for FileSource<'_, R> {
    ghost under = { under_name };

    ghost left = { left_of };

    ghost missing = { missing_of };

    ghost faults = { faults_of };

    fn select(&mut self, name: &str) -> Result<(), Failed>
        ensures selected { OnOk result (Selects (under_name self.old name.now) (left_of self.new)) }
        ensures not_held { OnErr result (IsNotHeld (under_name self.old name.now)) }
        ensures same_left { OnErr result (left_of self.new ≡ left_of self.old) }
        ensures same_names { (other : List ℕ) → under_name self.new other ≡ under_name self.old other }

        ensures counted { OnErr result (Rose (missing_of self.old) (missing_of self.new)) }
        ensures not_counted { OnOk result (missing_of self.new ≡ missing_of self.old) }
        ensures never_falls { missing_of self.old ≤ missing_of self.new }
        ensures same_faults { faults_of self.new ≡ faults_of self.old }

        // What this source promises besides: which file is selected after the call, and by how much the count rises.
        ensures some_selected { OnOk result (IsSome (selected_of self.new)) }
        ensures same_selected { OnErr result (selected_of self.new ≡ selected_of self.old) }
        ensures one_missing { OnErr result (missing_of self.new ≡ one_more (missing_of self.old)) }
    {
        match fs::open(self.rt, name) {
            Ok(file) => {
                self.selected = Some(file);
                Ok(())
            }
            Err(_) => {
                self.missing = self.missing.saturating_add(1);
                Err(Failed)
            }
        }
    }

    fn read(&mut self, buffer: &mut [u8]) -> Result<usize, Failed>
        ensures at_most { IfOk result (λ count. count ≤ length buffer.new) }
        ensures consumed { ReadConsumes (left_of self.old) (left_of self.new) result buffer.new }
        ensures same_names { (other : List ℕ) → under_name self.new other ≡ under_name self.old other }

        ensures counted { OnErr result (Rose (faults_of self.old) (faults_of self.new)) }
        ensures never_falls { faults_of self.old ≤ faults_of self.new }
        ensures same_missing { missing_of self.new ≡ missing_of self.old }

        // What this source promises besides: it gives what the selected file gives, and by how much the count rises.
        ensures none_selected { IsNone (selected_of self.old) → result ≡ Ok 0 }
        ensures handed_over { ReadConsumes
            (reported_by R.File.Read.remaining (selected_of self.old))
            (reported_by R.File.Read.remaining (selected_of self.new)) result buffer.new }
        ensures one_fault { OnErr result (faults_of self.new ≡ one_more (faults_of self.old)) }
        ensures no_fault { OnOk result (faults_of self.new ≡ faults_of self.old) }
    {
        let Some(file) = &mut self.selected else {
            return Ok(0);
        };
        match file.read(buffer) {
            Ok(count) => Ok(count),
            Err(_) => {
                self.faults = self.faults.saturating_add(1);
                Err(Failed)
            }
        }
    }
}

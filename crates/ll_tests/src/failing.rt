//! A source that fails.

ghost use Rattle.std.specs.Prelude.{◌≡◌, None};

use ll_audit::{MemorySource, Source, SourceFault};
use std::alloc::Global;

/// Files in memory, as names beside their bytes, that can be read until the source fails.
#[derive(Drop)]
pub struct FailingSource<'a> {
    files: &'a [(&'a str, &'a [u8])],
    good_calls: u64,
    fault: SourceFault,
    failures: u64,
}

impl<'a> FailingSource<'a> {
    /// A source that fails with a fault once it was asked for this many files. None has failed yet.
    pub fn new(
        files: &'a [(&'a str, &'a [u8])],
        good_calls: u64,
        fault: SourceFault,
    ) -> FailingSource<'a>
        ensures files { result.files.now ≡ files.now }
        ensures calls { result.good_calls ≡ good_calls }
        ensures fault { result.fault ≡ fault }
        ensures none_failed { result.failures ≡ 0 }
    {
        FailingSource {
            files,
            good_calls,
            fault,
            failures: 0,
        }
    }
}

impl<'a> Source for FailingSource<'a> {
    ghost files = { λ _. None };

    ghost failed = { λ source. source.failures };

    fn bytes_of(&mut self, alloc: Global, name: &str) -> Result<Vec<u8>, SourceFault> {
        let read = if self.good_calls == 0 {
            Err(self.fault)
        } else {
            self.good_calls -= 1;
            MemorySource::new(self.files).bytes_of(alloc, name)
        };
        if let Err(SourceFault::Unread) = read {
            self.failures += 1;
        }
        read
    }

    fn failures(&self) -> u64 {
        self.failures
    }
}

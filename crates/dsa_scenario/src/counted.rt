//! A reader that is counted.

ghost use Rattle.std.specs.Prelude.{◌≡◌, ◌⊎◌, ◌<◌, ◌≤◌, ◌+◌, ◌^◌, false, length, OnOk, OnErr, IfOk, IfErr, IsErrOf};
ghost use Rattle.std.specs.Io.{ReadsAtMost};
ghost use Rattle.std.specs.Io.KnownBytes.{ReadConsumes};
ghost use Rattle.dsa_scenario.specs.Counted.{counted_remaining, asked_of, given_of, last_given};
ghost use Rattle.dsa_scenario.specs.Counted.{has_reader_failed, IsSameReader};
ghost use Rattle.dsa_scenario.specs.Faults.{IsFaultNoted};

use crate::faults::ScenarioFault;
use std::io::Read;

/// A reader that is counted: how often it was asked, and how many bytes it gave, in all and last.
/// It notes whether an answer was an error.
///
/// The reader behind it is asked here alone.
#[derive(Drop)]
pub struct CountedReader<'r, R: Read> {
    reader: &'r mut R,
    asked: usize,
    given: usize,
    last: usize,
    failed: bool,
}

impl<'r, R: Read> CountedReader<'r, R> {
    /// The reader, which was asked for nothing yet.
    pub fn new(reader: &'r mut R) -> CountedReader<'r, R>
        ensures same_reference { result.reader.ghost_name ≡ reader.entry.ghost_name }
        ensures reader { result.reader.now ≡ reader.old }
        ensures asked { asked_of result ≡ 0 }
        ensures given { given_of result ≡ 0 }
        ensures failed { has_reader_failed result ≡ false }
    {
        CountedReader {
            reader,
            asked: 0,
            given: 0,
            last: 0,
            failed: false,
        }
    }

    /// One read, which is counted where the reader is asked. Want of memory says that the number of
    /// reads or that of bytes may not fit, and then the reader is not asked.
    pub fn read_once(&mut self, chunk: &mut [u8]) -> Result<usize, ScenarioFault>
        ensures bound { ReadsAtMost result chunk.new }
        ensures bytes { ReadConsumes (counted_remaining R.remaining self.old)
            (counted_remaining R.remaining self.new) result chunk.new }
        ensures same_reader { IsSameReader self.old self.new }
        ensures counted { OnOk result (asked_of self.new ≡ asked_of self.old + 1) }
        ensures tried { IsErrOf result ScenarioFault.Read
            → asked_of self.new ≡ asked_of self.old + 1 }
        ensures memory { IsErrOf result ScenarioFault.OutOfMemory
            → (self.new ≡ self.old)
            × ((2 ^ 64 ≤ asked_of self.old + 1)
            ⊎ (2 ^ 64 ≤ given_of self.old + length chunk.old)) }
        ensures once { asked_of self.new ≤ asked_of self.old + 1 }
        ensures fits { asked_of self.new < 2 ^ 64 }
        ensures given { IfOk result (λ count. given_of self.new ≡ given_of self.old + count) }
        ensures nothing { OnErr result (given_of self.new ≡ given_of self.old) }
        ensures last { IfOk result (λ count. last_given self.new ≡ count) }
        ensures failed { IsFaultNoted ScenarioFault.Read result (has_reader_failed self.old)
            (has_reader_failed self.new) }
        ensures faults { IfErr result (λ e. (e ≡ ScenarioFault.Read)
            ⊎ (e ≡ ScenarioFault.OutOfMemory)) }
    {
        let Some(asked) = self.asked.checked_add(1) else {
            return Err(ScenarioFault::OutOfMemory);
        };
        if self.given.checked_add(chunk.len()).is_none() {
            return Err(ScenarioFault::OutOfMemory);
        }
        self.asked = asked;
        match self.reader.read(chunk) {
            Ok(count) => {
                self.given += count;
                self.last = count;
                Ok(count)
            }
            Err(_) => {
                self.failed = true;
                Err(ScenarioFault::Read)
            }
        }
    }
}

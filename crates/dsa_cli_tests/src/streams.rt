//! Documents and dialogues, with readers that give little or fail, and writers that take little or
//! fail.
//!
//! No contract says how often a reader or a writer is asked. Here it is counted, also where one
//! call fails and those after it would work.

mod dialogues;
mod documents;

use crate::runs::are_same;
use dsa_fixtures::streams::{Course, Narrow, Trickle};
use dsa_scenario::{ScenarioFault, WatchedWriter, run_scenario};
use dsa_serve::serve_watched;
use std::alloc::Global;
use std::io::ErrorKind;
use std::process::Abort;

// How many bytes the reader gives a call and before a call fails, how many the writer takes, what
// comes of it, what the writer has then, and how often the reader and the writer were asked.
type Row = (
    (usize, usize),
    (usize, usize),
    Result<(), ScenarioFault>,
    &'static str,
    (u32, u32),
);

const READ: Result<(), ScenarioFault> = Err(ScenarioFault::Read);

const WRITE: Result<(), ScenarioFault> = Err(ScenarioFault::Write);

const KINDS: [ErrorKind; 42] = [
    ErrorKind::NotFound,
    ErrorKind::PermissionDenied,
    ErrorKind::ConnectionRefused,
    ErrorKind::ConnectionReset,
    ErrorKind::HostUnreachable,
    ErrorKind::NetworkUnreachable,
    ErrorKind::ConnectionAborted,
    ErrorKind::NotConnected,
    ErrorKind::AddrInUse,
    ErrorKind::AddrNotAvailable,
    ErrorKind::NetworkDown,
    ErrorKind::BrokenPipe,
    ErrorKind::AlreadyExists,
    ErrorKind::WouldBlock,
    ErrorKind::NotADirectory,
    ErrorKind::IsADirectory,
    ErrorKind::DirectoryNotEmpty,
    ErrorKind::ReadOnlyFilesystem,
    ErrorKind::FilesystemLoop,
    ErrorKind::StaleNetworkFileHandle,
    ErrorKind::InvalidInput,
    ErrorKind::InvalidData,
    ErrorKind::TimedOut,
    ErrorKind::WriteZero,
    ErrorKind::StorageFull,
    ErrorKind::NotSeekable,
    ErrorKind::QuotaExceeded,
    ErrorKind::FileTooLarge,
    ErrorKind::ResourceBusy,
    ErrorKind::ExecutableFileBusy,
    ErrorKind::Deadlock,
    ErrorKind::CrossesDevices,
    ErrorKind::TooManyLinks,
    ErrorKind::InvalidFilename,
    ErrorKind::ArgumentListTooLong,
    ErrorKind::Interrupted,
    ErrorKind::Unsupported,
    ErrorKind::UnexpectedEof,
    ErrorKind::OutOfMemory,
    ErrorKind::InProgress,
    ErrorKind::Other,
    ErrorKind::Uncategorized,
];

// What reads the bytes and writes the lines.
#[derive(Clone, Copy)]
enum Way {
    Document,
    Dialogue,
}

impl Way {
    fn run(
        self,
        alloc: Global,
        reader: &mut Trickle,
        writer: &mut Narrow,
    ) -> Result<(), ScenarioFault> {
        match self {
            Way::Document => run_scenario(alloc, reader, writer),
            Way::Dialogue => serve_watched(alloc, reader, &mut WatchedWriter::new(writer)),
        }
    }

    // The bytes lead to what the row says, where a call that fails does so by an error of the kind.
    fn leads(
        self,
        rt: &impl Abort,
        alloc: Global,
        bytes: &[u8],
        (number, &(given, taken, answer, lines, calls)): (usize, &Row),
        (fails_once, kind): (bool, ErrorKind),
    ) {
        let mut reader = Trickle::new(bytes, Course::new(given, fails_once).of_kind(kind));
        let mut writer = Narrow::new(alloc, Course::new(taken, fails_once).of_kind(kind));
        let result = self.run(alloc, &mut reader, &mut writer);
        let taken = writer.taken.as_slice();
        are_same(rt, &[], &(number, result), &(number, answer));
        are_same(rt, &[], &(number, taken), &(number, lines.as_bytes()));
        are_same(rt, &[], &(reader.calls, writer.calls), &calls);
    }

    // The same for each row, where all calls fail after the first that does, and where it alone
    // fails.
    fn leads_each(self, rt: &impl Abort, alloc: Global, bytes: &[u8], rows: &[Row]) {
        for row in rows.iter().enumerate() {
            self.leads(rt, alloc, bytes, row, (false, ErrorKind::Other));
            self.leads(rt, alloc, bytes, row, (true, ErrorKind::Other));
        }
    }

    // The same where one call fails, by an error of each kind.
    fn leads_by_each_kind(self, rt: &impl Abort, alloc: Global, bytes: &[u8], rows: &[Row]) {
        for kind in KINDS {
            for row in rows.iter().enumerate() {
                self.leads(rt, alloc, bytes, row, (true, kind));
            }
        }
    }
}

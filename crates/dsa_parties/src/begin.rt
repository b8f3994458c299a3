//! Where the parties of a script begin, and what its labels say.

ghost use Rattle.std.specs.Prelude.{◌≡◌, IfOk, false, map};
ghost use Rattle.dsa_parties.specs.declared.script.Part.{Part};
ghost use Rattle.dsa_parties.specs.declared.watches.Watch.{Watch};
ghost use Rattle.dsa_parties.specs.Described.{as_description, described_by, description_of};
ghost use Rattle.dsa_parties.specs.Standing.{place_first, stand_of, standing_first};

use crate::places::{ClientPlace, EntryDescription, Places};
use crate::script::{ClientScript, Origin, Part, Script};
use crate::watches::Watch;
use dsa_book::Kind;
use dsa_desc::Descriptor;
use std::alloc::{AllocError, Global};

/// Each of these clients at the begin of its part.
pub fn first_client_places(
    alloc: Global,
    clients: &[ClientScript],
) -> Result<Vec<ClientPlace>, AllocError>
    ensures { IfOk result (λ places. places.items ≡ map place_first clients.now) }
{
    clients
        .iter()
        .map(|client| ClientPlace {
            next: client.part.first,
            refusals: 0,
        })
        .collect(alloc)
}

/// The first number of each of these parts.
pub fn first_numbers(alloc: Global, parts: &[Part]) -> Result<Vec<u32>, AllocError>
    ensures { IfOk result (λ numbers. numbers.items ≡ map (λ (part : Part). part.first) parts.now) }
{
    parts.iter().map(|part| part.first).collect(alloc)
}

/// None of these watches has come.
pub fn first_marks(alloc: Global, watches: &[Watch]) -> Result<Vec<bool>, AllocError>
    ensures { IfOk result (λ came. came.items ≡ map (λ (watch : Watch). false) watches.now) }
{
    watches.iter().map(|_| false).collect(alloc)
}

impl Script {
    /// Each party at the begin of its part, and nothing has come.
    pub fn first_places(&self, alloc: Global) -> Result<Places, AllocError>
        ensures { IfOk result (λ places. stand_of places ≡ standing_first self.now) }
    {
        let clients = first_client_places(alloc, self.clients.as_slice())?;
        let administrators = first_numbers(alloc, self.administrators.as_slice())?;
        let came = first_marks(alloc, self.watches.as_slice())?;
        Ok(Places {
            clients,
            administrators,
            came,
        })
    }

    /// What a label says of its entry.
    pub fn description(&self, label: u32) -> EntryDescription
        ensures { as_description result ≡ described_by self.now label }
    {
        let Some(entry) = self.entries.get(label as usize).copied() else {
            return EntryDescription {
                desc: Descriptor {
                    pasid: 0,
                    flags: 0,
                    op: 0,
                    size: 0,
                },
                queue: 0,
                kind: Kind::Movdir64b,
                member: false,
            };
        };
        match entry.origin {
            Origin::Submitted(submission) => EntryDescription {
                desc: entry.desc,
                queue: submission.queue,
                kind: submission.kind,
                member: false,
            },
            Origin::Fetched { batch } => self.member_description(entry.desc, batch),
        }
    }

    /// What the label of a member says, which has this descriptor and is of this batch.
    pub fn member_description(&self, desc: Descriptor, batch: u32) -> EntryDescription
        ensures { as_description result
            ≡ description_of self.now.entries.items desc (Origin.Fetched batch) }
    {
        match self.submission(batch) {
            Some(submission) => EntryDescription {
                desc,
                queue: submission.queue,
                kind: submission.kind,
                member: true,
            },
            None => EntryDescription {
                desc,
                queue: 0,
                kind: Kind::Movdir64b,
                member: true,
            },
        }
    }
}

//! Scripts of tables that fit.

ghost use Rattle.std.specs.Prelude.{◌≡◌, ◌<◌, IfSome, is_some, length, map, slice_get};
ghost use Rattle.std.specs.List.{list_all};
ghost use Rattle.dsa_base.specs.{Rows.{passes}, Numbers.{numbers_below}};
ghost use Rattle.dsa_parties.specs.declared.script.{ClientScript.{ClientScript}, ScriptEntry.{ScriptEntry}};
ghost use Rattle.dsa_parties.specs.Scripts.{are_in_order, are_parts, counts_members, is_boundary, is_fetched_for, is_in_order, is_member_at, is_member_label, is_script, member_count, member_label};

use crate::script::{Act, ClientScript, Origin, Part, Script, ScriptEntry};
use crate::watches::Watch;
use dsa_desc::Descriptor;

// Whether it is fetched for the batch with this label.
fn is_fetched_for(batch: usize, origin: Origin) -> bool
    ensures { result ≡ is_fetched_for batch origin }
{
    match origin {
        Origin::Submitted(_) => false,
        Origin::Fetched { batch: other } => other as usize == batch,
    }
}

// Whether the entry with this label is a member of the batch with that label.
fn is_member_at(entries: &[ScriptEntry], batch: usize, label: usize) -> bool
    ensures { result ≡ is_member_at entries.now batch label }
{
    match entries.get(label).copied() {
        Some(entry) => is_fetched_for(batch, entry.origin),
        None => false,
    }
}

// Whether the members of the batch with this label stand behind it.
fn has_members_behind(entries: &[ScriptEntry], label: usize, members: u32) -> bool
    requires { label < length entries.now }
    ensures { result
        ≡ list_all (λ k. is_member_at entries.now label (member_label label k))
        (numbers_below members) }
{
    for k in 0..members {
        if !is_member_at(entries, label, label + 1 + k as usize) {
            return false;
        }
    }
    true
}

// How many members the entry with this label has.
fn member_count(entries: &[ScriptEntry], label: u32) -> u32
    ensures { result ≡ member_count entries.now label }
{
    match entries.get(label as usize).copied() {
        Some(entry) => match entry.origin {
            Origin::Submitted(submission) => submission.members,
            Origin::Fetched { .. } => 0,
        },
        None => 0,
    }
}

// Whether the label is of a member of the batch with that label.
fn is_member_label(entries: &[ScriptEntry], batch: u32, label: usize) -> bool
    ensures { result ≡ is_member_label entries.now batch label }
{
    let first = batch as usize;
    first < label && label <= first + member_count(entries, batch) as usize
}

// Whether it has no members, or is a Batch that counts as many.
fn counts_members(desc: &Descriptor, members: u32) -> bool
    ensures { result ≡ counts_members desc.now members }
{
    members == 0 || (desc.is_batch() && members == desc.size)
}

// Whether the entry stands at this label as it may.
fn is_in_order(entries: &[ScriptEntry], label: usize, entry: ScriptEntry) -> bool
    requires { label < length entries.now }
    ensures { result ≡ is_in_order entries.now label entry.desc entry.origin }
{
    match entry.origin {
        Origin::Submitted(submission) => {
            counts_members(&entry.desc, submission.members)
                && has_members_behind(entries, label, submission.members)
        }
        Origin::Fetched { batch } => is_member_label(entries, batch, label),
    }
}

// Whether the entry with this label stands as it may.
fn is_in_order_at(entries: &[ScriptEntry], label: usize) -> bool
    ensures { result
        ≡ passes
        (λ (e : ScriptEntry). is_in_order entries.now label e.desc e.origin)
        (slice_get entries.now label) }
{
    match entries.get(label).copied() {
        Some(entry) => is_in_order(entries, label, entry),
        None => false,
    }
}

// Whether each entry stands as it may.
fn are_in_order(entries: &[ScriptEntry]) -> bool
    ensures { result ≡ are_in_order entries.now }
{
    for label in 0..entries.len() {
        if !is_in_order_at(entries, label) {
            return false;
        }
    }
    true
}

// Whether no member stands at this label.
fn is_boundary(entries: &[ScriptEntry], label: u32) -> bool
    ensures { result ≡ is_boundary entries.now label }
{
    match entries.get(label as usize).copied() {
        Some(entry) => matches!(entry.origin, Origin::Submitted(_)),
        None => true,
    }
}

// Whether the parts of these clients stand one behind the other, up to this end.
fn are_client_parts(clients: &[ClientScript], end: usize) -> bool
    ensures { result ≡ are_parts 0 end (map (λ (client : ClientScript). client.part) clients.now) }
{
    let mut from = 0;
    for client in clients {
        if client.part.first != from || client.part.end < from {
            return false;
        }
        from = client.part.end;
    }
    from as usize == end
}

// Whether these parts stand one behind the other, up to this end.
fn are_parts(parts: &[Part], end: usize) -> bool
    ensures { result ≡ are_parts 0 end parts.now }
{
    let mut from = 0;
    for part in parts {
        if part.first != from || part.end < from {
            return false;
        }
        from = part.end;
    }
    from as usize == end
}

// Whether no client's part ends within a batch.
fn end_at_boundaries(entries: &[ScriptEntry], clients: &[ClientScript]) -> bool
    ensures { result
        ≡ list_all (λ (client : ClientScript). is_boundary entries.now client.part.end)
        clients.now }
{
    clients
        .iter()
        .all(|client| is_boundary(entries, client.part.end))
}

/// Whether these tables fit.
pub fn is_script(
    entries: &[ScriptEntry],
    clients: &[ClientScript],
    acts: &[Act],
    administrators: &[Part],
) -> bool
    ensures { result ≡ is_script entries.now clients.now acts.now administrators.now }
{
    are_in_order(entries)
        && end_at_boundaries(entries, clients)
        && are_client_parts(clients, entries.len())
        && are_parts(administrators, acts.len())
        && entries.len() < 1 << 32
        && acts.len() < 1 << 32
        && clients.len() <= 1 << 16
        && administrators.len() <= 1 << 16
}

impl Script {
    /// The script of these tables, if they fit.
    pub fn new(
        entries: Vec<ScriptEntry>,
        clients: Vec<ClientScript>,
        acts: Vec<Act>,
        administrators: Vec<Part>,
        engines: Vec<u16>,
        watches: Vec<Watch>,
    ) -> Option<Script>
        ensures fits { is_some result
            ≡ is_script entries.items clients.items acts.items administrators.items }
        ensures same { IfSome result (λ script.
            (script.entries ≡ entries)
            × (script.clients ≡ clients)
            × (script.acts ≡ acts)
            × (script.administrators ≡ administrators)
            × (script.engines ≡ engines)
            × (script.watches ≡ watches)) }
    {
        if !is_script(&entries, &clients, &acts, &administrators) {
            return None;
        }
        Some(Script {
            entries,
            clients,
            acts,
            administrators,
            engines,
            watches,
        })
    }

    /// The same script with these watches in place of its own.
    pub fn watching(mut self, watches: Vec<Watch>) -> Script
        ensures { result ≡ record self { watches = watches } }
    {
        self.watches = watches;
        self
    }
}

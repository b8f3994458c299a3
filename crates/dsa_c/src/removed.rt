//! How many entries an abort or a reset removes.

ghost use Rattle.std.specs.Prelude.{◌≡◌, count_by};
ghost use Rattle.dsa_regs.specs.Caps.{HasList, list_number};
ghost use Rattle.dsa_store.specs.Content.{chain};
ghost use Rattle.dsa_book.specs.Commands.{is_in_scope};
ghost use Rattle.dsa_c.specs.Reasons.{in_32_bits, removed_count};

use dsa_admin::is_in_scope;
use dsa_device::Device;
use dsa_explain::entries_of_list;
use dsa_regs::{Command, ListUse, Scope, list_count};
use dsa_store::EntryStore;

// How many entries of the list are of the scope.
fn count_in<S: EntryStore>(device: &Device<S>, scope: &Scope, list: ListUse) -> u32
    requires { HasList device.now.caps list }
    ensures { result
        ≡ in_32_bits (count_by (λ pair. is_in_scope scope.now pair.1)
        (chain device.now.state.work.content (list_number device.now.caps list))) }
{
    let mut count: u32 = 0;
    for (_cell, entry) in entries_of_list(device, list) {
        if is_in_scope(scope, &entry) {
            count = count.saturating_add(1);
        }
    }
    count
}

/// How many entries the command removes, where it is an abort or a reset.
pub(crate) fn count_removed<S: EntryStore>(device: &Device<S>, command: &Command) -> u32
    ensures { result ≡ removed_count device.now.state command.now }
{
    device.state_is_replay();
    let caps = device.caps();
    let scope = command.scope();
    let mut count: u32 = 0;
    for number in 0..list_count(&caps) {
        count = count.saturating_add(count_in(device, &scope, caps.list_use(number)));
    }
    count
}

//! Read buffers that are kept for a group.

ghost use Rattle.std.specs.Prelude.{◌≡◌, nat_lt};
ghost use Rattle.dsa_base.specs.Rows.{when};
ghost use Rattle.dsa_buffers.specs.Buffers.{kept_for};
ghost use Rattle.dsa_engines.specs.Engines.{buffers_at};

use dsa_buffers::kept;
use dsa_device::Device;
use dsa_store::EntryStore;

/// How many read buffers are kept for the group: what it has reserved and does not use. `None`
/// exactly when the device has no such group.
pub fn kept_for<S: EntryStore>(device: &Device<S>, group: u16) -> Option<u16>
    ensures { result
        ≡ when (nat_lt group device.now.caps.groups)
        (kept_for (buffers_at device.now.state.work) group) }
{
    device.state_is_replay();
    let used = device.used(group)?;
    let config = device.group_config(group)?;
    Some(kept(config.reserved, used))
}

//! Sixteen read buffers, of which each of three groups has 4 reserved and is allowed 8.

ghost use Rattle.std.specs.Prelude.{◌≡◌, length};

use dsa_buffers::ReadBuffers;
use dsa_fixtures::FIRST_GROUP;
use std::process::Abort;

const GROUPS: u16 = 3;

// The group takes four more, which fit.
fn take(rt: &impl Abort, buffers: &mut ReadBuffers, group: u16)
    requires { length buffers.old.groups ≡ 3 }
    ensures { length buffers.new.groups ≡ 3 }
{
    assert!(rt; group < GROUPS);
    assert!(rt; buffers.fits(group, 4));
    buffers.take(group, 4);
}

// The group gives four back.
fn give(rt: &impl Abort, buffers: &mut ReadBuffers, group: u16)
    requires { length buffers.old.groups ≡ 3 }
    ensures { length buffers.new.groups ≡ 3 }
{
    assert!(rt; group < GROUPS);
    assert!(rt; buffers.used(group) >= 4);
    buffers.give(group, 4);
}

#[test]
fn reserved_buffers_are_left_to_their_group(rt: HostRuntime) {
    let mut buffers = ReadBuffers::new(16, &[FIRST_GROUP; 3]);
    take(&rt, &mut buffers, 0);
    take(&rt, &mut buffers, 0);
    take(&rt, &mut buffers, 1);
    // Four are free, and they are the reserve of the last group.
    claim!(&rt; !buffers.fits(1, 4));
    claim!(&rt; buffers.fits(2, 4));
    claim!(&rt; !buffers.fits(0, 1));
    claim!(&rt; buffers.used(0) == 8);
    give(&rt, &mut buffers, 0);
    claim!(&rt; buffers.used(0) == 4);
    claim!(&rt; buffers.fits(1, 4));
}

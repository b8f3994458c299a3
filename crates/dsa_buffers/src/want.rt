//! The numbers by which more read buffers do not fit a group.

ghost use Rattle.std.specs.Prelude.{◌≡◌, ◌<◌, ◌==◌, ◌-◌, cond, length};
ghost use Rattle.dsa_buffers.specs.Buffers.{buffers_in_use, kept_for, kept_from, want_of};

use crate::ReadBuffers;

/// So many read buffers are asked for of a group, and do not fit: the group would use more than it
/// is allowed, or the device has fewer than would be in use or kept.
#[derive(Clone, Copy, Debug, PartialEq, Eq)]
pub struct BufferWant {
    /// The group.
    pub group: u16,
    /// How many are asked for.
    pub asked: u8,
    /// How many the group uses.
    pub used: u16,
    /// How many the group may use.
    pub allowed: u16,
    /// How many the device has.
    pub buffers: u16,
    /// How many of them all groups use.
    pub in_use: u32,
    /// How many are kept for other groups, which have reserved and do not use them.
    pub kept: u32,
}

/// How many read buffers are kept for a group that has so many reserved and uses so many.
pub fn kept(reserved: u16, used: u16) -> u16
    ensures { result ≡ reserved - used }
{
    reserved.saturating_sub(used)
}

impl ReadBuffers {
    // How many all groups use.
    fn in_use(&self) -> u32
        ensures { result ≡ buffers_in_use self.now }
    {
        let mut sum: u32 = 0;
        for group in 0..self.groups.len() {
            sum += u32::from(self.used[group]);
        }
        sum
    }

    // How many are kept for the other group, where it is another.
    fn kept_for_other(&self, group: usize, other: usize) -> u16
        requires { other < length self.now.groups }
        ensures { result ≡ cond (other == group) 0 (kept_for self.now other) }
    {
        if other == group {
            return 0;
        }
        kept(self.groups[other].reserved, self.used[other])
    }

    // How many are kept for the groups but this one.
    fn kept_from(&self, group: usize) -> u32
        ensures { result ≡ kept_from self.now group }
    {
        let mut sum: u32 = 0;
        for other in 0..self.groups.len() {
            sum += u32::from(self.kept_for_other(group, other));
        }
        sum
    }

    /// The numbers of the group that so many are asked for.
    pub fn want(&self, group: u16, asked: u8) -> BufferWant
        requires { group < length self.now.groups }
        ensures { result ≡ want_of self.now group asked }
    {
        let g = usize::from(group);
        BufferWant {
            group,
            asked,
            used: self.used[g],
            allowed: self.groups[g].allowed,
            buffers: self.total,
            in_use: self.in_use(),
            kept: self.kept_from(g),
        }
    }
}

//! What C holds of a device.

ghost use Rattle.std.specs.Prelude.{◌≡◌, Some, None, is_some, option_map};

use crate::place::Place;
use crate::unboxed::Unboxed;
use dsa_linked::LinkedDevice;
use std::alloc::Global;

/// A device that C holds, or none. C makes one of zeros, and never writes to it.
#[repr(C)]
pub struct Handle {
    pub(crate) place: Place,
    pub(crate) holds: bool,
    ghost agrees: { holds ≡ is_some place.machine },
}

// Binds the device behind a handle to a name. Where there is none, the function returns the value.
macro_rules! let_device {
    ($device:ident, $handle:ident, $value:expr) => {
        if !$handle.holds {
            return $value;
        }
        let $device = &mut $handle.place.machine().device;
    };
}

pub(crate) use let_device;

// A value that may go to another thread, as C may take a handle there.
fn crossing<T: Send>(value: T) -> T
    ensures { result ≡ value }
{
    value
}

impl Handle {
    /// The handle of no device.
    pub(crate) fn closed(alloc: Global) -> Handle
        ensures { result.place.machine ≡ None }
    {
        Handle {
            place: Place::empty(alloc),
            holds: false,
        }
    }

    /// The handle of this machine.
    fn of(machine: Box<LinkedDevice>) -> Handle
        ensures { result.place.machine ≡ Some machine.value }
    {
        Handle {
            place: Place::of(Unboxed::of(machine)),
            holds: true,
        }
    }

    fn into_box(self) -> Option<Box<LinkedDevice>>
        ensures { option_map (λ machine. machine.value) result ≡ self.place.machine }
    {
        let Handle { place, holds } = self;
        if holds {
            return Some(place.unboxed().boxed());
        }
        None
    }

    /// Puts the machine in. One that was there is let go.
    pub(crate) fn put(&mut self, machine: Box<LinkedDevice>)
        ensures { self.new.place.machine ≡ Some machine.value }
    {
        *self = crossing(Handle::of(machine));
    }
}

impl Drop for Handle {
    fn drop(self) {
        drop(self.into_box());
    }
}

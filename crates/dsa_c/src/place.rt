//! Where a machine lies, by a pointer that C may keep.

ghost use Rattle.std.specs.Prelude.{◌≡◌, Some, None, IsSome};
ghost use Rattle.std.specs.Borrow.{sem};
ghost use Rattle.dsa_c.specs.Place.{HeldDevice, held_device_coded};

use crate::unboxed::Unboxed;
use dsa_linked::LinkedDevice;
use std::alloc::Global;
use std::marker::Model;

/// A machine on the heap, or none. The pointer's type does not say what lies there, so that C may
/// keep it.
#[repr(C)]
#[derive(Drop)]
pub struct Place {
    at: *mut u8,
    alloc: Global,
    pub ghost machine: { HeldDevice } by { held_device_coded },
}

// A machine may go to another thread, and so may its place.
unsafe impl Send for Place {}

impl Model for Place {
    ghost use Rattle.dsa_c.specs.Place.{place_owns};

    ghost also_owns = { λ p. place_owns p.alloc p.at p.machine };
}

impl Place {
    ghost use Rattle.dsa_c.specs.Lending.{LendsDevice};

    /// The place of no machine.
    pub(crate) fn empty(alloc: Global) -> Place
        ensures { result.machine ≡ None }
    {
        Place {
            at: std::ptr::null_mut(),
            alloc,
        }
    }

    /// The place of this machine.
    pub(crate) fn of(machine: Unboxed<LinkedDevice, Global>) -> Place
        ensures { result.machine ≡ Some machine.value }
    {
        let Unboxed { to, alloc } = machine;
        Place {
            at: to as *mut u8,
            alloc,
        }
    }

    /// The machine that lies there.
    pub(crate) fn unboxed(self) -> Unboxed<LinkedDevice, Global>
        requires { IsSome self.machine }
        ensures { self.machine ≡ Some result.value }
    {
        let Place { at, alloc } = self;
        Unboxed {
            to: at as *mut LinkedDevice,
            alloc,
        }
    }

    /// Lends the machine that lies there.
    pub(crate) fn machine(&mut self) -> &mut LinkedDevice
        requires { IsSome self.old.machine }
        ensures* writes_back { sem 𝓛 (LendsDevice self.entry result) }
        ensures value { self.old.machine ≡ Some result.now }
    {
        unsafe { &mut *(self.at as *mut LinkedDevice) }
    }
}

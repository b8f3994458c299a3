//! How a handle gets its device, and gives it up.

ghost use Rattle.std.specs.Prelude.{◌≡◌, None, Some, is_some, not};
ghost use Rattle.dsa_base.specs.Rows.{first_row};
ghost use Rattle.dsa_regs.specs.Caps.{check_caps, cell_count, list_count};
ghost use Rattle.dsa_regs.specs.declared.Caps.{Caps};
ghost use Rattle.dsa_device.specs.Made.{opening_table};
ghost use Rattle.dsa_c.specs.Opening.{IsOpening, caps_from_c, caps_for_c, count_of_caps, bytes_taken};
ghost use Rattle.dsa_c.specs.Opening.{first_wrong, opening_number};
ghost use Rattle.dsa_c.specs.Reads.{IsReadForC};

use crate::handle::{Handle, let_device};
use crate::numbers::{
    ALREADY_OPEN, BAD_CAPACITY, BAD_ENGINES, BAD_GROUPS, BAD_MAX_BATCH_SHIFT, BAD_MAX_XFER_SHIFT,
    BAD_QUEUES, BAD_READ_BUFFERS, BAD_SLOTS, BAD_STORE, BAD_TOTAL_SIZE, OPENED, OUT_OF_MEMORY,
};
use dsa_book::{FateRow, Step};
use dsa_device::{MakeFault, check_opening};
use dsa_linked::LinkedDevice;
use dsa_regs::{Caps, cell_count, check_caps, list_count};
use std::alloc::Global;

/// What a device has, as C says it.
#[repr(C)]
#[derive(Clone, Copy)]
pub struct DeviceCaps {
    pub queues: u16,
    pub groups: u16,
    pub engines: u16,
    pub total_size: u16,
    pub read_buffers: u16,
    pub slots: u16,
    pub max_batch_shift: u8,
    pub max_xfer_shift: u8,
}

// The same capabilities, as this struct says them.
macro_rules! same_caps {
    ($Said:ident, $caps:ident) => {
        $Said {
            queues: $caps.queues,
            groups: $caps.groups,
            engines: $caps.engines,
            total_size: $caps.total_size,
            read_buffers: $caps.read_buffers,
            slots: $caps.slots,
            max_batch_shift: $caps.max_batch_shift,
            max_xfer_shift: $caps.max_xfer_shift,
        }
    };
}

fn caps_of(caps: &DeviceCaps) -> Caps
    ensures { result ≡ caps_from_c caps.now }
{
    same_caps!(Caps, caps)
}

fn caps_for_c(found: &Caps) -> DeviceCaps
    ensures { result ≡ caps_for_c found.now }
{
    same_caps!(DeviceCaps, found)
}

const SMALLEST: Caps = Caps {
    queues: 1,
    groups: 1,
    engines: 1,
    total_size: 1,
    read_buffers: 1,
    slots: 1,
    max_batch_shift: 1,
    max_xfer_shift: 1,
};

// The smallest device with this one of the capabilities.
macro_rules! alone {
    ($caps:ident, $field:ident) => {
        Caps {
            $field: $caps.$field,
            ..SMALLEST
        }
    };
}

// The number of the first capability that is out of its limits.
fn first_wrong(caps: &Caps) -> Option<u32>
    ensures { result ≡ first_wrong caps.now }
{
    let each_alone = [
        (BAD_QUEUES, alone!(caps, queues)),
        (BAD_GROUPS, alone!(caps, groups)),
        (BAD_ENGINES, alone!(caps, engines)),
        (BAD_TOTAL_SIZE, alone!(caps, total_size)),
        (BAD_READ_BUFFERS, alone!(caps, read_buffers)),
        (BAD_SLOTS, alone!(caps, slots)),
        (BAD_MAX_BATCH_SHIFT, alone!(caps, max_batch_shift)),
        (BAD_MAX_XFER_SHIFT, alone!(caps, max_xfer_shift)),
    ];
    let wrong = each_alone.iter().find(|row| !check_caps(&row.1))?;
    Some(wrong.0)
}

// A capability is wrong exactly where the capabilities are refused.
#[allow(dead_code)]
fn one_is_wrong_where_they_are_refused()
    ensures { (caps : Caps) → is_some (first_wrong caps) ≡ not (check_caps caps) }
{}

fn fault_number(caps: &Caps, fault: MakeFault) -> Option<u32>
    ensures { result ≡ opening_number caps.now fault }
{
    match fault {
        MakeFault::BadCaps => first_wrong(caps),
        MakeFault::BadCapacity => Some(BAD_CAPACITY),
        MakeFault::BadStore => Some(BAD_STORE),
        MakeFault::OutOfMemory => Some(OUT_OF_MEMORY),
    }
}

// The bytes of a cell with its entry and links, of the head of a list, of a step and a fate row,
// and of the device itself.
const CELL_BYTES: u64 = 52;

const LIST_BYTES: u64 = 20;

const STEP_BYTES: u64 = 72;

const DEVICE_BYTES: u64 = 3832;

const _: () = prove!(size_of::<Step>() + size_of::<FateRow>() == 72);

const _: () = prove!(size_of::<LinkedDevice>() == 3832);

/// How many bytes an opened device of these capabilities and this capacity takes, 0 where it would
/// be refused.
#[unsafe(no_mangle)]
pub extern "C" fn dsa_size(caps: &DeviceCaps, capacity: u64) -> u64
    ensures { result ≡ bytes_taken (caps_from_c caps.now) capacity
        (first_row (opening_table (caps_from_c caps.now) capacity)) }
{
    let caps = caps_of(caps);
    if check_opening(&caps, capacity).is_some() {
        return 0;
    }
    let cells = CELL_BYTES * u64::from(cell_count(&caps));
    let lists = LIST_BYTES * (u64::from(list_count(&caps)) + 1);
    cells + lists + STEP_BYTES * capacity + DEVICE_BYTES
}

// A count of these capabilities, 0 where there is no such device.
macro_rules! count_of_caps {
    ($caps:ident, $count:expr) => {{
        let $caps = caps_of($caps);
        if !check_caps(&$caps) {
            return 0;
        }
        $count
    }};
}

/// How many cells a device of these capabilities has, 0 where there is no such device.
#[unsafe(no_mangle)]
pub extern "C" fn dsa_cell_count(caps: &DeviceCaps) -> u32
    ensures { result ≡ count_of_caps cell_count (caps_from_c caps.now) }
{
    count_of_caps!(caps, cell_count(&caps))
}

/// How many lists a device of these capabilities has, 0 where there is no such device.
#[unsafe(no_mangle)]
pub extern "C" fn dsa_list_count(caps: &DeviceCaps) -> u32
    ensures { result ≡ count_of_caps list_count (caps_from_c caps.now) }
{
    count_of_caps!(caps, u32::from(list_count(&caps)))
}

/// Opens a device behind a handle that has none: 0, or the number of what keeps it from being
/// opened.
#[tactic(auto, using(crate::proofs::WrongCaps::has_number))]
#[unsafe(no_mangle)]
pub extern "C" fn dsa_open(
    alloc: Global,
    handle: &mut Handle,
    caps: &DeviceCaps,
    capacity: u64,
) -> u32
    ensures { IsOpening handle.old.place.machine (caps_from_c caps.now) capacity
        result handle.new.place.machine }
{
    if handle.holds {
        return ALREADY_OPEN;
    }
    let caps = caps_of(caps);
    let machine = match LinkedDevice::new(alloc, caps, capacity) {
        Ok(machine) => machine,
        Err(fault) => return fault_number(&caps, fault).unwrap(),
    };
    let Ok(machine) = Box::new(alloc, machine) else {
        return OUT_OF_MEMORY;
    };
    handle.put(machine);
    OPENED
}

/// What the device has, as it was opened.
#[unsafe(no_mangle)]
pub extern "C" fn dsa_caps_of(handle: &mut Handle, caps: &mut DeviceCaps) -> u32
    ensures { IsReadForC caps_for_c (λ d. Some d.caps)
        handle.old.place.machine result caps.old caps.new handle.new.place.machine }
{
    let_device!(device, handle, 0);
    *caps = caps_for_c(&device.caps());
    1
}

/// Closes the device behind a handle, and frees what it took. A handle of no device stays one.
#[unsafe(no_mangle)]
pub extern "C" fn dsa_close(alloc: Global, handle: &mut Handle)
    ensures { handle.new.place.machine ≡ None }
{
    *handle = Handle::closed(alloc);
}

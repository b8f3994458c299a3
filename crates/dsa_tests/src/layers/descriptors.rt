//! Descriptors as drivers write them, the flags by the names and numbers of the public header
//! `linux/idxd.h`, and printed text.

use bitflags::Flags;
use dsa_desc::completion::DSA_COMP_SUCCESS;
use dsa_desc::opcode::{
    DSA_OPCODE_BATCH, DSA_OPCODE_COMPARE, DSA_OPCODE_DRAIN, DSA_OPCODE_MEMFILL, DSA_OPCODE_MEMMOVE,
    DSA_OPCODE_NOOP,
};
use dsa_desc::{Descriptor, DescriptorFlags, Outcome};
use dsa_fixtures::LIMITS;
use std::fmt::InlineText;

/// 64 bytes with these first eight and this size, the addresses and all after the size as a driver
/// may leave them.
fn drivers_bytes(head: [u8; 8], size: [u8; 4]) -> [u8; 64] {
    let mut bytes = [0x5a; 64];
    bytes[..8].copy_from_slice(&head);
    bytes[32..36].copy_from_slice(&size);
    bytes
}

fn submitted(op: u8, flags: u32, size: u32) -> Descriptor {
    Descriptor {
        pasid: 5,
        flags,
        op,
        size,
    }
}

#[test]
fn accepts_drivers_descriptors(rt: HostRuntime) {
    const ROWS: [([u8; 8], [u8; 4]); 6] = [
        ([0, 0, 0, 0, 0x1c, 0, 0, 0x00], [0, 0, 0, 0]),
        ([0, 0, 0, 0, 0x0c, 0, 0, 0x03], [0, 0x10, 0, 0]),
        ([0xff, 0xff, 0x0f, 0, 0x0c, 0, 0, 0x03], [0, 0, 0x10, 0]),
        ([0x01, 0, 0, 0, 0x0e, 0, 0, 0x04], [0, 0x10, 0, 0]),
        ([0x01, 0, 0, 0, 0x0e, 0, 0, 0x05], [0, 0x10, 0, 0]),
        ([0x01, 0, 0, 0, 0x0c, 0, 0, 0x01], [8, 0, 0, 0]),
    ];
    for &(head, size) in &ROWS {
        let descriptor = Descriptor::parse(&drivers_bytes(head, size));
        let status = descriptor.status(&LIMITS, false, Outcome::Success);
        let found = (descriptor.is_well_formed(&LIMITS, false), status);
        claim!(&rt; found == (true, DSA_COMP_SUCCESS));
    }
}

#[test]
fn names_flags(rt: HostRuntime) {
    const ROWS: [(&str, u32); 15] = [
        ("FENCE", 0x0001),
        ("BOF", 0x0002),
        ("CRAV", 0x0004),
        ("RCR", 0x0008),
        ("RCI", 0x0010),
        ("CRSTS", 0x0020),
        ("CR", 0x0080),
        ("CC", 0x0100),
        ("ADDR1_TCS", 0x0200),
        ("ADDR2_TCS", 0x0400),
        ("ADDR3_TCS", 0x0800),
        ("CR_TCS", 0x1000),
        ("STORD", 0x2000),
        ("DRDBK", 0x4000),
        ("DSTS", 0x8000),
    ];
    for &(name, bits) in &ROWS {
        let flag = DescriptorFlags::from_name(name);
        claim!(&rt; flag.map(|flag| flag.bits()) == Some(bits));
        let flags = submitted(DSA_OPCODE_NOOP, bits, 0).flags();
        claim!(&rt; flags.bits() == bits);
    }
    let flags = submitted(DSA_OPCODE_NOOP, 0x0c, 0).flags();
    claim!(&rt; flags.contains(DescriptorFlags::CRAV | DescriptorFlags::RCR));
    claim!(&rt; !flags.intersects(DescriptorFlags::FENCE | DescriptorFlags::BOF));
}

#[test]
fn prints_one_line(rt: HostRuntime) {
    const ROWS: [(u8, u32, u32, u32, &str); 8] = [
        (
            DSA_OPCODE_MEMMOVE,
            0x0c,
            4096,
            5,
            "Memory Move, PASID 5, flags 0x00000c, size 4096",
        ),
        (
            DSA_OPCODE_NOOP,
            0x01,
            0,
            5,
            "No-op, PASID 5, flags 0x000001, size 0",
        ),
        (
            DSA_OPCODE_BATCH,
            0,
            8,
            5,
            "Batch, PASID 5, flags 0x000000, count 8",
        ),
        (
            DSA_OPCODE_DRAIN,
            0,
            0,
            5,
            "Drain, PASID 5, flags 0x000000, size 0",
        ),
        (
            DSA_OPCODE_MEMFILL,
            0xff_ffff,
            1,
            0xf_ffff,
            "Fill, PASID 1048575, flags 0xffffff, size 1",
        ),
        (
            DSA_OPCODE_COMPARE,
            0x0e,
            u32::MAX,
            5,
            "Compare, PASID 5, flags 0x00000e, size 4294967295",
        ),
        (
            0x60,
            0,
            7,
            5,
            "Operation 0x60, PASID 5, flags 0x000000, size 7",
        ),
        (
            0xff,
            0,
            0,
            5,
            "Operation 0xff, PASID 5, flags 0x000000, size 0",
        ),
    ];
    for &(op, flags, size, pasid, want) in &ROWS {
        let descriptor = submitted(op, flags, size).with_pasid(pasid);
        let line = InlineText::<96>::of(descriptor);
        claim!(&rt; line.as_str() == want);
    }
    let flags = InlineText::<8>::of(DescriptorFlags::FENCE);
    claim!(&rt; flags.as_str() == "0x000001");
}

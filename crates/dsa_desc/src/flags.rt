//! The flags of a descriptor.

ghost use Rattle.std.specs.Prelude.{⊤, ◌≡◌, [], ◌∷◌, codes};

use crate::Descriptor;
use bitflags::{Flag, Flags, bitflag_items};

/// The 24 flag bits of a descriptor, by their names in the public header `linux/idxd.h`
/// (`IDXD_OP_FLAG_FENCE` and so on). `FENCE` is bit 0 (Intel DSA specification, descriptor flags).
/// Only it has an effect here: all others, also those without a name, are accepted and ignored
/// (profile).
#[derive(Clone, Copy, Debug, PartialEq, Eq)]
pub struct DescriptorFlags(u32);

bitflag_items! {
    impl DescriptorFlags: u32 {
        /// Fence: in a batch, earlier members end before this one starts.
        const FENCE = 0x000001;
        /// Block on fault.
        const BOF = 0x000002;
        /// Completion record address valid.
        const CRAV = 0x000004;
        /// Request completion record.
        const RCR = 0x000008;
        /// Request completion interrupt.
        const RCI = 0x000010;
        /// Completion record steering tag selector.
        const CRSTS = 0x000020;
        /// Check result.
        const CR = 0x000080;
        /// Cache control.
        const CC = 0x000100;
        /// Traffic class selector of the first address.
        const ADDR1_TCS = 0x000200;
        /// Traffic class selector of the second address.
        const ADDR2_TCS = 0x000400;
        /// Traffic class selector of the third address.
        const ADDR3_TCS = 0x000800;
        /// Traffic class selector of the completion record.
        const CR_TCS = 0x001000;
        /// Strict ordering.
        const STORD = 0x002000;
        /// Destination readback.
        const DRDBK = 0x004000;
        /// Destination steering tag selector.
        const DSTS = 0x008000;
    }
}

impl Flags for DescriptorFlags {
    type Bits = u32;

    ghost exact = { ⊤ };

    ghost table = { (codes "FENCE", 0x000001)
        ∷ (codes "BOF", 0x000002)
        ∷ (codes "CRAV", 0x000004)
        ∷ (codes "RCR", 0x000008)
        ∷ (codes "RCI", 0x000010)
        ∷ (codes "CRSTS", 0x000020)
        ∷ (codes "CR", 0x000080)
        ∷ (codes "CC", 0x000100)
        ∷ (codes "ADDR1_TCS", 0x000200)
        ∷ (codes "ADDR2_TCS", 0x000400)
        ∷ (codes "ADDR3_TCS", 0x000800)
        ∷ (codes "CR_TCS", 0x001000)
        ∷ (codes "STORD", 0x002000)
        ∷ (codes "DRDBK", 0x004000)
        ∷ (codes "DSTS", 0x008000)
        ∷ [] };

    ghost set_of = { λ flags. flags.0 };

    fn flags<'a>() -> &'a [Flag<DescriptorFlags>] {
        DescriptorFlags::FLAGS
    }

    fn bits(&self) -> u32 {
        self.0
    }

    fn from_bits_retain(bits: u32) -> DescriptorFlags {
        DescriptorFlags(bits)
    }
}

impl Descriptor {
    ghost use Rattle.dsa_desc.specs.Descriptor.{is_fenced};

    /// The flags by their names.
    pub fn flags(&self) -> DescriptorFlags
        ensures { ⟦<DescriptorFlags as Flags>⟧.set_of result ≡ self.now.flags }
    {
        DescriptorFlags(self.flags)
    }

    /// Whether the descriptor has the fence flag.
    pub fn is_fenced(&self) -> bool
        ensures { result ≡ is_fenced self.now }
    {
        self.flags().contains(DescriptorFlags::FENCE)
    }
}

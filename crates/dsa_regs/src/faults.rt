//! Numbers and names of faults.

ghost use Rattle.std.specs.Prelude.{◌≡◌};

use crate::Fault;

impl Fault {
    ghost use Rattle.dsa_regs.specs.Fault.{fault_number, fault_name};

    /// The number of the fault, 1 to 20 (profile).
    pub fn number(&self) -> u8
        ensures { result ≡ fault_number self.now }
    {
        match self {
            Fault::SizesTooLarge => 1,
            Fault::TwoGroups => 2,
            Fault::ReservedTooMany => 3,
            Fault::AllowedOutOfRange => 4,
            Fault::GroupWithoutEngine => 5,
            Fault::GroupWithoutQueue => 6,
            Fault::SizeZero => 7,
            Fault::PriorityZero => 8,
            Fault::ThresholdZero => 9,
            Fault::ThresholdAboveSize => 10,
            Fault::BatchTooLarge => 11,
            Fault::NoGroup => 12,
            Fault::BadCommand => 13,
            Fault::BadQueue => 14,
            Fault::Locked => 15,
            Fault::WrongState => 16,
            Fault::Busy => 17,
            Fault::PriorityTooLarge => 18,
            Fault::TransferTooLarge => 19,
            Fault::BadIndex => 20,
        }
    }

    /// The name of the fault, spelled as its variant.
    pub fn name(&self) -> &'static str
        ensures { result.now ≡ fault_name self.now }
    {
        match self {
            Fault::SizesTooLarge => "SizesTooLarge",
            Fault::TwoGroups => "TwoGroups",
            Fault::ReservedTooMany => "ReservedTooMany",
            Fault::AllowedOutOfRange => "AllowedOutOfRange",
            Fault::GroupWithoutEngine => "GroupWithoutEngine",
            Fault::GroupWithoutQueue => "GroupWithoutQueue",
            Fault::SizeZero => "SizeZero",
            Fault::PriorityZero => "PriorityZero",
            Fault::ThresholdZero => "ThresholdZero",
            Fault::ThresholdAboveSize => "ThresholdAboveSize",
            Fault::BatchTooLarge => "BatchTooLarge",
            Fault::NoGroup => "NoGroup",
            Fault::BadCommand => "BadCommand",
            Fault::BadQueue => "BadQueue",
            Fault::Locked => "Locked",
            Fault::WrongState => "WrongState",
            Fault::Busy => "Busy",
            Fault::PriorityTooLarge => "PriorityTooLarge",
            Fault::TransferTooLarge => "TransferTooLarge",
            Fault::BadIndex => "BadIndex",
        }
    }
}

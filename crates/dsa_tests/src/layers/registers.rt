//! What may be commanded: tables of faults and of command words.

use dsa_fixtures::FIRST_QUEUE;
use dsa_regs::{Command, CommandWord, Fault, QueueMask};
use std::fmt::InlineText;

#[test]
fn faults_have_numbers_names_and_sentences(rt: HostRuntime) {
    const FAULTS: [(Fault, u8, &str, &str); 20] = [
        (
            Fault::SizesTooLarge,
            1,
            "SizesTooLarge",
            "the sizes of all queues add up to more than the device has",
        ),
        (
            Fault::TwoGroups,
            2,
            "TwoGroups",
            "a queue or an engine is in two groups",
        ),
        (
            Fault::ReservedTooMany,
            3,
            "ReservedTooMany",
            "the groups reserve more read buffers than the device has",
        ),
        (
            Fault::AllowedOutOfRange,
            4,
            "AllowedOutOfRange",
            "a group may use fewer read buffers than it needs or more than the others leave",
        ),
        (
            Fault::GroupWithoutEngine,
            5,
            "GroupWithoutEngine",
            "a group has a queue and no engine",
        ),
        (
            Fault::GroupWithoutQueue,
            6,
            "GroupWithoutQueue",
            "a group has an engine and no queue",
        ),
        (
            Fault::SizeZero,
            7,
            "SizeZero",
            "the size of the queue is zero",
        ),
        (
            Fault::PriorityZero,
            8,
            "PriorityZero",
            "the priority of the queue is zero",
        ),
        (
            Fault::ThresholdZero,
            9,
            "ThresholdZero",
            "the threshold of the shared queue is zero",
        ),
        (
            Fault::ThresholdAboveSize,
            10,
            "ThresholdAboveSize",
            "the threshold of the shared queue is above its size",
        ),
        (
            Fault::BatchTooLarge,
            11,
            "BatchTooLarge",
            "the queue allows larger batches than the device",
        ),
        (Fault::NoGroup, 12, "NoGroup", "the queue is in no group"),
        (
            Fault::BadCommand,
            13,
            "BadCommand",
            "the word is no command",
        ),
        (
            Fault::BadQueue,
            14,
            "BadQueue",
            "the command names no queue, or one that the device does not have",
        ),
        (
            Fault::Locked,
            15,
            "Locked",
            "the configuration cannot be written while it is in use",
        ),
        (
            Fault::WrongState,
            16,
            "WrongState",
            "the device or a named queue is in the wrong state for the command",
        ),
        (Fault::Busy, 17, "Busy", "another command is active"),
        (
            Fault::PriorityTooLarge,
            18,
            "PriorityTooLarge",
            "the priority of the queue is above 15",
        ),
        (
            Fault::TransferTooLarge,
            19,
            "TransferTooLarge",
            "the queue allows larger transfers than the device",
        ),
        (
            Fault::BadIndex,
            20,
            "BadIndex",
            "a queue, engine or group is named that the device does not have",
        ),
    ];
    for &(fault, number, name, sentence) in &FAULTS {
        claim!(&rt; fault.number() == number);
        claim!(&rt; fault.name() == name);
        let said = InlineText::<96>::of(fault);
        claim!(&rt; said.as_str() == sentence);
    }
}

#[test]
fn words_are_commands(rt: HostRuntime) {
    const THIRD: QueueMask = QueueMask { group: 0, mask: 4 };
    const SEVENTEENTH: QueueMask = QueueMask { group: 1, mask: 1 };
    const LAST: QueueMask = QueueMask {
        group: 3,
        mask: 0x8000,
    };
    const WORDS: [(u32, Result<Command, Fault>); 22] = [
        (0, Err(Fault::BadCommand)),
        (0x0210_0000, Err(Fault::BadCommand)),
        (0x01f0_0000, Err(Fault::BadCommand)),
        (0x0010_0000, Ok(Command::EnableDevice)),
        (0x8010_0000, Ok(Command::EnableDevice)),
        (0x0020_0000, Ok(Command::DisableDevice)),
        (0x8030_0000, Ok(Command::DrainAll)),
        (0x0040_0000, Ok(Command::AbortAll)),
        (0x8050_0000, Ok(Command::ResetDevice)),
        (0x0060_0000, Ok(Command::EnableWq(0))),
        (0x8060_0000, Ok(Command::EnableWq(0))),
        (0x0060_0002, Ok(Command::EnableWq(2))),
        (0x0060_003f, Ok(Command::EnableWq(63))),
        (0x8070_0001, Ok(Command::DisableWq(FIRST_QUEUE))),
        (0x0071_0001, Ok(Command::DisableWq(SEVENTEENTH))),
        (0x0073_8000, Ok(Command::DisableWq(LAST))),
        (0x0070_0004, Ok(Command::DisableWq(THIRD))),
        (0x0080_0001, Ok(Command::DrainWq(FIRST_QUEUE))),
        (0x8090_0001, Ok(Command::AbortWq(FIRST_QUEUE))),
        (0x00a0_0001, Ok(Command::ResetWq(FIRST_QUEUE))),
        (0x80b0_0005, Ok(Command::DrainPasid(5))),
        (0x00c0_0005, Ok(Command::AbortPasid(5))),
    ];
    for &(word, command) in &WORDS {
        claim!(&rt; CommandWord::parse(word) == command);
    }
}

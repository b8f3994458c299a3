//! Commands: their numbers, names and words, whom they are about and what they do.

ghost use Rattle.std.specs.Prelude.{◌≡◌, ℕ, ◌<◌, ◌/◌, ◌%◌, ◌^◌, ◌==◌, Ok, IfSome};
ghost use Rattle.std.specs.List.{list_any};

use crate::configurations::has_number;
use crate::{Command, Deed, Fault, QUEUES_IN_MASK, QueueMask, Scope};
use arrayvec::ArrayVec;

/// The operand of a command word has 20 bits (Intel DSA specification, Command register).
const OPERAND_BITS: u32 = 0xf_ffff;

/// The numbers of the queues that a command names.
pub type QueueNumbers = ArrayVec<u32, QUEUES_IN_MASK>;

impl QueueMask {
    ghost use Rattle.dsa_regs.specs.Command.{queues_of, mask_of};

    pub(crate) fn from_operand(operand: u32) -> QueueMask
        requires { operand < 2 ^ 20 }
        ensures { result ≡ mask_of operand }
    {
        QueueMask {
            group: (operand >> 16) as u8,
            mask: (operand & 0xffff) as u16,
        }
    }

    /// Whether the queue is one of those named.
    pub fn contains(&self, queue: u16) -> bool
        ensures { result ≡ list_any (λ k. k == queue) (queues_of self.now) }
    {
        queue / 16 == u16::from(self.group) && has_number(u64::from(self.mask), queue % 16)
    }

    /// The queues that are named, in order; none where the mask is empty.
    pub fn queues(&self) -> QueueNumbers
        ensures { result.items ≡ queues_of self.now }
    {
        let mut queues = ArrayVec::new();
        for bit in 0..16 {
            if has_number(u64::from(self.mask), bit) {
                queues.push(16 * u32::from(self.group) + u32::from(bit));
            }
        }
        queues
    }
}

impl Scope {
    ghost use Rattle.dsa_regs.specs.Command.{queues_in, operand_of_scope};

    /// The operand that names whom the command is about; 0 for the device.
    pub fn operand(self) -> u32
        ensures { result ≡ operand_of_scope self }
    {
        match self {
            Scope::Device => 0,
            Scope::Queue(queue) => queue,
            Scope::Queues(named) => 65_536 * u32::from(named.group) + u32::from(named.mask),
            Scope::Pasid(pasid) => pasid,
        }
    }

    /// Whether the queue is one of those named.
    pub fn contains(&self, queue: u16) -> bool
        ensures { result ≡ list_any (λ k. k == queue) (queues_in self.now) }
    {
        match self {
            Scope::Queue(named) => *named == u32::from(queue),
            Scope::Queues(named) => named.contains(queue),
            Scope::Device | Scope::Pasid(_) => false,
        }
    }

    /// The queues that are named, in order; none where the scope is the device or a PASID.
    pub fn queues(&self) -> QueueNumbers
        ensures { result.items ≡ queues_in self.now }
    {
        match self {
            Scope::Queue(queue) => {
                let mut queues = ArrayVec::new();
                queues.push(*queue);
                queues
            }
            Scope::Queues(named) => named.queues(),
            Scope::Device | Scope::Pasid(_) => ArrayVec::new(),
        }
    }
}

impl Command {
    ghost use Rattle.dsa_regs.specs.Command.{command_of, number_of_command, command_name, command_label, scope_of, deed_of, named_queues, word_of};

    /// The number of the command (Intel DSA specification, Command register).
    pub fn number(&self) -> u8
        ensures { result ≡ number_of_command self.now }
    {
        self.row().number
    }

    /// The name of the command, as the Intel DSA specification spells it.
    pub fn name(&self) -> &'static str
        ensures { result.now ≡ command_name self.now }
    {
        self.row().name
    }

    /// The name of the command as one word, such as `enable-wq`.
    pub fn label(&self) -> &'static str
        ensures { result.now ≡ command_label self.now }
    {
        self.row().label
    }

    /// The word that is written to the command register, without asking for an interrupt (Intel DSA
    /// specification, Command register). `None` exactly where the operand has more than 20 bits: a
    /// queue's number or a PASID that is not below 1,048,576, or a mask of a group past 15.
    pub fn word(&self) -> Option<u32>
        ensures word { result ≡ word_of self.now }
        ensures parsed { IfSome result (λ word. command_of word ≡ Ok self.now) }
    {
        let operand = self.scope().operand();
        if operand > OPERAND_BITS {
            return None;
        }
        Some((u32::from(self.number()) << 20) + operand)
    }

    /// Whom the command is about.
    pub fn scope(&self) -> Scope
        ensures { result ≡ scope_of self.now }
    {
        self.row().scope
    }

    /// What the command does with whom it is about.
    pub fn deed(&self) -> Deed
        ensures { result ≡ deed_of self.now }
    {
        self.row().deed
    }

    /// The queues that the command names, in order; none for commands that name no queue.
    pub fn queues(&self) -> QueueNumbers
        ensures { result.items ≡ named_queues self.now }
    {
        self.scope().queues()
    }
}

/// The 32 bits that are written to the device's command register.
///
/// Bits 19:0 are the operand, bits 24:20 the number of the command, bit 31 asks for an interrupt at
/// its end (Intel DSA specification, Command register). Bit 31 is accepted without effect, and bits
/// 30:25 must be clear (profile).
#[derive(Clone, Copy, Debug, PartialEq, Eq)]
pub struct CommandWord(pub u32);

impl CommandWord {
    ghost use Rattle.dsa_regs.specs.Command.{command_of};

    /// The command that the word says, or `BadCommand` where a bit among 30:25 is set or no command
    /// has the number.
    ///
    /// The operand of commands 1 to 5 is ignored (profile).
    pub fn parse(word: u32) -> Result<Command, Fault>
        ensures { result ≡ command_of word }
    {
        CommandWord(word).command()
    }

    fn operand(self) -> u32
        ensures { result ≡ self.0 % 2 ^ 20 }
    {
        self.0 & OPERAND_BITS
    }

    /// Bits 24:20: the number of the command.
    pub fn number(self) -> u32
        ensures { result ≡ self.0 / 2 ^ 20 % 2 ^ 5 }
    {
        self.0 >> 20 & 0x1f
    }

    /// Bits 30:25, which must be clear.
    pub fn reserved(self) -> u32
        ensures { result ≡ self.0 / 2 ^ 25 % 2 ^ 6 }
    {
        self.0 >> 25 & 0x3f
    }

    fn command(self) -> Result<Command, Fault>
        ensures { result ≡ command_of self.0 }
    {
        if self.reserved() != 0 {
            return Err(Fault::BadCommand);
        }
        Command::numbered(self.number(), self.operand())
    }
}

//! Worked events: what the definitions say of chosen ones, by computation.

ghost use Rattle.std.specs.Prelude.{◌≡◌, [], ◌∷◌, codes, map, true, false};
ghost use Rattle.dsa_desc.specs.declared.Outcome.TheVariants.{Success, PageFault};
ghost use Rattle.dsa_regs.specs.declared.Command.TheVariants.{EnableDevice, DisableDevice, DrainAll, AbortAll, ResetDevice, EnableWq, DisableWq, DrainWq, AbortWq, ResetWq, DrainPasid, AbortPasid};
ghost use Rattle.dsa_regs.specs.declared.Phase.TheVariants.{Off, On, Stopping};
ghost use Rattle.dsa_regs.specs.declared.layout.ListUse.TheVariants as list;
ghost use Rattle.dsa_regs.specs.Config.{zero_queue, zero_group};
ghost use Rattle.dsa_book.specs.declared.event.Event.TheVariants.{Submit, Dispatch, Fetch, Start, Finish, Issue, Poll, WriteQueue, WriteGroup, ClearError};
ghost use Rattle.dsa_book.specs.declared.event.Kind.TheVariants.{Enqcmd, Movdir64b};
ghost use Rattle.dsa_book.specs.declared.event.Portal.TheVariants.{Limited, Unlimited};
ghost use Rattle.dsa_event_text.specs.Text.{bad_word_text, command_with_operand, count_text, descriptor_text, event_text, list_text, phase_word, truth_text};
ghost use Rattle.dsa_event_text.specs.Worked.{desc, mask, page_move, event_ticket};

/// What is counted is singular after 1 alone.
#[tactic(auto, unfolding(crate::specs::Worked::event_digits_on_literals))]
pub fn counts()
    ensures none { count_text (codes "for ") 0 (codes "entry") (codes "entries")
        ≡ codes "for 0 entries" }
    ensures one { count_text [] 1 (codes "entry") (codes "entries") ≡ codes "1 entry" }
    ensures eleven { count_text (codes "for ") 11 (codes "entry") (codes "entries")
        ≡ codes "for 11 entries" }
{}

/// Lists, by a queue or an engine.
#[tactic(auto, unfolding(crate::specs::Worked::event_digits_on_literals))]
pub fn lists()
    ensures { map list_text (list.Queue 1 ∷ list.Progress 2 ∷ list.Members 13 ∷ [])
        ≡ codes "q1" ∷ codes "e2" ∷ codes "batch of e13" ∷ [] }
{}

/// Phases.
pub fn phases()
    ensures { map phase_word (Off ∷ On ∷ Stopping ∷ [])
        ≡ codes "off" ∷ codes "on" ∷ codes "stopping" ∷ [] }
{}

/// Truth values.
pub fn truths()
    ensures { map truth_text (true ∷ false ∷ []) ≡ codes "true" ∷ codes "false" ∷ [] }
{}

/// Descriptors: the operation, the size where it counts, and the fence.
#[tactic(auto, unfolding(crate::specs::Worked::event_digits_on_literals))]
pub fn descriptors()
    ensures no_op { descriptor_text (desc 0 0 7) ≡ codes "no-op" }
    ensures batch { descriptor_text (desc 0 1 8) ≡ codes "batch of 8" }
    ensures drain { descriptor_text (desc 0 2 7) ≡ codes "drain" }
    ensures transfers { map descriptor_text (page_move ∷ desc 0 4 1 ∷ desc 0 5 0 ∷ [])
        ≡ codes "move 4096 bytes" ∷ codes "fill 1 byte" ∷ codes "compare 0 bytes" ∷ [] }
    ensures other { map descriptor_text (desc 0 0xf 7 ∷ desc 0 0xab 7 ∷ [])
        ≡ codes "operation 0xf" ∷ codes "operation 0xab" ∷ [] }
    ensures fence { map descriptor_text (desc 1 3 16 ∷ desc 3 0 0 ∷ desc 2 0 0 ∷ [])
        ≡ codes "move 16 bytes fence" ∷ codes "no-op fence" ∷ codes "no-op" ∷ [] }
{}

/// Commands: those of the device have no operand, a queue and a PASID are decimal, and a mask is
/// hexadecimal.
#[tactic(auto, unfolding(crate::specs::Worked::event_digits_on_literals))]
pub fn commands()
    ensures device { map command_with_operand
        (EnableDevice ∷ DisableDevice ∷ DrainAll ∷ AbortAll ∷ ResetDevice ∷ [])
        ≡ codes "enable-device"
        ∷ codes "disable-device"
        ∷ codes "drain-all"
        ∷ codes "abort-all"
        ∷ codes "reset-device"
        ∷ [] }
    ensures queue { command_with_operand (EnableWq 63) ≡ codes "enable-wq 63" }
    ensures masks { map command_with_operand (DisableWq (mask 0 3) ∷ DrainWq (mask 0 0xa1) ∷ [])
        ≡ codes "disable-wq 0x3" ∷ codes "drain-wq 0xa1" ∷ [] }
    ensures far_masks { map command_with_operand (AbortWq (mask 1 5) ∷ ResetWq (mask 3 0x8000) ∷ [])
        ≡ codes "abort-wq 0x10005" ∷ codes "reset-wq 0x38000" ∷ [] }
    ensures pasid { map command_with_operand (DrainPasid 5 ∷ AbortPasid 1048575 ∷ [])
        ≡ codes "drain-pasid 5" ∷ codes "abort-pasid 1048575" ∷ [] }
    ensures no_commands { map bad_word_text (0 ∷ 0x1f00005 ∷ 0x2100000 ∷ [])
        ≡ codes "command 0x0" ∷ codes "command 0x1f00005" ∷ codes "command 0x2100000" ∷ [] }
{}

/// Submissions by each instruction, on each portal.
#[tactic(auto, unfolding(crate::specs::Worked::event_digits_on_literals))]
pub fn submissions()
    ensures enqcmd { event_text (Submit 3 0 Limited (Enqcmd 5) page_move)
        ≡ codes "submit q0 limited enqcmd pasid 5 client 3 move 4096 bytes" }
    ensures wide_pasid { event_text (Submit 3 0 Limited (Enqcmd 0xfff00005) page_move)
        ≡ codes "submit q0 limited enqcmd pasid 5 client 3 move 4096 bytes" }
    ensures movdir { event_text (Submit 0 12 Unlimited Movdir64b (desc 0 2 0))
        ≡ codes "submit q12 unlimited movdir client 0 drain" }
{}

/// What engines are asked.
#[tactic(auto, unfolding(crate::specs::Worked::event_digits_on_literals))]
pub fn engine_events()
    ensures dispatch { event_text (Dispatch 10) ≡ codes "dispatch e10" }
    ensures fetch { event_text (Fetch 1 (desc 1 0 0)) ≡ codes "fetch e1 no-op fence" }
    ensures start { event_text (Start 63) ≡ codes "start e63" }
    ensures finish { map event_text
        (Finish 1 (event_ticket 4 7) Success ∷ Finish 2 (event_ticket 7 4) PageFault ∷ [])
        ≡ codes "finish e1 name 7 success" ∷ codes "finish e2 name 4 page-fault" ∷ [] }
{}

/// What the administrator asks.
#[tactic(auto, unfolding(crate::specs::Worked::event_digits_on_literals))]
pub fn admin_events()
    ensures command { event_text (Issue (DrainWq (mask 0 1))) ≡ codes "command drain-wq 0x1" }
    ensures poll { event_text Poll ≡ codes "poll" }
    ensures queue { event_text (WriteQueue 12 zero_queue) ≡ codes "write queue 12" }
    ensures group { event_text (WriteGroup 7 zero_group) ≡ codes "write group 7" }
    ensures clear { event_text ClearError ≡ codes "clear" }
{}

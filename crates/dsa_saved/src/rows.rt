//! Worked records and headers, as contracts of functions with nothing to do.

ghost use Rattle.std.specs.Prelude.{◌≡◌, ℕ, [], ◌∷◌, ◌++◌, List, Some, None, codes, map, replicate, true, false};
ghost use Rattle.std.specs.List.{range_with_len};
ghost use Rattle.sha2.specs.Sha256.{sha256};
ghost use Rattle.dsa_desc.specs.declared.Outcome.TheVariants.{PageFault, Success};
ghost use Rattle.dsa_regs.specs.declared.Command.TheVariants.{AbortAll, AbortPasid, AbortWq};
ghost use Rattle.dsa_regs.specs.declared.Command.TheVariants.{DisableDevice, DisableWq, DrainAll};
ghost use Rattle.dsa_regs.specs.declared.Command.TheVariants.{DrainPasid, DrainWq, EnableDevice};
ghost use Rattle.dsa_regs.specs.declared.Command.TheVariants.{EnableWq, ResetDevice, ResetWq};
ghost use Rattle.dsa_book.specs.declared.answer.DispatchAnswer.TheVariants.{Taken};
ghost use Rattle.dsa_book.specs.declared.answer.Reply.TheVariants as reply;
ghost use Rattle.dsa_book.specs.declared.event.Event.TheVariants.{ClearError, Dispatch, Fetch, Finish, Issue};
ghost use Rattle.dsa_book.specs.declared.event.Event.TheVariants.{Poll, Start, Submit, WriteGroup, WriteQueue};
ghost use Rattle.dsa_book.specs.declared.event.Portal.TheVariants.{Limited, Unlimited};
ghost use Rattle.dsa_book.specs.declared.event.Kind.TheVariants.{Enqcmd, Movdir64b};
ghost use Rattle.dsa_book.specs.Choice.{nothing, in_cell, from_queue};
ghost use Rattle.dsa_saved.specs.declared.faults.LoadFault.TheVariants.{BadLength, BadMagic, BadVersion, OutOfMemory, Truncated};
ghost use Rattle.dsa_saved.specs.Words.{bytes_of_words, words_of};
ghost use Rattle.dsa_saved.specs.Format.{event_words, choice_words, header_words, header_bytes, record_of};
ghost use Rattle.dsa_saved.specs.Said.{event_of_words, caps_of_words, choice_of_words, command_of_words};
ghost use Rattle.dsa_saved.specs.Saved.{saved_body, saved_bytes};
ghost use Rattle.dsa_saved.specs.Faults.{body_in, first_in, header_in, records_in, start_in};
ghost use Rattle.dsa_saved.specs.Faults.{HasCapacity, HasCaps, HasLength, HasMagic, HasVersion, IsHeaderRead, IsLong, IsStartFault};
ghost use Rattle.dsa_saved.specs.Worked.{bytes_of_a_poll, bytes_of_header, bytes_of_zeros, bytes_saying, device_that_polled, words_saying, saved_uneven_caps};

/// Words are written with the least byte first, and read so.
#[tactic(auto, unfolding(crate::specs::Words::bytes_of_words, crate::specs::Words::words_of))]
pub fn words_as_bytes()
    ensures written { bytes_of_words (1 ∷ 0x01020304 ∷ []) ≡ 1 ∷ 0 ∷ 0 ∷ 0 ∷ 4 ∷ 3 ∷ 2 ∷ 1 ∷ [] }
    ensures read { words_of 2 (1 ∷ 0 ∷ 0 ∷ 0 ∷ 4 ∷ 3 ∷ 2 ∷ 1 ∷ []) ≡ 1 ∷ 0x01020304 ∷ [] }
{}

/// Events in nine words, each kind with what it says.
pub fn events_in_words()
    ensures enqcmd { event_words
        (Submit 1 2 Unlimited (Enqcmd 5) (record { pasid = 6; flags = 7; op = 8; size = 9 }))
        ≡ 1 ∷ 1 ∷ 2 ∷ 1 ∷ 5 ∷ 6 ∷ 7 ∷ 8 ∷ 9 ∷ [] }
    ensures movdir64b { event_words
        (Submit 1 2 Unlimited Movdir64b (record { pasid = 6; flags = 7; op = 8; size = 9 }))
        ≡ 2 ∷ 1 ∷ 2 ∷ 1 ∷ 0 ∷ 6 ∷ 7 ∷ 8 ∷ 9 ∷ [] }
    ensures finish { event_words
        (Finish 3 (record { cell = record { 0 = 4 }; name = 5 }) PageFault)
        ≡ 6 ∷ 3 ∷ 4 ∷ 5 ∷ 1 ∷ 0 ∷ 0 ∷ 0 ∷ 0 ∷ [] }
    ensures disable { event_words (Issue (DisableWq (record { group = 2; mask = 3 })))
        ≡ 7 ∷ 7 ∷ 2 ∷ 3 ∷ 0 ∷ 0 ∷ 0 ∷ 0 ∷ 0 ∷ [] }
    ensures queue { event_words (WriteQueue 1
        (record {
          size = 2;
          threshold = 3;
          dedicated = true;
          priority = 4;
          pasid = 5;
          max_batch_shift = 6;
          max_xfer_shift = 7;
        }))
        ≡ 9 ∷ 1 ∷ 2 ∷ 3 ∷ 1 ∷ 4 ∷ 5 ∷ 6 ∷ 7 ∷ [] }
    ensures group { event_words (WriteGroup 1
        (record { queues = 0x500000004; engines = 6; reserved = 7; allowed = 8 }))
        ≡ 10 ∷ 1 ∷ 4 ∷ 5 ∷ 6 ∷ 0 ∷ 7 ∷ 8 ∷ 0 ∷ [] }
{}

/// Events that words say. Words that are too large say an event whose words are others.
pub fn events_of_words()
    ensures dispatch { event_of_words (3 ∷ 2 ∷ 0 ∷ 0 ∷ 0 ∷ 0 ∷ 0 ∷ 0 ∷ 0 ∷ []) ≡ Some (Dispatch 2) }
    ensures large { event_of_words (3 ∷ 65538 ∷ 0 ∷ 0 ∷ 0 ∷ 0 ∷ 0 ∷ 0 ∷ 0 ∷ [])
        ≡ Some (Dispatch 2) }
    ensures poll { event_of_words (8 ∷ 0 ∷ 0 ∷ 0 ∷ 0 ∷ 0 ∷ 0 ∷ 0 ∷ 0 ∷ []) ≡ Some Poll }
    ensures no_kind { event_of_words (12 ∷ 0 ∷ 0 ∷ 0 ∷ 0 ∷ 0 ∷ 0 ∷ 0 ∷ 0 ∷ []) ≡ None }
    ensures no_command { event_of_words (7 ∷ 13 ∷ 0 ∷ 0 ∷ 0 ∷ 0 ∷ 0 ∷ 0 ∷ 0 ∷ []) ≡ None }
    ensures enable { command_of_words 6 1 0 ≡ Some (EnableWq 1) }
    ensures drain { command_of_words 3 1 0 ≡ Some DrainAll }
{}

/// What is free in a step, in two words; and the words of a header.
pub fn choices_and_headers()
    ensures none { choice_words nothing ≡ 0 ∷ 0 ∷ [] }
    ensures cell { choice_words (in_cell (record { 0 = 9 })) ≡ 1 ∷ 9 ∷ [] }
    ensures queue { choice_of_words (2 ∷ 9 ∷ []) ≡ from_queue 9 }
    ensures header { header_words
        (record {
          queues = 2;
          groups = 3;
          engines = 4;
          total_size = 5;
          read_buffers = 6;
          slots = 7;
          max_batch_shift = 8;
          max_xfer_shift = 9;
        })
        10
        11
        ≡ 1 ∷ 2 ∷ 3 ∷ 4 ∷ 5 ∷ 6 ∷ 7 ∷ 8 ∷ 9 ∷ 10 ∷ 11 ∷ [] }
{}

/// The kinds of events that say less, in nine words.
pub fn short_events_in_words()
    ensures limited { event_words
        (Submit 1 2 Limited (Enqcmd 5) (record { pasid = 6; flags = 7; op = 8; size = 9 }))
        ≡ 1 ∷ 1 ∷ 2 ∷ 0 ∷ 5 ∷ 6 ∷ 7 ∷ 8 ∷ 9 ∷ [] }
    ensures dispatch { event_words (Dispatch 2) ≡ 3 ∷ 2 ∷ 0 ∷ 0 ∷ 0 ∷ 0 ∷ 0 ∷ 0 ∷ 0 ∷ [] }
    ensures fetch { event_words (Fetch 2 (record { pasid = 3; flags = 4; op = 5; size = 6 }))
        ≡ 4 ∷ 2 ∷ 3 ∷ 4 ∷ 5 ∷ 6 ∷ 0 ∷ 0 ∷ 0 ∷ [] }
    ensures start { event_words (Start 7) ≡ 5 ∷ 7 ∷ 0 ∷ 0 ∷ 0 ∷ 0 ∷ 0 ∷ 0 ∷ 0 ∷ [] }
    ensures success { event_words (Finish 3 (record { cell = record { 0 = 4 }; name = 5 }) Success)
        ≡ 6 ∷ 3 ∷ 4 ∷ 5 ∷ 0 ∷ 0 ∷ 0 ∷ 0 ∷ 0 ∷ [] }
    ensures poll { event_words Poll ≡ 8 ∷ 0 ∷ 0 ∷ 0 ∷ 0 ∷ 0 ∷ 0 ∷ 0 ∷ 0 ∷ [] }
    ensures clear { event_words ClearError ≡ 11 ∷ 0 ∷ 0 ∷ 0 ∷ 0 ∷ 0 ∷ 0 ∷ 0 ∷ 0 ∷ [] }
    ensures unshared { event_words (WriteQueue 1
        (record {
          size = 2;
          threshold = 3;
          dedicated = false;
          priority = 4;
          pasid = 5;
          max_batch_shift = 6;
          max_xfer_shift = 7;
        }))
        ≡ 9 ∷ 1 ∷ 2 ∷ 3 ∷ 0 ∷ 4 ∷ 5 ∷ 6 ∷ 7 ∷ [] }
    ensures many_engines { event_words (WriteGroup 1
        (record { queues = 5000; engines = 0x700001770; reserved = 8; allowed = 9 }))
        ≡ 10 ∷ 1 ∷ 5000 ∷ 0 ∷ 6000 ∷ 7 ∷ 8 ∷ 9 ∷ 0 ∷ [] }
{}

/// Commands in nine words: their numbers, and whom they are about.
pub fn commands_in_words()
    ensures device { event_words (Issue EnableDevice) ≡ 7 ∷ 1 ∷ 0 ∷ 0 ∷ 0 ∷ 0 ∷ 0 ∷ 0 ∷ 0 ∷ [] }
    ensures queue { event_words (Issue (EnableWq 9)) ≡ 7 ∷ 6 ∷ 9 ∷ 0 ∷ 0 ∷ 0 ∷ 0 ∷ 0 ∷ 0 ∷ [] }
    ensures queues { event_words (Issue (DrainWq (record { group = 2; mask = 3 })))
        ≡ 7 ∷ 8 ∷ 2 ∷ 3 ∷ 0 ∷ 0 ∷ 0 ∷ 0 ∷ 0 ∷ [] }
    ensures pasid { event_words (Issue (DrainPasid 5)) ≡ 7 ∷ 11 ∷ 5 ∷ 0 ∷ 0 ∷ 0 ∷ 0 ∷ 0 ∷ 0 ∷ [] }
{}

/// Submissions that words say: numbers that are too large lose their upper bits, and a portal is
/// unlimited by the word 1 alone.
pub fn submissions_of_words()
    ensures enqcmd { event_of_words (1 ∷ 65837 ∷ 65838 ∷ 1 ∷ 5 ∷ 6 ∷ 7 ∷ 326 ∷ 9 ∷ [])
        ≡ Some (Submit 301 302 Unlimited (Enqcmd 5)
        (record { pasid = 6; flags = 7; op = 70; size = 9 })) }
    ensures movdir { event_of_words (2 ∷ 65837 ∷ 65838 ∷ 1 ∷ 5 ∷ 6 ∷ 7 ∷ 326 ∷ 9 ∷ [])
        ≡ Some (Submit 301 302 Unlimited Movdir64b
        (record { pasid = 6; flags = 7; op = 70; size = 9 })) }
    ensures limited { event_of_words (1 ∷ 1 ∷ 2 ∷ 0 ∷ 5 ∷ 6 ∷ 7 ∷ 8 ∷ 9 ∷ [])
        ≡ Some (Submit 1 2 Limited (Enqcmd 5)
        (record { pasid = 6; flags = 7; op = 8; size = 9 })) }
    ensures no_portal { event_of_words (1 ∷ 1 ∷ 2 ∷ 2 ∷ 5 ∷ 6 ∷ 7 ∷ 8 ∷ 9 ∷ [])
        ≡ Some (Submit 1 2 Limited (Enqcmd 5)
        (record { pasid = 6; flags = 7; op = 8; size = 9 })) }
{}

/// Steps of engines that words say. A fault comes by the word 1 alone.
pub fn engines_of_words()
    ensures dispatch { event_of_words (3 ∷ 65837 ∷ 0 ∷ 0 ∷ 0 ∷ 0 ∷ 0 ∷ 0 ∷ 0 ∷ [])
        ≡ Some (Dispatch 301) }
    ensures fetch { event_of_words (4 ∷ 65837 ∷ 3 ∷ 4 ∷ 326 ∷ 6 ∷ 7 ∷ 8 ∷ 9 ∷ [])
        ≡ Some (Fetch 301 (record { pasid = 3; flags = 4; op = 70; size = 6 })) }
    ensures start { event_of_words (5 ∷ 65837 ∷ 0 ∷ 0 ∷ 0 ∷ 0 ∷ 0 ∷ 0 ∷ 0 ∷ []) ≡ Some (Start 301) }
    ensures fault { event_of_words (6 ∷ 65837 ∷ 4 ∷ 5 ∷ 1 ∷ 7 ∷ 8 ∷ 9 ∷ 10 ∷ [])
        ≡ Some (Finish 301 (record { cell = record { 0 = 4 }; name = 5 }) PageFault) }
    ensures success { event_of_words (6 ∷ 1 ∷ 4 ∷ 5 ∷ 0 ∷ 7 ∷ 8 ∷ 9 ∷ 10 ∷ [])
        ≡ Some (Finish 1 (record { cell = record { 0 = 4 }; name = 5 }) Success) }
    ensures no_outcome { event_of_words (6 ∷ 1 ∷ 4 ∷ 5 ∷ 2 ∷ 7 ∷ 8 ∷ 9 ∷ 10 ∷ [])
        ≡ Some (Finish 1 (record { cell = record { 0 = 4 }; name = 5 }) Success) }
{}

/// What administrators ask for that words say, and words that say nothing.
pub fn administrators_of_words()
    ensures issue { event_of_words (7 ∷ 10 ∷ 326 ∷ 65837 ∷ 4 ∷ 5 ∷ 6 ∷ 7 ∷ 8 ∷ [])
        ≡ Some (Issue (ResetWq (record { group = 70; mask = 301 }))) }
    ensures queue { event_of_words (9 ∷ 65837 ∷ 65838 ∷ 65839 ∷ 1 ∷ 326 ∷ 5 ∷ 327 ∷ 328 ∷ [])
        ≡ Some (WriteQueue 301 (record {
          size = 302;
          threshold = 303;
          dedicated = true;
          priority = 70;
          pasid = 5;
          max_batch_shift = 71;
          max_xfer_shift = 72;
        })) }
    ensures shared { map event_of_words ((9 ∷ 1 ∷ 2 ∷ 3 ∷ 0 ∷ 4 ∷ 5 ∷ 6 ∷ 7 ∷ []) ∷ (9 ∷ 1 ∷ 2 ∷ 3
        ∷ 2 ∷ 4 ∷ 5 ∷ 6 ∷ 7 ∷ []) ∷ [])
        ≡ replicate 2 (Some (WriteQueue 1 (record {
          size = 2;
          threshold = 3;
          dedicated = false;
          priority = 4;
          pasid = 5;
          max_batch_shift = 6;
          max_xfer_shift = 7;
        }))) }
    ensures group { event_of_words (10 ∷ 65837 ∷ 4 ∷ 5 ∷ 6 ∷ 7 ∷ 65838 ∷ 65839 ∷ 9 ∷ [])
        ≡ Some (WriteGroup 301 (record {
          queues = 0x500000004;
          engines = 0x700000006;
          reserved = 302;
          allowed = 303;
        })) }
    ensures clear { event_of_words (11 ∷ 0 ∷ 0 ∷ 0 ∷ 0 ∷ 0 ∷ 0 ∷ 0 ∷ 0 ∷ []) ≡ Some ClearError }
    ensures nothing { event_of_words (0 ∷ 1 ∷ 2 ∷ 3 ∷ 4 ∷ 5 ∷ 6 ∷ 7 ∷ 8 ∷ []) ≡ None }
{}

/// The commands of all numbers: 1 to 12.
pub fn commands_of_words()
    ensures each { map (λ number. command_of_words number 326 65837)
        (0 ∷ 1 ∷ 2 ∷ 3 ∷ 4 ∷ 5 ∷ 6 ∷ 7 ∷ 8 ∷ 9 ∷ 10 ∷ 11 ∷ 12 ∷ 13 ∷ [])
        ≡ None ∷ Some EnableDevice ∷ Some DisableDevice ∷ Some DrainAll ∷ Some AbortAll
        ∷ Some ResetDevice ∷ Some (EnableWq 326)
        ∷ Some (DisableWq (record { group = 70; mask = 301 }))
        ∷ Some (DrainWq (record { group = 70; mask = 301 }))
        ∷ Some (AbortWq (record { group = 70; mask = 301 }))
        ∷ Some (ResetWq (record { group = 70; mask = 301 })) ∷ Some (DrainPasid 326)
        ∷ Some (AbortPasid 326) ∷ None ∷ [] }
{}

/// What two words say was free, what the words of a header say, and a queue that an entry was taken
/// from.
pub fn choices_and_headers_of_words()
    ensures choices { map choice_of_words
        ((0 ∷ 9 ∷ []) ∷ (1 ∷ 9 ∷ []) ∷ (2 ∷ 9 ∷ []) ∷ (3 ∷ 9 ∷ []) ∷ [])
        ≡ nothing ∷ in_cell (record { 0 = 9 }) ∷ from_queue 9 ∷ nothing ∷ [] }
    ensures taken { choice_words (from_queue 9) ≡ 2 ∷ 9 ∷ [] }
    ensures caps { caps_of_words (1 ∷ 65838 ∷ 65839 ∷ 65840 ∷ 65841 ∷ 65842 ∷ 65843 ∷ 326 ∷ 327 ∷ 10
        ∷ 11 ∷ [])
        ≡ record {
          queues = 302;
          groups = 303;
          engines = 304;
          total_size = 305;
          read_buffers = 306;
          slots = 307;
          max_batch_shift = 70;
          max_xfer_shift = 71;
        } }
{}

/// A record has the event and then what was free; a header counts room before steps.
#[tactic(auto, unfolding(crate::specs::Words::bytes_of_words, crate::specs::Format::event_bytes, crate::specs::Format::choice_bytes, crate::specs::Format::header_bytes))]
pub fn records_and_headers()
    ensures step { record_of (record {
      event = Dispatch 2;
      reply = reply.Dispatch (Taken (record { cell = record { 0 = 4 }; name = 5 }) 9);
    })
        ≡ 3 ∷ 0 ∷ 0 ∷ 0 ∷ 2 ∷ 0 ∷ 0 ∷ 0 ∷ 0 ∷ 0 ∷ 0 ∷ 0 ∷ 0 ∷ 0 ∷ 0 ∷ 0 ∷ 0 ∷ 0 ∷ 0 ∷ 0 ∷ 0 ∷ 0 ∷ 0
        ∷ 0 ∷ 0 ∷ 0 ∷ 0 ∷ 0 ∷ 0 ∷ 0 ∷ 0 ∷ 0 ∷ 0 ∷ 0 ∷ 0 ∷ 0 ∷ 2 ∷ 0 ∷ 0 ∷ 0 ∷ 9 ∷ 0 ∷ 0 ∷ 0 ∷ [] }
    ensures header { header_bytes saved_uneven_caps 10 11
        ≡ 1 ∷ 0 ∷ 0 ∷ 0 ∷ 3 ∷ 0 ∷ 0 ∷ 0 ∷ 1 ∷ 0 ∷ 0 ∷ 0 ∷ 2 ∷ 0 ∷ 0 ∷ 0 ∷ 12 ∷ 0 ∷ 0 ∷ 0 ∷ 16 ∷ 0
        ∷ 0 ∷ 0 ∷ 4 ∷ 0 ∷ 0 ∷ 0 ∷ 5 ∷ 0 ∷ 0 ∷ 0 ∷ 20 ∷ 0 ∷ 0 ∷ 0 ∷ 10 ∷ 0 ∷ 0 ∷ 0 ∷ 11 ∷ 0 ∷ 0 ∷ 0
        ∷ [] }
{}

/// A saved device with a step: its start, the record, and the checksum of all of them.
#[tactic(auto, unfolding(crate::specs::Words::bytes_of_words, crate::specs::Format::event_bytes, crate::specs::Format::choice_bytes, crate::specs::Format::header_bytes, crate::specs::Saved::saved_body, crate::specs::Saved::saved_bytes))]
pub fn saved_devices()
    ensures body { saved_body device_that_polled ≡ bytes_of_a_poll }
    ensures whole { saved_bytes device_that_polled ≡ bytes_of_a_poll ++ sha256 bytes_of_a_poll }
{}

/// The parts of 100 bytes: all but the last 32 are the body, and its first 52 the start.
#[tactic(auto, unfolding(crate::specs::Words::words_of))]
pub fn parts_of_bytes()
    ensures body { body_in (range_with_len 0 100) ≡ range_with_len 0 68 }
    ensures start { start_in (range_with_len 0 100) ≡ range_with_len 0 52 }
    ensures records { records_in (range_with_len 0 100) ≡ range_with_len 52 16 }
    ensures header { header_in (range_with_len 0 100) ≡ 185207048 ∷ 252579084 ∷ 319951120
        ∷ 387323156 ∷ 454695192 ∷ 522067228 ∷ 589439264 ∷ 656811300 ∷ 724183336 ∷ 791555372
        ∷ 858927408 ∷ [] }
    ensures capacity { (first_in (range_with_len 0 100)).capacity ≡ 791555372 }
{}

/// What the start of bytes has, and bytes that lack it.
#[tactic(auto, unfolding(crate::specs::Words::bytes_of_words, crate::specs::Words::words_of, crate::specs::Format::header_bytes))]
pub fn starts_of_bytes()
    ensures long { IsLong (replicate 84 0) }
    ensures short { ¬ IsLong (replicate 83 0) }
    ensures magic { HasMagic (bytes_of_zeros 76) }
    ensures no_magic { ¬ HasMagic (bytes_saying (codes "DSASAVEX") (words_saying 1 2 10 1) 76) }
    ensures version { HasVersion (bytes_of_zeros 76) }
    ensures no_version { ¬ HasVersion (bytes_of_header (words_saying 2 2 10 1)) }
    ensures records { HasLength (bytes_of_zeros 76) }
    ensures no_records { ¬ HasLength (bytes_of_header (words_saying 1 2 10 2)) }
    ensures capacity { HasCapacity (bytes_of_header (words_saying 1 2 1048576 1)) }
    ensures no_capacity { ¬ HasCapacity (bytes_of_header (words_saying 1 2 1048577 1)) }
    ensures caps { HasCaps (bytes_of_zeros 76) }
    ensures large_caps { ¬ HasCaps (bytes_of_header (words_saying 1 65538 10 1)) }
    ensures no_caps { ¬ HasCaps (bytes_of_header (words_saying 1 0 10 1)) }
    ensures read { IsHeaderRead (bytes_of_zeros 76) }
{}

/// The first that fails of what a start has.
#[tactic(auto, unfolding(crate::specs::Words::bytes_of_words, crate::specs::Words::words_of, crate::specs::Format::header_bytes))]
pub fn faults_of_starts()
    ensures truncated { IsStartFault Truncated (replicate 83 0) }
    ensures not_truncated { ¬ IsStartFault Truncated (replicate 84 0) }
    ensures magic { IsStartFault BadMagic (replicate 84 0) }
    ensures short_magic { ¬ IsStartFault BadMagic (replicate 83 0) }
    ensures good_magic { ¬ IsStartFault BadMagic (bytes_of_zeros 76) }
    ensures version { IsStartFault BadVersion (bytes_of_header (words_saying 2 2 10 1)) }
    ensures short_version { ¬ IsStartFault BadVersion
        (bytes_saying (codes "DSASAVED") (words_saying 2 2 10 1) 31) }
    ensures other_magic { ¬ IsStartFault BadVersion
        (bytes_saying (codes "DSASAVEX") (words_saying 2 2 10 1) 76) }
    ensures good_version { ¬ IsStartFault BadVersion (bytes_of_zeros 76) }
    ensures length { IsStartFault BadLength (bytes_of_header (words_saying 1 2 10 2)) }
    ensures short_length { ¬ IsStartFault BadLength (bytes_of_zeros 31) }
    ensures length_of_another { ¬ IsStartFault BadLength
        (bytes_saying (codes "DSASAVEX") (words_saying 1 2 10 2) 76) }
    ensures length_of_a_version { ¬ IsStartFault BadLength
        (bytes_of_header (words_saying 2 2 10 2)) }
    ensures good_length { ¬ IsStartFault BadLength (bytes_of_zeros 76) }
    ensures memory { ¬ IsStartFault OutOfMemory (bytes_of_zeros 76) }
{}

//! Seats, devices under the lock, and what settling finds.

ghost use Rattle.std.specs.Prelude.{◌≡◌, ℕ, [], ◌∷◌, true, Some, None, length, map};
ghost use Rattle.dsa_regs.specs.Worked.{caps, largest};
ghost use Rattle.dsa_book.specs.declared.answer.Cause.TheVariants.{AtLimit};
ghost use Rattle.dsa_book.specs.declared.answer.FinishAnswer.TheVariants.{Done};
ghost use Rattle.dsa_book.specs.declared.answer.PollAnswer.TheVariants.{Full, Nothing};
ghost use Rattle.dsa_book.specs.declared.answer.Reply.TheVariants as reply;
ghost use Rattle.dsa_book.specs.declared.answer.SubmitAnswer.TheVariants as submit;
ghost use Rattle.dsa_book.specs.declared.event.Actor.TheVariants.{Client, Engine};
ghost use Rattle.dsa_book.specs.declared.event.Event.TheVariants as event;
ghost use Rattle.dsa_book.specs.declared.fate.Fate.TheVariants.{Abandoned, Completed};
ghost use Rattle.dsa_device.specs.Running.{running_at_first};
ghost use Rattle.dsa_shared.specs.Compare.{DiffersFirstAt};
ghost use Rattle.dsa_shared.specs.Locked.{IsAdminStep, IsAnsweredFor, IsReadOf, IsUnderLock};
ghost use Rattle.dsa_shared.specs.Seat.{client_of, engine_of_seat, fresh, no_caps, number_of_seat, receipts_of, with_receipt, AllFresh};
ghost use Rattle.dsa_shared.specs.Settle.{over_seats, AgreeSoFar, AllMatch, FirstMismatch, HasEach, IsComplete, IsFirstMismatch, Match};
ghost use Rattle.dsa_shared.specs.Totals.{totals_of, Balance};
ghost use Rattle.dsa_shared_rows.specs.Worked.{again_of_client, end_of_engine, even_totals, fate_line, fetch_of_engine, lacking_clients, lacking_engines, of_all_seats, of_client, one_issue, question, seat_of, taken_of_client, two_clients, two_engines, uneven_clients, uneven_engines, uneven_history, uneven_totals, with_fates, UnevenSums};

/// A seat at first and after a step, whose it is, and no capabilities.
pub fn values_of_seats()
    ensures at_first { fresh 3 ≡ seat_of 3 [] }
    ensures kept { with_receipt (seat_of 3 (again_of_client 3 ∷ [])) (taken_of_client 3).event
        (taken_of_client 3).reply
        ≡ seat_of 3 (again_of_client 3 ∷ taken_of_client 3 ∷ []) }
    ensures not_kept { with_receipt (seat_of 3 (again_of_client 3 ∷ []))
        (of_client 3 submit.Full).event (reply.Submit submit.Full)
        ≡ seat_of 3 (again_of_client 3 ∷ []) }
    ensures clients { client_of (seat_of 3 []) ≡ Client 3 }
    ensures engines { engine_of_seat (seat_of 3 []) ≡ Engine 3 }
    ensures number { number_of_seat (seat_of 3 []) ≡ 3 }
    ensures receipts { receipts_of (seat_of 3 (again_of_client 3 ∷ [])) ≡ again_of_client 3 ∷ [] }
    ensures caps { no_caps
        ≡ record {
          queues = 0;
          groups = 0;
          engines = 0;
          total_size = 0;
          read_buffers = 0;
          slots = 0;
          max_batch_shift = 0;
          max_xfer_shift = 0;
        } }
{}

/// Seats at first: each number below the count has one, in order.
pub fn seats_at_first()
    ensures two { AllFresh 2 (seat_of 0 [] ∷ seat_of 1 [] ∷ []) }
    ensures more { ¬ AllFresh 1 (seat_of 0 [] ∷ seat_of 1 [] ∷ []) }
    ensures numbers { ¬ AllFresh 2 (seat_of 0 [] ∷ seat_of 2 [] ∷ []) }
    ensures receipts { ¬ AllFresh 2 (seat_of 0 [] ∷ seat_of 1 (again_of_client 1 ∷ []) ∷ []) }
{}

/// Where two lists of steps differ first.
pub fn lists_that_differ()
    ensures second { DiffersFirstAt (taken_of_client 0 ∷ again_of_client 0 ∷ [])
        (taken_of_client 0 ∷ taken_of_client 0 ∷ []) 1 }
    ensures ended { DiffersFirstAt (taken_of_client 0 ∷ [])
        (taken_of_client 0 ∷ taken_of_client 0 ∷ []) 1 }
    ensures alike_there { ¬ DiffersFirstAt (taken_of_client 0 ∷ again_of_client 0 ∷ [])
        (taken_of_client 0 ∷ taken_of_client 0 ∷ []) 0 }
    ensures differs_before { ¬ DiffersFirstAt (again_of_client 0 ∷ taken_of_client 0 ∷ [])
        (taken_of_client 0 ∷ again_of_client 0 ∷ []) 1 }
{}

/// Devices that a lock may keep, and what is read of some such device.
pub fn devices_under_a_lock()
    ensures kept { IsUnderLock caps 5 (running_at_first caps 5) }
    ensures begun_anew { ¬ IsUnderLock caps 5 (record (running_at_first caps 5) { anew = true }) }
    ensures no_replay { ¬ IsUnderLock caps 1048577 (running_at_first caps 1048577) }
    ensures other_caps { ¬ IsUnderLock largest 5 (running_at_first caps 5) }
    ensures other_capacity { ¬ IsUnderLock caps 6 (running_at_first caps 5) }
    ensures read { IsReadOf caps 5 (λ d. length d.history) 0 }
    ensures read_of_none { ¬ IsReadOf caps 1048577 (λ d. d.caps.queues) 2 }
    ensures other_value { ¬ IsReadOf caps 5 (λ d. d.capacity) 6 }
{}

/// What some device that a lock may keep answers, which is not older than the receipts.
pub fn answers_under_a_lock()
    ensures full { IsAnsweredFor caps 0 [] event.Poll (reply.Poll Full) }
    ensures of_none { ¬ IsAnsweredFor caps 1048577 [] event.Poll (reply.Poll Full) }
    ensures older { ¬ IsAnsweredFor caps 0 (question Nothing ∷ []) event.Poll (reply.Poll Full) }
    ensures other_reply { ¬ IsAnsweredFor caps 0 [] event.Poll (reply.Poll Nothing) }
    ensures of_no_administrator { ¬ IsAdminStep caps 1048577 [] (question Full ∷ []) event.Poll
        (reply.Poll Full) }
{}

/// One of each number below the count, and no other.
pub fn numbers_of_seats()
    ensures three { HasEach (λ n. n) 3 (2 ∷ 0 ∷ 1 ∷ []) }
    ensures one_more { ¬ HasEach (λ n. n) 2 (1 ∷ 0 ∷ 2 ∷ []) }
    ensures one_lacks { ¬ HasEach (λ n. n) 2 (0 ∷ []) }
    ensures one_twice { ¬ HasEach (λ n. n) 2 (0 ∷ 1 ∷ 0 ∷ []) }
{}

/// A seat for each client and for each engine, and the administrator's.
pub fn seats_that_are_complete()
    ensures complete { IsComplete (seat_of 1 [] ∷ seat_of 0 [] ∷ []) (seat_of 0 [] ∷ [])
        (Some []) 2 1 }
    ensures no_client { ¬ IsComplete (seat_of 1 [] ∷ []) (seat_of 0 [] ∷ []) (Some []) 2 1 }
    ensures no_engine { ¬ IsComplete (seat_of 1 [] ∷ seat_of 0 [] ∷ []) [] (Some []) 2 1 }
    ensures no_admin { ¬ IsComplete (seat_of 1 [] ∷ seat_of 0 [] ∷ []) (seat_of 0 [] ∷ []) None
        2 1 }
{}

/// Seats whose receipts are their steps of a history.
pub fn seats_that_match()
    ensures all { Match of_all_seats two_clients two_engines (Some one_issue) }
    ensures not_clients { ¬ Match of_all_seats lacking_clients two_engines (Some one_issue) }
    ensures not_engines { ¬ Match of_all_seats two_clients lacking_engines (Some one_issue) }
    ensures not_admin { ¬ Match of_all_seats two_clients two_engines (Some []) }
    ensures no_admin { ¬ Match of_all_seats two_clients two_engines None }
{}

/// Seats in the order of their numbers, and how many receipts of each a walk over a history has
/// come to.
pub fn seats_so_far()
    ensures at_first { AgreeSoFar number_of_seat engine_of_seat receipts_of [] two_engines [] }
    ensures on_the_way { AgreeSoFar number_of_seat engine_of_seat receipts_of
        (fetch_of_engine 0 ∷ end_of_engine 1 (Done 1) ∷ []) two_engines (1 ∷ 1 ∷ []) }
    ensures one_too_few { ¬ AgreeSoFar number_of_seat engine_of_seat receipts_of
        (fetch_of_engine 0 ∷ []) two_engines [] }
    ensures one_too_many { ¬ AgreeSoFar number_of_seat engine_of_seat receipts_of
        [] two_engines (0 ∷ 1 ∷ []) }
    ensures not_its_own { ¬ AgreeSoFar number_of_seat client_of receipts_of
        (fetch_of_engine 0 ∷ []) two_engines (1 ∷ 0 ∷ []) }
    ensures not_in_order { ¬ AgreeSoFar number_of_seat client_of receipts_of [] two_clients [] }
{}

/// The first of some seats whose receipts differ from its steps, and where they do.
pub fn mismatches()
    ensures lowest { FirstMismatch number_of_seat client_of receipts_of of_all_seats
        lacking_clients 1 }
    ensures not_the_lowest { ¬ FirstMismatch number_of_seat client_of receipts_of of_all_seats
        lacking_clients 0 }
    ensures all_match { ¬ FirstMismatch number_of_seat client_of receipts_of of_all_seats
        two_clients 1 }
    ensures no_seat { ¬ FirstMismatch number_of_seat client_of receipts_of of_all_seats [] 1 }
{}

/// The first mismatch: of clients, else of engines, else of the administrator.
pub fn first_mismatches()
    ensures client { IsFirstMismatch of_all_seats lacking_clients two_engines (Some one_issue) 1 }
    ensures engine { IsFirstMismatch of_all_seats two_clients lacking_engines (Some one_issue) 1 }
    ensures admin { IsFirstMismatch of_all_seats two_clients two_engines (Some []) 0 }
    ensures none { ¬ IsFirstMismatch of_all_seats two_clients two_engines (Some one_issue) 1 }
    ensures clients_first { ¬ IsFirstMismatch of_all_seats (seat_of 0 [] ∷ []) lacking_engines
        (Some (one_issue)) 1 }
    ensures clients_before_the_admin { ¬ IsFirstMismatch of_all_seats lacking_clients two_engines
        (Some []) 0 }
    ensures engines_before_the_admin { ¬ IsFirstMismatch of_all_seats two_clients lacking_engines
        (Some []) 0 }
{}

/// What seats add up to, and the totals of a history.
pub fn totals_of_seats()
    ensures all { over_seats length uneven_clients uneven_engines (Some one_issue) ≡ 11 }
    ensures no_admin { over_seats length two_clients two_engines None ≡ 6 }
    ensures totals { totals_of uneven_history 9 ≡ uneven_totals }
{}

/// Totals that are the sums over the seats, and totals of which one is not.
pub fn sums_over_seats()
    ensures sums { UnevenSums uneven_totals }
    ensures accepted { ¬ UnevenSums (record uneven_totals { accepted = 0 }) }
    ensures fetched { ¬ UnevenSums (record uneven_totals { fetched = 0 }) }
    ensures retried { ¬ UnevenSums (record uneven_totals { retried = 0 }) }
    ensures done { ¬ UnevenSums (record uneven_totals { done = 0 }) }
    ensures lost { ¬ UnevenSums (record uneven_totals { lost = 0 }) }
    ensures steps { ¬ UnevenSums (record uneven_totals { steps = 0 }) }
{}

/// What came in is what is done, lost or held, by the fates of entries.
pub fn balances()
    ensures even { Balance even_totals
        (with_fates (fate_line None (Completed 1) ∷ fate_line (Some 3) Abandoned ∷ [])) }
    ensures one_too_many { ¬ Balance (record even_totals { held = 5 })
        (with_fates (fate_line None (Completed 1) ∷ fate_line (Some 3) Abandoned ∷ [])) }
    ensures submitted { ¬ Balance even_totals
        (with_fates (fate_line (Some 3) Abandoned ∷ [])) }
    ensures members { ¬ Balance even_totals (with_fates (fate_line None (Completed 1) ∷ [])) }
    ensures abandoned { ¬ Balance even_totals
        (with_fates (fate_line None Abandoned ∷ fate_line (Some 3) Abandoned ∷ [])) }
{}

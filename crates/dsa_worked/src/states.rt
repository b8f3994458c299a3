//! The words of the laws in states of worked histories: which entries came, which names stand
//! where, what is in use, and what an engine works on.

ghost use Rattle.std.specs.Prelude.{◌≡◌, [], ◌∷◌, Some, None, true, false, take, length};
ghost use Rattle.dsa_book.specs.declared.fate.Fate.TheVariants.{Abandoned};
ghost use Rattle.dsa_book.specs.State.{occupancy};
ghost use Rattle.dsa_book.specs.Work.{all_used, used, members, note_at};
ghost use Rattle.dsa_laws.specs.WellFormed.{held_named, fates_named, runs_first};
ghost use Rattle.dsa_accounts.specs.Accounts.{submitted_entries, member_entries, only_members_abandoned};
ghost use Rattle.dsa_worked.specs.Setup.{row};
ghost use Rattle.dsa_worked.specs.Submissions.{two_portals};
ghost use Rattle.dsa_worked.specs.Batches.{buffers_of_a_batch, fence_waits, failure_abandons};
ghost use Rattle.dsa_worked.specs.Commands.{abort_takes_members};
ghost use Rattle.dsa_worked.specs.States.{seen_after, batches_on, covered_by, running_member, waiting_member, one_abandoned_member, one_abandoned_entry};

/// A batch of which one member ended and one was abandoned: one entry was submitted, and two are
/// members.
pub fn entries_of_a_failed_batch()
    ensures submitted { seen_after submitted_entries failure_abandons ≡ Some 1 }
    ensures members { seen_after member_entries failure_abandons ≡ Some 2 }
{}

/// A batch with two members, and an entry of another PASID: two entries were submitted and two are
/// members, before the abort and after it.
pub fn entries_of_an_aborted_batch()
    ensures submitted { seen_after submitted_entries abort_takes_members ≡ Some 2 }
    ensures members { seen_after member_entries abort_takes_members ≡ Some 2 }
    ensures submitted_before { seen_after submitted_entries (take 7 abort_takes_members) ≡ Some 2 }
    ensures members_before { seen_after member_entries (take 7 abort_takes_members) ≡ Some 2 }
{}

/// Name 2 is none's, then a held entry's, and after the abort a fate row's.
pub fn places_of_a_name()
    ensures not_held_yet { seen_after (λ w. held_named w 2) (take 4 abort_takes_members) ≡ Some 0 }
    ensures no_fate_yet { seen_after (λ w. fates_named w 2) (take 4 abort_takes_members) ≡ Some 0 }
    ensures held { seen_after (λ w. held_named w 2) (take 7 abort_takes_members) ≡ Some 1 }
    ensures held_without_fate { seen_after (λ w. fates_named w 2) (take 7 abort_takes_members)
        ≡ Some 0 }
    ensures not_held { seen_after (λ w. held_named w 2) abort_takes_members ≡ Some 0 }
    ensures fate { seen_after (λ w. fates_named w 2) abort_takes_members ≡ Some 1 }
{}

/// A member may be abandoned, and an entry that was submitted may not.
pub fn abandoned_entries()
    ensures member { only_members_abandoned one_abandoned_member ≡ true }
    ensures submitted { only_members_abandoned (row 0 None Abandoned ∷ []) ≡ false }
    ensures submitted_among_others { only_members_abandoned one_abandoned_entry ≡ false }
    ensures none { only_members_abandoned [] ≡ true }
{}

/// Eight buffers in each group cover all 16 of the device. Then the first group uses four and the
/// second twelve.
pub fn buffers_in_use()
    ensures in_first_group { seen_after (λ w. used w 0) (take 11 buffers_of_a_batch) ≡ Some 8 }
    ensures in_each_group { seen_after all_used (take 11 buffers_of_a_batch) ≡ Some (8 ∷ 8 ∷ []) }
    ensures covered { seen_after covered_by (take 11 buffers_of_a_batch) ≡ Some 16 }
    ensures in_each_group_later { seen_after all_used buffers_of_a_batch ≡ Some (4 ∷ 12 ∷ []) }
    ensures covered_later { seen_after covered_by buffers_of_a_batch ≡ Some 16 }
    ensures reserved_alone { seen_after covered_by [] ≡ Some 12 }
{}

/// A member that runs behind one that waits is out of order.
pub fn members_in_order()
    ensures in_order { runs_first (running_member ∷ waiting_member ∷ []) ≡ true }
    ensures out_of_order { runs_first (waiting_member ∷ running_member ∷ []) ≡ false }
    ensures out_of_order_behind { runs_first (running_member ∷ waiting_member ∷ running_member ∷ [])
        ≡ false }
    ensures none_runs { runs_first (waiting_member ∷ waiting_member ∷ []) ≡ true }
{}

/// Engine 0 works on batch 0, of which it has fetched three members, and engine 1 on none.
pub fn batch_of_an_engine()
    ensures note { seen_after (λ w. note_at w 0) (take 5 fence_waits)
        ≡ Some
        (Some (record { batch = 0; count = 3; fetched = 3; failed = false; closed = false })) }
    ensures one_batch { seen_after (batches_on 0) (take 5 fence_waits) ≡ Some 1 }
    ensures members { seen_after (λ w. length (members w 0)) (take 5 fence_waits) ≡ Some 3 }
    ensures no_note { seen_after (λ w. note_at w 1) (take 5 fence_waits) ≡ Some None }
    ensures no_batch { seen_after (batches_on 1) (take 5 fence_waits) ≡ Some 0 }
    ensures no_note_later { seen_after (λ w. note_at w 0) fence_waits ≡ Some None }
{}

/// Four entries wait in queue 0, which is its size.
pub fn occupancy_of_a_full_queue()
    ensures full { seen_after (λ w. occupancy w.content 0) (take 6 two_portals) ≡ Some 4 }
    ensures one_taken { seen_after (λ w. occupancy w.content 0) (take 7 two_portals) ≡ Some 3 }
{}

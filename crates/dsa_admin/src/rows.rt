//! Worked numbers of entries that are held and waited for: each contract below is proved by
//! computing it.

ghost use Rattle.std.specs.Prelude.{◌≡◌, [], ◌∷◌, map, Some, None, true, false};
ghost use Rattle.dsa_regs.specs.declared.Scope.TheVariants.{Device, Queue, Queues, Pasid};
ghost use Rattle.dsa_regs.specs.declared.Deed.TheVariants.{Enable, Disable, Drain, Abort, Reset};
ghost use Rattle.dsa_store.specs.Content.{count_where};
ghost use Rattle.dsa_queues.specs.Queues.{held_of};
ghost use Rattle.dsa_admin.specs.Admin.{is_counting, is_watched, is_counted_by, names_queue, names_queues};
ghost use Rattle.dsa_admin.specs.Worked.{content, by_name, drain_of_queue, disable_of_queue, drain_of_pasid};

/// A queue's number counts what names it in all lists: what waits, what is in progress, and
/// members.
pub fn held_by_queue()
    ensures { map (held_of content) (0 ∷ 1 ∷ 2 ∷ []) ≡ 4 ∷ 1 ∷ 0 ∷ [] }
{}

/// A drain counts what was submitted before it to its queue or under its PASID, and no member.
pub fn watched_by_drains()
    ensures queue { map (is_watched (drain_of_queue 5)) by_name
        ≡ true ∷ true ∷ false ∷ true ∷ false ∷ [] }
    ensures mark { map (is_watched (drain_of_queue 3)) by_name
        ≡ true ∷ true ∷ false ∷ false ∷ false ∷ [] }
    ensures pasid { map (is_watched (drain_of_pasid 5)) by_name
        ≡ true ∷ true ∷ true ∷ false ∷ false ∷ [] }
    ensures number { count_where (is_watched (drain_of_queue 5)) content ≡ 3 }
    ensures active { map
        (is_counted_by (record { active = Some (drain_of_queue 5); awaited = 3 })) by_name
        ≡ true ∷ true ∷ false ∷ true ∷ false ∷ [] }
{}

/// A disable counts nothing, and without a command nothing is counted.
pub fn watched_by_none()
    ensures disable { map (is_watched (disable_of_queue 5)) by_name
        ≡ false ∷ false ∷ false ∷ false ∷ false ∷ [] }
    ensures none { map (is_counted_by (record { active = None; awaited = 0 })) by_name
        ≡ false ∷ false ∷ false ∷ false ∷ false ∷ [] }
    ensures deeds { map is_counting (Enable ∷ Disable ∷ Drain ∷ Abort ∷ Reset ∷ [])
        ≡ true ∷ false ∷ true ∷ true ∷ true ∷ [] }
{}

/// A scope of queues has those that it names, the device all; a PASID is no such scope.
pub fn scopes_of_queues()
    ensures device { map (names_queue Device) (0 ∷ 7 ∷ []) ≡ true ∷ true ∷ [] }
    ensures queue { map (names_queue (Queue 1)) (0 ∷ 1 ∷ []) ≡ false ∷ true ∷ [] }
    ensures mask { map (names_queue (Queues (record { group = 0; mask = 2 }))) (0 ∷ 1 ∷ [])
        ≡ false ∷ true ∷ [] }
    ensures kinds { map names_queues
        (Device ∷ Queue 1 ∷ Queues (record { group = 0; mask = 2 }) ∷ Pasid 5 ∷ [])
        ≡ true ∷ true ∷ true ∷ false ∷ [] }
{}

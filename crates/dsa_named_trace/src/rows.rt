//! Worked lines of traces with own names, by computation.

ghost use Rattle.std.specs.Prelude.{◌≡◌, [], ◌∷◌, codes, false, map, true};
ghost use Rattle.dsa_book.specs.declared.answer.FinishAnswer.TheVariants.{Gone};
ghost use Rattle.dsa_scenario.specs.Worked.{accepted, record_ticket};
ghost use Rattle.dsa_chosen.specs.Worked.{aborted_so_many, finished_with};
ghost use Rattle.dsa_named.specs.Worked.{entry_taken, retry_answered};
ghost use Rattle.dsa_named_lines.specs.Worked.{three_names};
ghost use Rattle.dsa_trace.specs.declared.form.Trace.TheVariants.{Changes, Json, Table, Wide};
ghost use Rattle.dsa_named_trace.specs.{Lines.{noted_line, own_members}, Shown.{is_traced, shown_names}};
ghost use Rattle.dsa_named_trace.specs.Worked.{device_of_a_drain, device_of_three};

/// Of which entries a line shows the own names.
pub fn of_entries()
    ensures listed { map (λ form. shown_names form three_names retry_answered device_of_a_drain)
        (Table ∷ Wide ∷ Json ∷ Changes ∷ [])
        ≡ three_names ∷ three_names ∷ three_names ∷ [] ∷ [] }
    ensures traced { map
        (λ name. is_traced name retry_answered device_of_three.state (3 ∷ 6 ∷ []))
        (3 ∷ 4 ∷ 6 ∷ 7 ∷ [])
        ≡ true ∷ false ∷ true ∷ false ∷ [] }
    ensures about { map (λ entry. shown_names Changes three_names entry device_of_a_drain)
        (accepted (record_ticket 5 7) ∷ entry_taken 4 ∷ entry_taken 6 ∷ [])
        ≡ ((7, codes "c") ∷ []) ∷ ((4, codes "a") ∷ []) ∷ [] ∷ [] }
    ensures ended { map (λ entry. shown_names Table three_names entry device_of_three)
        (finished_with 4 Gone ∷ aborted_so_many 2 ∷ retry_answered ∷ [])
        ≡ ((4, codes "a") ∷ []) ∷ ((5, codes "b") ∷ (7, codes "c") ∷ []) ∷ [] ∷ [] }
{}

/// Own names as a member of an object.
#[tactic(auto, unfolding(dsa_scenario::specs::Worked::digits_on_literals))]
pub fn of_members()
    ensures members { map own_members ([] ∷ ((4, codes "x17") ∷ []) ∷ three_names ∷ [])
        ≡ []
        ∷ codes ",\"as\":{\"4\":\"x17\"}"
        ∷ codes ",\"as\":{\"4\":\"a\",\"5\":\"b\",\"7\":\"c\"}" ∷ [] }
{}

/// Where the own names come in a line.
#[tactic(auto, unfolding(dsa_scenario::specs::Worked::digits_on_literals))]
pub fn of_lines()
    ensures rows { map (λ form. noted_line form ((4, codes "x") ∷ (7, codes "y") ∷ [])
        (codes "3 | poll -> nothing\n"))
        (Table ∷ Wide ∷ Changes ∷ [])
        ≡ codes "3 | poll -> nothing [4 is x, 7 is y]\n"
        ∷ codes "3 | poll -> nothing [4 is x, 7 is y]\n"
        ∷ codes "3 | poll -> nothing [4 is x, 7 is y]\n" ∷ [] }
    ensures object { noted_line Json ((4, codes "x") ∷ []) (codes "{\"step\":3,\"active\":null}\n")
        ≡ codes "{\"step\":3,\"active\":null,\"as\":{\"4\":\"x\"}}\n" }
    ensures none { map (λ form. noted_line form [] (codes "3 | poll -> nothing\n"))
        (Table ∷ Json ∷ [])
        ≡ codes "3 | poll -> nothing\n" ∷ codes "3 | poll -> nothing\n" ∷ [] }
{}

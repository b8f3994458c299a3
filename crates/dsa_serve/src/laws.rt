//! Laws of dialogues, each on a function with nothing to do: what the steps of one are together.

ghost use Rattle.std.specs.Prelude.{◌≡◌, ℕ, List, [], Some, true, false};
ghost use Rattle.std.specs.List.{list_any};
ghost use Rattle.dsa_regs.specs.declared.Caps.{Caps};
ghost use Rattle.dsa_book.specs.declared.fate.FateRow.{FateRow};
ghost use Rattle.dsa_book.specs.Machine.{is_legal, is_run, replay, stored_steps};
ghost use Rattle.dsa_laws.specs.Forgotten.{with_past_fates};
ghost use Rattle.dsa_device.specs.Running.{running_at_first};
ghost use Rattle.dsa_scenario.specs.Document.{IsOpenable};
ghost use Rattle.dsa_scenario.specs.{Run.{steps_of_records}, Steps.{Visit, visits}};
ghost use Rattle.dsa_serve.specs.Requests.{Request, begins_anew};
ghost use Rattle.dsa_serve.specs.Answers.{after_requests, records_of_visits, AreStepsOf};

/// A dialogue that begins no history anew is one run of a new device: its steps are those of that
/// run, and the state is the replay of the steps that are stored.
pub fn dialogues_of_one_history()
    ensures { (caps : Caps) (capacity : ℕ) (requests : List Request) (steps : List Visit)
        → IsOpenable caps capacity
        → list_any begins_anew requests ≡ false
        → AreStepsOf (running_at_first caps capacity) 0 requests steps
        → (steps ≡ visits caps capacity [] (records_of_visits steps))
        × (is_run caps capacity (steps_of_records (records_of_visits steps)) ≡ true)
        × (replay caps (stored_steps (steps_of_records (records_of_visits steps)))
        ≡ Some (after_requests (running_at_first caps capacity) requests steps).state) }
{}

/// Whatever histories begin anew, all steps of a dialogue together are a legal history, and the
/// state is their replay but for the fates that were forgotten.
pub fn dialogues_of_many_histories()
    ensures { (caps : Caps) (capacity : ℕ) (requests : List Request) (steps : List Visit)
        → AreStepsOf (running_at_first caps capacity) 0 requests steps
        → (forgotten : List FateRow)
        × (is_legal caps (stored_steps (steps_of_records (records_of_visits steps))) ≡ true)
        × (replay caps (stored_steps (steps_of_records (records_of_visits steps)))
        ≡ Some (with_past_fates forgotten
        (after_requests (running_at_first caps capacity) requests steps).state)) }
{}

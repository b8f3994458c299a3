//! A law of what a step changed, on a function with nothing to do.

ghost use Rattle.std.specs.Prelude.{◌≡◌, ◌≢◌, ℕ, List, [], get_or};
ghost use Rattle.dsa_trace.specs.Changes.{shown_line};

/// A line is shown exactly if it is another one than before.
pub fn lines_are_shown_where_they_differ()
    ensures same { (was now : List (List ℕ)) (number : ℕ)
        → get_or now number [] ≡ get_or was number []
        → shown_line was now number ≡ [] }
    ensures other { (was now : List (List ℕ)) (number : ℕ)
        → get_or now number [] ≢ get_or was number []
        → shown_line was now number ≡ get_or now number [] }
{}

//! The version, which the program prints and the library for C answers.
#![tactic(auto)]

ghost use Rattle.std.specs.Prelude.{◌≡◌, ◌++◌, ◌+◌, ◌/◌, ◌%◌, codes};
ghost use Rattle.std.specs.Fmt.{decimal};

/// Rises when an answer, an output line or an exit status changes for input that was valid before.
pub const MAJOR: u32 = 0;

/// Rises when a call, a struct or a number for C goes away or means something else.
pub const MINOR: u32 = 2;

/// Rises when something is added or a fault is fixed, and all that worked works as before.
pub const PATCH: u32 = 0;

/// The three numbers as one.
pub const VERSION: u32 = MAJOR * 1_000_000 + MINOR * 1_000 + PATCH;

/// The number in the name of the shared library.
pub const SONAME_NUMBER: u32 = MAJOR + MINOR - 1;

/// The three numbers as a text.
pub fn version_text() -> &'static str
    ensures { result.now
        ≡ decimal MAJOR ++ codes "." ++ decimal MINOR ++ codes "." ++ decimal PATCH }
{
    "0.2.0"
}

/// Each of the three numbers can be read from `VERSION`.
pub fn version_has_three_numbers()
    ensures major { VERSION / 1000000 ≡ MAJOR }
    ensures minor { VERSION / 1000 % 1000 ≡ MINOR }
    ensures patch { VERSION % 1000 ≡ PATCH }
{}

/// The first shared library, that of 0.2, has the number 1.
pub fn soname_number_counts_from_one()
    ensures { SONAME_NUMBER + 1 ≡ MAJOR + MINOR }
{}

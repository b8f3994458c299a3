//! Why no device is made of bytes: the first that fails, with all that comes before it.

ghost use Rattle.std.specs.Prelude.{◌≡◌, ℕ, ◌++◌, [], List, Some, codes, slice_index};
ghost use Rattle.sha2.specs.Sha256.{sha256};
ghost use Rattle.dsa_device.specs.Running.{Running, after_answer};
ghost use Rattle.dsa_saved.specs.Faults.{HasCaps, HasChecksum, HasLength, HasMagic, HasStart, HasVersion};
ghost use Rattle.dsa_saved.specs.Faults.{IsLoadFault, IsLong, IsOtherStep, IsStartFault, header_in};
ghost use Rattle.dsa_saved.specs.declared.faults.LoadFault.TheVariants.{BadCapacity, BadChecksum, BadEvent, BadStep};
ghost use Rattle.dsa_saved.specs.Worked.{bytes_saying, words_saying};

/// A checksum is wrong only after a magic word, and a capacity is too large only where the start
/// has all else.
#[tactic(auto, unfolding(dsa_saved::specs::Words::bytes_of_words, dsa_saved::specs::Words::words_of, dsa_saved::specs::Format::header_bytes))]
pub fn starts_with_a_fault()
    ensures other_magic { ¬ IsStartFault BadChecksum
        (bytes_saying (codes "DSASAVEX") (words_saying 1 2 10 1) 76) }
    ensures capacity { (bytes : List ℕ) → IsLong bytes → HasMagic bytes → HasVersion bytes
        → HasLength bytes → HasChecksum bytes → HasCaps bytes
        → slice_index (header_in bytes) 9 ≡ 1_048_577
        → IsStartFault BadCapacity bytes }
    ensures too_large { (bytes : List ℕ) → slice_index (header_in bytes) 9 ≡ 1_048_577
        → ¬ HasStart bytes }
{}

/// Bytes that end with the checksum of those before it have it.
pub fn checksums_behind_bytes()
    ensures has { (body : List ℕ) → HasChecksum (body ++ sha256 body) }
{}

/// A record makes no step only after a start without a fault, and its device answers its event.
pub fn records_with_a_fault()
    ensures no_event { ¬ IsLoadFault (BadEvent 0) [] }
    ensures no_step { ¬ IsLoadFault (BadStep 0) [] }
    ensures answered { (said : List ℕ) (d : Running) (other : IsOtherStep said d)
        → after_answer d other.event other.reply ≡ Some other.after }
{}

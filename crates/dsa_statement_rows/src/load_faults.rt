//! What bytes have of which no device is made.

ghost use Rattle.std.specs.Prelude.{◌≡◌, ◌≢◌, ◌*◌, ℕ, List, Some, drop, take, true};
ghost use Rattle.dsa_book.specs.{Choice.{choice_of}, Machine.{is_stored}};
ghost use Rattle.dsa_device.specs.Running.{Running};
ghost use Rattle.dsa_saved.specs.Faults.{first_in, records_in, HasCapacity, HasCaps, HasChecksum, HasLength, HasMagic};
ghost use Rattle.dsa_saved.specs.Faults.{HasStart, HasVersion, IsFirstFault, IsLoadFault, IsLong, IsNoEvent, IsOtherStep};
ghost use Rattle.dsa_saved.specs.Faults.{IsRecordFault, IsStartFault};
ghost use Rattle.dsa_saved.specs.{Format.{choice_bytes}, Said.{event_of_words}, Steps.{HaveMade}, Words.{words_of}};
ghost use Rattle.dsa_saved.specs.declared.faults.LoadFault.TheVariants.{BadCapacity, BadCaps, BadChecksum, BadEvent};
ghost use Rattle.dsa_saved.specs.declared.faults.LoadFault.TheVariants.{BadLength, BadMagic, BadStep, BadVersion, Truncated};

/// The bytes have all that comes before what they lack.
pub fn starts_that_lack_one_thing()
    ensures truncated { (bytes : List ℕ) → IsStartFault Truncated bytes → ¬ IsLong bytes }
    ensures magic { (bytes : List ℕ) → IsStartFault BadMagic bytes
        → IsLong bytes × ¬ HasMagic bytes }
    ensures version { (bytes : List ℕ) → IsStartFault BadVersion bytes
        → IsLong bytes × HasMagic bytes × ¬ HasVersion bytes }
    ensures size { (bytes : List ℕ) → IsStartFault BadLength bytes
        → IsLong bytes × HasMagic bytes × HasVersion bytes × ¬ HasLength bytes }
    ensures checksum { (bytes : List ℕ) → IsStartFault BadChecksum bytes
        → IsLong bytes × HasMagic bytes × HasVersion bytes × HasLength bytes × ¬ HasChecksum bytes }
    ensures caps { (bytes : List ℕ) → IsStartFault BadCaps bytes
        → IsLong bytes × HasMagic bytes × HasVersion bytes × HasLength bytes × HasChecksum bytes ×
        ¬ HasCaps bytes }
    ensures capacity { (bytes : List ℕ) → IsStartFault BadCapacity bytes
        → IsLong bytes × HasMagic bytes × HasVersion bytes × HasLength bytes × HasChecksum bytes ×
        HasCaps bytes × ¬ HasCapacity bytes }
{}

/// The first record that makes no step comes after those that make theirs.
pub fn records_that_make_no_step()
    ensures event { (bytes : List ℕ) → IsLoadFault (BadEvent 3) bytes
        → HasStart bytes × IsFirstFault (BadEvent 3) (records_in bytes) (first_in bytes) }
    ensures step { (bytes : List ℕ) → IsLoadFault (BadStep 3) bytes
        → HasStart bytes × IsFirstFault (BadStep 3) (records_in bytes) (first_in bytes) }
    ensures made { (records : List ℕ) (first : Running)
        (is : IsFirstFault (BadStep 3) records first)
        → HaveMade (take (44 * is.number) records) first is.reached }
    ensures causes { (records : List ℕ) (first : Running)
        (is : IsFirstFault (BadStep 3) records first)
        → IsRecordFault (BadStep 3) (take 44 (drop (44 * is.number) records)) is.reached is.number }
    ensures no_event { (said : List ℕ) (d : Running) → IsRecordFault (BadEvent 3) said d 3
        → IsNoEvent (take 36 said) }
    ensures same_number { (said : List ℕ) (d : Running) (number n : ℕ)
        → IsRecordFault (BadStep number) said d n → number ≡ n }
    ensures other { (said : List ℕ) (d : Running) → IsRecordFault (BadStep 3) said d 3
        → IsOtherStep said d }
    ensures says { (said : List ℕ) (d : Running) (other : IsOtherStep said d)
        → event_of_words (words_of 9 (take 36 said)) ≡ Some other.event }
    ensures chosen { (said : List ℕ) (d : Running) (other : IsOtherStep said d)
        → is_stored other.reply ≡ true → choice_bytes (choice_of other.reply) ≢ drop 36 said }
{}

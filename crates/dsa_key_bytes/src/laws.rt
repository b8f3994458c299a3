//! What the bytes of a key say.

ghost use Rattle.std.specs.Prelude.{◌≡◌};
ghost use Rattle.dsa_keys.specs.Short.{ShortKey};
ghost use Rattle.dsa_key_bytes.specs.KeyBytes.{key_bytes, changing_key_bytes};

/// Equal bytes are those of equal keys, whatever their numbers. The bytes do not say the next name,
/// which is 0 in the key of each state.
pub fn equal_bytes_are_equal_keys()
    ensures { (k l : ShortKey)
        → k.setup.next_name ≡ l.setup.next_name
        → key_bytes k ≡ key_bytes l
        → k ≡ l }
{}

/// So are those without capabilities and configurations, where these are equal.
pub fn equal_changes_are_equal_keys()
    ensures { (k l : ShortKey)
        → k.setup.next_name ≡ l.setup.next_name
        → k.setup.caps ≡ l.setup.caps
        → k.setup.configs ≡ l.setup.configs
        → k.setup.groups ≡ l.setup.groups
        → changing_key_bytes k ≡ changing_key_bytes l
        → k ≡ l }
{}

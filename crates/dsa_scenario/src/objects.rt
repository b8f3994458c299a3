//! JSON values whose keys are looked up.

ghost use Rattle.std.specs.Prelude.{◌≡◌, option_map, option_and_then};
ghost use Rattle.serde_json.specs.{Data.{Data}, Find.{get, as_number, as_u64, as_bool, as_str}};
ghost use Rattle.serde_json.specs.View.{view};

use serde_json::Value;

/// A JSON value, wherever it is read from.
pub trait Object: Sized + Drop {
    // the data that it stands for
    ghost stands_for: { Self → Data };

    /// What stands at the key.
    fn get(&self, key: &str) -> Option<Self>
        ensures { option_map stands_for result ≡ get key.now (stands_for self.now) };

    /// The number, where it is whole and without sign.
    fn as_u64(&self) -> Option<u64>
        ensures { result ≡ option_and_then as_u64 (as_number (stands_for self.now)) };

    /// The truth value.
    fn as_bool(&self) -> Option<bool>
        ensures { result ≡ as_bool (stands_for self.now) };

    /// The text.
    fn as_str(&self) -> Option<&str>
        ensures { option_map (λ s. s.now) result ≡ as_str (stands_for self.now) };
}

impl<'v> Object for &'v Value {
    ghost stands_for = { λ v. view v.now };

    #[inline(always)]
    fn get(&self, key: &str) -> Option<&'v Value> {
        (**self).get(key)
    }

    #[inline(always)]
    fn as_u64(&self) -> Option<u64> {
        (**self).as_u64()
    }

    #[inline(always)]
    fn as_bool(&self) -> Option<bool> {
        (**self).as_bool()
    }

    #[inline(always)]
    fn as_str(&self) -> Option<&str> {
        (**self).as_str()
    }
}

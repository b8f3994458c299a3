//! Devices that answer alike, and steps that differ.

ghost use Rattle.std.specs.Prelude.{◌≡◌, ℕ, [], List};
ghost use Rattle.dsa_regs.specs.declared.Caps.{Caps};
ghost use Rattle.dsa_conform.specs.Every.{AreDiffering};
ghost use Rattle.dsa_conform.specs.Ways.{AreDevicesAlike};
ghost use Rattle.dsa_conform.specs.Worked.{smallest_device_at_first};

/// Devices are alike however much room each began with.
pub fn devices_with_another_room()
    ensures room { AreDevicesAlike (record smallest_device_at_first { room = 5 })
        smallest_device_at_first }
{}

/// Of no steps none is the first that differs.
pub fn steps_that_differ()
    ensures none { (caps : Caps) (text : List ℕ) → ¬ AreDiffering caps 9 [] 0 text }
{}

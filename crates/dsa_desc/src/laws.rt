//! What holds of the definitions, for all values.

ghost use Rattle.std.specs.Prelude.{◌≡◌, ℕ, List};
ghost use Rattle.dsa_desc.specs.Descriptor.{read, with_pasid, enqcmd_image};

/// What a device reads of the image that ENQCMD wrote is what it would read of the source, under
/// the PASID of the caller.
pub fn fields_of_image()
    ensures { (bytes : List ℕ) (pasid : ℕ)
        → read (enqcmd_image bytes pasid) ≡ with_pasid (read bytes) pasid }
{}

//! Places of C that a call writes to.

ghost use Rattle.std.specs.Prelude.{◌≡◌, ◌≤◌, ◌∷◌, ℕ, List, length};
ghost use Rattle.dsa_c.specs.Buffers.{with_items, with_items_from, with_text_for_c};

// Writes as many bytes of the text as fit before a zero, and the zero. Nothing where there is no
// place.
pub(crate) fn write_text(text: &[u8], places: &mut [u8])
    ensures { places.new ≡ with_text_for_c places.old text.now }
{
    if places.is_empty() {
        return;
    }
    let shown = text.len().min(places.len() - 1);
    let (front, rest) = places.split_at_mut(shown);
    front.copy_from_slice(&text[..shown]);
    rest[0] = 0;
}

// Writes the number to this place, where there is one. The place where the next one goes.
pub(crate) fn write_number(number: u32, places: &mut [u32], place: usize) -> usize
    ensures { (rest : List ℕ) → with_items_from result rest places.new
        ≡ with_items_from place (number ∷ rest) places.old }
{
    if place >= places.len() {
        return place;
    }
    places[place] = number;
    place + 1
}

// Writes all the bytes to the first places.
pub(crate) fn write_bytes(bytes: &[u8], places: &mut [u8])
    requires { length bytes.now ≤ length places.old }
    ensures { places.new ≡ with_items places.old bytes.now }
{
    let (front, _) = places.split_at_mut(bytes.len());
    front.copy_from_slice(bytes);
}

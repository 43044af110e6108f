//! Laws of the definitions. Each is the contract of a function with an empty body.
ghost use Rattle.std.specs.Prelude.{◌≡◌, ℕ, ◌+◌, ◌*◌, ◌%◌, ◌<◌, ◌≤◌, List, length, slice_index};
ghost use Rattle.std.specs.Prelude.{slice_range};
ghost use Rattle.std.specs.Int.{Width, byte_len};
ghost use Rattle.fidl_wire.specs.Field.{number_at};
ghost use Rattle.fidl_links.specs.Links.{Written, places, IsFree, IsFreeWord};

/// No link stands over any of the bytes of a free word.
pub fn bytes_of_a_free_word_are_free()
    ensures { (m : Written) (place k : ℕ) → place % 8 ≡ 0 → IsFreeWord m place → place ≤ k
        → k < place + 8 → IsFree m k }
{}

/// Bytes that are those that came wherever no link stands, as `raw` gives them: a part over which
/// no link stands is the part that came.
pub fn free_parts_are_as_they_came()
    ensures { (m : Written) (raw : List ℕ) → length raw ≡ length m.came
        → ((k : ℕ) → k < length m.came → IsFree m k → slice_index raw k ≡ slice_index m.came k)
        → (from to : ℕ) → to ≤ length m.came → ((k : ℕ) → from ≤ k → k < to → IsFree m k)
        → slice_range raw from to ≡ slice_range m.came from to }
{}

/// So a number over which no link stands is the number that came.
pub fn free_numbers_are_as_they_came()
    ensures { (m : Written) (raw : List ℕ) → length raw ≡ length m.came
        → ((k : ℕ) → k < length m.came → IsFree m k → slice_index raw k ≡ slice_index m.came k)
        → (width : Width) (place : ℕ) → place + byte_len width ≤ length m.came
        → ((k : ℕ) → place ≤ k → k < place + byte_len width → IsFree m k)
        → number_at width raw place ≡ number_at width m.came place }
{}

/// At most two places of each eight bytes hold a link.
pub fn places_are_few()
    ensures { (m : Written) → places m ≤ 2 * length m.objects }
{}

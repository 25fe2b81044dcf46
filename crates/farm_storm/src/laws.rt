//! Laws of the storm, each a clause that quantifies over every input.
ghost use Rattle.std.specs.Prelude.{◌≡◌, ℕ, map};
ghost use Rattle.std.specs.List.{range_with_len};
ghost use Rattle.farm_storm.specs.Deeds.{storm_deeds};
ghost use Rattle.farm_storm.specs.Places.{deed_at};

/// What is done in the storm is told by the place.
pub fn deeds_by_place()
    ensures { (n : ℕ) → storm_deeds n ≡ map deed_at (range_with_len 0 n) }
{}

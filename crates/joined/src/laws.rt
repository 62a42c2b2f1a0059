//! Laws about images that are joined.

ghost use Rattle.std.specs.Prelude.{◌≡◌, ◌↔◌, true};
ghost use Rattle.joined.specs.Joining.{have_same_cables};
ghost use Rattle.table_image.specs.Internet.{Internet};

/// Internets have the same cables exactly if their lists of cables are equal.
pub fn same_cables_are_equal()
    ensures { (one other : Internet)
        → (have_same_cables one other ≡ true) ↔ (one.cables ≡ other.cables) }
{}

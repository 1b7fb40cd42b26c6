//! The texts of a made ship are accepted, and the program of its voyage is within the limits, whatever its number.
ghost use Rattle.std.specs.Prelude.{◌≡◌, ◌≤◌, ℕ, length, Ok};
ghost use Rattle.stow_gen.specs.Profile.{profile_text};
ghost use Rattle.stow_gen.specs.Bookings.{bookings_text};
ghost use Rattle.stow_data.specs.Ship.{places};
ghost use Rattle.ship_profile.specs.ShipText.{profile_of};
ghost use Rattle.bookings.specs.Reading.{bookings_of};
ghost use Rattle.bookings.specs.Rules.{IsBookings};
ghost use Rattle.zero_one_rows.specs.Variables.{variables};
ghost use Rattle.zero_one_rows.specs.Counted.{all_rows};
ghost use Rattle.stow_gen.specs.MadeShip.{made_ship};
ghost use Rattle.stow_gen.specs.MadeBookings.{made_bookings};
ghost use Rattle.stow_gen.specs.MadeVoyage.{made_voyage};

/// The readers accept the profile of the made ship and the bookings of each number: these texts are this ship and these
/// bookings, which keep their rules.
pub fn made_texts_are_read()
    ensures profile { profile_of profile_text ≡ Ok made_ship }
    ensures bookings { (number : ℕ) → bookings_of (bookings_text number) ≡ Ok (made_bookings number) }
    ensures rules { (number : ℕ) → IsBookings (made_bookings number) }
{}

/// Each made voyage is within the limits: of calls, containers and places, and of the variables and rows of its 0-1
/// program.
pub fn made_voyages_are_within()
    ensures calls { (number : ℕ) → length (made_voyage number).cargo.rotation ≡ 6 }
    ensures containers { (number : ℕ) → length (made_voyage number).cargo.containers ≡ 120 }
    ensures places { length (places made_ship) ≡ 96 }
    ensures variables { (number : ℕ) → length (variables (made_voyage number)) ≤ 172800 }
    ensures rows { (number : ℕ) → length (all_rows (made_voyage number)) ≤ 12238 }
{}

// Faults: the reasons for which something is refused, each with its number.

#![tactic(auto)]

ghost use Rattle.std.specs.Prelude.{◌≡◌, ℕ};

// The reasons of one layer. The one with the lower number is checked earlier.
pub trait Fault: Copy {
    ghost number_of: { Self → ℕ };

    // The number under which the refusal is reported.
    fn number(self) -> u8
        ensures { result ≡ number_of self };

    // No two reasons have one number.
    ghost distinct: { (f g : Self) → number_of f ≡ number_of g → f ≡ g };
}

// A checker for trials of what comes after the seals.
ghost use Rattle.std.specs.Prelude.{true};

use seals::Checker;

// Finds every seal good.
#[derive(Clone, Copy)]
pub struct Trusting;

impl Checker for Trusting {
    ghost good = { λ _ _ _ _. true };

    fn check(&self, _party: u8, _text: &[u8], _seal: &[u8]) -> bool {
        true
    }
}

ghost use Rattle.std.specs.Prelude.{◌≡◌, ℕ, ◌^◌, ◌<◌, ◌≤◌, ◌↔◌, MatchResult, ◌≢◌};

use crate::element::Element;
use thiserror::Error;

// Why a number is turned away on the way back from codes to elements.
#[derive(Clone, Copy, PartialEq, Eq, Debug, Error)]
pub enum ElementFault {
    #[error("the code is no element's")]
    NotACode,
}

// A kind whose elements can be written on cards, each as a code of so many bits.
pub trait Card: Element {
    ghost coded: { Self → ℕ };

    ghost kind: { ℕ };

    ghost bits: { ℕ };

    // The number that tells this kind from others in a picture.
    // Kept: a number and no `Kind`, since whoever writes a further kind brings a code of its own.
    fn kind_code() -> u8
        ensures { result ≡ kind };

    // How many bits a code takes.
    // Kept: a function by rule, as the kind code is, and no constant of the trait.
    fn width() -> u32
        ensures { result ≡ bits };

    // The element's code. Every code has so many bits; of any two elements, the codes are equal exactly if the meanings are.
    fn code(&self) -> u32
        ensures value { result ≡ coded self.now }
        ensures fits { result < 2 ^ bits }
        ensures all_fit { (e : Self) → coded e < 2 ^ bits }
        ensures means { (a b : Self) → (coded a ≡ coded b) ↔ (Self.Element.meaning a ≡ Self.Element.meaning b) };

    // An element with this code, refused just where there is none.
    fn from_code(code: u32) -> Result<Self, ElementFault>
        ensures { MatchResult result (λ e. coded e ≡ code) (λ _. (e : Self) → coded e ≢ code) };

    // What each kind proves: its code is one of 1 to 15, and its elements' codes take 1 to 32 bits.
    ghost numbered: { (1 ≤ kind) × (kind ≤ 15) };

    ghost wide: { (1 ≤ bits) × (bits ≤ 32) };
}

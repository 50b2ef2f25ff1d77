ghost use Rattle.std.specs.Prelude.{◌≡◌, ◌*◌, ◌≤◌};
ghost use Rattle.plans.specs.Binomial.{ChoosesByRule};
ghost use Rattle.plans.specs.Numbering.{Counted};
ghost use Rattle.plans.specs.Places.{CardsAreLong, OneSlipAPlace};
ghost use Rattle.plans.specs.Shape.{shape_of, group_count, card_length, tray_length, random_count};

use crate::binomial::binomial;
use crate::plan::Plan;

impl Plan {
    // N, the number of groups.
    pub fn group_count(&self) -> usize
        ensures value { result ≡ group_count (shape_of self.now) }
        ensures counted { Counted × ChoosesByRule }
    {
        binomial(self.harbours, self.threshold)
    }

    // L, the number of slips on a card.
    pub fn card_length(&self) -> usize
        ensures { result ≡ card_length (shape_of self.now) }
    {
        self.components * binomial(self.harbours - 1, self.threshold - 1)
    }

    // The number of slips on so many cards.
    fn cards(&self, count: usize) -> usize
        requires { count ≤ 10 }
        ensures { result ≡ count * card_length (shape_of self.now) }
    {
        count * self.card_length()
    }

    // The number of slips in the tray, each of which lies at a place of its own.
    pub fn tray_length(&self) -> usize
        ensures value { result ≡ tray_length (shape_of self.now) }
        ensures long { CardsAreLong }
        ensures once { OneSlipAPlace }
    {
        self.cards(self.harbours)
    }

    // The number of elements in so many blocks of every group.
    fn blocks(&self, count: usize) -> usize
        requires { count ≤ 10 }
        ensures { result ≡ group_count (shape_of self.now) * (shape_of self.now).components * count }
    {
        self.group_count() * self.components * count
    }

    // The number of random elements that a dealing takes.
    pub fn random_count(&self) -> usize
        ensures { result ≡ random_count (shape_of self.now) }
    {
        self.blocks(self.threshold - 1)
    }
}

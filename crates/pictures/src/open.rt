ghost use Rattle.std.specs.Prelude.{◌≡◌, ◌/◌, ◌%◌, ◌≤◌, true, false, MatchResult};
ghost use Rattle.plans.specs.Shape.{shape_of};
ghost use Rattle.pictures.specs.Faults.{number_of, slip_of};
ghost use Rattle.pictures.specs.Reading.{head_in, head_refusal, said_by, unfit};
ghost use Rattle.pictures.specs.declared.fault.CardFault.TheVariants.{Ranges};

use crate::fault::CardFault;
use crate::head::CardHead;
use crate::length::body_length;
use plans::plan::Plan;

// The plan and the harbour that the second and the third byte tell.
fn plan_and_harbour(second: u8, third: u8) -> Result<(Plan, usize), CardFault>
    ensures { MatchResult result
        (λ s. (unfit (second / 16) (second % 16) (third % 16) (third / 16) ≡ false) × (shape_of s.0 ≡ record { harbours = second / 16; threshold = second % 16; components = third % 16 }) × (s.1 ≡ third / 16))
        (λ f. (unfit (second / 16) (second % 16) (third % 16) (third / 16) ≡ true) × (f ≡ Ranges)) }
{
    let plan = Plan::new(
        usize::from(second / 16),
        usize::from(second % 16),
        usize::from(third % 16),
    )
    .map_err(|_| CardFault::Ranges)?;
    let harbour = usize::from(third / 16);
    if harbour < 1 || harbour > plan.harbours() {
        return Err(CardFault::Ranges);
    }
    Ok((plan, harbour))
}

// The head of a picture of this kind and width, whose length is that of such a card's picture.
pub(crate) fn open(picture: &[u8], kind: u8, width: u32) -> Result<CardHead, CardFault>
    requires { width ≤ 32 }
    ensures { MatchResult result
        (λ h. (head_refusal kind width picture.now ≡ 0) × (said_by kind h ≡ head_in picture.now))
        (λ f. (1 ≤ head_refusal kind width picture.now) × (number_of f ≡ head_refusal kind width picture.now) × (slip_of f ≡ 0)) }
{
    let [
        first,
        second,
        third,
        issue_1,
        issue_2,
        issue_3,
        issue_4,
        round_1,
        round_2,
        body @ ..,
    ] = picture
    else {
        return Err(CardFault::TooShort);
    };
    if *first / 16 != 1 {
        return Err(CardFault::Format);
    }
    if *first % 16 != kind {
        return Err(CardFault::Kind);
    }
    let (plan, harbour) = plan_and_harbour(*second, *third)?;
    if body.len() != body_length(width, plan.card_length()) {
        return Err(CardFault::Length);
    }
    Ok(CardHead {
        plan,
        harbour,
        issue: u32::from_be_bytes([*issue_1, *issue_2, *issue_3, *issue_4]),
        round: u16::from_be_bytes([*round_1, *round_2]),
    })
}

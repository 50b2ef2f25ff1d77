ghost use Rattle.sharing.specs.Calls.{deal_refusal};
ghost use Rattle.sharing.specs.Promise.{HidesAsAsked, Restores};
ghost use Rattle.sharing.specs.Secrecy.{OppositeUndoes};
ghost use Rattle.sharing.specs.Threshold.{scheme_of};
ghost use Rattle.trays.specs.Refusals.{Passes};
ghost use Rattle.trays.specs.Turns.{Deals};

use crate::dealing::Dealing;
use crate::record::Record;
use crate::refusal::Refusal;
use kinds::element::Element;
use plans::plan::Plan;
use sharing::{groups_restore, runs_hide};

// Refuses a deal by the lengths of key, random elements and tray.
// Kept: each call tests its own lengths, so that the order of its refusals is read off.
#[tactic(auto, using(crate::proofs::Lengths::random_long, crate::proofs::Lengths::tray_long))]
fn judge(plan: &Plan, key: usize, random: usize, tray: usize) -> Result<(), Refusal>
    ensures { Passes (deal_refusal (scheme_of plan.now) key random tray) result }
{
    if key != plan.components() {
        return Err(Refusal::Key);
    }
    if random != plan.random_count() {
        return Err(Refusal::Random);
    }
    if tray != plan.tray_length() {
        return Err(Refusal::Tray);
    }
    Ok(())
}

// Deals a key onto the cards of the tray.
// Whatever calls follow: whoever reads fewer harbours than the threshold in each round learns nothing of the key,
// and every group of harbours restores just this key.
pub fn deal<E: Element>(
    plan: Plan,
    issue: u32,
    key: &[E],
    random: &[E],
    tray: &mut [E],
) -> Result<Record, Refusal>
    ensures deals { Deals E.Element.group E.Element.meaning plan issue key.now random.now tray.old tray.new result }
    ensures hides { HidesAsAsked E.Element.group E.Element.meaning }
    ensures undoes { OppositeUndoes E.Element.group }
    ensures restores { Restores E.Element.group E.Element.meaning }
{
    runs_hide::<E>();
    groups_restore::<E>();
    judge(&plan, key.len(), random.len(), tray.len())?;
    let table = plan.table();
    let dealing = Dealing {
        table: &table,
        key: Some(key),
        random,
    };
    dealing.lay(tray);
    Ok(Record {
        plan,
        issue,
        round: 0,
        drawn: false,
    })
}

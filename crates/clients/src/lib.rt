// Clients of the calls, proved from their contracts alone.
#![tactic(auto)]

ghost use Rattle.std.specs.Prelude.{◌≡◌, true, T, ◌↔◌, map, length, IfOk};
ghost use Rattle.clients.specs.Alike.{DealtFrom, SameCard};
ghost use Rattle.sharing.specs.Promise.{HidesAsAsked};

use kinds::element::Element;
use plans::plan::Plan;
use trays::record::Record;
use trays::record::deal::deal;
use trays::refusal::Refusal;

// What is lent to a deal: a key, its random elements, and the tray that it fills.
#[derive(Drop)]
pub struct Lent<'a, E> {
    pub key: &'a [E],
    pub random: &'a [E],
    pub tray: &'a mut [E],
}

// Whether elements are the same, place by place.
fn all_same<E: Element>(these: &[E], others: &[E]) -> bool
    requires { length these.now ≡ length others.now }
    ensures { T result ↔ (map E.Element.meaning these.now ≡ map E.Element.meaning others.now) }
{
    these.iter().zip(others).all(|(one, other)| one.same(other))
}

// Deals a key onto the tray that is lent with it, and hands the tray back beside its record.
fn dealt<'a, E: Element>(
    plan: Plan,
    issue: u32,
    lent: Lent<'a, E>,
) -> Result<(Record, &'a [E]), Refusal>
    ensures dealt { IfOk result (λ made. DealtFrom E.Element.group E.Element.meaning plan issue lent.entry made.0 made.1.now) }
    ensures hides { HidesAsAsked E.Element.group E.Element.meaning }
{
    let Lent { key, random, tray } = lent;
    let record = deal(plan, issue, key, random, tray)?;
    Ok((record, tray))
}

// Deals two keys, each with its own random elements onto its own tray, reads the same harbour's card from both, and answers whether the two cards are the same.
// They are wherever the second random elements are the first ones, shifted for the difference of the keys.
pub fn reads_the_same<E: Element>(
    plan: Plan,
    issue: u32,
    harbour: usize,
    first: Lent<E>,
    second: Lent<E>,
) -> Result<bool, Refusal>
    ensures { IfOk result (λ same. SameCard E.Element.group E.Element.meaning plan issue harbour first.entry second.entry (same ≡ true)) }
{
    let (record, tray) = dealt(plan, issue, first)?;
    let (other_record, other_tray) = dealt(plan, issue, second)?;
    let card = record.read(tray, harbour)?;
    let other = other_record.read(other_tray, harbour)?;
    Ok(all_same(card, other))
}

ghost use Rattle.std.specs.Prelude.{◌≡◌, ◌≤◌, map, length};
ghost use Rattle.sharing.specs.Format.{body_bytes, head_bytes};
ghost use Rattle.pictures.specs.Reading.{HoldsCodes, said_by};
ghost use Rattle.pictures.specs.Writing.{BodyIsBits, OneToOne, ReadsBack, Written};

use crate::fault::WriteFault;
use crate::head::CardHead;
use crate::length::body_length;
use crate::writer::BitWriter;
use kinds::card::Card;

// The nine bytes of the head.
fn head_in_bytes(head: &CardHead, kind: u8) -> [u8; 9]
    requires { (kind ≤ 15) × (head.now.harbour ≤ 10) }
    ensures { result ≡ head_bytes (said_by kind head.now) }
{
    let [issue_1, issue_2, issue_3, issue_4] = head.issue.to_be_bytes();
    let [round_1, round_2] = head.round.to_be_bytes();
    [
        16 + kind,
        (head.plan.harbours() * 16 + head.plan.threshold()) as u8,
        (head.harbour * 16 + head.plan.components()) as u8,
        issue_1,
        issue_2,
        issue_3,
        issue_4,
        round_1,
        round_2,
    ]
}

// Writes the codes, and then 0 bits to the end of the byte.
fn write_body<C: Card>(slips: &[C], body: &mut [u8])
    requires { HoldsCodes C.Card.bits (length slips.now) body.old }
    ensures { body.new ≡ body_bytes C.Card.bits (map C.Card.coded slips.now) }
{
    let mut writer = BitWriter::new(body, C::width());
    for slip in slips {
        writer.push(slip.code());
    }
    writer.finish();
}

// Pictures and cards answer to each other, one to one.
fn one_to_one<C: Card>()
    ensures back { ReadsBack C.Card.coded C.Card.kind C.Card.bits }
    ensures once { OneToOne C.Card.coded C.Element.meaning C.Card.bits }
    ensures bits { BodyIsBits C.Card.bits }
{
    C::zero().code();
}

// Writes the picture of a card of this kind to the place.
pub fn write<C: Card>(head: &CardHead, slips: &[C], place: &mut [u8]) -> Result<(), WriteFault>
    ensures written { Written C.Card.bits (said_by C.Card.kind head.now) (map C.Card.coded slips.now) place.old place.new result }
    ensures back { ReadsBack C.Card.coded C.Card.kind C.Card.bits }
    ensures once { OneToOne C.Card.coded C.Element.meaning C.Card.bits }
    ensures bits { BodyIsBits C.Card.bits }
{
    one_to_one::<C>();
    if head.harbour < 1 || head.harbour > head.plan.harbours() {
        return Err(WriteFault::Harbour);
    }
    let count = head.plan.card_length();
    if slips.len() != count {
        return Err(WriteFault::Slips);
    }
    if place.len() != 9 + body_length(C::width(), count) {
        return Err(WriteFault::Place);
    }
    let (front, body) = place.split_at_mut(9);
    front.copy_from_slice(&head_in_bytes(head, C::kind_code()));
    write_body(slips, body);
    Ok(())
}

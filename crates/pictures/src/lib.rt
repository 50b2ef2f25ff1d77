// Pictures of cards: a card's head and slips in bytes, checked, loaded and written, for every card kind.
#![tactic(auto)]

pub mod check;
pub mod fault;
pub mod from_c;
pub mod head;
pub mod kind;
mod length;
pub mod load;
mod open;
mod reader;
pub mod write;
mod writer;

#[cfg(test)]
mod tests {
    use crate::fault::{At, CardFault, WriteFault};
    use kinds::card::ElementFault;
    use std::test::Fail;

    #[test]
    fn faults_of_pictures_in_words(rt: HostRuntime) -> Result<(), Fail> {
        let alloc = rt.alloc();
        let fault = ElementFault::NotACode;
        let said = [
            (
                CardFault::TooShort,
                "refused 20: there are fewer than nine bytes",
            ),
            (CardFault::Format, "refused 21: the format is not 1"),
            (
                CardFault::Kind,
                "refused 22: the kind code is another kind's",
            ),
            (
                CardFault::Ranges,
                "refused 23: harbours, threshold, components or harbour are out of range",
            ),
            (
                CardFault::Length,
                "refused 24: the length is not that of such a card's picture",
            ),
            (
                CardFault::Slip(At { place: 3, fault }),
                "refused 25 at slip 3: the code is no element's",
            ),
            (
                CardFault::Filling,
                "refused 26: a bit behind the codes is not 0",
            ),
            (
                CardFault::Place,
                "refused 19: the place has not as many elements as the card",
            ),
        ];
        for (fault, words) in said {
            assert_eq!(rt; format!(in alloc; "{fault}")?.as_str(), words);
        }
        Ok(())
    }

    #[test]
    fn faults_of_writing_in_words(rt: HostRuntime) -> Result<(), Fail> {
        let alloc = rt.alloc();
        let said = [
            (WriteFault::Harbour, "refused 15: there is no such harbour"),
            (
                WriteFault::Slips,
                "refused 19: there are not as many slips as on a card of the plan",
            ),
            (
                WriteFault::Place,
                "refused 18: the place is not as long as the picture",
            ),
        ];
        for (fault, words) in said {
            assert_eq!(rt; format!(in alloc; "{fault}")?.as_str(), words);
        }
        Ok(())
    }
}

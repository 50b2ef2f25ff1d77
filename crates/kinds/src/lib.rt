// Kinds of element: what a key and its slips are made of.
#![tactic(auto)]

pub mod card;
pub mod dial_number;
pub mod element;
pub mod key_word;
pub mod kind;
pub mod mask_byte;

#[cfg(test)]
mod tests {
    use crate::card::Card;
    use crate::dial_number::DialNumber;
    use crate::element::Element;
    use crate::key_word::KeyWord;
    use crate::kind::Kind;
    use crate::mask_byte::MaskByte;
    use std::test::Fail;

    #[test]
    fn dial_numbers(rt: HostRuntime) -> Result<(), Fail> {
        let last = DialNumber::from_code(9_999)?;
        let one = DialNumber { held: 1 };
        assert_eq!(rt; last.sum(&one).held, 0);
        assert!(rt; last.sum(&last.opposite()).same(&DialNumber::zero()));
        assert!(rt; DialNumber::from_code(10_000).is_err());
        let over = DialNumber { held: 12_345 };
        assert_eq!(rt; over.code(), 2_345);
        assert!(rt; over.same(&DialNumber { held: 2_345 }));
        Ok(())
    }

    #[test]
    fn mask_bytes(rt: HostRuntime) {
        let mask = MaskByte { value: 0x5A };
        assert_eq!(rt; mask.sum(&MaskByte { value: 0x0F }).value, 0x55);
        assert!(rt; mask.sum(&mask.opposite()).same(&MaskByte::zero()));
        assert!(rt; MaskByte::from_code(256).is_err());
    }

    #[test]
    fn key_words(rt: HostRuntime) {
        let last = KeyWord {
            value: 4_294_967_295,
        };
        assert_eq!(rt; last.sum(&KeyWord { value: 2 }).value, 1);
        assert!(rt; last.sum(&last.opposite()).same(&KeyWord::zero()));
    }

    #[test]
    fn kinds_by_code(rt: HostRuntime) {
        assert!(rt; Kind::try_from(1) == Ok(Kind::KeyWord));
        assert!(rt; Kind::try_from(3) == Ok(Kind::DialNumber));
        assert!(rt; Kind::try_from(0).is_err());
        assert!(rt; Kind::try_from(4).is_err());
    }
}

// A rehearsal of the ceremony: keys of three kinds are dealt, renewed, read and audited, and every call is refused once for each reason.
#![tactic(auto)]

use crate::ceremony::{Ceremony, print_ceremony};
use crate::refused::{KEY, MORE, RANDOM, print_refusals};
use crate::rounds::plan_of;
use kinds::dial_number::DialNumber;
use kinds::key_word::KeyWord;
use kinds::mask_byte::MaskByte;
use std::io;

mod answer;
mod calls;
mod cards;
mod ceremony;
mod kept;
mod refused;
mod rounds;
mod trial;

// Kept: the three functions below are the data of three ceremonies, each of its own kind and lengths; what is done is one function.

// Two of three harbours, in dial numbers.
fn rehearse_dial_numbers(rt: &HostRuntime) -> io::Result<()> {
    let none = DialNumber { held: 0 };
    let ceremony = Ceremony {
        plan: plan_of(3, 2, 1),
        issue: 7,
        key: &KEY,
        random: &RANDOM,
        more: &MORE,
    };
    print_ceremony(rt, &ceremony, &mut [none; 6], &mut [none; 6])
}

// All of three harbours, in mask bytes.
fn rehearse_mask_bytes(rt: &HostRuntime) -> io::Result<()> {
    let none = MaskByte { value: 0 };
    let ceremony = Ceremony {
        plan: plan_of(3, 3, 1),
        issue: 8,
        key: &[MaskByte { value: 0x5A }],
        random: &[MaskByte { value: 0x0F }, MaskByte { value: 0xF0 }],
        more: &[MaskByte { value: 0x11 }, MaskByte { value: 0x22 }],
    };
    print_ceremony(rt, &ceremony, &mut [none; 3], &mut [none; 3])
}

// Both of two harbours, in key words.
fn rehearse_key_words(rt: &HostRuntime) -> io::Result<()> {
    let none = KeyWord { value: 0 };
    let ceremony = Ceremony {
        plan: plan_of(2, 2, 1),
        issue: 9,
        key: &[KeyWord {
            value: 4_294_967_295,
        }],
        random: &[KeyWord { value: 2 }],
        more: &[KeyWord {
            value: 4_294_967_290,
        }],
    };
    print_ceremony(rt, &ceremony, &mut [none; 2], &mut [none; 2])
}

// Rehearses everything.
fn rehearse(rt: &HostRuntime) -> io::Result<()> {
    rehearse_dial_numbers(rt)?;
    rehearse_mask_bytes(rt)?;
    rehearse_key_words(rt)?;
    print_refusals(rt)
}

fn main(rt: HostRuntime) -> io::Result<()> {
    rehearse(&rt)
}

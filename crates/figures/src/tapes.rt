// Packing and unpacking, a tape of edition 02 drawn, and two tapes into one.
use crate::drawn;
use figure_lines::{given, say};
use layers::{merge_tapes, unpack_tape};

// The example: x in slot 0, the constant 131,072 in 1, subtract of 0, 1 into 0; packed, and unpacked again.
pub fn example() {
    let list = [1i32, 0, 0, 0, 0, 0, 1, 0, 0, 131072, 10, 0, 0, 1, 0];
    let bytes: [u8; 38] = given::packed(b"packed", 2, &list);
    say::bytes(&bytes);
    let mut back = [-1i32; 15];
    let listed = unpack_tape(&bytes, &mut back);
    say::answer(b"unpacked", listed.answer);
    say::figure(b"slots", u16::from(listed.slots));
    let again: [u8; 38] = given::packed(b"packed again", 2, &back);
    say::bytes(&again);
}

// The least number is no constant; the second clause's place comes with it.
pub fn least_constant() {
    let list = [0i32, 0, 0, 0, 5, 0, 0, 0, 0, -2147483648];
    let bytes: [u8; 28] = given::packed(b"the least constant", 1, &list);
    say::bytes(&bytes);
}

// 1,103 clauses on 101 slots: of edition 02, which the head tells. Where x is below 2, as with the last three alone.
pub fn edition_02() {
    let list = given::lettered_list();
    let tape: [u8; 11038] = given::packed(b"1,103 clauses packed", 101, &list);
    say::head(&tape, b"TP\x02\x65\x4f\x04\x00\x00");
    drawn::small(b"1,103 clauses drawn", &tape);
}

// x less 2 and y less 1 as one tape, and where either is below 0.
pub fn merged() {
    let first = given::tape(1);
    let list = [2i32, 0, 0, 0, 0, 0, 1, 0, 0, 65536, 10, 0, 0, 1, 0];
    let second: [u8; 38] = given::packed(b"the second tape", 2, &list);
    let mut tape = [255u8; 78];
    say::answer(
        b"two tapes into one",
        merge_tapes(&first, &second, &mut tape),
    );
    say::bytes(&tape);
    drawn::small(b"both drawn", &tape);
}

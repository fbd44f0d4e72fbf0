//! The example of RFC 1071, and sums compared with the plain loop `fold`, at each cut.

use flat_model::fold;
use in_cksum::{Sum, sum_slice};

/// RFC 1071 section 3, "Numerical Examples".
static EXAMPLE: [u8; 8] = [0x00, 0x01, 0xf2, 0x03, 0xf4, 0xf5, 0xf6, 0xf7];

const EXAMPLE_SUM: u16 = 0x220d;

fn checksum_of_pieces(pieces: &[&[u8]]) -> u16 {
    let mut sum = Sum::new();
    for piece in pieces {
        sum.add(piece);
    }
    sum.finish()
}

#[test]
fn the_standards_example_at_each_cut(rt: HostRuntime) {
    assert!(rt; sum_slice(&EXAMPLE) == 0xddf2);
    for first in 0..=EXAMPLE.len() {
        let (front, rest) = EXAMPLE.split_at(first);
        let checksum = checksum_of_pieces(&[front, rest]);
        assert!(rt; checksum == EXAMPLE_SUM, "cut at {first}");
        for second in 0..=rest.len() {
            let (middle, back) = rest.split_at(second);
            let checksum = checksum_of_pieces(&[front, middle, back]);
            assert!(rt;
                checksum == EXAMPLE_SUM,
                "cut at {first} and {second} after it"
            );
        }
    }
}

/// The sum and the checksum of two pieces, at each cut up to 64, are those of the plain program.
fn agrees_with_the_plain_program(bytes: &[u8]) -> bool {
    let folded = fold(bytes);
    let cuts_agree = (0..=64).all(|cut| match bytes.split_at_checked(cut) {
        Some((front, back)) => checksum_of_pieces(&[front, back]) == !folded,
        None => true,
    });
    sum_slice(bytes) == folded && cuts_agree
}

#[test]
fn short_lengths(rt: HostRuntime) {
    let mut bytes = [0u8; 130];
    for (at, byte) in bytes.iter_mut().enumerate() {
        *byte = ((at * 7 + 3) % 256) as u8;
    }
    for len in 0..=bytes.len() {
        assert!(rt;
            agrees_with_the_plain_program(&bytes[..len]),
            "at length {len}"
        );
    }
}

/// From 256 bytes on, half of each 256 bytes is summed in lanes: no turn, whole turns, and a rest. All words of a turn
/// differ, and so do the turns.
#[test]
fn lengths_with_lanes(rt: HostRuntime) {
    let mut bytes = [0u8; 1480];
    for (at, byte) in bytes.iter_mut().enumerate() {
        *byte = ((at * 7 + at / 256 * 31 + 3) % 256) as u8;
    }
    for len in [255, 256, 257, 513, 1480] {
        assert!(rt;
            agrees_with_the_plain_program(&bytes[..len]),
            "at length {len}"
        );
    }
}

/// The longest IPv4 packet.
#[test]
fn the_longest_packet(rt: HostRuntime) {
    let bytes = vec![in rt.alloc(); 0xff; 65_535].expect(&rt, "memory");
    assert!(rt; agrees_with_the_plain_program(&bytes));
}

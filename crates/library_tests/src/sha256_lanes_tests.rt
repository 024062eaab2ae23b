ghost use Rattle.std.specs.Prelude.{◌+◌, ◌≤◌};

use sha2::{Digest, Sha256};
use sha256_lanes::{LANES, digests, digests_of};
use std::process::Abort;

// A message of `N` bytes, which differs from that of another first byte.
fn message<const N: usize>(first: u8) -> [u8; N] {
    let mut message = [0; N];
    let mut byte = first;
    for i in 0..N {
        message[i] = byte;
        byte = byte.wrapping_add(37);
    }
    message
}

// Each lane holds what `sha2` makes of its message alone.
fn agrees_at<const N: usize>(rt: &impl Abort)
    requires { N ≤ 55 }
{
    let messages: [[u8; N]; LANES] = [message(1), message(90), message(179), message(250)];
    let [first, second, third, fourth] = digests(&messages);
    assert_eq!(rt; first, Sha256::digest(messages[0]));
    assert_eq!(rt; second, Sha256::digest(messages[1]));
    assert_eq!(rt; third, Sha256::digest(messages[2]));
    assert_eq!(rt; fourth, Sha256::digest(messages[3]));
}

#[test]
fn agrees(rt: HostRuntime) {
    agrees_at::<0>(&rt);
    agrees_at::<1>(&rt);
    agrees_at::<32>(&rt);
    agrees_at::<55>(&rt);
}

// The same of four parts of one message, which have these lengths.
fn agrees_of(rt: &impl Abort, first: usize, second: usize, third: usize, fourth: usize)
    requires first { first ≤ 1000 }
    requires second { second ≤ 1000 }
    requires third { third ≤ 1000 }
    requires fourth { fourth ≤ 1000 }
{
    let bytes: [u8; 1003] = message(7);
    let [one, two, three, four] = digests_of(
        &bytes[..first],
        &bytes[1..1 + second],
        &bytes[2..2 + third],
        &bytes[3..3 + fourth],
    );
    assert_eq!(rt; one, Sha256::digest(&bytes[..first]));
    assert_eq!(rt; two, Sha256::digest(&bytes[1..1 + second]));
    assert_eq!(rt; three, Sha256::digest(&bytes[2..2 + third]));
    assert_eq!(rt; four, Sha256::digest(&bytes[3..3 + fourth]));
}

#[test]
fn agrees_at_any_length(rt: HostRuntime) {
    for n in [0, 1, 55, 56, 63, 64, 119, 120, 127, 128, 1000] {
        agrees_of(&rt, n, n, n, n);
    }
    agrees_of(&rt, 55, 56, 64, 119);
    agrees_of(&rt, 1000, 935, 120, 0);
    agrees_of(&rt, 0, 640, 700, 999);
    agrees_of(&rt, 1000, 0, 0, 0);
}

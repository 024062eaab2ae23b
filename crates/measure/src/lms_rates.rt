use crate::failure::Failure;
use crate::rate::{now, percent, rate};
use lms::{OtsType, Params, Seed, SigningHeight, Steps, public_of, sign, verify, verify_counted};
use sha2::{Digest, Sha256};
use std::rt::Clock;
use std::time::Duration;

// The bytes that a step of a chain hashes.
const STEP: usize = 55;

// How many hashes are timed for each round.
const HASHES: u32 = 1024;

const SEED: Seed = Seed {
    identifier: [1; 16],
    secret: [1; 32],
};

/// Prints, for each LM-OTS type at height 5, the verifications and their hashes per second, then the hashes per second of `sha2` alone, and
/// how many hundredths of those a verification reaches.
pub fn measure(rt: &(impl Clock + Print + AllocGlobal), rounds: u32) -> Result<(), Failure> {
    let (hashing, message) = time_of_hashing(rt, rounds)?;
    let alone = rate(u64::from(HASHES), rounds, hashing);
    let w1 = measure_type(rt, "w1", OtsType::W1, &message, rounds)?;
    let w2 = measure_type(rt, "w2", OtsType::W2, &message, rounds)?;
    let w4 = measure_type(rt, "w4", OtsType::W4, &message, rounds)?;
    let w8 = measure_type(rt, "w8", OtsType::W8, &message, rounds)?;
    println!(rt; "sha2 {alone}")?;
    tell_ratios(rt, alone, w1, w2, w4, w8)
}

fn tell_ratios(
    rt: &(impl Print + AllocGlobal),
    alone: u128,
    w1: u128,
    w2: u128,
    w4: u128,
    w8: u128,
) -> Result<(), Failure> {
    println!(rt;
        "ratio w1 {} w2 {} w4 {} w8 {}",
        percent(w1, alone),
        percent(w2, alone),
        percent(w4, alone),
        percent(w8, alone)
    )?;
    Ok(())
}

// Prints the rates of one type, and answers how many hashes its verifications make per second.
fn measure_type(
    rt: &(impl Clock + Print + AllocGlobal),
    name: &str,
    ots: OtsType,
    message: &[u8],
    rounds: u32,
) -> Result<u128, Failure> {
    let params = Params {
        ots,
        height: SigningHeight::H5,
    };
    let public = public_of(&SEED, params);
    let mut signature = Vec::new(rt.alloc());
    sign(&SEED, params, 0, message, &mut signature)?;
    tell_type(rt, name, &public, message, &signature, rounds)
}

fn tell_type(
    rt: &(impl Clock + Print + AllocGlobal),
    name: &str,
    public: &[u8; 56],
    message: &[u8],
    signature: &[u8],
    rounds: u32,
) -> Result<u128, Failure> {
    let mut steps = Steps::new();
    if !verify_counted(public, message, signature, &mut steps) {
        return Err(Failure::NotVerified);
    }
    let verifying = time_of_verifying(rt, public, message, signature, rounds)?;
    let hashes = rate(steps.count(), rounds, verifying);
    println!(rt;
        "{name} verify {} hashes {hashes}",
        rate(1, rounds, verifying)
    )?;
    Ok(hashes)
}

// How long the hashes of a chain take, of as many bytes as a chain of a signature hashes, and the last of them.
fn time_of_hashing(rt: &impl Clock, rounds: u32) -> Result<(Duration, [u8; 32]), Failure> {
    let mut input = [0; STEP];
    let mut last = [0; 32];
    let start = now(rt)?;
    for _ in 0..rounds {
        for _ in 0..HASHES {
            let mut hasher = Sha256::new();
            hasher.update(input);
            last = hasher.finalize();
            input[23..].copy_from_slice(&last);
        }
    }
    Ok((now(rt)?.duration_since(start), last))
}

fn time_of_verifying(
    rt: &impl Clock,
    public: &[u8; 56],
    message: &[u8],
    signature: &[u8],
    rounds: u32,
) -> Result<Duration, Failure> {
    let start = now(rt)?;
    for _ in 0..rounds {
        if !verify(public, message, signature) {
            return Err(Failure::NotVerified);
        }
    }
    Ok(now(rt)?.duration_since(start))
}

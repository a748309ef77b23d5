//! The house file, to be timed from outside: `bench/parties` runs it beside a reader written in
//! Rust over std's `HashMap`.
//!
//! The call reads a house file and then goes over queries, and answers a number that depends on
//! what it found, so that no work can be left out and both sides can be seen to have done the same.
#![tactic(auto)]

use gu_base::{AccountId, FirmId};
use gu_parties::House;
use std::alloc::Global;

/// Adds a number to a mix.
fn mixed(mix: u64, number: u64) -> u64 {
    mix.wrapping_mul(31).wrapping_add(number)
}

/// What a house says of a giver, an account of its and a taker, each of 8 bytes.
fn found(house: &House, query: &[u8]) -> u64 {
    if query.len() < 24 {
        return 0;
    }
    let giver = FirmId::new(&query[..8]);
    let account = AccountId::new(&query[8..16]);
    let taker = FirmId::new(&query[16..24]);
    match (giver, account, taker) {
        (Some(giver), Some(account), Some(taker)) => {
            let mix = mixed(
                house.firm(&giver) as u64,
                house.account(&giver, &account) as u64,
            );
            match house.agreement(&giver, &taker) {
                Some(terms) => mixed(mix, terms.rate.wrapping_add(terms.limit)),
                None => mix,
            }
        }
        _ => 0,
    }
}

/// What a house says of each query.
fn all_found(house: &House, queries: &[u8]) -> u64 {
    let mut mix = 0;
    for query in queries.chunks(24) {
        mix = mixed(mix, found(house, query));
    }
    mix
}

/// Reads a house file, and then goes over the queries so many times. Answers 1 where the file has a
/// fault.
#[unsafe(no_mangle)]
pub extern "C" fn read_and_look_up(alloc: Global, text: &[u8], queries: &[u8], rounds: u32) -> u64 {
    match House::parse(alloc, text) {
        Ok(house) => {
            let mut mix = house.house().as_bytes().len() as u64;
            for _round in 0..rounds {
                mix = mixed(mix, all_found(&house, queries));
            }
            mix
        }
        Err(_) => 1,
    }
}

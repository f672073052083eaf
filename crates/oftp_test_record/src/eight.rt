//! Eight messages and eight entries at once. The digests were worked out by Python's hashlib.

use oftp_contents::{ContentFields, SessionOctets};
use oftp_digest::{add_digests, digests_of_eight};
use oftp_record::{
    ChainDigest, HEADER_LEN, NextEntry, ReadAhead, RecordKind, next_eight, next_entry,
};
use sha2::{Digest, Sha256};
use std::alloc::Global;
use std::process::Abort;
use std::test::Fail;

/// The first words of the digests of eight messages among octets of which number k is k modulo 251.
#[rattlefmt::skip]
const FIRST_WORDS: [[u32; 8]; 4] = [
    // messages of one block, one behind another
    [0xFDEA_B9AC, 0x9AFA_EEF0, 0xC39E_13BB, 0xCDEF_AFE9, 0xBE54_AE13, 0x6CD6_645D, 0xCE65_7CD1, 0xC40A_A34B],
    // of two blocks
    [0x471F_B943, 0x0BF6_7884, 0x5DC4_5B25, 0x4A23_1499, 0x2E51_1172, 0xE48F_4054, 0x671D_7020, 0x6F75_CFC6],
    // of one block, 100 octets from one another
    [0xFDEA_B9AC, 0x79E3_4584, 0x1A2F_1966, 0xCF1D_521C, 0xFA69_CB0C, 0x7B23_F221, 0x692E_4C0C, 0x5F7B_4C95],
    // eight times the same block
    [0xFDEA_B9AC, 0xFDEA_B9AC, 0xFDEA_B9AC, 0xFDEA_B9AC, 0xFDEA_B9AC, 0xFDEA_B9AC, 0xFDEA_B9AC, 0xFDEA_B9AC],
];

/// The first word of each digest.
fn first_words(digests: &[[u8; 32]; 8]) -> [u32; 8] {
    let mut words = [0; 8];
    for (word, digest) in words.iter_mut().zip(digests) {
        *word = u32::from_be_bytes([digest[0], digest[1], digest[2], digest[3]]);
    }
    words
}

#[test]
fn eight_messages(rt: HostRuntime) {
    let mut octets = [0; 1024];
    for (at, octet) in octets.iter_mut().enumerate() {
        *octet = (at % 251) as u8;
    }
    let [blocks, pairs, apart, alike] = FIRST_WORDS;
    assert!(rt; first_words(&digests_of_eight(&octets, 64, 64)) == blocks);
    assert!(rt; first_words(&digests_of_eight(&octets, 128, 128)) == pairs);
    assert!(rt; first_words(&digests_of_eight(&octets, 100, 64)) == apart);
    assert!(rt; first_words(&digests_of_eight(&octets, 0, 64)) == alike);
}

/// How many octets are digested in messages of how many, and the first word of the digest of their digests. Octet k is k modulo 251.
const ADDED: [(usize, usize, u32); 7] = [
    // none, and three
    (0, 64, 0xE3B0_C442),
    (192, 64, 0xE164_E5F0),
    // eight of one block, and of two
    (512, 64, 0xD163_AB53),
    (1024, 128, 0xB1B2_B225),
    // eight of no whole block, and of which the last is shorter
    (480, 60, 0x9CFC_F04F),
    (500, 64, 0xD909_EFD6),
    // a long one
    (512, 512, 0xA8AA_7B61),
];

/// The part with this number of octets that are parted into so many each; nothing behind the last one.
fn part(octets: &[u8], number: usize, size: usize) -> &[u8] {
    let begin = number.saturating_mul(size).min(octets.len());
    let end = begin.saturating_add(size).min(octets.len());
    octets.get(begin..end).unwrap_or(&[])
}

// This is also run with each allocation refused in turn, and then tells the same.
#[test]
fn messages_added(rt: HostRuntime) {
    let mut octets = [0; 1024];
    for (at, octet) in octets.iter_mut().enumerate() {
        *octet = (at % 251) as u8;
    }
    let mut room = Vec::new(rt.alloc());
    for (count, size, word) in ADDED {
        let whole = octets.get(..count).unwrap_or(&[]);
        let messages = [
            part(whole, 0, size),
            part(whole, 1, size),
            part(whole, 2, size),
            part(whole, 3, size),
            part(whole, 4, size),
            part(whole, 5, size),
            part(whole, 6, size),
            part(whole, 7, size),
        ];
        let there = messages.iter().filter(|it| !it.is_empty()).count();
        let mut hasher = Sha256::new();
        add_digests(&mut hasher, &mut room, messages.get(..there).unwrap_or(&[]));
        let [a, b, c, d, ..] = hasher.finalize();
        assert_eq!(rt; u32::from_be_bytes([a, b, c, d]), word);
    }
}

/// What a session heard in its whole, of which octet k is 7 k modulo 251: how many octets, how many entries they make, how many octets these have, and
/// the first word of the last digest.
const HEARD: [(usize, usize, usize, u32); 7] = [
    // none
    (0, 1, 71, 0x2740_E578),
    (1, 1, 72, 0x64C6_7DCD),
    // one octet fewer than are shared out, just as many, and one more
    (8703, 1, 8774, 0x11C1_B496),
    (8704, 9, 9343, 0x6D53_EEDA),
    (8705, 9, 9344, 0xA82C_3329),
    // eight pieces and nothing else, and as much as is read at once
    (65_224, 8, 65_792, 0x9C61_306B),
    (65_536, 9, 66_175, 0xFDEB_FC78),
];

/// So many of these octets.
fn heard(alloc: Global, count: usize) -> Result<Vec<u8>, Fail> {
    let mut octets = Vec::new(alloc);
    for at in 0..count as u64 {
        octets.push((at.wrapping_mul(7) % 251) as u8)?;
    }
    Ok(octets)
}

/// The octets that the entries of a record have, how many entries these are, and the digest of the last one. The first eight are read at once, if
/// that can be.
fn read_back(
    rt: &impl Abort,
    alloc: Global,
    record: &[u8],
) -> Result<(Vec<u8>, usize, ChainDigest), Fail> {
    let mut octets = Vec::new(alloc);
    let mut rest = record;
    let mut digest = ChainDigest::first();
    let mut count = 0usize;
    if let Some(eight) = next_eight(rest, &digest) {
        for passed in eight {
            let NextEntry::Whole(stored) = next_entry(rest, &digest) else {
                break;
            };
            assert!(rt; stored.length == passed.length && stored.digest == passed.digest);
            assert!(rt; stored.entry.kind == passed.kind && stored.entry.moment == passed.moment);
            rest = rest.get(passed.length..).unwrap_or(&[]);
            digest = passed.digest;
            count = count.saturating_add(1);
        }
        assert_eq!(rt; count, 8);
        rest = record;
        digest = ChainDigest::first();
        count = 0;
    }
    let mut ahead = ReadAhead::new();
    for _ in 0..100 {
        let NextEntry::Whole(stored) = ahead.next(rest, &digest) else {
            break;
        };
        let Some(fields) = ContentFields::of(stored.entry.content) else {
            break;
        };
        assert_eq!(rt; fields.number, 7);
        octets.extend_from_slice(fields.rest)?;
        rest = rest.get(stored.length..).unwrap_or(&[]);
        digest = stored.digest;
        count = count.saturating_add(1);
    }
    assert!(rt; matches!(ahead.next(rest, &digest), NextEntry::End));
    assert!(rt; matches!(next_entry(rest, &digest), NextEntry::End));
    Ok((octets, count, digest))
}

#[test]
fn heard_octets_shared_out(rt: HostRuntime) -> Result<(), Fail> {
    for (size, entries, length, word) in HEARD {
        let octets = heard(rt.alloc(), size)?;
        let session = SessionOctets {
            kind: RecordKind::OctetsIn,
            moment: 1_700_000_000_000_000,
            number: 7,
            octets: octets.as_slice(),
        };
        let mut record = Vec::new(rt.alloc());
        let Ok(digest) = session.append(rt.alloc(), &mut record, &ChainDigest::first()) else {
            assert!(rt; false);
            return Ok(());
        };
        assert_eq!(rt; record.len(), length);
        let [a, b, c, d, ..] = digest.0;
        assert_eq!(rt; u32::from_be_bytes([a, b, c, d]), word);
        let (back, count, last) = read_back(&rt, rt.alloc(), record.as_slice())?;
        assert!(rt; back.as_slice() == octets.as_slice());
        assert_eq!(rt; count, entries);
        assert!(rt; last == digest);
    }
    Ok(())
}

// A changed octet anywhere in eight entries is found, whether they are read at once or one by one.
#[test]
fn eight_entries_changed(rt: HostRuntime) -> Result<(), Fail> {
    let octets = heard(rt.alloc(), 8704)?;
    let session = SessionOctets {
        kind: RecordKind::OctetsOut,
        moment: 1_700_000_000_000_000,
        number: 7,
        octets: octets.as_slice(),
    };
    let mut record = Vec::new(rt.alloc());
    let _ = session.append(rt.alloc(), &mut record, &ChainDigest::first());
    assert!(rt; next_eight(record.as_slice(), &ChainDigest::first()).is_some());
    // An octet less than eight entries have.
    let short = record
        .get(..8 * (HEADER_LEN + 17 + 1049 + 32) - 1)
        .unwrap_or(&[]);
    assert!(rt; next_eight(short, &ChainDigest::first()).is_none());
    for at in (0..8 * (HEADER_LEN + 17 + 1049 + 32)).step_by(97) {
        if let Some(octet) = record.get_mut(at) {
            *octet ^= 1;
        }
        assert!(rt; next_eight(record.as_slice(), &ChainDigest::first()).is_none());
        if let Some(octet) = record.get_mut(at) {
            *octet ^= 1;
        }
    }
    assert!(rt; next_eight(record.as_slice(), &ChainDigest::first()).is_some());
    Ok(())
}

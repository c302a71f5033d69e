//! Trails and indexes against plain lists, also after later changes and while another thread makes them.
use super::fixture::{Row, all_hold};
use btr_board::{Index, Trail};
use std::alloc::{AllocError, Global};
use std::test::Fail;
use std::thread;

/// Lengths next to the powers of the fan-out, where a trail gets a leaf, a node or a level more.
const LENGTHS: [usize; 9] = [31, 32, 33, 1023, 1024, 1025, 32767, 32768, 32769];

/// Numbers of ids next to those at which a leaf splits.
const COUNTS: [u32; 6] = [1, 16, 17, 18, 40, 900];

/// The number whose product with the odd number of the hash is 1 modulo 2^128: its small multiples have small hashes.
const UNSCATTER: u128 = 53950905448886166822328789604728916509;

/// Whether a trail has the first `len` items of a plain list, and no more.
fn is_list(trail: &Trail<u64>, plain: &[u64], len: usize) -> bool {
    let mut same = trail.len() == len
        && trail.get(len).is_none()
        && trail.get(usize::MAX).is_none();
    for place in 0..len {
        same = same
            && plain.get(place).is_some()
            && trail.get(place).copied() == plain.get(place).copied();
    }
    same
}

/// Pushes items to a trail and to a plain list, up to this length of the plain list.
fn grown(
    alloc: Global,
    trail: Trail<u64>,
    plain: &mut Vec<u64>,
    len: usize,
) -> Result<Trail<u64>, AllocError> {
    let mut trail = trail;
    for place in plain.len()..len {
        let item = (place as u64).wrapping_mul(3).wrapping_add(7);
        trail = trail.push(alloc, item)?;
        plain.push(item)?;
    }
    Ok(trail)
}

/// Whether a set at a place changes a new trail as it changes a plain list, and not the old one.
fn is_set(
    alloc: Global,
    trail: &Trail<u64>,
    plain: &[u64],
    place: usize,
) -> Result<bool, AllocError> {
    let mut other = Vec::from_slice(alloc, plain)?;
    if place >= other.len() || place >= trail.len() {
        return Ok(false);
    }
    other[place] = 5;
    let changed = trail.set(alloc, place, 5)?;
    Ok(is_list(&changed, &other, other.len()) && is_list(trail, plain, plain.len()))
}

/// Whether each of a few sets changes a new trail alone.
fn are_set(alloc: Global, trail: &Trail<u64>, plain: &[u64]) -> Result<bool, AllocError> {
    let len = plain.len();
    for place in [0, 31, len / 2, len.saturating_sub(1)] {
        if place < len && !is_set(alloc, trail, plain, place)? {
            return Ok(false);
        }
    }
    Ok(true)
}

#[test]
fn trails_and_plain_lists(rt: HostRuntime) -> Result<(), Fail> {
    let mut plain = Vec::new(rt.alloc());
    let mut trail = Trail::empty();
    assert!(rt; is_list(&trail, &plain, 0));
    for len in LENGTHS {
        trail = grown(rt.alloc(), trail, &mut plain, len)?;
        assert!(rt; is_list(&trail, &plain, len));
        assert!(rt; are_set(rt.alloc(), &trail, &plain)?);
    }
    Ok(())
}

/// The trails of all lengths, each grown from the one before.
fn trails(alloc: Global, plain: &mut Vec<u64>) -> Result<Vec<Trail<u64>>, Fail> {
    let mut all = Vec::new(alloc);
    let mut last = Trail::empty();
    for len in LENGTHS {
        last = grown(alloc, last, plain, len)?;
        all.push(last.share()?)?;
    }
    Ok(all)
}

#[test]
fn old_trails_stay(rt: HostRuntime) -> Result<(), Fail> {
    let mut plain = Vec::new(rt.alloc());
    let all = trails(rt.alloc(), &mut plain)?;
    assert!(rt; all.len() == LENGTHS.len());
    for (trail, len) in all.iter().zip(LENGTHS) {
        assert!(rt; is_list(trail, &plain, len));
    }
    Ok(())
}

/// A trail of 1000 items, one that is shared with it, and a plain list for each.
#[derive(Drop)]
struct Shared {
    trail: Trail<u64>,
    plain: Vec<u64>,
    old: Trail<u64>,
    longer: Vec<u64>,
}

fn two_trails(alloc: Global) -> Result<Shared, Fail> {
    let mut plain = Vec::new(alloc);
    let trail = grown(alloc, Trail::empty(), &mut plain, 1000)?;
    let longer = Vec::from_slice(alloc, &plain)?;
    let old = trail.share()?;
    Ok(Shared {
        trail,
        plain,
        old,
        longer,
    })
}

/// Whether a trail that grows to 1100 items is set as a plain list is.
fn is_grown_and_set(alloc: Global, trail: Trail<u64>, plain: Vec<u64>) -> Result<bool, AllocError> {
    let mut plain = plain;
    let new = grown(alloc, trail, &mut plain, 1100)?;
    is_set(alloc, &new, &plain, 999)
}

#[test]
fn an_old_trail_while_another_thread_pushes(rt: HostRuntime) -> Result<(), Fail> {
    let alloc = rt.alloc();
    let Shared {
        trail,
        plain,
        old,
        longer,
    } = two_trails(alloc)?;
    let (here, there) = thread::join(
        &rt,
        || is_list(&trail, &plain, 1000),
        move || is_grown_and_set(alloc, old, longer),
    );
    assert!(rt; here && there?);
    assert!(rt; is_list(&trail, &plain, 1000));
    Ok(())
}

/// Ids: the i-th is the first number plus i times the second, modulo 2^128.
#[derive(Clone, Copy)]
struct Family(u128, u128);

fn id_of(family: Family, i: u32) -> u128 {
    family.0.wrapping_add(family.1.wrapping_mul(u128::from(i)))
}

/// The number of the last pair with this id.
fn number_of(pairs: &[(u128, u32)], id: u128) -> Option<u32> {
    let mut found = None;
    for (other, number) in pairs {
        if *other == id {
            found = Some(*number);
        }
    }
    found
}

/// Whether an index has the numbers of the first pairs, for 5 ids more of the family than there are pairs.
fn is_map(index: &Index, pairs: &[(u128, u32)], family: Family, count: u32) -> bool {
    let mut same = true;
    for i in 0..count.saturating_add(5) {
        let id = id_of(family, i);
        same = same && index.find(id) == number_of(pairs, id);
    }
    same
}

/// Inserts ids to an index and to plain pairs, from the `from`-th to before the `to`-th of the family.
fn inserted(
    alloc: Global,
    index: Index,
    pairs: &mut Vec<(u128, u32)>,
    family: Family,
    from: u32,
    to: u32,
) -> Result<Index, AllocError> {
    let mut index = index;
    for i in from..to {
        let id = id_of(family, i);
        index = index.insert(alloc, id, i)?;
        pairs.push((id, i))?;
    }
    Ok(index)
}

/// Whether ids that are there get new numbers in a new index, and keep theirs in the old one.
fn is_replaced(
    alloc: Global,
    index: &Index,
    pairs: &[(u128, u32)],
    family: Family,
    count: u32,
) -> Result<bool, AllocError> {
    let mut other = Vec::from_slice(alloc, pairs)?;
    let mut changed = index.share()?;
    for i in [0, count / 2, count.saturating_sub(1)] {
        let id = id_of(family, i);
        changed = changed.insert(alloc, id, 77777)?;
        other.push((id, 77777))?;
    }
    Ok(is_map(&changed, &other, family, count) && is_map(index, pairs, family, count))
}

/// Whether an index that grows is as plain pairs are, and the one before stays.
fn is_grown(
    alloc: Global,
    index: &Index,
    pairs: &[(u128, u32)],
    family: Family,
    from: u32,
    count: u32,
) -> Result<bool, Fail> {
    let mut longer = Vec::from_slice(alloc, pairs)?;
    let new = inserted(alloc, index.share()?, &mut longer, family, from, count)?;
    Ok(
        is_map(&new, &longer, family, count)
            && is_map(index, pairs, family, count)
            && is_replaced(alloc, &new, &longer, family, count)?,
    )
}

/// Whether an index of the first `from` ids can grow to `count`.
fn can_grow(alloc: Global, family: Family, from: u32, count: u32) -> Result<bool, Fail> {
    let mut pairs = Vec::new(alloc);
    let index = inserted(alloc, Index::empty(), &mut pairs, family, 0, from)?;
    is_grown(alloc, &index, &pairs, family, from, count)
}

impl Row for Family {
    fn holds(&self, alloc: Global) -> Result<bool, Fail> {
        let mut from = 0;
        for count in COUNTS {
            if !can_grow(alloc, *self, from, count)? {
                return Ok(false);
            }
            from = count;
        }
        Ok(true)
    }
}

const FAMILIES: &[Family] = &[
    // 1, 2, 3, ..
    Family(1, 1),
    // ids with the same 118 high bits, with the same 64 low bits, and with the same 112 low bits
    Family(43981 << 112, 1),
    Family(9, 1 << 64),
    Family(9, 1 << 112),
    // ids whose hashes have the same 118 high bits
    Family(0, UNSCATTER),
];

#[test]
fn indexes_and_plain_pairs(rt: HostRuntime) -> Result<(), Fail> {
    all_hold(rt.alloc(), FAMILIES)
}

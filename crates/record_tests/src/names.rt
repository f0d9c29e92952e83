//! Worked values of names and lists.

use std::alloc::{AllocError, Global};
use std::test::Fail;
use unit_id::{
    Bids, Bytes, Home, Homes, Kind, Move, Moves, Target, Targets, Task, UnitFault, UnitName,
};

/// A volume, an index and an epoch, the word that they pack into, and the next epoch, or 0 where there is none.
type Row = (u32, u8, u32, u64, u32);

/// Names, their words and the epochs behind them.
fn names() -> [Row; 4] {
    [
        (1, 2, 3, 4_328_521_731, 4),
        (0, 0, 1, 1, 2),
        (
            4_294_967_295,
            255,
            16_777_215,
            18_446_744_073_709_551_615,
            0,
        ),
        (
            4_294_967_295,
            255,
            16_777_214,
            18_446_744_073_709_551_614,
            16_777_215,
        ),
    ]
}

/// Whether a name has these parts.
fn has(name: &UnitName, vid: u32, index: u8, epoch: u32) -> bool {
    name.vid == vid && name.index == index && name.epoch == epoch
}

/// Whether the next name has this epoch, and the same volume and index.
fn is_next(next: Option<UnitName>, vid: u32, index: u8, epoch: u32) -> bool {
    match next {
        Some(name) => has(&name, vid, index, epoch),
        None => epoch == 0,
    }
}

/// Whether a name is what its word unpacks to.
fn is_word(name: &UnitName, word: u64) -> bool {
    name.pack() == word && UnitName::unpack(word) == Some(*name)
}

/// Whether a row's name has its parts, its word and its next.
fn is_so(row: Row) -> Result<bool, UnitFault> {
    let (vid, index, epoch, word, later) = row;
    let name = UnitName::new(vid, index, epoch)?;
    Ok(
        has(&name, vid, index, epoch)
            && is_word(&name, word)
            && is_next(name.next(), vid, index, later),
    )
}

/// The word of the first name that isn't so.
fn misnamed() -> Result<Option<u64>, UnitFault> {
    for row in names() {
        if !is_so(row)? {
            return Ok(Some(row.3));
        }
    }
    Ok(None)
}

/// The first epoch of a name that isn't refused.
fn unrefused() -> Option<u32> {
    for (vid, index, epoch) in [(1, 2, 0), (0, 0, 16_777_216), (1, 2, 4_294_967_295)] {
        if UnitName::new(vid, index, epoch) != Err(UnitFault::BadEpoch) {
            return Some(epoch);
        }
    }
    None
}

/// The first word of no name that unpacks.
fn misunpacked() -> Option<u64> {
    for word in [0, 4_328_521_728, 18_446_744_073_692_774_400] {
        if UnitName::unpack(word).is_some() {
            return Some(word);
        }
    }
    None
}

#[test]
fn names_and_words(rt: HostRuntime) -> Result<(), Fail> {
    assert_eq!(rt; misnamed()?, None);
    assert_eq!(rt; unrefused(), None);
    assert_eq!(rt; misunpacked(), None);
    Ok(())
}

/// Whether a list of numbers has its items, lent and given back.
fn keeps_bids(alloc: Global, want: &[u64]) -> Result<bool, AllocError> {
    let bids = Bids::from_vec(want.to_vec(alloc)?);
    Ok(bids.len() == want.len() && bids.as_slice() == want && bids.into_vec().as_slice() == want)
}

/// Whether a list of bytes has its items, lent and given back.
fn keeps_bytes(alloc: Global, want: &[u8]) -> Result<bool, AllocError> {
    let bytes = Bytes::from_vec(want.to_vec(alloc)?);
    Ok(bytes.len() == want.len() && bytes.as_slice() == want && bytes.into_vec().as_slice() == want)
}

/// Whether a list of targets has its items, lent and given back.
fn keeps_targets(alloc: Global, want: &[Target]) -> Result<bool, AllocError> {
    let targets = Targets::from_vec(want.to_vec(alloc)?);
    Ok(
        targets.len() == want.len()
            && targets.as_slice() == want
            && targets.into_vec().as_slice() == want,
    )
}

/// The home of a volume's unit at a place; the last of 27 is broken.
fn home(place: u8) -> Result<Home, UnitFault> {
    let unit = UnitName::new(5, place, 1)?;
    Ok(Home {
        unit,
        disk: u32::from(place) + 1,
        broken: place == 26,
    })
}

/// Adds the home of each of 27 places for which there is room.
fn add_homes(homes: &mut Homes) -> Result<(), UnitFault> {
    for place in 0..27u8 {
        let next = home(place)?;
        if homes.len() < 27 {
            homes.push(next);
        }
    }
    Ok(())
}

/// The first place of a list that has another home.
fn misplaced_home(homes: &[Home]) -> Result<Option<u8>, UnitFault> {
    let mut place = 0u8;
    for found in homes {
        if *found != home(place)? {
            return Ok(Some(place));
        }
        place = place.wrapping_add(1);
    }
    Ok(None)
}

/// The first place at which a list that was empty and is filled has another home, or 99 where its length is wrong.
fn misfilled_homes() -> Result<Option<u8>, UnitFault> {
    let mut homes = Homes::empty();
    let before = homes.len();
    add_homes(&mut homes)?;
    if before != 0 || homes.len() != 27 {
        return Ok(Some(99));
    }
    misplaced_home(homes.as_slice())
}

#[test]
fn lists(rt: HostRuntime) -> Result<(), Fail> {
    assert!(rt; keeps_bids(rt.alloc(), &[3, 1, 2])?);
    assert!(rt; keeps_bytes(rt.alloc(), &[7, 0])?);
    assert_eq!(rt; misfilled_homes()?, None);
    Ok(())
}

/// Two targets.
fn two_targets() -> [Target; 2] {
    [Target { index: 3, disk: 7 }, Target { index: 4, disk: 0 }]
}

/// Whether a task has the parts that it was made of.
fn keeps_task(alloc: Global, want: &[Target]) -> Result<bool, AllocError> {
    let targets = Targets::from_vec(want.to_vec(alloc)?);
    let task = Task {
        id: 9,
        kind: Kind::Repair,
        vid: 2,
        targets,
    };
    Ok(
        task.id == 9
            && task.kind == Kind::Repair
            && task.vid == 2
            && task.targets.into_vec().as_slice() == want,
    )
}

/// The move of a volume's unit at a place; the last of nine goes to a broken disk.
fn step(place: u8) -> Result<Move, UnitFault> {
    let unit = UnitName::new(5, place, 2)?;
    Ok(Move {
        index: place,
        unit,
        disk: u32::from(place) + 1,
        dest_broken: place == 8,
    })
}

/// Adds the move of each of nine places for which there is room.
fn add_moves(moves: &mut Moves) -> Result<(), UnitFault> {
    for place in 0..9u8 {
        let next = step(place)?;
        if moves.len() < 9 {
            moves.push(next);
        }
    }
    Ok(())
}

/// The first place of a list that has another move.
fn misplaced_move(moves: &[Move]) -> Result<Option<u8>, UnitFault> {
    let mut place = 0u8;
    for found in moves {
        if *found != step(place)? {
            return Ok(Some(place));
        }
        place = place.wrapping_add(1);
    }
    Ok(None)
}

/// The first place at which a list that was empty and is filled has another move, or 99 where its length is wrong.
fn misfilled_moves() -> Result<Option<u8>, UnitFault> {
    let mut moves = Moves::empty();
    let before = moves.len();
    add_moves(&mut moves)?;
    if before != 0 || moves.len() != 9 {
        return Ok(Some(99));
    }
    misplaced_move(moves.as_slice())
}

#[test]
fn lists_of_a_task(rt: HostRuntime) -> Result<(), Fail> {
    assert!(rt; keeps_targets(rt.alloc(), &two_targets())?);
    assert!(rt; keeps_task(rt.alloc(), &two_targets())?);
    assert_eq!(rt; misfilled_moves()?, None);
    Ok(())
}

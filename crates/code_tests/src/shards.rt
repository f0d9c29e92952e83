ghost use Rattle.std.specs.Prelude.{◌≡◌, ◌+◌, ◌≤◌, length, IfOk};
ghost use Rattle.rs_code.specs.RowCache.{AllFit};
ghost use Rattle.rs_code.specs.Shape.{shape};

use disk_base::NoMemory;
use rs_code::{CodeFault, Coder, RowCache, RowMaker, ShardFault, Shards, laws};
use std::alloc::Global;
use std::test::Fail;
use unit_id::Bytes;

/// Adds a shard of these bytes to a set.
fn put(alloc: Global, shards: &mut Shards, index: usize, bytes: &[u8]) -> Result<(), ShardFault>
    ensures { length shards.new ≡ length shards.old }
{
    match Vec::from_slice(alloc, bytes) {
        Ok(bytes) => shards.add(index, Bytes::from_vec(bytes)),
        Err(_) => Err(ShardFault::Memory),
    }
}

/// Byte `k` of data shard `i` of the round trips.
fn data_byte(i: u8, k: u8) -> u8 {
    i.wrapping_mul(7)
        .wrapping_add(k.wrapping_mul(31))
        .wrapping_add(i.wrapping_mul(k))
}

/// Data shard `i` of the round trips.
fn data_bytes(i: u8) -> [u8; 5] {
    [
        data_byte(i, 0),
        data_byte(i, 1),
        data_byte(i, 2),
        data_byte(i, 3),
        data_byte(i, 4),
    ]
}

/// So many data shards of the round trips, the first ones of a set.
fn data_set(alloc: Global, n: usize, total: usize) -> Result<Shards, ShardFault>
    ensures { IfOk result (λ shards. length shards ≡ total) }
{
    let mut shards = Shards::make(alloc, total);
    for i in 0..n {
        put(alloc, &mut shards, i, &data_bytes((i % 256) as u8))?;
    }
    Ok(shards)
}

/// Fills a set of shards by a coder of its own.
fn fill(alloc: Global, n: usize, m: usize, shards: &mut Shards) -> Result<(), CodeFault>
    requires { length shards.old ≡ n + m }
{
    let mut coder = Coder::new(alloc, n, m, 1)?;
    coder.fill(shards)
}

/// All shards of the round trips.
fn full_set(alloc: Global, n: usize, m: usize) -> Result<Shards, Fail>
    requires { n + m ≤ 256 }
{
    let mut shards = data_set(alloc, n, n + m)?;
    fill(alloc, n, m, &mut shards)?;
    Ok(shards)
}

/// Adds a shard that another set has, unless its bit in `dropped` is 1.
fn keep(
    alloc: Global,
    shards: &mut Shards,
    full: &Shards,
    index: usize,
    dropped: u32,
) -> Result<(), ShardFault>
    ensures { length shards.new ≡ length shards.old }
{
    match full.get(index) {
        Some(bytes) if dropped >> (index % 32) & 1 == 0 => put(alloc, shards, index, bytes),
        _ => Ok(()),
    }
}

/// The shards of a set but for those whose bit in `dropped` is 1.
fn without(alloc: Global, full: &Shards, total: usize, dropped: u32) -> Result<Shards, ShardFault>
    ensures { IfOk result (λ shards. length shards ≡ total) }
{
    let mut shards = Shards::make(alloc, total);
    for k in 0..total {
        keep(alloc, &mut shards, full, k, dropped)?;
    }
    Ok(shards)
}

/// Whether two sets have the same shards, and each of them.
fn are_same(shards: &Shards, others: &Shards, total: usize) -> bool {
    for k in 0..total {
        if shards.get(k).is_none() || shards.get(k) != others.get(k) {
            return false;
        }
    }
    true
}

/// Whether the lowest shard that is dropped comes back alone.
fn lowest_comes_back(
    alloc: Global,
    coder: &mut Coder,
    full: &Shards,
    total: usize,
    dropped: u32,
) -> Result<bool, Fail>
    requires { total ≡ coder.old.data_shards + coder.old.parity_shards }
    ensures { shape coder.new ≡ shape coder.old }
{
    let lowest = dropped.trailing_zeros() as usize;
    if lowest >= total {
        return Ok(false);
    }
    let shards = without(alloc, full, total, dropped)?;
    let bytes = coder.rebuild(&shards, lowest)?;
    Ok(full.get(lowest) == Some(bytes.as_slice()))
}

/// Whether all shards that are dropped come back.
fn all_come_back(
    alloc: Global,
    coder: &mut Coder,
    full: &Shards,
    total: usize,
    dropped: u32,
) -> Result<bool, Fail>
    requires { total ≡ coder.old.data_shards + coder.old.parity_shards }
    ensures { shape coder.new ≡ shape coder.old }
{
    let mut shards = without(alloc, full, total, dropped)?;
    coder.fill(&mut shards)?;
    Ok(are_same(&shards, full, total))
}

/// Whether the shards that are dropped come back: the lowest alone, and all together.
fn come_back(
    alloc: Global,
    coder: &mut Coder,
    full: &Shards,
    total: usize,
    dropped: u32,
) -> Result<bool, Fail>
    requires { total ≡ coder.old.data_shards + coder.old.parity_shards }
    ensures { shape coder.new ≡ shape coder.old }
{
    Ok(
        lowest_comes_back(alloc, coder, full, total, dropped)?
            && all_come_back(alloc, coder, full, total, dropped)?,
    )
}

/// How many choices of dropped shards, as their bits, come back through one coder.
fn choices_back(
    alloc: Global,
    full: &Shards,
    n: usize,
    m: usize,
    cached: usize,
) -> Result<u32, Fail> {
    if n > 6 || m > 3 {
        return Ok(0);
    }
    let mut coder = Coder::new(alloc, n, m, cached)?;
    let mut back = 0u32;
    for dropped in 1..512u32 {
        if dropped >> (n + m) == 0
            && dropped.count_ones() as usize <= m
            && come_back(alloc, &mut coder, full, n + m, dropped)?
        {
            back = back.saturating_add(1);
        }
    }
    Ok(back)
}

/// Adds three shards of a byte each, from an index on.
fn put_three(
    alloc: Global,
    shards: &mut Shards,
    first: u8,
    bytes: [u8; 3],
) -> Result<(), ShardFault>
    ensures { length shards.new ≡ length shards.old }
{
    let first = usize::from(first);
    put(alloc, shards, first, &[bytes[0]])?;
    put(alloc, shards, first + 1, &[bytes[1]])?;
    put(alloc, shards, first + 2, &[bytes[2]])
}

/// Three shards of a byte each, from an index on, of six.
fn three_from(alloc: Global, first: u8, bytes: [u8; 3]) -> Result<Shards, ShardFault>
    ensures { IfOk result (λ shards. length shards ≡ 6) }
{
    let mut shards = Shards::make(alloc, 6);
    put_three(alloc, &mut shards, first, bytes)?;
    Ok(shards)
}

/// Whether a set has a shard of this byte alone.
fn has_byte(shards: &Shards, index: usize, byte: u8) -> bool {
    shards.get(index) == Some([byte].as_slice())
}

/// Whether all six shards are held, the last three of these bytes.
fn has_parity(shards: &Shards, parity: [u8; 3]) -> bool {
    shards.count() == 6
        && has_byte(shards, 3, parity[0])
        && has_byte(shards, 4, parity[1])
        && has_byte(shards, 5, parity[2])
}

/// Whether data bytes have these parity bytes.
fn gives_parity(alloc: Global, data: [u8; 3], parity: [u8; 3]) -> Result<bool, Fail> {
    let mut shards = three_from(alloc, 0, data)?;
    fill(alloc, 3, 3, &mut shards)?;
    Ok(has_parity(&shards, parity))
}

/// A shard of three and three, by a coder of its own.
fn rebuild(alloc: Global, shards: &Shards, want: u8) -> Result<Bytes, CodeFault>
    requires { length shards.now ≡ 6 }
{
    let mut coder = Coder::new(alloc, 3, 3, 1)?;
    coder.rebuild(shards, usize::from(want % 6))
}

/// Whether these parity bytes give the shard of an index, of this byte alone.
fn gives_back(alloc: Global, parity: [u8; 3], want: u8, byte: u8) -> Result<bool, Fail> {
    let shards = three_from(alloc, 3, parity)?;
    let bytes = rebuild(alloc, &shards, want)?;
    Ok(bytes.as_slice() == [byte].as_slice())
}

/// Whether data bytes have these parity bytes, which give two of them back.
fn is_worked(alloc: Global, data: [u8; 3], parity: [u8; 3]) -> Result<bool, Fail> {
    Ok(
        gives_parity(alloc, data, parity)?
            && gives_back(alloc, parity, 2, data[2])?
            && gives_back(alloc, parity, 1, data[1])?,
    )
}

/// Two shards of six.
fn two_of_six(alloc: Global) -> Result<Shards, ShardFault>
    ensures { IfOk result (λ shards. length shards ≡ 6) }
{
    let mut shards = Shards::make(alloc, 6);
    put(alloc, &mut shards, 3, &[157])?;
    put(alloc, &mut shards, 4, &[58])?;
    Ok(shards)
}

/// Whether two shards of six are too few to rebuild one.
fn is_not_rebuilt(alloc: Global, few: &Shards) -> bool
    requires { length few.now ≡ 6 }
{
    matches!(rebuild(alloc, few, 2), Err(CodeFault::TooFew { have: 2 }))
}

/// Whether two shards of six are too few to fill their set, and are left as they are.
fn is_not_filled(alloc: Global, few: &mut Shards) -> bool
    requires { length few.old ≡ 6 }
{
    matches!(fill(alloc, 3, 3, few), Err(CodeFault::TooFew { have: 2 })) && few.count() == 2
}

/// Whether two shards of six are too few for either.
fn are_too_few(alloc: Global) -> Result<bool, ShardFault> {
    let mut few = two_of_six(alloc)?;
    Ok(is_not_rebuilt(alloc, &few) && is_not_filled(alloc, &mut few))
}

#[test]
fn three_and_three_as_worked_by_hand(rt: HostRuntime) -> Result<(), Fail> {
    assert!(rt; is_worked(rt.alloc(), [0, 128, 29], [157, 58, 186])?);
    assert!(rt; is_worked(rt.alloc(), [0, 1, 4], [5, 16, 17])?);
    assert!(rt; are_too_few(rt.alloc())?);
    Ok(())
}

/// Whether there is no coder of this shape.
fn is_bad_shape(alloc: Global, n: usize, m: usize, cached: usize) -> bool {
    matches!(Coder::new(alloc, n, m, cached), Err(CodeFault::BadShape))
}

/// Whether coders of no data shards, no rows or too many shards are refused.
fn are_bad_shapes(alloc: Global) -> bool {
    is_bad_shape(alloc, 0, 3, 1)
        && is_bad_shape(alloc, 3, 3, 0)
        && is_bad_shape(alloc, 200, 57, 1)
        && is_bad_shape(alloc, 257, 0, 1)
        && is_bad_shape(alloc, usize::MAX, 2, 1)
}

/// Whether there is a coder of 256 shards.
fn largest_is_made(alloc: Global) -> bool {
    Coder::new(alloc, 200, 56, 1).is_ok()
}

/// Whether a set has no shard.
fn is_empty(shards: &Shards) -> bool {
    shards.count() == 0 && shards.get(3).is_none()
}

/// Whether a shard out of range is refused, and one that is added refuses another at its index and one of
/// another length.
fn refuses_in_order(alloc: Global, shards: &mut Shards) -> bool {
    matches!(put(alloc, shards, 6, b"ab"), Err(ShardFault::OutOfRange))
        && put(alloc, shards, 3, b"ab").is_ok()
        && matches!(put(alloc, shards, 3, b"abc"), Err(ShardFault::Twice))
        && matches!(put(alloc, shards, 2, b"abc"), Err(ShardFault::Uneven))
}

/// Whether a set has this shard alone.
fn has_only(shards: &Shards) -> bool {
    shards.count() == 1 && shards.get(3) == Some(b"ab".as_slice()) && shards.get(2).is_none()
}

/// Whether an empty set of six takes a shard and refuses others.
fn takes_one(alloc: Global) -> bool {
    let mut shards = Shards::make(alloc, 6);
    is_empty(&shards) && refuses_in_order(alloc, &mut shards) && has_only(&shards)
}

#[test]
fn refusals_in_their_order(rt: HostRuntime) {
    assert!(rt; are_bad_shapes(rt.alloc()));
    assert!(rt; largest_is_made(rt.alloc()));
    assert!(rt; takes_one(rt.alloc()));
}

/// Whether so many choices of dropped shards come back, for each of these numbers of kept rows.
fn all_choices_back(alloc: Global, n: usize, choices: u32) -> Result<bool, Fail> {
    if n > 6 {
        return Ok(false);
    }
    let full = full_set(alloc, n, 3)?;
    Ok(
        choices_back(alloc, &full, n, 3, 1)? == choices
            && choices_back(alloc, &full, n, 3, 2)? == choices
            && choices_back(alloc, &full, n, 3, 1_000)? == choices,
    )
}

#[test]
fn every_choice_of_dropped_shards_comes_back(rt: HostRuntime) -> Result<(), Fail> {
    // One, two or three of six are 6 + 15 + 20 choices, and of nine 9 + 36 + 84.
    assert!(rt; all_choices_back(rt.alloc(), 3, 41)?);
    assert!(rt; all_choices_back(rt.alloc(), 6, 129)?);
    Ok(())
}

/// Whether a set has this shard.
fn has_shard(shards: &Shards, index: usize, want: [u8; 5]) -> bool {
    shards.get(index) == Some(want.as_slice())
}

/// Whether the parity shards of the round trips are these.
fn is_as_computed(alloc: Global) -> Result<bool, Fail> {
    let full = full_set(alloc, 6, 3)?;
    Ok(
        has_shard(&full, 6, [18, 15, 49, 9, 108])
            && has_shard(&full, 7, [49, 87, 72, 51, 131])
            && has_shard(&full, 8, [201, 0, 104, 23, 25]),
    )
}

#[test]
fn parity_is_as_computed_elsewhere(rt: HostRuntime) -> Result<(), Fail> {
    assert!(rt; is_as_computed(rt.alloc())?);
    Ok(())
}

/// A maker whose rows are the number of the call, each of which fits.
#[derive(Drop)]
struct Counted {
    calls: u64,
}

impl RowMaker for Counted {
    ghost fits = { λ _ _ _ _. Unit {0} };

    ghost made = { λ maker. maker.calls };

    fn make(&mut self, alloc: Global, _held: &[u8], _want: u8) -> Result<Bytes, NoMemory> {
        self.calls = self.calls.saturating_add(1);
        let row = [(self.calls % 256) as u8];
        Ok(Bytes::from_vec(Vec::from_slice(alloc, &row)?))
    }
}

/// Whether the row that a cache gives for a wanted index has this number, and it keeps so many rows then.
fn gives_row(
    cache: &mut RowCache,
    maker: &mut Counted,
    want: u8,
    row: [u8; 2],
) -> Result<bool, NoMemory>
    requires { AllFit (λ _ _ _. Unit {0}) cache.old.entries }
    ensures { AllFit (λ _ _ _. Unit {0}) cache.new.entries }
{
    let given = cache.row(maker, &[3, 4, 5], want)?;
    Ok(given.as_slice() == [row[0]].as_slice() && cache.len() == usize::from(row[1]))
}

/// Whether a cache gives these rows for these wanted indexes in turn.
fn gives_in_turn(
    cache: &mut RowCache,
    maker: &mut Counted,
    wants: [u8; 5],
    rows: [[u8; 2]; 5],
) -> Result<bool, NoMemory>
    requires { AllFit (λ _ _ _. Unit {0}) cache.old.entries }
{
    Ok(
        gives_row(cache, maker, wants[0], rows[0])?
            && gives_row(cache, maker, wants[1], rows[1])?
            && gives_row(cache, maker, wants[2], rows[2])?
            && gives_row(cache, maker, wants[3], rows[3])?
            && gives_row(cache, maker, wants[4], rows[4])?,
    )
}

/// Whether a new cache of so many gives these rows for these wanted indexes in turn.
fn rows_are(
    alloc: Global,
    cached: u8,
    wants: [u8; 5],
    rows: [[u8; 2]; 5],
) -> Result<bool, NoMemory> {
    let mut maker = Counted { calls: 0 };
    let mut cache = RowCache::make(alloc, usize::from(cached.max(1)))?;
    gives_in_turn(&mut cache, &mut maker, wants, rows)
}

/// Whether a kept row is not made again, and the least recently used one goes.
fn kept_rows_stay(alloc: Global) -> Result<bool, NoMemory> {
    let one = [[1, 1], [1, 1], [2, 1], [3, 1], [3, 1]];
    // The row for 1 was used before the one for 2, so it goes as a third one comes.
    let two = [[1, 1], [2, 2], [3, 2], [2, 2], [4, 2]];
    // As it is used again it stays, and the other goes.
    let used = [[1, 1], [2, 2], [1, 2], [3, 2], [1, 2]];
    Ok(
        rows_are(alloc, 1, [2, 2, 1, 2, 2], one)?
            && rows_are(alloc, 2, [1, 2, 0, 2, 1], two)?
            && rows_are(alloc, 2, [1, 2, 1, 0, 1], used)?,
    )
}

#[test]
fn kept_rows_are_not_made_again(rt: HostRuntime) -> Result<(), Fail> {
    assert!(rt; kept_rows_stay(rt.alloc())?);
    Ok(())
}

/// Whether a coder of three and three rebuilds this byte, keeps so many rows then, and has made so many.
fn gives_byte(coder: &mut Coder, shards: &Shards, want: u8, row: [u8; 3]) -> Result<bool, CodeFault>
    requires shape { shape coder.old ≡ record { data_shards = 3; parity_shards = 3 } }
    requires total { length shards.now ≡ 6 }
    ensures { shape coder.new ≡ record { data_shards = 3; parity_shards = 3 } }
{
    let bytes = coder.rebuild(shards, usize::from(want % 6))?;
    Ok(
        bytes.as_slice() == [row[0]].as_slice()
            && coder.entries() == usize::from(row[1])
            && coder.made() == u64::from(row[2]),
    )
}

/// Whether a coder of three and three does so for these wanted indexes in turn.
fn rebuilds_in_turn(
    coder: &mut Coder,
    shards: &Shards,
    wants: [u8; 5],
    rows: [[u8; 3]; 5],
) -> Result<bool, CodeFault>
    requires shape { shape coder.old ≡ record { data_shards = 3; parity_shards = 3 } }
    requires total { length shards.now ≡ 6 }
{
    Ok(
        gives_byte(coder, shards, wants[0], rows[0])?
            && gives_byte(coder, shards, wants[1], rows[1])?
            && gives_byte(coder, shards, wants[2], rows[2])?
            && gives_byte(coder, shards, wants[3], rows[3])?
            && gives_byte(coder, shards, wants[4], rows[4])?,
    )
}

/// Whether a new coder that keeps so many rows does so over these shards.
fn rebuilds_by(
    alloc: Global,
    shards: &Shards,
    cached: u8,
    wants: [u8; 5],
    rows: [[u8; 3]; 5],
) -> Result<bool, CodeFault>
    requires { length shards.now ≡ 6 }
{
    let mut coder = Coder::new(alloc, 3, 3, usize::from(cached.max(1)))?;
    rebuilds_in_turn(&mut coder, shards, wants, rows)
}

/// Whether a new coder does so over the last three shards of six, those of the data bytes 0, 1 and 4.
fn rebuilt_are(
    alloc: Global,
    cached: u8,
    wants: [u8; 5],
    rows: [[u8; 3]; 5],
) -> Result<bool, Fail> {
    let shards = three_from(alloc, 3, [5, 16, 17])?;
    Ok(rebuilds_by(alloc, &shards, cached, wants, rows)?)
}

/// Whether a coder makes a row once while it is kept.
fn rows_are_made_once(alloc: Global) -> Result<bool, Fail> {
    // The shard of index 4 is held, so its row is made afresh and neither kept nor counted.
    let one = [[4, 1, 1], [4, 1, 1], [1, 1, 2], [4, 1, 3], [16, 1, 3]];
    let many = [[4, 1, 1], [1, 2, 2], [0, 3, 3], [4, 3, 3], [1, 3, 3]];
    Ok(
        rebuilt_are(alloc, 1, [2, 2, 1, 2, 4], one)?
            && rebuilt_are(alloc, 200, [2, 1, 0, 2, 1], many)?,
    )
}

#[test]
fn a_coder_makes_a_row_once_while_it_is_kept(rt: HostRuntime) -> Result<(), Fail> {
    assert!(rt; rows_are_made_once(rt.alloc())?);
    Ok(())
}

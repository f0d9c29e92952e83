//! Getting a blob.

ghost use Rattle.std.specs.Prelude.{ℕ, List, [], ◌∷◌, ◌≡◌, ◌+◌, ◌<◌, ◌≤◌, true, length, reverse, Ok, IfOk};
ghost use Rattle.unit_id.specs.declared.homes.Home.{Home as HomeView};
ghost use Rattle.rs_code.specs.Shards.{shard_at, held_count};
ghost use Rattle.code_mode.specs.declared.mode.Mode.{Mode as ModeView};
ghost use Rattle.code_mode.specs.declared.stripe.TheConstants.{BLOB_LIMIT};
ghost use Rattle.code_mode.specs.Mode.{total_count};
ghost use Rattle.volume_entry.specs.Manager.{IsBid};
ghost use Rattle.volume_world.specs.Way.{Origin};
ghost use Rattle.volume_world.specs.Asking.{IsUnitOn};
ghost use Rattle.volume_world.specs.Replying.{AreHomes, RepliesLook, RepliesSend};
ghost use Rattle.volume_world.specs.Call.{Next};
ghost use Rattle.rs_code.specs.Shape.{shape};
ghost use Rattle.blob_access.specs.Coding.{coder_shape};
ghost use Rattle.blob_access.specs.GetCall.{Wanted as WantedView, Try, GetStage, reading, unbroken, broken_count, hear_live, decoded, after_first, after_again, after_read, Gets};
ghost use Rattle.blob_access.specs.GetParts.{wanted_of, got, GetsOn, starting, seen_again, try_of, heard_on, HearsBy, attempted, IsHeard, IsEnough, IsHeardBy};

use crate::GetFault;
use crate::stripe::blob_of;
use crate::versions::Versions;
use code_mode::{Mode, hold};
use rs_code::{Coder, Shards};
use std::alloc::Global;
use unit_id::{Answer, Bytes, Home, Homes, Request};
use volume_entry::View;
use volume_world::{Event, Port, Reply};

/// What is wanted: a blob of so many bytes, of a volume of this mode.
#[derive(Clone, Copy)]
pub(crate) struct Wanted {
    pub(crate) mode: Mode,
    pub(crate) bid: u64,
    pub(crate) size: u32,
}

/// What one try has heard: how many units were shown as broken, the shards that were heard live, how many these are,
/// and how many reads had no answer.
#[derive(Drop)]
pub(crate) struct Tried {
    pub(crate) broken: u32,
    pub(crate) shards: Shards,
    pub(crate) live: u32,
    pub(crate) unheard: u32,
}

/// What a try gave.
#[derive(Drop)]
pub(crate) enum Attempt {
    /// The blob.
    Blob(Bytes),
    /// Too few shards.
    Missed(Tried),
}

/// What a look shows of the units.
#[derive(Drop)]
struct Sight {
    version: u64,
    units: Homes,
}

fn looked(reply: Reply) -> Result<Sight, GetFault>
    requires { (origin : Origin) × RepliesLook origin reply }
    ensures first { (wanted : WantedView) → got result (λ sight. starting wanted.mode (sight.version ∷ []) sight.units) ≡ after_first wanted reply }
    ensures again { (wanted : WantedView) (t : Try) → got result (λ sight. seen_again wanted.mode t sight.version sight.units) ≡ after_again wanted t reply }
    ensures homes { (origin : Origin) → RepliesLook origin reply → IfOk result (λ sight. AreHomes origin sight.units) }
{
    match reply {
        Reply::Seen { view } => {
            let View { version, units, .. } = view;
            Ok(Sight { version, units })
        }
        Reply::Fault => Err(GetFault::Fault),
        Reply::Spoiled { place } => Err(GetFault::Spoiled { place }),
        _ => unreachable!(),
    }
}

/// Looks at the volume.
fn look<P: Port>(port: &mut P) -> Result<Sight, GetFault>
    ensures first { (wanted : WantedView)
        → GetsOn wanted (P.seen port.old) (P.seen port.new) (Next.Go GetStage.First) result (λ sight. starting wanted.mode (sight.version ∷ []) sight.units) }
    ensures again { (wanted : WantedView) (t : Try)
        → GetsOn wanted (P.seen port.old) (P.seen port.new) (Next.Go (GetStage.Again t)) result (λ sight. seen_again wanted.mode t sight.version sight.units) }
    ensures homes { IfOk result (λ sight. AreHomes (P.seen port.new).origin sight.units) }
{
    match port.step(Event::Look) {
        Ok(reply) => looked(reply),
        Err(fault) => Err(GetFault::from(fault)),
    }
}

/// Reads the blob's shard of one unit.
fn read<P: Port>(port: &mut P, bid: u64, home: &Home) -> Result<Reply, GetFault>
    requires number { IsBid bid }
    requires home { IsUnitOn (P.seen port.old).origin home.now.unit home.now.disk }
    ensures reads { (wanted : WantedView) (t : Try) (left : List HomeView) → wanted.bid ≡ bid
        → GetsOn wanted (P.seen port.old) (P.seen port.new) (Next.Go (GetStage.Read t home.now left)) result (λ reply. after_read wanted t home.now left reply) }
    ensures replies { IfOk result RepliesSend }
{
    let request = Request::Read {
        unit: home.unit,
        disk: home.disk,
        bid,
    };
    match port.step(Event::Send { request }) {
        Ok(reply) => Ok(reply),
        Err(fault) => Err(GetFault::from(fault)),
    }
}

/// What a shard that was heard makes of a try: `true` where it is the last one that is needed.
fn hear_live(
    wanted: Wanted,
    index: u8,
    blob_size: u32,
    bytes: Bytes,
    tried: &mut Tried,
) -> Result<bool, GetFault>
    requires heard { IsHeard (wanted_of wanted) index tried.old }
    requires within { index < total_count wanted.mode }
    ensures heard { IfOk result (IsHeardBy (wanted_of wanted) (index + 1) tried.new) }
    ensures hears { (versions : List ℕ) (home : HomeView) (left : List HomeView) → home.unit.index ≡ index
        → HearsBy result (heard_on (wanted_of wanted) versions tried.new left) (hear_live (wanted_of wanted) (try_of versions tried.old) home (unbroken left) blob_size bytes) }
{
    if blob_size != wanted.size {
        return Err(GetFault::Size { kept: blob_size });
    }
    if bytes.len() != wanted.mode.shard_size(wanted.size) as usize {
        return Ok(false);
    }
    let needed = wanted.mode.n();
    hold(&mut tried.shards, usize::from(index), bytes)?;
    tried.live += 1;
    Ok(tried.live == needed)
}

/// What the reply to a read makes of a try: `true` where enough shards are heard.
fn hear(wanted: Wanted, index: u8, reply: Reply, tried: &mut Tried) -> Result<bool, GetFault>
    requires reply { RepliesSend reply }
    requires heard { IsHeard (wanted_of wanted) index tried.old }
    requires within { index < total_count wanted.mode }
    ensures heard { IfOk result (IsHeardBy (wanted_of wanted) (index + 1) tried.new) }
    ensures hears { (versions : List ℕ) (home : HomeView) (left : List HomeView) → home.unit.index ≡ index
        → HearsBy result (heard_on (wanted_of wanted) versions tried.new left) (after_read (wanted_of wanted) (try_of versions tried.old) home (unbroken left) reply) }
{
    match reply {
        Reply::Heard {
            answer: Answer::Live { blob_size, bytes },
        } => hear_live(wanted, index, blob_size, bytes, tried),
        Reply::Heard { answer: _ } => Ok(false),
        Reply::Unheard | Reply::Barred | Reply::Fault | Reply::Spoiled { place: _ } => {
            tried.unheard += 1;
            Ok(false)
        }
        _ => unreachable!(),
    }
}

/// Reads one unit, unless its disk was shown as broken: `true` where enough shards are heard.
fn visit<P: Port>(
    port: &mut P,
    wanted: Wanted,
    home: &Home,
    tried: &mut Tried,
) -> Result<bool, GetFault>
    requires number { IsBid wanted.bid }
    requires home { IsUnitOn (P.seen port.old).origin home.now.unit home.now.disk }
    requires within { home.now.unit.index < total_count wanted.mode }
    requires heard { IsHeard (wanted_of wanted) home.now.unit.index tried.old }
    ensures visits { (versions : List ℕ) (left : List HomeView)
        → GetsOn (wanted_of wanted) (P.seen port.old) (P.seen port.new) (reading (try_of versions tried.old) (unbroken (home.now ∷ left))) result
        (heard_on (wanted_of wanted) versions tried.new left) }
    ensures heard { IfOk result (IsHeardBy (wanted_of wanted) (home.now.unit.index + 1) tried.new) }
{
    if home.broken {
        return Ok(false);
    }
    let reply = read(port, wanted.bid, home)?;
    hear(wanted, home.unit.index, reply, tried)
}

/// Reads the units that weren't shown as broken, in order of index: `true` where enough shards are heard.
fn read_units<P: Port>(
    port: &mut P,
    wanted: Wanted,
    homes: &Homes,
    tried: &mut Tried,
) -> Result<bool, GetFault>
    requires number { IsBid wanted.bid }
    requires mode { wanted.mode ≡ (P.seen port.old).origin.mode }
    requires homes { AreHomes (P.seen port.old).origin homes.now }
    requires heard { IsHeard (wanted_of wanted) 0 tried.old }
    ensures reads { (versions : List ℕ)
        → GetsOn (wanted_of wanted) (P.seen port.old) (P.seen port.new) (reading (try_of versions tried.old) (unbroken homes.now)) result
        (heard_on (wanted_of wanted) versions tried.new []) }
    ensures enough { IfOk result (λ enough. enough ≡ true → IsEnough (wanted_of wanted) tried.new) }
{
    'units: for home in homes.as_slice() {
        if visit(port, wanted, home, tried)? {
            return Ok(true);
        }
    }
    Ok(false)
}

/// How many units are shown as broken.
fn count_broken(homes: &Homes) -> u32
    requires { length homes.now ≤ 27 }
    ensures { result ≡ broken_count homes.now }
{
    homes.as_slice().iter().filter(|home| home.broken).count() as u32
}

/// A try that hasn't heard anything.
fn fresh(alloc: Global, mode: Mode, homes: &Homes) -> Tried
    requires { length homes.now ≤ 27 }
    ensures starts { (versions : List ℕ) → reading (try_of versions result) (unbroken homes.now) ≡ starting mode versions homes.now }
    ensures heard { (wanted : WantedView) → wanted.mode ≡ mode → IsHeard wanted 0 result }
{
    let total = mode.total();
    Tried {
        broken: count_broken(homes),
        shards: Shards::make(alloc, total as usize),
        live: 0,
        unheard: 0,
    }
}

/// One try to read the blob.
fn try_once<P: Port>(
    alloc: Global,
    port: &mut P,
    coder: &mut Coder,
    wanted: Wanted,
    homes: &Homes,
) -> Result<Attempt, GetFault>
    requires coder { shape coder.old ≡ coder_shape wanted.mode }
    requires number { IsBid wanted.bid }
    requires size { wanted.size ≤ BLOB_LIMIT }
    requires mode { wanted.mode ≡ (P.seen port.old).origin.mode }
    requires homes { AreHomes (P.seen port.old).origin homes.now }
    ensures tries { (versions : List ℕ)
        → GetsOn (wanted_of wanted) (P.seen port.old) (P.seen port.new) (starting wanted.mode versions homes.now) result (attempted versions) }
    ensures shape { shape coder.new ≡ shape coder.old }
{
    let mut tried = fresh(alloc, wanted.mode, homes);
    if read_units(port, wanted, homes, &mut tried)? {
        let blob = blob_of(alloc, wanted.mode, coder, wanted.size, &mut tried.shards)?;
        return Ok(Attempt::Blob(blob));
    }
    Ok(Attempt::Missed(tried))
}

/// What another look makes of a try that missed: where the version is new and was not the fifth, there is another try.
fn changed(tried: &Tried, versions: &mut Versions, sight: Sight) -> Result<Sight, GetFault>
    requires { (1 ≤ length versions.old) × (length versions.old ≤ 4) }
    ensures again { (mode : ModeView) → got result (λ next. starting mode versions.new next.units) ≡ seen_again mode (try_of versions.old tried.now) sight.version sight.units }
    ensures grows { IfOk result (λ _. (length versions.new ≡ length versions.old + 1) × (length versions.new ≤ 4)) }
    ensures sight { IfOk result (λ next. next.units ≡ sight.units) }
{
    if versions.last_is(sight.version) {
        return Err(GetFault::Short {
            live: tried.live,
            unheard: tried.unheard,
            broken: tried.broken,
        });
    }
    versions.push(sight.version);
    if versions.len() == 5 {
        let versions = versions.all();
        return Err(GetFault::Moving { versions });
    }
    Ok(sight)
}

/// Looks at the volume once more, after a try that missed.
fn look_again<P: Port>(
    port: &mut P,
    tried: &Tried,
    versions: &mut Versions,
) -> Result<Sight, GetFault>
    requires { (1 ≤ length versions.old) × (length versions.old ≤ 4) }
    ensures again { (wanted : WantedView)
        → GetsOn wanted (P.seen port.old) (P.seen port.new) (Next.Go (GetStage.Again (try_of versions.old tried.now))) result (λ next. starting wanted.mode versions.new next.units) }
    ensures grows { IfOk result (λ _. (length versions.new ≡ length versions.old + 1) × (length versions.new ≤ 4)) }
    ensures homes { IfOk result (λ next. AreHomes (P.seen port.new).origin next.units) }
{
    let sight = look(port)?;
    changed(tried, versions, sight)
}

/// Gets the blob of a number and a size. It looks at the volume, and reads the units that aren't shown as broken in order
/// of index, until as many live shards are heard as the mode has data shards. Where the units are used up, it looks again,
/// and tries again if units moved meanwhile, four times at most. Sizes are 1 to `BLOB_LIMIT` bytes, and blob numbers 1 to 2^62.
///
/// # Errors
///
/// `Size` where a live shard is of a blob of another size. `Short` where the volume's version stayed as it was over a try
/// that didn't hear enough shards. `Moving` where it changed at each of four tries. `Fault` and `Spoiled` where a look
/// replied so.
pub fn get<P: Port>(
    alloc: Global,
    port: &mut P,
    coder: &mut Coder,
    bid: u64,
    size: u32,
) -> Result<Bytes, GetFault>
    requires coder { shape coder.old ≡ coder_shape (P.seen port.old).origin.mode }
    requires number { IsBid bid }
    requires size { (1 ≤ size) × (size ≤ BLOB_LIMIT) }
    ensures gets { Gets (P.seen port.old) (P.seen port.new) bid size result }
    ensures shape { shape coder.new ≡ shape coder.old }
{
    port.is_way();
    let mode = port.mode();
    let wanted = Wanted { mode, bid, size };
    let mut versions = Versions::none();
    let mut sight = look(port)?;
    versions.push(sight.version);
    'tries: loop {
        match try_once(alloc, port, coder, wanted, &sight.units)? {
            Attempt::Blob(blob) => return Ok(blob),
            Attempt::Missed(tried) => sight = look_again(port, &tried, &mut versions)?,
        }
    }
}

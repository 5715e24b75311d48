// What keeps payloads: a journal that is stopped at each call of its disk, and the other keepers.
ghost use Rattle.std.specs.Prelude.{◌≡◌, false, IfOk};
ghost use Rattle.reg_keep.specs.JournalWords.{is_broken};

use super::otherwise::{Otherwise, expect, expect_number};
use reg_keep::{Journal, Keeper, MemoryKeeper, NoKeeper, Records};
use reg_outside::MemoryDisk;
use std::alloc::{AllocError, Global};

fn disk_of(alloc: Global, bytes: &[u8], fail: &[u64]) -> Result<MemoryDisk, AllocError> {
    MemoryDisk::new(alloc, bytes.to_vec(alloc)?, fail.to_vec(alloc)?)
}

/// A new journal, on a disk whose call of this number fails.
fn begun(alloc: Global, fail: u64) -> Result<Journal<MemoryDisk>, Otherwise>
    ensures { IfOk result (λ j. is_broken j ≡ false) }
{
    match Journal::init(disk_of(alloc, &[], &[fail])?) {
        Ok(journal) => Ok(journal),
        Err(_) => Err(Otherwise::NotSo("a journal begins")),
    }
}

/// The payloads of a journal of these bytes.
fn opened(alloc: Global, bytes: &[u8]) -> Result<Records, Otherwise> {
    match Journal::reopen(alloc, disk_of(alloc, bytes, &[])?) {
        Ok((_journal, records)) => Ok(records),
        Err(_) => Err(Otherwise::NotSo("what a stop leaves opens")),
    }
}

/// Appends ten payloads, up to the first fault, and says how many were acknowledged.
fn acknowledged<K: Keeper>(keeper: &mut K) -> u64
    requires { K.has_failed keeper.old ≡ false }
{
    for n in 0..10u8 {
        if keeper.append(&[n; 3]).is_err() {
            return u64::from(n);
        }
    }
    10
}

/// Wants the payloads to be the first so many that were appended.
fn expect_first(records: Records, count: u64) -> Result<(), Otherwise> {
    let mut records = records;
    for n in 0..count {
        let Some((_, payload)) = records.take_first() else {
            return Err(Otherwise::NotSo("no payload is lost"));
        };
        let is_whole = payload.bytes().iter().all(|byte| u64::from(*byte) == n);
        expect(is_whole, "each payload is as it was appended")?;
    }
    expect(records.take_first().is_none(), "there is no payload more")
}

/// A journal begins with four calls. Then each append takes six: the length, a read, a write, a
/// sync, the write that opens the gate, and a sync. Once the gate is written the payload is there.
fn play_stop(alloc: Global, stop: u64) -> Result<(), Otherwise> {
    let mut journal = begun(alloc, stop.saturating_add(5))?;
    let count = acknowledged(&mut journal);
    let disk = journal.into_disk();
    expect_number(count, stop / 6, "acknowledged appends")?;
    let records = opened(alloc, disk.bytes())?;
    let is_open = stop % 6 == 5;
    expect_first(records, count.saturating_add(u64::from(is_open)))
}

/// Ten appends are stopped at each call of the disk, and at none.
pub fn play_stops(alloc: Global) -> Result<(), Otherwise> {
    for stop in 0..61u64 {
        play_stop(alloc, stop)?;
    }
    Ok(())
}

/// A keeper in memory takes payloads up to a listed call or to its room, and the keeper of nothing
/// takes all.
pub fn play_others(alloc: Global) -> Result<(), Otherwise> {
    let mut listed = MemoryKeeper::new(alloc, [5].to_vec(alloc)?, 110)?;
    expect_number(acknowledged(&mut listed), 4, "appends before a listed call")?;
    let mut narrow = MemoryKeeper::new(alloc, Vec::new(alloc), 109)?;
    expect_number(acknowledged(&mut narrow), 9, "appends that find room")?;
    expect_number(
        acknowledged(&mut NoKeeper),
        10,
        "appends to the keeper of nothing",
    )
}

// A migration that is stopped: each call of one of its disks fails from one on, a crash follows
// that leaves only so many of the bytes that were written since the last sync, and another
// migration goes over what is left.
use crate::objects::{Disks, Objects};
use crate::run::Run;
use crate::stops::{DISK, MOST_BYTES, PAST_ALL_CALLS, kept_of};
use std::alloc::{AllocError, Global};

/// The exit status of a migration to a second disk that isn't one to fill.
const EXISTS: u8 = 10;

/// Which disk's calls fail.
#[derive(Clone, Copy)]
enum Failing {
    First,
    Second,
}

/// A migration that was stopped, or ended: its exit status and its objects.
#[derive(Drop)]
struct Stopped {
    status: u8,
    objects: Objects,
}

/// Does a migration of which each call of a disk fails from this one on.
fn stop_at(
    alloc: Global,
    run: &Run,
    disks: &Disks,
    failing: Failing,
    stop: u64,
) -> Result<Stopped, AllocError> {
    let mut given = run.again(alloc)?;
    for call in stop..PAST_ALL_CALLS {
        match failing {
            Failing::First => given.fail_disk.push(call)?,
            Failing::Second => given.fail_second.push(call)?,
        }
    }
    let mut objects = Objects::new(alloc, &given, disks, given.first_piece)?;
    let status = objects.run(alloc, &given.words);
    Ok(Stopped { status, objects })
}

/// What `check` says of the second disk before a migration, and after one that isn't stopped.
#[derive(Drop)]
struct Wanted {
    before: String,
    whole: String,
}

impl Wanted {
    /// Whether a migration that was stopped may leave a second disk of which `check` says this.
    fn allows(&self, kept: &str) -> bool {
        kept == self.before.as_str()
            || kept == self.whole.as_str()
            || kept.starts_with("kept commands 0 ")
            || kept.starts_with("kept damaged ")
    }
}

fn wanted_of(alloc: Global, run: &Run, disks: &Disks) -> Result<Wanted, AllocError> {
    let before = kept_of(alloc, &disks.second)?;
    let whole = stop_at(alloc, run, disks, Failing::First, PAST_ALL_CALLS)?;
    let whole = kept_of(alloc, whole.objects.second.bytes())?;
    Ok(Wanted { before, whole })
}

/// Whether another migration fills a second disk of these bytes, or says that it exists, of one
/// that is whole.
fn is_filled_again(
    alloc: Global,
    run: &Run,
    disks: &Disks,
    wanted: &Wanted,
    is_whole: bool,
) -> Result<bool, AllocError> {
    let again = stop_at(alloc, run, disks, Failing::First, PAST_ALL_CALLS)?;
    let kept = kept_of(alloc, again.objects.second.bytes())?;
    let is_done = again.status == 0 || (again.status == EXISTS && is_whole);
    Ok(is_done && kept.as_str() == wanted.whole.as_str())
}

/// Whether a migration that ended with this status may leave the second disk with these bytes.
fn is_left_well(
    alloc: Global,
    run: &Run,
    first: &[u8],
    image: &[u8],
    wanted: &Wanted,
    status: u8,
) -> Result<bool, AllocError> {
    let kept = kept_of(alloc, image)?;
    let is_whole = kept.as_str() == wanted.whole.as_str();
    if status == 0 {
        return Ok(is_whole);
    }
    let disks = Disks::of(alloc, first, image)?;
    let is_filled = is_filled_again(alloc, run, &disks, wanted, is_whole)?;
    Ok(is_filled && wanted.allows(kept.as_str()))
}

/// With how many of the bytes that were written since the last sync a crash leaves the second disk
/// otherwise than is wanted. An image that is the one before isn't looked at again.
fn find_lost(
    alloc: Global,
    run: &Run,
    first: &[u8],
    stopped: &Stopped,
    wanted: &Wanted,
) -> Result<Option<u64>, AllocError> {
    let mut last = Vec::new(alloc);
    for keep in 0..=MOST_BYTES {
        let image = stopped.objects.second.crash(alloc, keep)?;
        if keep == 0 || image.as_slice() != last.as_slice() {
            let status = stopped.status;
            if !is_left_well(alloc, run, first, &image, wanted, status)? {
                return Ok(Some(keep));
            }
        }
        last = image;
    }
    Ok(None)
}

/// Adds what a stop left otherwise.
fn add_lost(alloc: Global, faults: &mut String, stop: u64, keep: u64) -> Result<(), AllocError> {
    let line = format!(in alloc;
        "    stopped at call {stop}, {keep} bytes of the second disk left\n"
    )?;
    faults.push_str(line.as_str())
}

/// Looks at a migration that was stopped, and adds what is otherwise than is wanted: the first disk
/// is as it was, and the second one is one to go on with.
fn judge(
    alloc: Global,
    faults: &mut String,
    run: &Run,
    disks: &Disks,
    stop: u64,
    stopped: &Stopped,
    wanted: &Wanted,
) -> Result<(), AllocError> {
    let status = stopped.status;
    let is_same = stopped.objects.disk.bytes() == disks.first.as_slice();
    if !is_same || (status != 0 && status != DISK) {
        let line = format!(in alloc; "    stopped at call {stop}: status {status}\n")?;
        return faults.push_str(line.as_str());
    }
    match find_lost(alloc, run, &disks.first, stopped, wanted)? {
        Some(keep) => add_lost(alloc, faults, stop, keep),
        None => Ok(()),
    }
}

fn play_failing(
    alloc: Global,
    run: &Run,
    disks: &Disks,
    failing: Failing,
    wanted: &Wanted,
    faults: &mut String,
) -> Result<(), AllocError> {
    for stop in 1..PAST_ALL_CALLS {
        let stopped = stop_at(alloc, run, disks, failing, stop)?;
        judge(alloc, faults, run, disks, stop, &stopped, wanted)?;
        if stopped.status == 0 || !faults.is_empty() {
            return Ok(());
        }
    }
    faults.push_str("    it didn't end with status 0\n")
}

/// Does a migration over disks with these bytes, stopped at each call of the first disk and then of
/// the second one, until it ends with status 0 or is otherwise than is wanted. Adds what is
/// otherwise.
pub fn play_migration(
    alloc: Global,
    run: &Run,
    disks: &Disks,
    faults: &mut String,
) -> Result<(), AllocError> {
    let wanted = wanted_of(alloc, run, disks)?;
    play_failing(alloc, run, disks, Failing::First, &wanted, faults)?;
    play_failing(alloc, run, disks, Failing::Second, &wanted, faults)
}

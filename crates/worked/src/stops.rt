// A run that is stopped: each call of the disk fails from one on, and a crash follows that leaves
// only so many of the bytes that were written since the last sync.
use crate::objects::{Disks, Objects, add_kept};
use crate::run::Run;
use std::alloc::{AllocError, Global};

/// No run makes so many calls of its disk.
pub const PAST_ALL_CALLS: u64 = 200;

/// No run writes more bytes between two syncs.
pub const MOST_BYTES: u64 = 200;

/// The exit status of a run of which a call of the disk failed.
pub const DISK: u8 = 4;

/// How many commands there are, by what `check` says. None where the journal doesn't open.
fn count_commands(kept: &str) -> Option<u64> {
    let (count, _) = kept.strip_prefix("kept commands ")?.split_once(' ')?;
    count.parse::<u64>().ok()
}

/// What `check` says of a journal of these bytes.
pub fn kept_of(alloc: Global, disk: &[u8]) -> Result<String, AllocError> {
    let mut kept = String::new(alloc);
    add_kept(alloc, &mut kept, disk)?;
    Ok(kept)
}

/// How many commands were acknowledged by these replies.
fn count_acknowledged(replies: &[u8]) -> u64 {
    let text = std::str::from_utf8(replies).unwrap_or("no UTF-8");
    let mut count = 0u64;
    for line in text.lines() {
        if line.ends_with("\"ok\":true}") {
            count = count.saturating_add(1);
        }
    }
    count
}

/// A run that was stopped, or ended: its exit status, how many commands it acknowledged, and its
/// objects.
#[derive(Drop)]
struct Stopped {
    status: u8,
    acknowledged: u64,
    objects: Objects,
}

/// Does a run of which each call of the disk fails from this one on.
fn stop_at(alloc: Global, run: &Run, disk: &[u8], stop: u64) -> Result<Stopped, AllocError> {
    let mut given = run.again(alloc)?;
    for call in stop..PAST_ALL_CALLS {
        given.fail_disk.push(call)?;
    }
    let disks = Disks::of_first(alloc, disk)?;
    let mut objects = Objects::new(alloc, &given, &disks, given.first_piece)?;
    let status = objects.run(alloc, &given.words);
    let acknowledged = count_acknowledged(objects.out.written());
    Ok(Stopped {
        status,
        acknowledged,
        objects,
    })
}

/// How many lines a run of these words answers together at most: so many commands may be kept that
/// it didn't acknowledge.
fn count_together(words: &[String]) -> u64 {
    match words {
        [_, option, count] if option.as_str() == "--together" => {
            count.as_str().parse::<u64>().unwrap_or(1)
        }
        _ => 1,
    }
}

/// How many commands the disk had before a run, if it opened, how many the whole run adds, and how
/// many lines it answers together.
#[derive(Clone, Copy)]
struct Wanted {
    before: Option<u64>,
    added: u64,
    together: u64,
}

impl Wanted {
    /// Whether a stopped run may leave what opens to so many commands, or doesn't open: all that it
    /// acknowledged are there, and of the others as many at most as it answers together. Where the
    /// run began the journal, one that didn't end may leave none.
    fn allows(&self, stopped: &Stopped, kept: &str) -> bool {
        match count_commands(kept) {
            Some(count) => {
                let before = self.before.unwrap_or(0);
                let least = before.saturating_add(stopped.acknowledged);
                let most = least
                    .saturating_add(self.together)
                    .min(before.saturating_add(self.added));
                least <= count && count <= most
            }
            None => {
                self.before.is_none() && stopped.status == DISK && kept.starts_with("kept damaged ")
            }
        }
    }
}

/// What is wanted of a run over a disk with these bytes where it is stopped.
fn wanted_of(alloc: Global, run: &Run, disk: &[u8]) -> Result<Wanted, AllocError> {
    let kept = kept_of(alloc, disk)?;
    let whole = stop_at(alloc, run, disk, PAST_ALL_CALLS)?;
    Ok(Wanted {
        before: count_commands(kept.as_str()),
        added: whole.acknowledged,
        together: count_together(&run.words),
    })
}

/// With how many of the bytes that were written since the last sync a crash leaves otherwise than
/// is wanted, and what `check` says of it then. An image that is the one before isn't opened again.
fn find_lost(
    alloc: Global,
    stopped: &Stopped,
    wanted: &Wanted,
) -> Result<Option<(u64, String)>, AllocError> {
    let mut last = Vec::new(alloc);
    for keep in 0..=MOST_BYTES {
        let image = stopped.objects.disk.crash(alloc, keep)?;
        if keep == 0 || image.as_slice() != last.as_slice() {
            let kept = kept_of(alloc, &image)?;
            if !wanted.allows(stopped, kept.as_str()) {
                return Ok(Some((keep, kept)));
            }
        }
        last = image;
    }
    Ok(None)
}

/// Adds what a stop left otherwise.
fn add_lost(
    alloc: Global,
    faults: &mut String,
    stop: u64,
    keep: u64,
    kept: &str,
) -> Result<(), AllocError> {
    let line = format!(in alloc; "    stopped at call {stop}, {keep} bytes left: {kept}")?;
    faults.push_str(line.as_str())
}

/// Adds how a run ended that was stopped.
fn add_end(
    alloc: Global,
    faults: &mut String,
    stop: u64,
    stopped: &Stopped,
) -> Result<(), AllocError> {
    let (status, acknowledged) = (stopped.status, stopped.acknowledged);
    let line = format!(in alloc;
        "    stopped at call {stop}: status {status}, {acknowledged} acknowledged\n"
    )?;
    faults.push_str(line.as_str())
}

/// Looks at a run that was stopped at a call of the disk, and adds what is otherwise than is
/// wanted.
fn judge(
    alloc: Global,
    faults: &mut String,
    stop: u64,
    stopped: &Stopped,
    wanted: &Wanted,
) -> Result<(), AllocError> {
    let is_end = match stopped.status {
        0 => stopped.acknowledged == wanted.added,
        DISK => true,
        _ => false,
    };
    if !is_end {
        return add_end(alloc, faults, stop, stopped);
    }
    match find_lost(alloc, stopped, wanted)? {
        Some((keep, kept)) => add_lost(alloc, faults, stop, keep, kept.as_str()),
        None => Ok(()),
    }
}

/// Does a run over a disk with these bytes, stopped at each call of the disk from the first one on,
/// until a run ends with status 0 or is otherwise than is wanted. Adds what is otherwise.
pub fn play_stops(
    alloc: Global,
    run: &Run,
    disk: &[u8],
    faults: &mut String,
) -> Result<(), AllocError> {
    let wanted = wanted_of(alloc, run, disk)?;
    for stop in 1..PAST_ALL_CALLS {
        let stopped = stop_at(alloc, run, disk, stop)?;
        judge(alloc, faults, stop, &stopped, &wanted)?;
        if stopped.status == 0 || !faults.is_empty() {
            return Ok(());
        }
    }
    faults.push_str("    it didn't end with status 0\n")
}

// How a run ends.
ghost use Rattle.std.specs.Prelude.{◌≡◌, ◌≤◌, ◌+◌, ◌++◌, decimal, drop, length};
ghost use Rattle.reg_run.specs.Status.{status_of, note_of, NotesOnce};

use reg_outside::{Sink, write_whole};

/// How many bytes a note has at the most: that of a damage, whose place has 20 digits.
const LONGEST: usize = 32;

/// How a run ends.
#[derive(Clone, Copy, PartialEq, Eq)]
pub enum End {
    Done,
    /// The words are none of the program's.
    Usage,
    /// There was no memory.
    Memory,
    /// The disk failed.
    Disk,
    /// The input failed.
    Input,
    /// The output failed.
    Output,
    /// The journal doesn't open; the place of the damage.
    Damaged(u64),
    /// The listener failed.
    Listener,
    /// Too many bytes were read.
    TooMuch,
    /// The file isn't free for a new journal.
    Exists,
    /// The query was refused.
    Refused,
    /// The journal is of the other format than the one that was to be read.
    OtherFormat,
}

/// The exit status of a run that ended so.
pub fn status_of(end: End) -> u8
    ensures { result ≡ status_of end }
{
    match end {
        End::Done => 0,
        End::Usage => 2,
        End::Memory => 3,
        End::Disk => 4,
        End::Input => 5,
        End::Output => 6,
        End::Damaged(_) => 7,
        End::Listener => 8,
        End::TooMuch => 9,
        End::Exists => 10,
        End::Refused => 11,
        End::OtherFormat => 12,
    }
}

/// Puts the digits of a number before a place of a buffer, and says where they begin.
fn put_digits(number: u64, buffer: &mut [u8; LONGEST], end: usize) -> usize
    requires { (20 ≤ end) × (end ≤ 32) }
    ensures begins { result + length (decimal number) ≡ end }
    ensures digits { drop result buffer.new ≡ decimal number ++ drop end buffer.old }
{
    let mut left = number;
    let mut at = end;
    while left >= 10 {
        at -= 1;
        buffer[at] = b'0' + (left % 10) as u8;
        left /= 10;
    }
    at -= 1;
    buffer[at] = b'0' + left as u8;
    at
}

/// Puts a text before a place of a buffer, and says where it begins.
fn put_text(text: &[u8], buffer: &mut [u8; LONGEST], end: usize) -> usize
    requires { (length text.now ≤ end) × (end ≤ 32) }
    ensures begins { result + length text.now ≡ end }
    ensures text { drop result buffer.new ≡ text.now ++ drop end buffer.old }
{
    let start = end - text.len();
    buffer[start..end].copy_from_slice(text);
    start
}

/// Puts the note of a damage at a place at the end of a buffer, and says where it begins.
fn put_damage(place: u64, buffer: &mut [u8; LONGEST]) -> usize
    ensures within { result ≤ 32 }
    ensures note { drop result buffer.new ≡ note_of (End.Damaged place) }
{
    buffer[LONGEST - 1] = b'\n';
    let digits = put_digits(place, buffer, LONGEST - 1);
    put_text(b"damaged at ", buffer, digits)
}

/// The note of a run that ended so. That of a damage is put into the buffer, and the others are
/// constant, so none takes memory.
fn note_of(end: End, buffer: &mut [u8; LONGEST]) -> &[u8]
    ensures { result.now ≡ note_of end }
{
    match end {
        End::Done | End::Refused => b"",
        End::Usage => b"usage\n",
        End::Memory => b"memory\n",
        End::Disk => b"disk\n",
        End::Input => b"input\n",
        End::Output => b"output\n",
        End::Damaged(place) => {
            let start = put_damage(place, buffer);
            &buffer[start..]
        }
        End::Listener => b"listener\n",
        End::TooMuch => b"too much input\n",
        End::Exists => b"exists\n",
        End::OtherFormat => b"other format\n",
    }
}

/// Writes the note of a run that ended so, which takes no memory. Where the sink fails, some front
/// of it is written.
pub fn write_note<N: Sink>(notes: &mut N, end: End)
    ensures { NotesOnce end (N.written notes.old) (N.write_faults notes.old) (N.written notes.new)
        (N.write_faults notes.new) }
{
    let mut buffer = [0u8; LONGEST];
    let _written = write_whole(notes, note_of(end, &mut buffer));
}

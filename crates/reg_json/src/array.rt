// Arrays of texts that need no escape, written at once.
ghost use Rattle.std.specs.Prelude.{◌≡◌, ◌+◌, ◌*◌, ◌≤◌, ◌++◌, ◌∷◌, [], false, true, IfOk, length};
ghost use Rattle.std.specs.Prelude.{take};
ghost use Rattle.std.specs.List.{concat, list_all};
ghost use Rattle.reg_json.specs.Arrays.{is_plain, Placed};
ghost use Rattle.serde_json.specs.Data.{array};
ghost use Rattle.serde_json.specs.Written.{comma_if, compact_text, items_text};
ghost use Rattle.reg_json.specs.Replies.{strings};

use reg_terms::Texts;
use std::alloc::AllocError;

/// How many bytes are copied at once.
const STEP: usize = 16;

fn is_plain_byte(byte: u8) -> bool
    ensures { result ≡ is_plain byte }
{
    !((byte == b'"') | (byte == b'\\') | (byte < 0x20))
}

/// Whether each byte stands for itself in a string of JSON.
pub fn is_plain(bytes: &[u8]) -> bool
    ensures { result ≡ list_all is_plain bytes.now }
{
    let mut plain = true;
    for byte in bytes {
        plain = plain & is_plain_byte(*byte);
    }
    plain
}

fn place_bytes(room: &mut [u8], at: usize, bytes: &[u8]) -> usize
    requires { at + length bytes.now ≤ length room.old }
    ensures { Placed room.old room.new at bytes.now result }
{
    let end = at + bytes.len();
    room[at..end].copy_from_slice(bytes);
    end
}

/// Writes the first `len` bytes at a place. Up to 16 bytes are copied at once, of which those
/// behind the first `len` don't count.
fn place_text(room: &mut [u8], at: usize, bytes: &[u8], len: usize) -> usize
    requires front { len ≤ length bytes.now }
    requires room { at + len + 16 ≤ length room.old }
    ensures { Placed room.old room.new at (take len bytes.now) result }
{
    if len <= STEP && STEP <= bytes.len() {
        place_bytes(room, at, &bytes[..STEP]);
        at + len
    } else {
        place_bytes(room, at, &bytes[..len])
    }
}

fn place_byte(room: &mut [u8], at: usize, byte: u8) -> usize
    requires { at + 1 ≤ length room.old }
    ensures { Placed room.old room.new at (byte ∷ []) result }
{
    room[at] = byte;
    at + 1
}

fn place_comma(room: &mut [u8], at: usize, later: bool) -> usize
    requires { at + 1 ≤ length room.old }
    ensures { Placed room.old room.new at (comma_if later) result }
{
    room[at] = b',';
    if later { at + 1 } else { at }
}

/// Writes the first `len` bytes as a string, behind a comma where it isn't the first.
#[tactic(auto, using(crate::proofs::Arrays::comma_short))]
fn place_item(room: &mut [u8], at: usize, later: bool, bytes: &[u8], len: usize) -> usize
    requires front { len ≤ length bytes.now }
    requires room { at + len + 19 ≤ length room.old }
    ensures { Placed room.old room.new at (comma_if later ++ 34
        ∷ (take len bytes.now ++ 34 ∷ [])) result }
{
    let at = place_comma(room, at, later);
    let at = place_byte(room, at, b'"');
    let at = place_text(room, at, bytes, len);
    place_byte(room, at, b'"')
}

/// Writes the texts as an array, whose closing bracket is the last that is written.
fn place_items(room: &mut [u8], start: usize, texts: &Texts) -> usize
    requires plain { list_all is_plain (concat texts.now) ≡ true }
    requires room { start + length (concat texts.now) + 3 * length texts.now + 17
        ≤ length room.old }
    ensures { Placed room.old room.new start (items_text false (strings texts.now)) result }
{
    let mut pieces = texts.pieces();
    let mut rest = texts.joined().as_bytes();
    let mut at = start;
    let mut later = false;
    while let Some(text) = pieces.next() {
        at = place_item(room, at, later, rest, text.len());
        let (_, more) = rest.split_at(text.len());
        rest = more;
        later = true;
    }
    place_byte(room, at, b']')
}

/// How many bytes an array's text takes at most behind what stands, and those of one copy.
fn room_for(start: usize, bytes: usize, texts: usize) -> Result<usize, AllocError>
    ensures { IfOk result (λ n. n ≡ start + bytes + 3 * texts + 18) }
{
    let size = start as u128 + bytes as u128 + 3 * (texts as u128) + 18;
    match usize::try_from(size) {
        Ok(size) => Ok(size),
        Err(_) => Err(AllocError),
    }
}

/// The buffer, and behind what it held the texts as an array of JSON. The only error is out of
/// memory.
pub fn append_array(buffer: Vec<u8>, texts: &Texts) -> Result<Vec<u8>, AllocError>
    requires { list_all is_plain (concat texts.now) ≡ true }
    ensures { IfOk result (λ bytes. bytes.items
        ≡ buffer.items ++ compact_text (array (strings texts.now))) }
{
    let start = buffer.len();
    let size = room_for(start, texts.joined().len(), texts.len())?;
    let mut bytes = buffer;
    bytes.resize(size, 0)?;
    let at = place_byte(bytes.as_mut_slice(), start, b'[');
    let end = place_items(bytes.as_mut_slice(), at, texts);
    bytes.truncate(end);
    Ok(bytes)
}

//! Parts of a target round a byte.

ghost use Rattle.std.specs.Prelude.{◌≡◌, ◌≤◌, ◌==◌, length};
ghost use Rattle.std.specs.List.{before_first, after_first, position_or_len};

/// The place of the first such byte, or the length where there is none.
fn place(bytes: &[u8], byte: u8) -> usize
    ensures place { result ≡ position_or_len (λ other. other == byte) bytes.now }
    ensures within { result ≤ length bytes.now }
{
    for (i, other) in bytes.iter().enumerate() {
        if *other == byte {
            return i;
        }
    }
    bytes.len()
}

/// What stands before the first such byte, or all where there is none.
pub(crate) fn before(bytes: &[u8], byte: u8) -> &[u8]
    ensures { result.now ≡ before_first (λ other. other == byte) bytes.now }
{
    let (front, _) = bytes.split_at(place(bytes, byte));
    front
}

/// What stands after the first such byte, or nothing where there is none.
pub(crate) fn after(bytes: &[u8], byte: u8) -> &[u8]
    ensures { result.now ≡ after_first (λ other. other == byte) bytes.now }
{
    let (_, back) = bytes.split_at(place(bytes, byte));
    match back {
        [_, rest @ ..] => rest,
        [] => back,
    }
}

// A name cut at its last colon.
ghost use Rattle.std.specs.Prelude.{◌≡◌, ◌≤◌, ◌<◌, ◌-◌, drop, length, slice_index, option_map};
ghost use Rattle.std.specs.Prelude.{IsTrue, IfSome, true, false};
ghost use Rattle.std.specs.List.{All};
ghost use Rattle.reg_base.specs.Names.{is_colon, is_extension, is_name};
ghost use Rattle.reg_base.specs.NameParts.{extension_of, folder_of};

fn extension_start(text: &[u8]) -> usize
    ensures bound { result ≤ length text.now }
    ensures colon { 0 < result → slice_index text.now (result - 1) ≡ 58 }
    ensures plain { All (λ b. is_colon b ≡ false) (drop result text.now) }
{
    let mut start = text.len();
    while start > 0 && text[start - 1] != b':' {
        start -= 1;
    }
    start
}

/// The last extension of a name: what follows its last colon, or the whole text where it has none.
/// It takes no memory.
pub fn extension_of(text: &[u8]) -> &[u8]
    ensures value { result.now ≡ extension_of text.now }
    ensures is_extension { is_name text.now ≡ true → is_extension result.now ≡ true }
{
    let (_, extension) = text.split_at(extension_start(text));
    extension
}

/// The name of the folder that a name stands in: what precedes its last colon. None exactly where
/// it has no colon, so stands in the root. It takes no memory.
pub fn folder_of(text: &[u8]) -> Option<&[u8]>
    ensures value { option_map (λ folder. folder.now) result ≡ folder_of text.now }
    ensures is_name { is_name text.now ≡ true
        → IfSome result (λ folder. is_name folder.now ≡ true) }
{
    let start = extension_start(text);
    if start == 0 {
        return None;
    }
    let (folder, _) = text.split_at(start - 1);
    Some(folder)
}

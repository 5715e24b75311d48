// Names of objects and the texts of persons, judged byte by byte.
ghost use Rattle.std.specs.Prelude.{◌≡◌, List, ℕ, length, position, ◌==◌, ◌<◌, IfSome, IfOk};
ghost use Rattle.std.specs.Prelude.{IsTrue, if◌then◌else◌, Some, None};
ghost use Rattle.std.specs.List.{list_all};
ghost use Rattle.reg_base.specs.Names.{is_extension_byte, is_extension, extensions_of, is_name};
ghost use Rattle.reg_base.specs.Names.{name_of, is_person_byte, is_part, is_person, is_source};

fn is_extension_byte(byte: u8) -> bool
    ensures { result ≡ is_extension_byte byte }
{
    matches!(byte, b'0'..=b'9' | b'A'..=b'Z' | b'a'..=b'z' | b'-' | b'.' | b'_')
}

fn are_extension_bytes(text: &[u8]) -> bool
    ensures { result ≡ list_all is_extension_byte text.now }
{
    text.iter().all(|byte| is_extension_byte(*byte))
}

/// Whether the text is an extension: 1 to 100 bytes of ASCII letters, digits, `_`, `-` and `.`. It
/// takes no memory.
pub fn is_extension(text: &[u8]) -> bool
    ensures { result ≡ is_extension text.now }
{
    !text.is_empty() && text.len() <= 100 && are_extension_bytes(text)
}

fn are_extensions(text: &[u8]) -> bool
    ensures { result ≡ list_all is_extension (extensions_of text.now) }
{
    text.split(|byte| *byte == b':')
        .all(|piece| is_extension(piece))
}

/// Whether the text is a name: extensions joined by `:`, at most 1,000 bytes in all. It takes no
/// memory.
pub fn is_name(text: &[u8]) -> bool
    ensures { result ≡ is_name text.now }
{
    text.len() <= 1000 && are_extensions(text)
}

fn is_person_byte(byte: u8) -> bool
    ensures { result ≡ is_person_byte byte }
{
    is_extension_byte(byte) || byte == b'@'
}

fn are_person_bytes(text: &[u8]) -> bool
    ensures { result ≡ list_all is_person_byte text.now }
{
    text.iter().all(|byte| is_person_byte(*byte))
}

fn is_part(limit: usize, text: &[u8]) -> bool
    ensures { result ≡ is_part limit text.now }
{
    !text.is_empty() && text.len() <= limit && are_person_bytes(text)
}

fn slash_in(text: &[u8]) -> Option<usize>
    ensures bound { IfSome result (λ place. place < length text.now) }
    ensures first { result ≡ position (λ b. b == 47) text.now }
{
    text.iter().position(|byte| *byte == b'/')
}

/// Whether the text is a source of persons: 1 to 32 bytes of ASCII letters, digits, `_`, `-`, `.`
/// and `@`. It takes no memory.
pub fn is_source(text: &[u8]) -> bool
    ensures { result ≡ is_source text.now }
{
    is_part(32, text)
}

/// Whether the text is a person's: `source/id`, where the source has 1 to 32 bytes and the id 1 to
/// 64 bytes of ASCII letters, digits, `_`, `-`, `.` and `@`. It takes no memory.
pub fn is_person(text: &[u8]) -> bool
    ensures { result ≡ is_person text.now }
{
    match slash_in(text) {
        None => false,
        Some(place) => {
            let (source, _) = text.split_at(place);
            let (_, id) = text.split_at(place + 1);
            is_part(32, source) && is_part(64, id)
        }
    }
}

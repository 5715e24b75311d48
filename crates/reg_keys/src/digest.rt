// The numbers by which callers' keys are found.
ghost use Rattle.std.specs.Prelude.{◌≡◌};
ghost use Rattle.reg_keys.specs.Digests.{joined, short_word, first_word, last_word, digest};

/// The numbers of a caller's key, in whose order the keys are kept.
#[derive(Clone, Copy, PartialEq, Eq, PartialOrd, Ord, Drop)]
pub(crate) struct Digest {
    front: u64,
    back: u64,
}

/// A number of two. It ascends with the second one, and scatters with the first.
fn joined(front: u64, back: u64) -> u64
    ensures { result ≡ joined front back }
{
    front.wrapping_mul(0x9e37_79b9_7f4a_7c15).wrapping_add(back)
}

/// The number of a text of fewer than eight bytes.
fn short_word(text: &[u8]) -> u64
    ensures { result ≡ short_word text.now }
{
    text.iter().fold(0, |number: u64, byte| {
        number.wrapping_mul(256).wrapping_add(u64::from(*byte))
    })
}

/// The number that a text's first eight bytes are, or all where they are fewer.
#[tactic(auto, unfolding(crate::specs::Digests::first_word))]
fn first_word(text: &[u8]) -> u64
    ensures { result ≡ first_word text.now }
{
    let Some((first, _)) = text.split_first_chunk::<8>() else {
        return short_word(text);
    };
    u64::from_be_bytes(*first)
}

/// The number that a text's last eight bytes are, or all where they are fewer.
#[tactic(auto, unfolding(crate::specs::Digests::last_word))]
fn last_word(text: &[u8]) -> u64
    ensures { result ≡ last_word text.now }
{
    let Some((_, last)) = text.split_last_chunk::<8>() else {
        return short_word(text);
    };
    u64::from_be_bytes(*last)
}

/// The numbers of a caller's key. Most clients' keys ascend, by a clock or a counter at their front
/// or their end, so a client's newest keys lie side by side. The numbers descend where keys ascend:
/// a tree is searched from the lower end of each node, where the newest keys then are.
#[tactic(auto, unfolding(crate::specs::Digests::digest))]
pub(crate) fn digest_of(by: &[u8], key: &[u8]) -> Digest
    ensures { result ≡ digest by.now key.now }
{
    let caller = joined(first_word(by), last_word(by));
    Digest {
        front: !first_word(key),
        back: !joined(caller, last_word(key)),
    }
}

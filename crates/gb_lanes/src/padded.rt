//! A message as whole blocks (FIPS 180-4, 5.1.1 and 5.2.1).
ghost use Rattle.std.specs.Prelude.{◌≡◌, ◌*◌, ◌<◌, length, take, drop};
ghost use Rattle.sha2.specs.Sha256.{padded_message};
ghost use Rattle.gb_lanes.specs.Padded.{IsTail, block_count};

// A content, and what follows its whole blocks: its last bytes and the padding, a block or two.
#[derive(Drop)]
pub(crate) struct Padded<'a> {
    content: &'a [u8],
    tail: [u8; 128],
    ghost tail_follows: { IsTail tail content.now },
}

// The last bytes of a content, and its padding.
fn tail_of(content: &[u8]) -> [u8; 128]
    ensures { IsTail result content.now }
{
    let used = content.len() % 64;
    let end = if used < 56 { 64 } else { 128 };
    let mut tail = [0u8; 128];
    tail[..used].copy_from_slice(&content[content.len() - used..]);
    tail[used] = 0x80;
    let bits = (content.len() as u64).wrapping_mul(8);
    tail[end - 8..end].copy_from_slice(&bits.to_be_bytes());
    tail
}

impl<'a> Padded<'a> {
    pub(crate) fn new(content: &'a [u8]) -> Padded<'a>
        ensures { result.content.now ≡ content.now }
    {
        Padded {
            content,
            tail: tail_of(content),
        }
    }

    // The number of blocks.
    pub(crate) fn block_count(&self) -> usize
        ensures { result ≡ block_count self.now.content.now }
    {
        let whole = self.content.len() / 64;
        if self.content.len() % 64 < 56 {
            whole + 1
        } else {
            whole + 2
        }
    }

    // The block at an index.
    pub(crate) fn block(&self, index: usize) -> &[u8]
        requires { index < block_count self.now.content.now }
        ensures long { length result.now ≡ 64 }
        ensures block { result.now ≡ take 64 (drop (index * 64) (padded_message self.now.content.now)) }
    {
        let whole = self.content.len() / 64;
        if index < whole {
            return &self.content[index * 64..index * 64 + 64];
        }
        let at = (index - whole) * 64;
        &self.tail[at..at + 64]
    }
}

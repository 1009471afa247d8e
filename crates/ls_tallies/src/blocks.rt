// Cutting a text at the first line that is empty.

ghost use Rattle.std.specs.Prelude.{◌≡◌, ◌<◌, ◌^◌, true, length, option_map};
ghost use Rattle.ls_tallies.specs.Blocks.{block_len, block_parts};

use ls_report::cuts::cut;

/// How many bytes stand before the first line that is empty.
fn block_len(text: &[u8]) -> Option<usize>
    ensures { result ≡ block_len true text.now }
{
    let mut starts = true;
    let mut len = 0usize;
    for byte in text {
        let feed = *byte == b'\n';
        if starts && feed {
            return Some(len);
        }
        starts = feed;
        len += 1;
    }
    None
}

/// The lines before the first line that is empty, and what stands after that line.
pub(crate) fn split_block(text: &str) -> Option<(&str, &str)>
    ensures fits { length text.now < 2 ^ 64 }
    ensures cut { option_map (λ p. (p.0.now, p.1.now)) result ≡ block_parts text.now }
{
    let _length = text.len();
    let len = block_len(text.as_bytes())?;
    let (block, rest) = text.split_at(len);
    let (_, after) = cut(rest, '\n')?;
    Some((block, after))
}

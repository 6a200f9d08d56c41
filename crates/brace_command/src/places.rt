ghost use Rattle.std.specs.Prelude.{◌≡◌, ◌≤◌, length, filter, take};
ghost use Rattle.brace_command.specs.Places.{is_feed, since_feed, line_number, column_number};

const LINE_FEED: u8 = 10;

/// The number of the line, from 1, in which a place of a text stands.
pub fn line_number(src: &[u8], at: usize) -> u64
    ensures { result ≡ line_number src.now at }
{
    1 + feeds(front(src, at)) as u64
}

/// The number of the column, from 1, in which a place of a text stands; columns are bytes.
pub fn column_number(src: &[u8], at: usize) -> u64
    ensures { result ≡ column_number src.now at }
{
    1 + since_feed(front(src, at)) as u64
}

fn front(text: &[u8], at: usize) -> &[u8]
    ensures { result.now ≡ take at text.now }
{
    text.split_at(at.min(text.len())).0
}

fn feeds(text: &[u8]) -> usize
    ensures count { result ≡ length (filter is_feed text.now) }
    ensures bound { result ≤ length text.now }
{
    text.iter().filter(|byte| **byte == LINE_FEED).count()
}

#[tactic(auto, using(crate::proofs::PlaceLemmas::since_more))]
fn since_feed(text: &[u8]) -> usize
    ensures count { result ≡ since_feed text.now }
    ensures bound { result ≤ length text.now }
{
    let mut since = 0;
    for byte in text {
        since = if *byte == LINE_FEED { 0 } else { since + 1 };
    }
    since
}

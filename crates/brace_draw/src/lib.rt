//! Random draws: each is a function of seed, tick, agent and site alone.
#![tactic(auto)]

ghost use Rattle.std.specs.Prelude.{◌≡◌, ℕ, ◌+◌, ◌*◌, ◌/◌, ◌%◌, ◌≤◌, ◌<◌, ◌^◌, pos, map, length, slice_index, slice_index_or};
ghost use Rattle.rand_chacha.specs.ChaCha.{word_at, key_of};
ghost use Rattle.brace_draw.specs.Draw.{draw_word, draw_value, seed_bytes, place_of};

use rand_chacha::ChaCha8Rng;
use rand_core::utils::NextWord;
use rand_core::{SeedableRng, utils};

mod lanes;

// A generator computes so many words at once.
const WORDS: u64 = 64;

/// Draws of one seed.
///
/// Words that the generator computed are kept, 64 places of one agent, so the draws of an agent in
/// a tick take one computation for all sites below 64, in any order. What a draw gives does not
/// depend on it.
#[derive(Debug, Drop)]
pub struct Drawer {
    pub seed: u64,
    key: [u32; 8],
    rng: ChaCha8Rng,
    // The place of the first word kept, and how many are.
    from: u64,
    kept: usize,
    words: [u32; 64],
    ghost keyed: { key ≡ key_of (seed_bytes seed) },
    ghost turned: { rng.key ≡ key },
    ghost within: { from + 64 ≤ 2 ^ 64 },
    ghost room: { kept ≤ 64 },
    ghost placed: { rng.word_pos ≡ from + kept },
    ghost known: { (i : ℕ) → i < kept
        → slice_index words i ≡ word_at 4 rng.key rng.stream (from + i) },
}

fn seed_array(seed: u64) -> [u8; 32]
    ensures { result ≡ seed_bytes seed }
{
    let mut bytes = [0; 32];
    bytes[0..8].copy_from_slice(&seed.to_le_bytes());
    bytes
}

fn key_array(seed: u64) -> [u32; 8]
    ensures { result ≡ key_of (seed_bytes seed) }
{
    let bytes = seed_array(seed);
    [
        utils::read_u32(&bytes, 0),
        utils::read_u32(&bytes, 1),
        utils::read_u32(&bytes, 2),
        utils::read_u32(&bytes, 3),
        utils::read_u32(&bytes, 4),
        utils::read_u32(&bytes, 5),
        utils::read_u32(&bytes, 6),
        utils::read_u32(&bytes, 7),
    ]
}

fn place_of(tick: u64, site: u32) -> u64
    requires { tick ≤ 2 ^ 32 }
    ensures place { result ≡ place_of tick site }
    ensures bound { result < 2 ^ 50 }
{
    tick * 65536 + u64::from(site)
}

#[inline(always)]
fn millionths(word: u32) -> i64
    ensures { result ≡ pos (word * 1000000 / 2 ^ 32) }
{
    (u64::from(word) * 1_000_000 / 4_294_967_296) as i64
}

#[inline(always)]
fn all_millionths(words: [u32; 4]) -> [i64; 4]
    ensures { (j : ℕ) → j < 4
        → slice_index_or result j (pos 0) ≡ pos (slice_index words j * 1000000 / 2 ^ 32) }
{
    let [w0, w1, w2, w3] = words;
    [
        millionths(w0),
        millionths(w1),
        millionths(w2),
        millionths(w3),
    ]
}

// Four agents from a place of the list on; past its end they are the last one.
#[inline(always)]
fn four_from(ids: &[u64], i: usize) -> [u64; 4]
    requires { i < length ids.now }
    ensures { (j : ℕ) → i + j < length ids.now → j < 4
        → slice_index result j ≡ slice_index ids.now (i + j) }
{
    let last = ids.len() - 1;
    [
        ids[i],
        ids[last.min(i + 1)],
        ids[last.min(i + 2)],
        ids[last.min(i + 3)],
    ]
}

impl Drawer {
    /// The draws of a seed.
    pub fn make(seed: u64) -> Drawer
        ensures { result.seed ≡ seed }
    {
        Drawer {
            seed,
            key: key_array(seed),
            rng: ChaCha8Rng::from_seed(seed_array(seed)),
            from: 0,
            kept: 0,
            words: [0; 64],
        }
    }

    /// The draw of an agent's site in a tick, in millionths: from 0 to 999,999. No draw depends on
    /// another. The tick is at most 2^32.
    pub fn draw(&mut self, tick: u64, agent: u64, site: u32) -> i64
        requires { tick ≤ 2 ^ 32 }
        ensures drawn { result ≡ pos (draw_value self.old.seed tick agent site) }
        ensures seed { self.new.seed ≡ self.old.seed }
    {
        millionths(self.word(tick, agent, site))
    }

    /// The draws of many agents at one site of a tick, each at its agent's place in `out`. Four
    /// are computed at once. The tick is at most 2^32.
    pub fn column(&self, tick: u64, site: u32, ids: &[u64], out: &mut [i64])
        requires tick { tick ≤ 2 ^ 32 }
        requires places { length out.old ≡ length ids.now }
        ensures drawn { out.new ≡ map (λ id. pos (draw_value self.now.seed tick id site)) ids.now }
    {
        let mut values = [0; 4];
        'agents: for i in 0..ids.len() {
            if i % 4 == 0 {
                values = self.four(tick, site, ids, i);
            }
            out[i] = values[i % 4];
        }
    }

    /// The draws of many agents at two sites of a tick, those of a site as `column` gives them. Two
    /// sites of one block, which has 16, take one computation. The tick is at most 2^32.
    pub fn columns(
        &self,
        tick: u64,
        sites: (u32, u32),
        ids: &[u64],
        first: &mut [i64],
        second: &mut [i64],
    )
        requires tick { tick ≤ 2 ^ 32 }
        requires places { (length first.old ≡ length ids.now)
            × (length second.old ≡ length ids.now) }
        ensures first { first.new
            ≡ map (λ id. pos (draw_value self.now.seed tick id sites.0)) ids.now }
        ensures second { second.new
            ≡ map (λ id. pos (draw_value self.now.seed tick id sites.1)) ids.now }
    {
        let mut values = ([0; 4], [0; 4]);
        'agents: for i in 0..ids.len() {
            if i % 4 == 0 {
                values = self.four_twice(tick, sites, ids, i);
            }
            first[i] = values.0[i % 4];
            second[i] = values.1[i % 4];
        }
    }

    // The draws of four agents from a place of the list on.
    #[tactic(auto, unfolding(crate::specs::Draw::draw_word))]
    fn four(&self, tick: u64, site: u32, ids: &[u64], i: usize) -> [i64; 4]
        requires tick { tick ≤ 2 ^ 32 }
        requires within { i < length ids.now }
        ensures { (j : ℕ) → i + j < length ids.now → j < 4
            → slice_index_or result j (pos 0)
            ≡ pos (draw_value self.now.seed tick (slice_index ids.now (i + j)) site) }
    {
        all_millionths(lanes::words(&self.key, place_of(tick, site), four_from(ids, i)))
    }

    // The draws of four agents from a place of the list on, at two sites.
    #[tactic(auto, unfolding(crate::specs::Draw::draw_word))]
    fn four_twice(
        &self,
        tick: u64,
        sites: (u32, u32),
        ids: &[u64],
        i: usize,
    ) -> ([i64; 4], [i64; 4])
        requires tick { tick ≤ 2 ^ 32 }
        requires within { i < length ids.now }
        ensures first { (j : ℕ) → i + j < length ids.now → j < 4
            → slice_index_or result.0 j (pos 0)
            ≡ pos (draw_value self.now.seed tick (slice_index ids.now (i + j)) sites.0) }
        ensures second { (j : ℕ) → i + j < length ids.now → j < 4
            → slice_index_or result.1 j (pos 0)
            ≡ pos (draw_value self.now.seed tick (slice_index ids.now (i + j)) sites.1) }
    {
        let places = (place_of(tick, sites.0), place_of(tick, sites.1));
        let (first, second) = lanes::pairs(&self.key, places, four_from(ids, i));
        (all_millionths(first), all_millionths(second))
    }

    #[tactic(auto, unfolding(crate::specs::Draw::draw_word))]
    fn word(&mut self, tick: u64, agent: u64, site: u32) -> u32
        requires { tick ≤ 2 ^ 32 }
        ensures drawn { result ≡ draw_word self.old.seed tick agent site }
        ensures seed { self.new.seed ≡ self.old.seed }
    {
        let place = place_of(tick, site);
        let from = place / WORDS * WORDS;
        if self.rng.get_stream() != agent || self.from != from {
            self.turn(agent, from);
        }
        self.read((place - from) as usize)
    }

    // Goes to a stream and a place. At the start of a block the generator computes nothing yet.
    fn turn(&mut self, stream: u64, from: u64)
        requires block { from % 16 ≡ 0 }
        requires within { from + 64 ≤ 2 ^ 64 }
        ensures stream { self.new.rng.stream ≡ stream }
        ensures from { self.new.from ≡ from }
        ensures seed { self.new.seed ≡ self.old.seed }
    {
        self.rng.set_word_pos(u128::from(from));
        self.rng.set_stream(stream);
        self.from = from;
        self.kept = 0;
    }

    // Keeps one more word.
    fn fetch(&mut self)
        requires { self.old.kept < 64 }
        ensures stream { self.new.rng.stream ≡ self.old.rng.stream }
        ensures from { self.new.from ≡ self.old.from }
        ensures kept { self.new.kept ≡ self.old.kept + 1 }
        ensures seed { self.new.seed ≡ self.old.seed }
    {
        self.words[self.kept] = self.rng.next_word();
        self.kept += 1;
    }

    // The word so many places behind the first that is kept.
    fn read(&mut self, i: usize) -> u32
        requires { i < 64 }
        ensures word { result ≡ word_at 4 (key_of (seed_bytes self.old.seed))
            self.old.rng.stream (self.old.from + i) }
        ensures seed { self.new.seed ≡ self.old.seed }
    {
        while self.kept <= i {
            self.fetch();
        }
        self.words[i]
    }
}

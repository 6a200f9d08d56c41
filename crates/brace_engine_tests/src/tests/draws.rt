// Words that were computed outside: by a ChaCha8 written from the structure of RFC 8439 with 8
// rounds, a 64-bit block counter and a 64-bit stream number. It gives the published key stream of
// ChaCha8 at a key and a stream of zeros (3e00ef2f895f40d6..).
use brace_draw::Drawer;
use std::test::Fail;

/// A seed, a tick, the id of an agent, a site, and the draw there.
const DRAWS: [(u64, u64, u64, u32, i64); 9] = [
    // The first word, and the next in the same block.
    (0, 0, 0, 0, 187240),
    (0, 0, 0, 1, 836919),
    // Another seed.
    (1, 0, 0, 0, 628560),
    (42, 7, 3, 0, 183253),
    (42, 7, 3, 17, 59232),
    // Other than these with tick and agent or tick and site exchanged.
    (42, 3, 7, 0, 106604),
    (42, 17, 3, 7, 277214),
    (5, 1, 2, 16, 36401),
    // The greatest of each.
    (
        18446744073709551615,
        4294967296,
        9223372036854775807,
        4095,
        91564,
    ),
];

#[test]
fn draws_are_those_of_chacha8(rt: HostRuntime) -> Result<(), Fail> {
    for &(seed, tick, agent, site, value) in &DRAWS {
        if tick > 4_294_967_296 {
            return Err("a late tick".into());
        }
        let mut drawer = Drawer::make(seed);
        let first = drawer.draw(tick, agent, site);
        let again = drawer.draw(tick, agent, site);
        assert_eq!(rt; (first, again), (value, value));
    }
    Ok(())
}

/// The ids of agents.
const IDS: [u64; 9] = [
    0,
    3,
    1,
    4294967295,
    4294967296,
    9223372036854775807,
    18446744073709551615,
    77,
    78,
];

/// A tick and a site.
const SITES: [(u64, u32); 5] = [
    (0, 0),
    (1, 17),
    (65536, 63),
    (4294967295, 4095),
    (4294967296, 4294967295),
];

#[test]
fn a_column_is_what_single_draws_give(rt: HostRuntime) -> Result<(), Fail> {
    for seed in [0, 1, 18446744073709551615] {
        let mut drawer = Drawer::make(seed);
        for &(tick, site) in &SITES {
            if tick > 4_294_967_296 {
                return Err("a late tick".into());
            }
            let ids = &IDS;
            for count in 0..10 {
                let mut found = [-1; 9];
                let mut wanted = [-1; 9];
                drawer.column(tick, site, &ids[0..count], &mut found[0..count]);
                for i in 0..count {
                    wanted[i] = drawer.draw(tick, ids[i], site);
                }
                assert_eq!(rt; found, wanted);
            }
        }
    }
    Ok(())
}

/// The ids of agents that draw at two sites.
const FEW_IDS: [u64; 6] = [0, 3, 4294967296, 18446744073709551615, 77, 78];

/// A tick and two sites.
const TWO_SITES: [(u64, (u32, u32)); 6] = [
    // Of one block, rising and falling, and one site twice.
    (7, (0, 5)),
    (0, (31, 16)),
    (7, (3, 3)),
    // Of two blocks.
    (7, (15, 16)),
    (7, (1, 17)),
    (4294967296, (4294967295, 0)),
];

#[test]
fn columns_of_two_sites_are_what_single_draws_give(rt: HostRuntime) -> Result<(), Fail> {
    let mut drawer = Drawer::make(42);
    for &(tick, sites) in &TWO_SITES {
        if tick > 4_294_967_296 {
            return Err("a late tick".into());
        }
        let ids = &FEW_IDS;
        for count in 0..7 {
            let mut first = [-1; 6];
            let mut second = [-1; 6];
            let mut wanted = ([-1; 6], [-1; 6]);
            drawer.columns(
                tick,
                sites,
                &ids[0..count],
                &mut first[0..count],
                &mut second[0..count],
            );
            for i in 0..count {
                wanted.0[i] = drawer.draw(tick, ids[i], sites.0);
                wanted.1[i] = drawer.draw(tick, ids[i], sites.1);
            }
            assert_eq!(rt; (first, second), wanted);
        }
    }
    Ok(())
}

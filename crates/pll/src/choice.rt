// The reference divider M of a PLL: the smallest of those with the least shortfall.
ghost use Rattle.std.specs.Prelude.{◌≡◌, ◌+◌, ◌-◌, ◌/◌, ◌≤◌, ◌<◌, min, pos};
ghost use Rattle.rules.specs.Document01.ChoiceOfM.{shortfall_of, chosen_m};
ghost use Rattle.pll.specs.Search.{low_of, high_of, Divides};

// (2^32 - 1) / m, for each M. An arm for each is a table; a constant array would be laid out at each use.
fn reciprocal(m: u32) -> u32
    requires { (1 ≤ m) × (m ≤ 63) }
    ensures { result ≡ 4_294_967_295 / m }
{
    match m {
        1 => 4_294_967_295,
        2 => 2_147_483_647,
        3 => 1_431_655_765,
        4 => 1_073_741_823,
        5 => 858_993_459,
        6 => 715_827_882,
        7 => 613_566_756,
        8 => 536_870_911,
        9 => 477_218_588,
        10 => 429_496_729,
        11 => 390_451_572,
        12 => 357_913_941,
        13 => 330_382_099,
        14 => 306_783_378,
        15 => 286_331_153,
        16 => 268_435_455,
        17 => 252_645_135,
        18 => 238_609_294,
        19 => 226_050_910,
        20 => 214_748_364,
        21 => 204_522_252,
        22 => 195_225_786,
        23 => 186_737_708,
        24 => 178_956_970,
        25 => 171_798_691,
        26 => 165_191_049,
        27 => 159_072_862,
        28 => 153_391_689,
        29 => 148_102_320,
        30 => 143_165_576,
        31 => 138_547_332,
        32 => 134_217_727,
        33 => 130_150_524,
        34 => 126_322_567,
        35 => 122_713_351,
        36 => 119_304_647,
        37 => 116_080_197,
        38 => 113_025_455,
        39 => 110_127_366,
        40 => 107_374_182,
        41 => 104_755_299,
        42 => 102_261_126,
        43 => 99_882_960,
        44 => 97_612_893,
        45 => 95_443_717,
        46 => 93_368_854,
        47 => 91_382_282,
        48 => 89_478_485,
        49 => 87_652_393,
        50 => 85_899_345,
        51 => 84_215_045,
        52 => 82_595_524,
        53 => 81_037_118,
        54 => 79_536_431,
        55 => 78_090_314,
        56 => 76_695_844,
        57 => 75_350_303,
        58 => 74_051_160,
        59 => 72_796_055,
        60 => 71_582_788,
        61 => 70_409_299,
        62 => 69_273_666,
        _ => 68_174_084,
    }
}

// source / m, as a product with the reciprocal: it falls short by one at most, and what is left over tells.
#[tactic(auto, using(laws::proofs::Numbers::short_below, laws::proofs::Numbers::by_reciprocal))]
fn reference(source: u32, m: u32) -> u32
    requires { (1 ≤ m) × (m ≤ 63) }
    ensures { result ≡ source / m }
{
    let scaled = source as u64 * reciprocal(m) as u64;
    let q = (scaled / 4_294_967_296) as u32;
    q + (m <= source - q * m) as u32
}

// What the reference times N falls short of the target: a difference of two i32, and never below 0.
#[tactic(auto, using(laws::proofs::Numbers::back_sub), unfolding(rules::specs::Document01::ChoiceOfM::shortfall_of))]
fn shortfall(source: u32, target: u32, m: u32) -> i32
    requires { Divides source m × (target < 2147483648) }
    ensures { result ≡ pos (shortfall_of source target m) }
{
    let reference = reference(source, m);
    let n = target / reference;
    target as i32 - (reference * n) as i32
}

// The first M that is admissible, if any is. A range's end stands here as a number, so no division waits for it.
fn first_m(medium: bool, source: u32) -> u32
    requires { 1 ≤ source }
    ensures { result ≡ (source - 1) / high_of medium + 1 }
{
    if medium {
        return (source - 1) / 2_000_000 + 1;
    }
    (source - 1) / 16_000_000 + 1
}

// The last M that is admissible, if any is.
fn last_m(medium: bool, source: u32) -> u32
    ensures { result ≡ min (source / low_of medium) 63 }
{
    if medium {
        return (source / 1_000_000).min(63);
    }
    (source / 2_000_000).min(63)
}

// The search over all M from the first to the last that is admissible. The best so far is two numbers, M and its shortfall; before the first
// stands a shortfall above every other.
#[tactic(auto, using(crate::proofs::Search::none_found, crate::proofs::Search::none_held, crate::proofs::Search::before_first))]
pub fn search_m(source: u32, target: u32, medium: bool) -> Option<u32>
    requires { (1 ≤ source) × (target < 2147483648) }
    ensures { result ≡ chosen_m source target (low_of medium) (high_of medium) }
{
    let first = first_m(medium, source);
    let last = last_m(medium, source);
    if last < first {
        return None;
    }
    let mut best = first;
    let mut least = 2_147_483_647;
    for m in first..=last {
        let short = shortfall(source, target, m);
        if short < least {
            best = m;
            least = short;
        }
    }
    Some(best)
}

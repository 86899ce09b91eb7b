use crate::cases::{holds, holds_for};
use field::{F2, F7};
use field_goldilocks::{Goldilocks, Goldilocks2};
use field_monty::{BabyBear, BabyBear4, KoalaBear, KoalaBear4};
use serde::{Deserialize, DeserializeOwned, Serialize};
use serde_json::Value;
use std::alloc::Global;
use std::process::Abort;

/// Whether a value is written as this text.
fn writes<T: Serialize>(alloc: Global, value: &T, text: &str) -> bool {
    match serde_json::to_string(alloc, value) {
        Ok(written) => written.as_str() == text,
        Err(_) => false,
    }
}

/// Whether the text is read and written as it was.
fn goes_round<'a, T: Serialize + Deserialize<'a>>(alloc: Global, text: &'a str) -> bool {
    match serde_json::from_str::<T>(alloc, text) {
        Ok(value) => writes(alloc, &value, text),
        Err(_) => false,
    }
}

/// Whether the text is read as an owned value and written as it was.
fn goes_round_owned<T: Serialize + DeserializeOwned>(alloc: Global, text: &str) -> bool {
    let Ok(tree) = Value::from_str(alloc, text) else {
        return false;
    };
    match serde_json::from_value::<T>(alloc, tree) {
        Ok(value) => writes(alloc, &value, text),
        Err(_) => false,
    }
}

/// Ends the test where one of the texts is not read, lent or owned, or not written as it was.
fn all_go_round<'a, T>(rt: &impl Abort, alloc: Global, name: &str, texts: &[&'a str])
where
    T: Serialize + Deserialize<'a> + DeserializeOwned,
{
    for text in texts {
        holds_for(rt, name, text, goes_round::<T>(alloc, text));
        holds_for(rt, name, text, goes_round_owned::<T>(alloc, text));
    }
}

const OF_F2: [&str; 2] = ["0", "1"];

const OF_F7: [&str; 7] = ["0", "1", "2", "3", "4", "5", "6"];

const OF_BABY_BEAR: [&str; 4] = ["0", "1", "123", "2013265920"];

const OF_BABY_BEAR4: [&str; 1] = ["[1,2013265920,0,4]"];

const OF_KOALA_BEAR: [&str; 2] = ["2013265921", "2130706432"];

const OF_KOALA_BEAR4: [&str; 1] = ["[1,2130706432,0,4]"];

const OF_GOLDILOCKS: [&str; 4] = ["0", "1", "4294967296", "18446744069414584320"];

const OF_GOLDILOCKS2: [&str; 2] = ["[0,0]", "[1,18446744069414584320]"];

#[test]
fn each_value_goes_round(rt: HostRuntime) {
    let alloc = rt.alloc();
    all_go_round::<F2>(&rt, alloc, "F2", &OF_F2);
    all_go_round::<F7>(&rt, alloc, "F7", &OF_F7);
    all_go_round::<BabyBear>(&rt, alloc, "BabyBear", &OF_BABY_BEAR);
    all_go_round::<BabyBear4>(&rt, alloc, "BabyBear4", &OF_BABY_BEAR4);
    all_go_round::<KoalaBear>(&rt, alloc, "KoalaBear", &OF_KOALA_BEAR);
    all_go_round::<KoalaBear4>(&rt, alloc, "KoalaBear4", &OF_KOALA_BEAR4);
    all_go_round::<Goldilocks>(&rt, alloc, "Goldilocks", &OF_GOLDILOCKS);
    all_go_round::<Goldilocks2>(&rt, alloc, "Goldilocks2", &OF_GOLDILOCKS2);
}

/// Whether the text is read as this value.
fn reads<'a, T: PartialEq + Deserialize<'a>>(alloc: Global, text: &'a str, value: T) -> bool {
    match serde_json::from_str::<T>(alloc, text) {
        Ok(found) => found == value,
        Err(_) => false,
    }
}

#[test]
fn the_number_is_the_value(rt: HostRuntime) {
    let alloc = rt.alloc();
    holds(&rt, "F2", reads(alloc, "1", F2::new(1)));
    holds(&rt, "F7", reads(alloc, "5", F7::new(5)));
    holds(&rt, "BabyBear", reads(alloc, "123", BabyBear::new(123)));
    let wanted = BabyBear4::new([
        BabyBear::new(1),
        BabyBear::new(2),
        BabyBear::new(3),
        BabyBear::new(4),
    ]);
    holds(&rt, "BabyBear4", reads(alloc, "[1,2,3,4]", wanted));
    let large = Goldilocks::new(5_000_000_000);
    holds(&rt, "Goldilocks", reads(alloc, "5000000000", large));
    let wanted = Goldilocks2::new([large, Goldilocks::new(2)]);
    holds(&rt, "Goldilocks2", reads(alloc, "[5000000000,2]", wanted));
}

/// Whether the text is refused for what it holds.
fn is_refused<'a, T: Deserialize<'a>>(alloc: Global, text: &'a str) -> bool {
    match serde_json::from_str::<T>(alloc, text) {
        Ok(_) => false,
        Err(error) => error.is_data(),
    }
}

/// Ends the test where one of the texts is not refused for what it holds.
fn all_are_refused<'a, T: Deserialize<'a>>(
    rt: &impl Abort,
    alloc: Global,
    name: &str,
    texts: &[&'a str],
) {
    for text in texts {
        holds_for(rt, name, text, is_refused::<T>(alloc, text));
    }
}

const NOT_OF_F2: [&str; 6] = ["2", "-1", "1.5", "\"1\"", "null", "[1]"];

const NOT_OF_F7: [&str; 8] = ["7", "-1", "1.5", "\"1\"", "4294967296", "1.0", "1e0", "-0"];

const NOT_OF_BABY_BEAR: [&str; 5] = ["2013265921", "4294967296", "-1", "1.5", "\"1\""];

const NOT_OF_BABY_BEAR4: [&str; 5] = [
    "[1,2,3]",
    "[1,2,3,4,5]",
    "[1,2,3,2013265921]",
    "[-1,0,0,0]",
    "1",
];

const NOT_OF_GOLDILOCKS: [&str; 5] = [
    "18446744069414584321",
    "18446744073709551616",
    "-1",
    "1.5",
    "\"1\"",
];

const NOT_OF_GOLDILOCKS2: [&str; 5] = ["[1]", "[1,2,3]", "[1,18446744069414584321]", "[-1,0]", "1"];

#[test]
fn other_values_are_refused(rt: HostRuntime) {
    let alloc = rt.alloc();
    all_are_refused::<F2>(&rt, alloc, "F2", &NOT_OF_F2);
    all_are_refused::<F7>(&rt, alloc, "F7", &NOT_OF_F7);
    all_are_refused::<BabyBear>(&rt, alloc, "BabyBear", &NOT_OF_BABY_BEAR);
    all_are_refused::<BabyBear4>(&rt, alloc, "BabyBear4", &NOT_OF_BABY_BEAR4);
    all_are_refused::<KoalaBear>(&rt, alloc, "KoalaBear", &["2130706433"]);
    all_are_refused::<Goldilocks>(&rt, alloc, "Goldilocks", &NOT_OF_GOLDILOCKS);
    all_are_refused::<Goldilocks2>(&rt, alloc, "Goldilocks2", &NOT_OF_GOLDILOCKS2);
}

//! Buses and AIRs.
use super::examples::{MEMORY, PROCESSOR};
use super::show::shown;
use super::{holds, is_at};
use language::{ItemText, SectionText, Why, read_batch};
use std::alloc::Global;

/// Whether a text says this, as `shown` writes it.
fn says(alloc: Global, text: &[u8], wanted: &[u8]) -> bool {
    match shown(alloc, text) {
        Ok(found) => found.as_slice() == wanted,
        Err(_) => false,
    }
}

#[test]
fn memory(rt: HostRuntime) {
    let wanted = b"bus memory(address value time)\nbus gaps(gap)\n\
air accesses 8: trace accesses.csv\n\
9: - memory(address old_value old_time)\n\
10: + memory(address new_value new_time)\n\
11: + gaps(((new_time - old_time) - 1))\n\
air boundary 16: trace boundary.csv\n\
17: + memory(address initial_value 0)\n\
18: - memory(address final_value final_time)\n\
air gaps 23: trace gaps.csv\n\
24: - gaps(gap) times uses\n";
    holds(&rt, "the memory check", says(rt.alloc(), MEMORY, wanted));
}

#[test]
fn every_item(rt: HostRuntime) {
    let text = br#"
air all {
    preprocessed "p.csv"
    lookups "l.json" # by column number
    height 8
    columns (a, limb[3],
             `two words`)
    public start = 7
    let sum = a * -2 + limb[3]^2
    assert bool sum
    assert sum - `bool`
    query local (next(sum), `two words`) times is_first_row at most 3
    together {

        query b(a)
        send `local`(1)
    }
    exclusive {
        when a receive b(pre.x) times 2
        when 1 - a provide b(a) times a at most 1
    }
    together {}
}
bus b(x)"#;
    let wanted = b"air all 3: preprocessed p.csv\n4: lookups l.json\n5: height 8\n\
6: columns a limb[3] two words\n8: public start 7\n9: let sum ((a * -2) + limb[3]^2)\n\
10: assert bool sum\n11: assert (sum - bool)\n12: + local(next sum two words) times is_first_row at most 3\n\
13: together + b(a) + local(1)\n\
18: exclusive a? - b(pre.x) times 2 (1 - a)? - b(a) times a at most 1\n\
22: together\nbus b(x)\n";
    holds(&rt, "each item", says(rt.alloc(), text, wanted));
    holds(
        &rt,
        "no section",
        says(rt.alloc(), b"\xef\xbb\xbf\r\n# nothing\r\n", b""),
    );
}

/// How many buses, AIRs and items a text has.
fn counts(alloc: Global, text: &[u8]) -> (usize, usize, usize) {
    let Ok(batch) = read_batch(alloc, text) else {
        return (0, 0, 0);
    };
    let mut counts = (0usize, 0usize, 0usize);
    for section in &batch.sections {
        match section {
            SectionText::Bus(_) => counts.0 = counts.0.wrapping_add(1),
            SectionText::Air(air) => {
                counts.1 = counts.1.wrapping_add(1);
                counts.2 = counts.2.wrapping_add(air.items.len());
            }
        }
    }
    counts
}

#[test]
fn processor(rt: HostRuntime) {
    holds(
        &rt,
        "its parts",
        counts(rt.alloc(), PROCESSOR) == (7, 8, 40),
    );
}

/// Whether a text is refused for this, at this place.
fn fails(alloc: Global, text: &[u8], line: usize, column: usize, why: Why) -> bool {
    match read_batch(alloc, text) {
        Ok(_) => false,
        Err(fault) => is_at(text, fault, line, column, why),
    }
}

#[test]
fn mistakes(rt: HostRuntime) {
    let alloc = rt.alloc();
    let double = b"air a {\n    receive memory(address, old_value,, old_time)\n}\n";
    holds(
        &rt,
        "a comma twice",
        fails(alloc, double, 2, 39, Why::Expression),
    );
    let open = b"air a {\n    query   gaps(new_time - old_time - 1\n}\n\nair b {}\n";
    holds(
        &rt,
        "an open parenthesis",
        fails(alloc, open, 3, 1, Why::Sign(b')')),
    );
    let verb = b"air a {\n    trace \"a.csv\"\n    sned    memory(address)\n}\n";
    holds(&rt, "an unknown word", fails(alloc, verb, 3, 5, Why::Item));
}

#[test]
fn faults(rt: HostRuntime) {
    let alloc = rt.alloc();
    holds(
        &rt,
        "no section",
        fails(alloc, b"\ntrace \"a\"\n", 2, 1, Why::Section),
    );
    holds(
        &rt,
        "a bus without a name",
        fails(alloc, b"bus (a)", 1, 5, Why::Name),
    );
    holds(
        &rt,
        "a bus without fields",
        fails(alloc, b"bus b()", 1, 7, Why::Name),
    );
    holds(
        &rt,
        "two on a line",
        fails(alloc, b"bus b(x) bus c(x)", 1, 10, Why::Line),
    );
    holds(
        &rt,
        "an open AIR",
        fails(alloc, b"air a {\n", 2, 1, Why::Item),
    );
    holds(
        &rt,
        "a bare file",
        fails(alloc, b"air a { trace a.csv", 1, 15, Why::File),
    );
    holds(
        &rt,
        "a height in words",
        fails(alloc, b"air a { height b", 1, 16, Why::Number),
    );
    holds(
        &rt,
        "no bus",
        fails(alloc, b"air a { query (1)", 1, 15, Why::Bus),
    );
    holds(
        &rt,
        "a number twice",
        fails(alloc, b"air a { let b = 2 3", 1, 19, Why::Line),
    );
    holds(
        &rt,
        "at 1",
        fails(alloc, b"air a { send b(1) times c at 1", 1, 30, Why::Most),
    );
    holds(
        &rt,
        "no count",
        fails(alloc, b"air a { send b(1) at most 1", 1, 19, Why::Line),
    );
    holds(
        &rt,
        "no flag",
        fails(alloc, b"air a { exclusive { send b(1)", 1, 21, Why::When),
    );
    holds(
        &rt,
        "a flag",
        fails(alloc, b"air a { together { when c send", 1, 20, Why::Verb),
    );
    holds(
        &rt,
        "a group in a group",
        fails(alloc, b"air a { together { together", 1, 20, Why::Verb),
    );
}

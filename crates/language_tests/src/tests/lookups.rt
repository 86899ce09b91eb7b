//! The lookups of AIRs.
use super::examples::{MEMORY, PROCESSOR};
use super::holds;
use super::names::number;
use language::{AirText, BatchText, Place, SectionText, place_of, read_batch};
use language_meaning::{
    NameFault, NameRefusal, NameWhy, NamedAir, NamedLookup, NamedPart, check_buses, lookups_of,
};
use std::alloc::{AllocError, Global};

/// The names between commas and ends of lines.
fn names(alloc: Global, line: &[u8]) -> Result<Vec<Vec<u8>>, AllocError> {
    let mut names = Vec::new(alloc);
    for name in line.split(|byte| matches!(*byte, b',' | b'\n')) {
        names.push(Vec::from_slice(alloc, name)?)?;
    }
    Ok(names)
}

/// The AIR of a batch after so many others.
fn air_after(batch: &BatchText, others: usize) -> Option<&AirText> {
    let mut before: usize = 0;
    for section in &batch.sections {
        if let SectionText::Air(air) = section {
            if before == others {
                return Some(air);
            }
            before = before.wrapping_add(1);
        }
    }
    None
}

/// The lookups of an AIR of a text over the columns of this header, and the fixed column `f`, in
/// room for so many nodes. `None` where the text is not read.
fn said_in(
    alloc: Global,
    text: &[u8],
    header: &[u8],
    others: usize,
    room: usize,
) -> Option<Result<NamedAir, NameFault>> {
    let batch = read_batch(alloc, text).ok()?;
    let columns = names(alloc, header).ok()?;
    let fixed = names(alloc, b"f").ok()?;
    let air = air_after(&batch, others)?;
    Some(lookups_of(
        alloc,
        text,
        &batch,
        air,
        columns.as_slice(),
        fixed.as_slice(),
        room,
    ))
}

/// Those of the first AIR, in much room.
fn said(alloc: Global, text: &[u8], header: &[u8]) -> Option<Result<NamedAir, NameFault>> {
    said_in(alloc, text, header, 0, 65_536)
}

/// Whether a lookup has this bus, and as many messages.
fn is_on(text: &[u8], lookup: &NamedLookup, bus: &[u8], messages: usize) -> bool {
    let on = match lookup.bus {
        Some(span) => text.get(span.start..span.end) == Some(bus),
        None => bus == b"local".as_slice(),
    };
    on && lookup.parts.len() == messages
}

/// Whether a message has this flag, this first value, this count and this weight. A flag of 0 is
/// none.
fn part_sends(part: &NamedPart, flag: u64, first: u64, count: u64, weight: u64) -> bool {
    let flagged = match &part.flag {
        Some(value) => number(value) == flag,
        None => flag == 0,
    };
    let valued = part
        .message
        .tuple
        .first()
        .is_some_and(|value| number(value) == first);
    flagged && valued && number(&part.message.count) == count && part.message.weight == weight
}

/// Whether the message of this index does.
fn sends(
    lookup: &NamedLookup,
    index: usize,
    flag: u64,
    first: u64,
    count: u64,
    weight: u64,
) -> bool {
    match lookup.parts.as_slice().get(index) {
        Some(part) => part_sends(part, flag, first, count, weight),
        None => false,
    }
}

#[test]
fn memory(rt: HostRuntime) {
    let alloc = rt.alloc();
    let header = b"address,old_value,old_time,new_value,new_time";
    let Some(Ok(air)) = said(alloc, MEMORY, header) else {
        return holds(&rt, "it is read", false);
    };
    let [first, second, third] = air.lookups.as_slice() else {
        return holds(&rt, "three lookups", false);
    };
    holds(
        &rt,
        "memory",
        is_on(MEMORY, first, b"memory", 1) && is_on(MEMORY, second, b"memory", 1),
    );
    holds(
        &rt,
        "gaps",
        is_on(MEMORY, third, b"gaps", 1) && !third.exclusive,
    );
    let minus = 0u64.wrapping_sub(1);
    holds(&rt, "a receipt", sends(first, 0, 0, 1000, minus, 1));
    holds(&rt, "a query", sends(third, 0, 0, 1004 - 1002 - 1, 1, 1));
    holds(&rt, "no public value", air.public_values.is_empty());
}

#[test]
fn processor(rt: HostRuntime) {
    let alloc = rt.alloc();
    let header = br#"pc,is_add,is_and,is_mul,is_load,is_store,is_real,t,a,b,c
a_value,a_time,b_value,b_time,c_value,c_time,m_value,m_time
out[0],out[1],x[0],x[1],y[0],y[1]"#;
    let Some(Ok(air)) = said(alloc, PROCESSOR, header) else {
        return holds(&rt, "it is read", false);
    };
    holds(&rt, "lookups", air.lookups.len() == 15);
    let Some(group) = air.lookups.as_slice().get(9) else {
        return holds(&rt, "a tenth lookup", false);
    };
    holds(
        &rt,
        "a group",
        is_on(PROCESSOR, group, b"and", 2) && group.exclusive,
    );
    holds(&rt, "its flag", sends(group, 1, 1003, 0, 1, 1));
}

#[test]
fn definitions(rt: HostRuntime) {
    let alloc = rt.alloc();
    let text = br#"air t {
public p = 9
let s = a + p
public q = 8
together {
query local(s)
provide local(q) times 3
}
}"#;
    let Some(Ok(air)) = said(alloc, text, b"a") else {
        return holds(&rt, "it is read", false);
    };
    holds(
        &rt,
        "public values",
        air.public_values.as_slice() == [9, 8].as_slice(),
    );
    let [group] = air.lookups.as_slice() else {
        return holds(&rt, "one lookup", false);
    };
    holds(
        &rt,
        "local",
        is_on(text, group, b"local", 2) && !group.exclusive,
    );
    holds(&rt, "a definition", sends(group, 0, 0, 4000, 1, 1));
    let minus = 0u64.wrapping_sub(3);
    holds(&rt, "a public value", sends(group, 1, 0, 3001, minus, 0));
}

#[test]
fn constraints(rt: HostRuntime) {
    let text = br#"air t {
assert a
let s = a + 1
assert bool s
}"#;
    let Some(Ok(air)) = said(rt.alloc(), text, b"a") else {
        return holds(&rt, "it is read", false);
    };
    let [zero, bit] = air.constraints.as_slice() else {
        return holds(&rt, "two constraints", false);
    };
    holds(&rt, "where they begin", (zero.at, bit.at) == (8, 31));
    holds(&rt, "a cell", number(&zero.value) == 1000);
    holds(&rt, "1001 * 1000", number(&bit.value) == 1_001_000);
}

/// Whether the first AIR of a text, which has the column `a`, is refused at this line and column.
fn refused(alloc: Global, text: &[u8], line: usize, column: usize, why: NameWhy) -> bool {
    match said(alloc, text, b"a") {
        Some(Err(NameFault::Refused(refusal))) => {
            refusal.why == why && place_of(text, refusal.at) == Place { line, column }
        }
        _ => false,
    }
}

#[test]
fn faults(rt: HostRuntime) {
    let alloc = rt.alloc();
    let text = b"bus b(x)\nair t {\n query c(a)\n}";
    holds(
        &rt,
        "no such bus",
        refused(alloc, text, 3, 8, NameWhy::UndeclaredBus),
    );
    let text = b"air t {\n query b(a, a)\n}\nbus b(x)";
    holds(
        &rt,
        "two values",
        refused(alloc, text, 2, 8, NameWhy::TupleWidth),
    );
    let text = b"air t {\n let s = 1\n public s = 2\n}";
    holds(
        &rt,
        "two definitions",
        refused(alloc, text, 3, 9, NameWhy::RepeatedDefinition),
    );
    let text = b"air t {\n let s = s\n}";
    holds(
        &rt,
        "not yet defined",
        refused(alloc, text, 2, 10, NameWhy::UnknownName),
    );
    let text = b"air t {\n together {\n query b(a)\n query c(a)\n}\n}";
    holds(
        &rt,
        "two buses",
        refused(alloc, text, 4, 2, NameWhy::OtherBus),
    );
    let text = b"air t {\n exclusive {\n}\n}";
    holds(
        &rt,
        "no message",
        refused(alloc, text, 2, 2, NameWhy::EmptyGroup),
    );
    let text = b"air t {\n lookups \"l.json\"\n}";
    holds(
        &rt,
        "a file",
        refused(alloc, text, 2, 2, NameWhy::LookupsFile),
    );
}

#[test]
fn buses(rt: HostRuntime) {
    let alloc = rt.alloc();
    let (once, twice) = (MEMORY, b"bus b(x)\nbus c(x)\nbus b(y)");
    let Ok(batch) = read_batch(alloc, once) else {
        return holds(&rt, "it is read", false);
    };
    holds(&rt, "once", check_buses(once, &batch).is_ok());
    let Ok(batch) = read_batch(alloc, twice) else {
        return holds(&rt, "it is read", false);
    };
    let wanted = NameRefusal {
        at: 22,
        why: NameWhy::RepeatedBus,
    };
    holds(&rt, "twice", check_buses(twice, &batch) == Err(wanted));
    let text = b"bus b(x)\nbus b(y, z)\nair t {\n query b(a)\n}";
    let first_counts = said(alloc, text, b"a").is_some_and(|air| air.is_ok());
    holds(&rt, "the first declaration counts", first_counts);
    let text = b"bus b(x)\nbus b(y, z)\nair t {\n query b(a, a)\n}";
    holds(
        &rt,
        "the second does not",
        refused(alloc, text, 4, 8, NameWhy::TupleWidth),
    );
}

/// Whether an AIR of a text leaves this of the room.
fn leaves(alloc: Global, text: &[u8], others: usize, room: usize, wanted: usize) -> bool {
    match said_in(alloc, text, b"a", others, room) {
        Some(Ok(air)) => air.room == wanted,
        _ => false,
    }
}

/// Whether an AIR of a text is refused at this byte, in room for so many nodes.
fn refused_in(
    alloc: Global,
    text: &[u8],
    others: usize,
    room: usize,
    at: usize,
    why: NameWhy,
) -> bool {
    match said_in(alloc, text, b"a", others, room) {
        Some(Err(fault)) => fault == NameFault::Refused(NameRefusal { at, why }),
        _ => false,
    }
}

#[test]
fn rooms(rt: HostRuntime) {
    let alloc = rt.alloc();
    // three nodes in the first AIR, and in the second 3 for the definition, 3, 3 and 4
    let text = br#"air t {
query local(a + 1)
}
air u {
let s = a * a
exclusive {
when s query local(s, -s)
}
}"#;
    holds(&rt, "the first", leaves(alloc, text, 0, 16, 13));
    holds(&rt, "the second", leaves(alloc, text, 1, 13, 0));
    holds(&rt, "too little", leaves(alloc, text, 0, 15, 12));
    holds(
        &rt,
        "none for the last name",
        refused_in(alloc, text, 1, 12, 86, NameWhy::LargeExpression),
    );
    holds(
        &rt,
        "none for the flag",
        refused_in(alloc, text, 1, 5, 68, NameWhy::LargeExpression),
    );
    // one node, and with the product written out 9
    let text = br#"air t {
assert a
assert bool a + 1
}"#;
    holds(&rt, "constraints", leaves(alloc, text, 0, 16, 6));
    holds(
        &rt,
        "none for the number 1",
        refused_in(alloc, text, 0, 9, 29, NameWhy::LargeExpression),
    );
}

/// Two definitions, `b` of `a` under so many signs, and `c` of `b` under so many.
fn signed_twice(alloc: Global, first: usize, second: usize) -> Result<Vec<u8>, AllocError> {
    let mut text = Vec::from_slice(alloc, b"air t {\nlet b = ")?;
    for _ in 0..first {
        text.push(b'-')?;
    }
    text.extend_from_slice(b"a\nlet c = ")?;
    for _ in 0..second {
        text.push(b'-')?;
    }
    text.extend_from_slice(b"b\nquery local(c)\n}")?;
    Ok(text)
}

#[test]
fn layers(rt: HostRuntime) {
    let alloc = rt.alloc();
    let Ok(most) = signed_twice(alloc, 511, 512) else {
        return holds(&rt, "memory", false);
    };
    // b has 512 nodes and layers, c 1,024, of which there are two
    holds(&rt, "1,024 layers", leaves(alloc, &most, 0, 2561, 1));
    let Ok(more) = signed_twice(alloc, 511, 513) else {
        return holds(&rt, "memory", false);
    };
    // 8 bytes, 8 and 513, 8 and 513 stand before the last name
    holds(
        &rt,
        "1,025 layers",
        refused_in(alloc, &more, 0, 1537, 1050, NameWhy::DeepExpression),
    );
    holds(
        &rt,
        "1,024 nodes for them",
        refused_in(alloc, &more, 0, 1536, 1050, NameWhy::LargeExpression),
    );
}

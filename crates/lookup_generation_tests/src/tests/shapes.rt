//! Each shape of the bench against the plain Rust body of `bench/generation_driver.rs`, whose checksums stand here.
use bench_shapes::generate;
use std::alloc::Global;
use std::process::Abort;

/// The next state of the generator of random numbers.
fn after(state: u32) -> u32 {
    state.wrapping_mul(1_664_525).wrapping_add(1_013_904_223)
}

/// The rows of the driver: random numbers, and in shape 2 the flags of one branch, or of none.
fn numbers_of(rt: &impl Abort, alloc: Global, shape: u32, width: u32, rows: u32) -> Vec<u32> {
    let mut state: u32 = 1;
    let mut random = Vec::new(alloc);
    for _ in 0..rows {
        for _ in 0..width {
            state = after(state);
            random.push(state >> 3).expect(rt, "memory");
        }
    }
    let mut numbers = Vec::new(alloc);
    let mut column: u32 = 0;
    for number in &random {
        if column == 0 {
            state = after(state);
        }
        let is_set = (state >> 11) % 5 == column;
        let flag = if is_set { 1 } else { 0 };
        let cell = if shape == 2 && column < 4 {
            flag
        } else {
            *number
        };
        numbers.push(cell).expect(rt, "memory");
        let next = column.wrapping_add(1);
        column = if next == width { 0 } else { next };
    }
    numbers
}

#[test]
fn shapes_against_plain_rust(rt: HostRuntime) {
    let alloc = rt.alloc();
    let cases: [(u32, u32, u32, u32); 8] = [
        (0, 3, 1, 539_778_394),
        (0, 3, 1025, 1_223_943_601),
        (1, 33, 1, 1_303_449_208),
        (1, 33, 1025, 775_968_041),
        (2, 12, 1, 1_264_016_720),
        (2, 12, 1025, 414_781_413),
        (3, 8, 1, 426_514_052),
        (3, 8, 1025, 820_470_034),
    ];
    for (shape, width, rows, checksum) in cases {
        let numbers = numbers_of(&rt, alloc, shape, width, rows);
        let found = generate(alloc, numbers.as_slice(), shape, 1, 0);
        assert!(rt; found == Ok(checksum), "shape {shape}, {rows} rows");
    }
}

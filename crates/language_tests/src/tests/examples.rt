//! Whole texts.

/// An offline memory check.
pub const MEMORY: &[u8] = br#"# An offline memory check: three AIRs on two buses.

bus memory(address, value, time)
bus gaps(gap)

# Each row reads a cell as it was left, and writes it back, at a later time.
air accesses {
    trace "accesses.csv"
    receive memory(address, old_value, old_time)
    send    memory(address, new_value, new_time)
    query   gaps(new_time - old_time - 1)
}

# Each row has an address, with what it holds at first and at last.
air boundary {
    trace "boundary.csv"
    send    memory(address, initial_value, 0)
    receive memory(address, final_value, final_time)
}

# The gaps between two accesses that are allowed.
air gaps {
    trace "gaps.csv"
    provide gaps(gap) times uses
}
"#;

/// A small processor.
pub const PROCESSOR: &[u8] =
    br#"# A small CPU: a program in a fixed table, eight registers, a memory, bytes that are
# range checked, a table of bytewise AND, and a bus to a multiplier.

bus program(pc, opcode, a, b, c)
bus registers(index, value, time)
bus memory(address, value, time)
bus byte(x)
bus and(x, y, z)
bus multiply(x, y, product)
bus clock(gap)

air cpu {
    trace "cpu.csv"
    let value  = out[0] + 2^8 * out[1]
    let is_mem = is_load + is_store

    query program(pc, is_add + 2 * is_and + 3 * is_mul + 4 * is_load + 5 * is_store, a, b, c) times is_real at most 1

    # Registers a and b are read, and c is written, at the times 3 t + 1 to 3 t + 3.
    receive registers(a, a_value, a_time)              times is_real at most 1
    send    registers(a, a_value, 3 * t + 1)           times is_real at most 1
    receive registers(b, b_value, b_time)              times is_real at most 1
    send    registers(b, b_value, 3 * t + 2)           times is_real at most 1
    receive registers(c, c_value, c_time)              times is_real at most 1
    send    registers(c, value, 3 * t + 3)             times is_real at most 1

    # The result is two bytes.
    query byte(out[0]) times is_real at most 1
    query byte(out[1]) times is_real at most 1

    # A row is one of these or none: two columns instead of four.
    exclusive {
        when is_and query and(x[0], y[0], out[0])
        when is_mul query and(0, 0, 0)
    }
    exclusive {
        when is_and query and(x[1], y[1], out[1])
    }
    query multiply(a_value, b_value, value) times is_mul at most 1

    # A load and a store both visit the cell at register a's value.
    exclusive {
        when is_load  receive memory(a_value, value, m_time)
        when is_store receive memory(a_value, m_value, m_time)
    }
    exclusive {
        when is_load  send memory(a_value, value, t + 1)
        when is_store send memory(a_value, b_value, t + 1)
    }
    query clock(t - m_time) times is_mem at most 1
}

air program {
    trace "program_uses.csv"
    preprocessed "program.csv"
    provide program(pre.pc, pre.opcode, pre.a, pre.b, pre.c) times uses
}

air registers {
    trace "registers.csv"
    send    registers(index, 0, 0)
    receive registers(index, last_value, last_time)
}

air memory {
    trace "memory.csv"
    send    memory(address, first_value, 0)
    receive memory(address, last_value, last_time)
    # Addresses are in order, so each stands there once.
    query byte(next(address) - address - 1) times is_transition at most 1
}

air bytes {
    trace "bytes_uses.csv"
    preprocessed "bytes.csv"
    provide byte(pre.x) times uses
}

air and {
    trace "and_uses.csv"
    preprocessed "and.csv"
    provide and(pre.x, pre.y, pre.z) times uses
}

air multiplier {
    trace "multiplier.csv"
    provide multiply(x, y, z[0] + 2^8 * z[1]) times uses
    query byte(z[0]) times is_real at most 1
    query byte(z[1]) times is_real at most 1
}

air clock {
    trace "clock.csv"
    provide clock(gap) times uses
}
"#;

//! Witnesses as text, and the commands about them.
use super::{holds, status_of};
use batch::Witness;
use check_run::Inputs;
use field::F7;
use language_meaning::NamedFile;
use language_witness::{WitnessFault, push_witness, read_witness};
use lookup_model::LookupTerminal;
use matrix::RowMajorMatrix;
use std::alloc::{AllocError, Global};
use std::process::ExitCode;

/// One AIR that looks up `read` in `provide`, on the rows 3 4 1 and 4 3 1.
const TEXT: &[u8] = b"air range {
trace \"rows.csv\"
together {
query local(read)
provide local(provide) times uses
}
}";

/// Its witness over F7 at alpha 5 and beta 2.
const WITNESS: &[u8] = b"air 0\n0 4\n4 3\nterminal 0\n";

/// That witness.
fn witness(alloc: Global) -> Result<Witness<F7>, AllocError> {
    let cells = Vec::from_slice(alloc, &[F7::new(0), F7::new(4), F7::new(4), F7::new(3)])?;
    let aux = [RowMajorMatrix::new(cells, 2)];
    let terminals = [Some(LookupTerminal(F7::new(0)))];
    Ok(Witness {
        aux: Vec::from_array(alloc, aux)?,
        terminals: Vec::from_array(alloc, terminals)?,
    })
}

#[test]
fn texts(rt: HostRuntime) {
    let alloc = rt.alloc();
    let mut text = String::new(alloc);
    let Ok(made) = witness(alloc) else {
        return holds(&rt, "memory", false);
    };
    if made.aux.len() != made.terminals.len() {
        return holds(&rt, "one terminal", false);
    }
    holds(
        &rt,
        "written",
        push_witness(alloc, &mut text, &made).is_ok(),
    );
    holds(&rt, "its lines", text.as_bytes() == WITNESS);
    match read_witness::<F7, F7>(alloc, WITNESS) {
        Ok(Witness { aux, terminals }) => {
            holds(&rt, "one AIR", (aux.len(), terminals.len()) == (1, 1));
            holds(&rt, "two rows", aux[0].height() == 2 && aux[0].width() == 2);
        }
        Err(_) => holds(&rt, "it is read", false),
    }
}

/// Whether a text is refused at this line.
fn is_refused(alloc: Global, text: &[u8], line: usize) -> bool {
    match read_witness::<F7, F7>(alloc, text) {
        Ok(_) => false,
        Err(fault) => fault == WitnessFault::Line(line),
    }
}

#[test]
fn other_texts(rt: HostRuntime) {
    let cases: [(&[u8], usize); 7] = [
        (b"air 0\n0 4\n4 3\nterminal 0", 4),
        (b"air 1\n0 4\n4 3\nterminal 0\n", 1),
        (b"air 0\n0 4\n4 03\nterminal 0\n", 3),
        (b"air 0\n0 4\n4\nterminal 0\n", 3),
        (b"air 0\n0 7\n", 2),
        (b"air 0\n0 4\n\nterminal 0\n", 3),
        (b"0 4\n", 1),
    ];
    for (text, line) in cases {
        holds(&rt, "at its line", is_refused(rt.alloc(), text, line));
    }
}

/// The status of a run of these words over this witness.
fn status_over(alloc: Global, words: &[&str], witness: &[u8]) -> Result<ExitCode, AllocError> {
    let mut given = Vec::new(alloc);
    for word in words {
        given.push(String::from_str(alloc, word)?)?;
    }
    let rows = NamedFile {
        name: Vec::from_slice(alloc, b"rows.csv")?,
        content: Some(Vec::from_slice(alloc, b"read,provide,uses\n3,4,1\n4,3,1\n")?),
    };
    let files = Vec::from_array(alloc, [rows])?;
    let (mut output, mut errors) = (Vec::new(alloc), Vec::new(alloc));
    let inputs = Inputs {
        text: TEXT,
        files: files.as_slice(),
        witness,
    };
    status_of(alloc, &given, inputs, &mut output, &mut errors)
}

/// Whether a run of these words over this witness ends with this status.
fn ends(alloc: Global, words: &[&str], witness: &[u8], status: u8) -> bool {
    match status_over(alloc, words, witness) {
        Ok(found) => found == ExitCode::from(status),
        Err(_) => false,
    }
}

// With beta 5 the denominator of the 3 is 5 + 5 - 3 = 0.
#[test]
fn commands(rt: HostRuntime) {
    let alloc = rt.alloc();
    let made = [
        "witness", "f", "--field", "f7", "--alpha", "5", "--beta", "2",
    ];
    holds(&rt, "made", ends(alloc, &made, b"", 0));
    let vanishing = [
        "witness", "f", "--field", "f7", "--alpha", "5", "--beta", "5",
    ];
    holds(&rt, "vanishing", ends(alloc, &vanishing, b"", 2));
    let any = ["any", "f", "--field", "f7", "--alpha", "5", "--beta", "2"];
    holds(&rt, "any", ends(alloc, &any, b"", 0));
    let none = ["any", "f", "--field", "f7", "--alpha", "5", "--beta", "7"];
    holds(&rt, "no challenge", ends(alloc, &none, b"", 2));
}

#[test]
fn acceptances(rt: HostRuntime) {
    let alloc = rt.alloc();
    let accept = [
        "accept",
        "f",
        "--field",
        "f7",
        "--alpha",
        "5",
        "--beta",
        "2",
        "--witness",
        "w",
    ];
    holds(&rt, "accepted", ends(alloc, &accept, WITNESS, 0));
    let wrong = b"air 0\n0 4\n4 2\nterminal 6\n";
    holds(&rt, "not accepted", ends(alloc, &accept, wrong, 1));
    holds(&rt, "no witness", ends(alloc, &accept, b"x\n", 2));
}

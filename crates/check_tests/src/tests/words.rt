//! The command line of `lookup-check`.
use super::holds;
use check_words::{Asked, BatchRequest, BitsRequest, ChallengeWords, Task, WordsRefusal, asked};
use std::alloc::{AllocError, Global};

/// The words of a line, between blanks.
fn words_of(alloc: Global, line: &str) -> Result<Vec<String>, AllocError> {
    let mut words = Vec::new(alloc);
    for word in line.split_whitespace() {
        words.push(String::from_str(alloc, word)?)?;
    }
    Ok(words)
}

fn asks(alloc: Global, line: &str, wanted: Asked<'_>) -> bool {
    let Ok(words) = words_of(alloc, line) else {
        return false;
    };
    match asked(alloc, FIELDS.as_slice(), words.as_slice()) {
        Ok(found) => found == wanted,
        Err(_) => false,
    }
}

/// Whether the line is refused, in these words at the front.
fn tells(alloc: Global, line: &str, front: &str) -> bool {
    let Ok(words) = words_of(alloc, line) else {
        return false;
    };
    match asked(alloc, FIELDS.as_slice(), words.as_slice()) {
        Err(WordsRefusal::Told(text)) => text.as_str().starts_with(front),
        _ => false,
    }
}

/// Whether the line gets help, with this line of usage.
fn helps(alloc: Global, line: &str, usage: &str) -> bool {
    let Ok(words) = words_of(alloc, line) else {
        return false;
    };
    match asked(alloc, FIELDS.as_slice(), words.as_slice()) {
        Err(WordsRefusal::Help(text)) => text.as_str().lines().any(|line| line == usage),
        _ => false,
    }
}

/// The names that `--field` takes.
static FIELDS: [&str; 4] = ["f7", "babybear4", "koalabear4", "goldilocks2"];

const BABY: &str = "babybear4";

const KOALA: &str = "koalabear4";

/// A request about a file, with no progress told.
fn quiet<'a>(file: &'a str, field: &'a str, task: Task<'a>) -> Asked<'a> {
    Asked::Batch(BatchRequest {
        file,
        field,
        progress: false,
        task,
    })
}

/// The same, with each step told.
fn told<'a>(file: &'a str, field: &'a str, task: Task<'a>) -> Asked<'a> {
    Asked::Batch(BatchRequest {
        file,
        field,
        progress: true,
        task,
    })
}

fn check(limit: usize, degree: usize, json: bool) -> Task<'static> {
    Task::Check {
        limit,
        degree,
        json,
        enforced: false,
    }
}

fn plan(degree: usize, json: bool, target: Option<u64>) -> Task<'static> {
    Task::Plan {
        degree,
        json,
        target,
        enforced: false,
    }
}

/// `check` and `plan` with their defaults, which ask whether all is enforced.
fn enforced_check() -> Task<'static> {
    Task::Check {
        limit: 4,
        degree: 3,
        json: false,
        enforced: true,
    }
}

fn enforced_plan() -> Task<'static> {
    Task::Plan {
        degree: 3,
        json: false,
        target: None,
        enforced: true,
    }
}

fn pack(degree: usize, json: bool) -> Task<'static> {
    Task::Pack { degree, json }
}

fn show(json: bool) -> Task<'static> {
    Task::Show { json }
}

fn at<'a>(alpha: &'a str, beta: &'a str) -> ChallengeWords<'a> {
    ChallengeWords { alpha, beta }
}

fn witness<'a>(challenges: ChallengeWords<'a>, out: Option<&'a str>) -> Task<'a> {
    Task::Witness { challenges, out }
}

fn accept<'a>(challenges: ChallengeWords<'a>, witness: &'a str) -> Task<'a> {
    Task::Accept {
        challenges,
        witness,
    }
}

fn any(challenges: ChallengeWords<'_>) -> Task<'_> {
    Task::Any { challenges }
}

/// Bits over the default field, as text and with no target.
fn bits(messages: u64, unbalanced: u64, width: u64) -> Asked<'static> {
    Asked::Bits(BitsRequest {
        field: BABY,
        messages,
        unbalanced,
        width,
        target: None,
        json: false,
    })
}

#[test]
fn requests_without_challenges(rt: HostRuntime) {
    let alloc = rt.alloc();
    let cases = [
        (
            "check a.lookups",
            quiet("a.lookups", BABY, check(4, 3, false)),
        ),
        (
            "check --field koalabear4 a --limit 10 --progress --degree 5 --json",
            told("a", KOALA, check(10, 5, true)),
        ),
        (
            "check --limit=0 --field=babybear4 -- -a",
            quiet("-a", BABY, check(0, 3, false)),
        ),
        (
            "check check --degree +7",
            quiet("check", BABY, check(4, 7, false)),
        ),
        ("plan a", quiet("a", BABY, plan(3, false, None))),
        (
            "plan a --degree 9 --field f7 --target 100 --json --progress",
            told("a", "f7", plan(9, true, Some(100))),
        ),
        (
            "plan a --target 18446744073709551615",
            quiet("a", BABY, plan(3, false, Some(18_446_744_073_709_551_615))),
        ),
        ("check --enforced a", quiet("a", BABY, enforced_check())),
        ("plan a --enforced", quiet("a", BABY, enforced_plan())),
        ("pack a --degree 4", quiet("a", BABY, pack(4, false))),
        (
            "pack --progress --degree=2 --json --field goldilocks2 b",
            told("b", "goldilocks2", pack(2, true)),
        ),
        ("show a", quiet("a", BABY, show(false))),
        (
            "show --json a --field koalabear4 --progress",
            told("a", KOALA, show(true)),
        ),
    ];
    for (line, wanted) in cases {
        holds(&rt, line, asks(alloc, line, wanted));
    }
}

#[test]
fn requests_at_challenges(rt: HostRuntime) {
    let alloc = rt.alloc();
    let cases = [
        (
            "witness a --alpha 1,2,3,4 --beta 5",
            quiet("a", BABY, witness(at("1,2,3,4", "5"), None)),
        ),
        (
            "witness --beta x --out w.json --alpha y a --progress --field f7",
            told("a", "f7", witness(at("y", "x"), Some("w.json"))),
        ),
        (
            "accept a --alpha=1 --beta=2 --witness w",
            quiet("a", BABY, accept(at("1", "2"), "w")),
        ),
        (
            "accept --witness=any a --field koalabear4 --progress --beta 0 --alpha 9",
            told("a", KOALA, accept(at("9", "0"), "any")),
        ),
        (
            "any a --alpha 1 --beta 2",
            quiet("a", BABY, any(at("1", "2"))),
        ),
        (
            "any --progress --alpha 7 --beta 8 --field goldilocks2 any",
            told("any", "goldilocks2", any(at("7", "8"))),
        ),
    ];
    for (line, wanted) in cases {
        holds(&rt, line, asks(alloc, line, wanted));
    }
}

#[test]
fn requests_of_bits(rt: HostRuntime) {
    let alloc = rt.alloc();
    let all = BitsRequest {
        field: KOALA,
        messages: 9,
        unbalanced: 8,
        width: 2,
        target: Some(80),
        json: true,
    };
    let cases = [
        ("bits --messages 20", bits(20, 20, 1)),
        (
            "bits --messages 20 --unbalanced 3 --width 4",
            bits(20, 3, 4),
        ),
        (
            "bits --width 18446744073709551615 --messages 0",
            bits(0, 0, 18_446_744_073_709_551_615),
        ),
        ("bits --messages 7 --unbalanced 7", bits(7, 7, 1)),
        ("bits --messages 7 --unbalanced 0", bits(7, 0, 1)),
        (
            "bits --json --target 80 --field koalabear4 --width 2 --unbalanced 8 --messages 9",
            Asked::Bits(all),
        ),
    ];
    for (line, wanted) in cases {
        holds(&rt, line, asks(alloc, line, wanted));
    }
}

#[test]
fn refusals(rt: HostRuntime) {
    let alloc = rt.alloc();
    let missing = "error: the following required arguments were not provided:\n  ";
    let cases = [
        (
            "",
            "Says whether the lookups of a batch balance over given traces\n",
        ),
        ("chek a", "error: unrecognized subcommand 'chek'\n"),
        ("--limit 4", "error: unexpected argument '--limit' found\n"),
        ("check", missing),
        ("pack a", missing),
        ("bits", missing),
        ("witness a --beta 1", missing),
        ("any a --alpha 1", missing),
        ("accept a --alpha 1 --beta 2", missing),
        ("check a b", "error: unexpected argument 'b' found\n"),
        (
            "show a --limit 1",
            "error: unexpected argument '--limit' found\n",
        ),
        (
            "bits --messages 1 --progress",
            "error: unexpected argument '--progress' found\n",
        ),
        (
            "check a --field babybear",
            "error: invalid value 'babybear' for '--field <NAME>'\n  \
            [possible values: f7, babybear4, koalabear4, goldilocks2]\n",
        ),
        (
            "bits --messages 1 --field 7",
            "error: invalid value '7' for '--field <NAME>'\n",
        ),
        (
            "check a --limit x",
            "error: invalid value 'x' for '--limit <N>': invalid digit found in string\n",
        ),
        (
            "plan a --target -1",
            "error: unexpected argument '-1' found\n",
        ),
        (
            "bits --messages 1 --target=1.5",
            "error: invalid value '1.5' for '--target <B>': invalid digit found in string\n",
        ),
        (
            "plan a --degree 18446744073709551616",
            "error: invalid value '18446744073709551616' for '--degree <D>': \
            number too large to fit in target type\n",
        ),
        (
            "check a --limit 1 --limit 2",
            "error: the argument '--limit <N>' cannot be used multiple times\n",
        ),
        (
            "plan a --degree",
            "error: a value is required for '--degree <D>' but none was supplied\n",
        ),
        (
            "any a --alpha 1 --beta",
            "error: a value is required for '--beta <B>' but none was supplied\n",
        ),
        (
            "bits --messages 4 --unbalanced 5",
            "error: '--unbalanced <K>' is above '--messages <N>'\n",
        ),
        (
            "bits --messages 4 --width 0",
            "error: invalid value '0' for '--width <W>': 0 is not in 1..",
        ),
    ];
    for (line, front) in cases {
        holds(&rt, line, tells(alloc, line, front));
    }
}

#[test]
fn help(rt: HostRuntime) {
    let alloc = rt.alloc();
    let cases = [
        ("--help", "Usage: lookup-check <COMMAND>"),
        ("-h", "Usage: lookup-check <COMMAND>"),
        ("help", "Usage: lookup-check <COMMAND>"),
        ("check --help", "Usage: lookup-check check [OPTIONS] <FILE>"),
        ("help plan", "Usage: lookup-check plan [OPTIONS] <FILE>"),
        (
            "pack -h",
            "Usage: lookup-check pack [OPTIONS] --degree <D> <FILE>",
        ),
        ("show a -h", "Usage: lookup-check show [OPTIONS] <FILE>"),
        (
            "witness -h",
            "Usage: lookup-check witness [OPTIONS] --alpha <A> --beta <B> <FILE>",
        ),
        (
            "help accept",
            "Usage: lookup-check accept [OPTIONS] --alpha <A> --beta <B> --witness <FILE> <FILE>",
        ),
        (
            "any --help",
            "Usage: lookup-check any [OPTIONS] --alpha <A> --beta <B> <FILE>",
        ),
        (
            "bits --help",
            "Usage: lookup-check bits [OPTIONS] --messages <N>",
        ),
    ];
    for (line, usage) in cases {
        holds(&rt, line, helps(alloc, line, usage));
    }
}

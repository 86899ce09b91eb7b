//! The bits that are left, as text.
ghost use Rattle.std.specs.Prelude.{◌≡◌, ◌++◌, OnOk, codes, decimal};
ghost use Rattle.check_page.specs.Shown.{in_threes};
ghost use Rattle.check_report.specs.Told.{target_line};

use check_judge::Deceiving;
use check_page::{Page, head, number_cell, word_cell};
use check_words::BitsRequest;
use field_list::FieldEntry;
use std::alloc::AllocError;

/// Appends how many bits are left, if there is something to be wrong about.
pub(crate) fn push_bits(
    page: &mut Page,
    field: FieldEntry,
    deceiving: Deceiving,
) -> Result<(), AllocError> {
    let Some(bits) = deceiving.bits_among(field.challenges) else {
        return Ok(());
    };
    page.word("    challenges in ")?;
    page.word(field.title)?;
    page.word(": ")?;
    page.grouped(u128::from(bits))?;
    page.word(" bits\n")
}

/// Appends whether a target is met, if there is one.
pub fn push_target(page: &mut Page, target: Option<u64>, is_met: bool) -> Result<(), AllocError>
    ensures { OnOk result (page.new.bytes.items ≡ page.old.bytes.items ++ target_line target is_met) }
{
    match (target, is_met) {
        (None, _) => page.word(""),
        (Some(wanted), true) => push_wanted(page, "  TARGET MET: ", wanted),
        (Some(wanted), false) => push_wanted(page, "  TARGET MISSED: ", wanted),
    }
}

/// Appends, behind these words, how many bits are wanted.
fn push_wanted(page: &mut Page, front: &str, wanted: u64) -> Result<(), AllocError>
    ensures { OnOk result (page.new.bytes.items ≡ page.old.bytes.items
        ++ (front.now ++ (in_threes (decimal wanted) ++ codes " bits are wanted\n"))) }
{
    page.word(front)?;
    page.grouped(u128::from(wanted))?;
    page.word(" bits are wanted\n")
}

/// Appends how many bits each of these fields leaves to so many messages.
pub fn push_bits_table(
    page: &mut Page,
    fields: &[FieldEntry],
    request: BitsRequest<'_>,
) -> Result<(), AllocError> {
    page.word("n = ")?;
    page.grouped(u128::from(request.messages))?;
    page.word(" distinct messages, k = ")?;
    page.grouped(u128::from(request.unbalanced))?;
    page.word(" of them unbalanced, widest tuple W = ")?;
    page.grouped(u128::from(request.width))?;
    page.word("\n")?;
    let deceiving = Deceiving::of_request(request);
    let Some(alphas) = deceiving.alphas else {
        return page.word("  all messages balance, so there is nothing to be wrong about\n");
    };
    page.word("  all but ")?;
    page.grouped(deceiving.betas)?;
    page.word(" betas leave at most ")?;
    page.grouped(alphas)?;
    page.word(" alphas at which any witness is accepted\n")?;
    let alloc = page.alloc();
    let mut lines = Vec::new(alloc);
    lines.push(head(alloc, &["challenges in", "bits"])?)?;
    for field in fields {
        let mut cells = Vec::new(alloc);
        cells.push(word_cell(alloc, field.title)?)?;
        let bits = deceiving.bits_among(field.challenges).unwrap_or(0);
        cells.push(number_cell(alloc, u128::from(bits))?)?;
        lines.push(cells)?;
    }
    page.table(&lines, &[false, true])
}

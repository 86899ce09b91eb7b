//! Answers as JSON, one object on one line. Numbers that may be past 2^53 are texts, but for rows and targets.
use air_constraints::RowKind;
use air_expressions::SymbolicExpression;
use check_judge::{
    AirReport, ConstraintFailure, Deceiving, EnforcedAir, EnforcedAirs, Excess, PlanJudgement,
    PlanReport, Report, airs_of, magnitude,
};
use check_page::{
    Lines, Page, Told, air_name, has_queries, is_constraint, is_lookup, lookup_at, message_at,
    told_places, trace_file,
};
use check_report::is_enforcement_told;
use check_words::BitsRequest;
use field::PrimeCharacteristicRing;
use field_list::{FieldEntry, TableField};
use language::{AirText, BatchText, ItemText, place_of};
use language_meaning::{NamedAir, bytes_of, constraints_over};
use lookup::Lookups;
use lookup::debug_util::{BusGroup, GroupName, Place, UnbalancedTuple};
use lookup_enforced::Missing;
use serde::Serialize;
use std::alloc::{AllocError, Global};

/// The version of these objects.
const FORMAT: u32 = 1;

/// `pack`.
#[derive(Drop, Serialize)]
struct AirsObject<'a> {
    format: u32,
    airs: Vec<AirObject<'a>>,
}

/// `plan`.
#[derive(Drop, Serialize)]
struct PlanObject<'a> {
    format: u32,
    field: &'static str,
    airs: Vec<AirObject<'a>>,
    height_sum: String,
    characteristic: String,
    ids: usize,
    widest: usize,
    heights: HeightsObject,
    #[serde(skip_serializing_if = "Option::is_none")]
    enforced: Option<bool>,
    target: Option<u64>,
    meets: Option<bool>,
}

/// `check`.
#[derive(Drop, Serialize)]
struct ReportObject<'a> {
    format: u32,
    field: &'static str,
    airs: Vec<AirObject<'a>>,
    height_sum: String,
    characteristic: String,
    ids: usize,
    widest: usize,
    heights: HeightsObject,
    traces: TracesObject,
    buses: Vec<BusObject<'a>>,
    balanced: bool,
    #[serde(skip_serializing_if = "Option::is_none")]
    constraints_hold: Option<bool>,
    #[serde(skip_serializing_if = "Option::is_none")]
    counts_within: Option<bool>,
    #[serde(skip_serializing_if = "Option::is_none")]
    enforced: Option<bool>,
}

/// `bits`.
#[derive(Drop, Serialize)]
struct BitsObject {
    format: u32,
    messages: String,
    unbalanced: String,
    width: String,
    bad_betas: Option<String>,
    accepting_alphas: Option<String>,
    fields: Vec<FieldObject>,
    target: Option<u64>,
    meets: Option<bool>,
}

/// An AIR. Its name is there if it is UTF-8.
#[derive(Drop, Serialize)]
struct AirObject<'a> {
    name: Option<&'a str>,
    rows: usize,
    columns: usize,
    weight: String,
    degrees: &'a [usize],
    packed_degrees: &'a [usize],
    packed_lookups: &'a [Vec<usize>],
    #[serde(skip_serializing_if = "Vec::is_empty")]
    constraints: Vec<ConstraintObject<'a>>,
    #[serde(skip_serializing_if = "Option::is_none")]
    enforced: Option<Vec<EnforcedObject>>,
    #[serde(skip_serializing_if = "Vec::is_empty")]
    counts_above: Vec<ExcessObject<'a>>,
}

/// What constraints enforce of a lookup: whether its flags are shown to be lawful, if it has any; whether its weight is
/// shown to be kept, if it has queries; a bound of each count, if one is shown; and what is not shown of the flags.
#[derive(Drop, Serialize)]
struct EnforcedObject {
    text_line: usize,
    flags: Option<bool>,
    weight: Option<bool>,
    bounds: Vec<Option<String>>,
    missing: Option<MissingObject>,
}

/// What is not shown of flags on rows of a kind: that this one is 0 or 1, or else that at most one is 1.
#[derive(Drop, Serialize)]
struct MissingObject {
    flag: Option<usize>,
    rows: &'static str,
}

/// A count that is above what `at most` says.
#[derive(Drop, Serialize)]
struct ExcessObject<'a> {
    lookup: usize,
    message: usize,
    row: usize,
    count: String,
    at_most: Option<String>,
    file: Option<&'a str>,
    file_line: u64,
    text_line: usize,
}

/// A constraint: its line, and where it fails, if that is the first place of its AIR at which one does.
#[derive(Drop, Serialize)]
struct ConstraintObject<'a> {
    text_line: usize,
    #[serde(skip_serializing_if = "Option::is_none")]
    failure: Option<FailureObject<'a>>,
}

/// A row on which a constraint is not zero, and its value there.
#[derive(Drop, Serialize)]
struct FailureObject<'a> {
    row: usize,
    value: String,
    file: Option<&'a str>,
    file_line: u64,
}

/// At how few challenges a batch is accepted, whatever traces of its heights are.
#[derive(Drop, Serialize)]
struct HeightsObject {
    most_messages: String,
    bad_betas: Option<String>,
    accepting_alphas: Option<String>,
    bits: Option<u32>,
}

/// The same of given traces.
#[derive(Drop, Serialize)]
struct TracesObject {
    messages: String,
    unbalanced: String,
    bad_betas: Option<String>,
    accepting_alphas: Option<String>,
    bits: Option<u32>,
}

/// A bus, or a local lookup of an AIR.
#[derive(Drop, Serialize)]
struct BusObject<'a> {
    name: Option<&'a str>,
    air: Option<usize>,
    lookup: Option<usize>,
    sent: usize,
    received: usize,
    distinct: usize,
    unbalanced: usize,
    first: Vec<TupleObject<'a>>,
}

/// A tuple that does not balance.
#[derive(Drop, Serialize)]
struct TupleObject<'a> {
    tuple: Vec<String>,
    net: String,
    place_count: usize,
    places: Vec<PlaceObject<'a>>,
}

/// A place that sends or receives it.
#[derive(Drop, Serialize)]
struct PlaceObject<'a> {
    air: usize,
    lookup: usize,
    row: usize,
    count: String,
    file: Option<&'a str>,
    file_line: u64,
    text_line: usize,
}

/// The bits that a field leaves.
#[derive(Drop, Serialize)]
struct FieldObject {
    field: &'static str,
    bits: Option<u32>,
}

/// An AIR as JSON has it: its name, if that is UTF-8, its lookups and its constraints.
#[derive(Drop, Serialize)]
struct ShownAir<'a, F> {
    name: Option<&'a str>,
    lookups: &'a Lookups<F>,
    #[serde(skip_serializing_if = "Vec::is_empty")]
    constraints: Vec<SymbolicExpression<F>>,
}

/// Appends an object on a line of its own.
fn push_object<T: Serialize>(page: &mut Page, object: &T) -> Result<(), AllocError> {
    match serde_json::to_string(page.alloc(), object) {
        Ok(json) => page.word(json.as_str())?,
        Err(_) => return Err(AllocError),
    }
    page.word("\n")
}

/// Appends the lookups and the constraints of each AIR in the library's own form, as JSON on one line.
pub fn push_lookups_json<F: PrimeCharacteristicRing + Serialize>(
    page: &mut Page,
    text: &[u8],
    batch: &BatchText,
    named: &[NamedAir],
    sets: &[Lookups<F>],
) -> Result<(), AllocError> {
    let said = airs_of(page.alloc(), batch)?;
    let mut airs = Vec::new(page.alloc());
    for ((air, named), lookups) in said.iter().zip(named).zip(sets) {
        let name = str::from_utf8(bytes_of(text, air.name)).ok();
        airs.push(ShownAir {
            name,
            lookups,
            constraints: constraints_over(page.alloc(), &named.constraints)?,
        })?;
    }
    push_object(page, &airs)
}

/// Appends the answer to `pack`.
pub fn push_airs_json(
    page: &mut Page,
    told: Told<'_>,
    airs: &[AirReport],
) -> Result<(), AllocError> {
    let object = AirsObject {
        format: FORMAT,
        airs: air_objects(page.alloc(), told, airs, &[])?,
    };
    push_object(page, &object)
}

/// Appends the answer to `plan`, with a target and whether it is met.
pub fn push_plan_json(
    page: &mut Page,
    told: Told<'_>,
    judged: &PlanJudgement,
    target: Option<u64>,
    is_met: bool,
) -> Result<(), AllocError> {
    let alloc = page.alloc();
    let PlanJudgement { report, enforced } = judged;
    let object = PlanObject {
        format: FORMAT,
        field: told.field.name,
        airs: air_objects(alloc, told, &report.airs, &enforced.airs)?,
        height_sum: decimal(alloc, report.height_sum)?,
        characteristic: decimal(alloc, report.characteristic)?,
        ids: report.ids,
        widest: report.widest,
        heights: heights_object(alloc, told.field, report)?,
        enforced: enforced_member(told, enforced),
        target,
        meets: target.map(|_| is_met),
    };
    push_object(page, &object)
}

/// Appends the answer to `check`.
pub fn push_report_json<F: TableField>(
    page: &mut Page,
    told: Told<'_>,
    report: &Report<F>,
) -> Result<(), AllocError> {
    let alloc = page.alloc();
    let plan = &report.plan;
    let mut buses = Vec::new(alloc);
    for group in &report.groups {
        buses.push(bus_object(alloc, told, group)?)?;
    }
    let mut airs = air_objects(alloc, told, &plan.airs, &report.enforced.airs)?;
    let mut has_constraints = false;
    for (index, (air, failure)) in airs.iter_mut().zip(&report.failures).enumerate() {
        has_constraints = has_constraints || !air.constraints.is_empty();
        if let Some(failure) = failure {
            if let Some(constraint) = air.constraints.get_mut(failure.constraint) {
                constraint.failure = Some(failure_object(alloc, told, index, *failure)?);
            }
        }
    }
    let mut lines = Lines::of(told.text);
    for ((air, found), said) in airs.iter_mut().zip(&report.excesses).zip(told.airs) {
        air.counts_above = excess_objects(alloc, told, said, found, &mut lines)?;
    }
    let object = ReportObject {
        format: FORMAT,
        field: told.field.name,
        airs,
        height_sum: decimal(alloc, plan.height_sum)?,
        characteristic: decimal(alloc, plan.characteristic)?,
        ids: plan.ids,
        widest: plan.widest,
        heights: heights_object(alloc, told.field, plan)?,
        traces: traces_object(alloc, told.field, report)?,
        buses,
        balanced: report.balanced,
        constraints_hold: if has_constraints {
            Some(report.hold)
        } else {
            None
        },
        counts_within: if has_at_most(told.airs) {
            Some(report.within)
        } else {
            None
        },
        enforced: enforced_member(told, &report.enforced),
    };
    push_object(page, &object)
}

/// Appends the answer to `bits`.
pub fn push_bits_json(
    page: &mut Page,
    entries: &[FieldEntry],
    request: BitsRequest<'_>,
    is_met: bool,
) -> Result<(), AllocError> {
    let alloc = page.alloc();
    let deceiving = Deceiving::of_request(request);
    let mut fields = Vec::new(alloc);
    for entry in entries {
        fields.push(FieldObject {
            field: entry.name,
            bits: deceiving.bits_among(entry.challenges),
        })?;
    }
    let (bad_betas, accepting_alphas) = bounds(alloc, deceiving)?;
    let object = BitsObject {
        format: FORMAT,
        messages: decimal(alloc, u128::from(request.messages))?,
        unbalanced: decimal(alloc, u128::from(request.unbalanced))?,
        width: decimal(alloc, u128::from(request.width))?,
        bad_betas,
        accepting_alphas,
        fields,
        target: request.target,
        meets: request.target.map(|_| is_met),
    };
    push_object(page, &object)
}

/// The AIRs; what is enforced of each is told if it is here.
fn air_objects<'a>(
    alloc: Global,
    told: Told<'a>,
    airs: &'a [AirReport],
    enforced: &[EnforcedAir],
) -> Result<Vec<AirObject<'a>>, AllocError> {
    let mut objects = Vec::new(alloc);
    let mut lines = Lines::of(told.text);
    let mut lookup_lines = Lines::of(told.text);
    let is_told = is_enforcement_told(told);
    for (index, air) in airs.iter().enumerate() {
        objects.push(AirObject {
            name: str::from_utf8(air_name(told, index)).ok(),
            rows: air.rows,
            columns: air.columns,
            weight: decimal(alloc, air.weight)?,
            degrees: air.degrees.as_slice(),
            packed_degrees: air.packed.as_slice(),
            packed_lookups: air.packed_lookups.as_slice(),
            constraints: constraint_objects(alloc, told, index, &mut lines)?,
            enforced: match (enforced.get(index), told.airs.get(index)) {
                (Some(shown), Some(said)) if is_told => {
                    Some(enforced_objects(alloc, said, shown, &mut lookup_lines)?)
                }
                _ => None,
            },
            counts_above: Vec::new(alloc),
        })?;
    }
    Ok(objects)
}

/// Whether all flags and weights are shown to be enforced, if it is told what constraints enforce.
fn enforced_member(told: Told<'_>, enforced: &EnforcedAirs) -> Option<bool> {
    if is_enforcement_told(told) {
        Some(enforced.all)
    } else {
        None
    }
}

/// What constraints enforce of each lookup of an AIR.
fn enforced_objects(
    alloc: Global,
    said: &AirText,
    shown: &EnforcedAir,
    lines: &mut Lines<'_>,
) -> Result<Vec<EnforcedObject>, AllocError> {
    let mut objects = Vec::new(alloc);
    let items = said.items.iter().filter(|item| is_lookup(&item.item));
    for ((lookup, kept), item) in shown.lookups.iter().zip(&shown.weights).zip(items) {
        let mut bounds = Vec::new(alloc);
        for bound in &lookup.bounds {
            bounds.push(match bound {
                Some(bound) => Some(decimal(alloc, u128::from(*bound))?),
                None => None,
            })?;
        }
        objects.push(EnforcedObject {
            text_line: lines.line_of(item.at),
            flags: match &item.item {
                ItemText::Exclusive(_) => Some(lookup.flags),
                _ => None,
            },
            weight: if has_queries(&item.item) {
                Some(*kept)
            } else {
                None
            },
            bounds,
            missing: lookup.missing.map(missing_object),
        })?;
    }
    Ok(objects)
}

fn missing_object(missing: Missing) -> MissingObject {
    match missing {
        Missing::Flag { flag, kind } => MissingObject {
            flag: Some(flag),
            rows: rows_of(kind),
        },
        Missing::Exclusive { kind } => MissingObject {
            flag: None,
            rows: rows_of(kind),
        },
    }
}

/// Rows of a kind, in a word.
fn rows_of(kind: RowKind) -> &'static str {
    match (kind.is_first, kind.is_last) {
        (true, true) => "only",
        (true, false) => "first",
        (false, true) => "last",
        (false, false) => "between",
    }
}

/// The counts of an AIR that are above what `at most` says, lookup by lookup.
fn excess_objects<'a, F: TableField>(
    alloc: Global,
    told: Told<'a>,
    said: &'a AirText,
    found: &[Option<Excess<F>>],
    lines: &mut Lines<'_>,
) -> Result<Vec<ExcessObject<'a>>, AllocError> {
    let mut objects = Vec::new(alloc);
    let items = said.items.iter().filter(|item| is_lookup(&item.item));
    for (lookup, (excess, item)) in found.iter().zip(items).enumerate() {
        let Some(excess) = excess else {
            continue;
        };
        let (mut at_most, mut text_line) = (None, 0);
        if let Some(message) = message_at(&item.item, excess.message) {
            text_line = lines.line_of(message.at);
            if let Some(most) = message.at_most {
                at_most = Some(decimal(alloc, u128::from(most))?);
            }
        }
        objects.push(ExcessObject {
            lookup,
            message: excess.message,
            row: excess.row,
            count: signed(alloc, excess.count)?,
            at_most,
            file: trace_name(told, said),
            file_line: (excess.row as u64).saturating_add(2),
            text_line,
        })?;
    }
    Ok(objects)
}

/// The file of the main trace of an AIR, if its name is UTF-8.
fn trace_name<'a>(told: Told<'a>, said: &AirText) -> Option<&'a str> {
    let name = trace_file(said, false)?;
    str::from_utf8(bytes_of(told.text, name)).ok()
}

/// Whether `at most` is said of a message of some AIR.
fn has_at_most(airs: &[&AirText]) -> bool {
    airs.iter().any(|air| {
        air.items.iter().any(|item| match &item.item {
            ItemText::Message(message) => message.at_most.is_some(),
            ItemText::Together(parts) | ItemText::Exclusive(parts) => {
                parts.iter().any(|part| part.message.at_most.is_some())
            }
            _ => false,
        })
    })
}

/// The constraints of the AIR with this number, of none of which it is known where it fails.
fn constraint_objects<'a>(
    alloc: Global,
    told: Told<'a>,
    air: usize,
    lines: &mut Lines<'_>,
) -> Result<Vec<ConstraintObject<'a>>, AllocError> {
    let mut objects = Vec::new(alloc);
    if let Some(said) = told.airs.get(air) {
        for item in &said.items {
            if is_constraint(&item.item) {
                objects.push(ConstraintObject {
                    text_line: lines.line_of(item.at),
                    failure: None,
                })?;
            }
        }
    }
    Ok(objects)
}

fn failure_object<'a, F: TableField>(
    alloc: Global,
    told: Told<'a>,
    air: usize,
    failure: ConstraintFailure<F>,
) -> Result<FailureObject<'a>, AllocError> {
    let file = match told.airs.get(air) {
        Some(said) => trace_name(told, said),
        None => None,
    };
    Ok(FailureObject {
        row: failure.row,
        value: signed(alloc, failure.value)?,
        file,
        file_line: (failure.row as u64).saturating_add(2),
    })
}

fn heights_object(
    alloc: Global,
    field: FieldEntry,
    report: &PlanReport,
) -> Result<HeightsObject, AllocError> {
    let deceiving = report.for_all_traces();
    let (bad_betas, accepting_alphas) = bounds(alloc, deceiving)?;
    Ok(HeightsObject {
        most_messages: decimal(alloc, report.heights.most_messages)?,
        bad_betas,
        accepting_alphas,
        bits: deceiving.bits_among(field.challenges),
    })
}

fn traces_object<F>(
    alloc: Global,
    field: FieldEntry,
    report: &Report<F>,
) -> Result<TracesObject, AllocError> {
    let deceiving = report.for_these_traces();
    let (bad_betas, accepting_alphas) = bounds(alloc, deceiving)?;
    Ok(TracesObject {
        messages: decimal(alloc, report.counts.messages)?,
        unbalanced: decimal(alloc, report.counts.unbalanced)?,
        bad_betas,
        accepting_alphas,
        bits: deceiving.bits_among(field.challenges),
    })
}

/// The bad betas and the accepting alphas as texts, or none if there is nothing to be wrong about.
fn bounds(
    alloc: Global,
    deceiving: Deceiving,
) -> Result<(Option<String>, Option<String>), AllocError> {
    match deceiving.alphas {
        Some(alphas) => {
            let betas = decimal(alloc, deceiving.betas)?;
            Ok((Some(betas), Some(decimal(alloc, alphas)?)))
        }
        None => Ok((None, None)),
    }
}

fn bus_object<'a, F: TableField>(
    alloc: Global,
    told: Told<'a>,
    group: &'a BusGroup<F>,
) -> Result<BusObject<'a>, AllocError> {
    let (name, air, lookup) = match &group.name {
        GroupName::Bus(name) => (Some(name.as_str()), None, None),
        GroupName::Local { instance, lookup } => (None, Some(*instance), Some(*lookup)),
    };
    let mut first = Vec::new(alloc);
    for tuple in group.first.iter().take(told.limit) {
        first.push(tuple_object(alloc, told, tuple)?)?;
    }
    Ok(BusObject {
        name,
        air,
        lookup,
        sent: group.sent,
        received: group.received,
        distinct: group.distinct,
        unbalanced: group.unbalanced,
        first,
    })
}

fn tuple_object<'a, F: TableField>(
    alloc: Global,
    told: Told<'a>,
    unbalanced: &UnbalancedTuple<F>,
) -> Result<TupleObject<'a>, AllocError> {
    let mut tuple = Vec::new(alloc);
    for value in &unbalanced.tuple {
        tuple.push(decimal(alloc, u128::from(value.as_number()))?)?;
    }
    let mut places = Vec::new(alloc);
    for place in &told_places(alloc, &unbalanced.places, told.limit)? {
        places.push(place_object(alloc, told, place)?)?;
    }
    Ok(TupleObject {
        tuple,
        net: signed(alloc, unbalanced.net)?,
        place_count: unbalanced.place_count,
        places,
    })
}

fn place_object<'a, F: TableField>(
    alloc: Global,
    told: Told<'a>,
    place: &Place<F>,
) -> Result<PlaceObject<'a>, AllocError> {
    let location = place.location;
    let (mut file, mut text_line) = (None, 0);
    if let Some(air) = told.airs.get(location.instance) {
        file = trace_name(told, air);
        if let Some(item) = lookup_at(air, location.lookup) {
            text_line = place_of(told.text, item.at).line;
        }
    }
    Ok(PlaceObject {
        air: location.instance,
        lookup: location.lookup,
        row: location.row,
        count: signed(alloc, place.count)?,
        file,
        file_line: (location.row as u64).saturating_add(2),
        text_line,
    })
}

/// A number as text.
fn decimal(alloc: Global, number: u128) -> Result<String, AllocError> {
    format!(in alloc; "{number}")
}

/// An element as text, with a sign where it is negative.
fn signed<F: TableField>(alloc: Global, element: F) -> Result<String, AllocError> {
    let sign = if element.is_negative() { "-" } else { "" };
    let size = magnitude(element);
    format!(in alloc; "{sign}{size}")
}

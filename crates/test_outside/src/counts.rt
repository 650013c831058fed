// Counts, to which the lines `add MEASURE NUMBER` add.
use crate::input::{halves, number};
use md_base::{Counts, Measure};
use std::alloc::AllocError;
use test_cases::Case;

/// Each measure by its name.
const MEASURES: [(&str, Measure); 7] = [
    ("calls", Measure::Calls),
    ("exits", Measure::Exits),
    ("fails", Measure::Fails),
    ("redos", Measure::Redos),
    ("allocs", Measure::Allocs),
    ("words", Measure::Words),
    ("excps", Measure::Excps),
];

/// All counts after the lines.
pub fn show(case: &Case, found: &mut String) -> Result<(), AllocError> {
    let counts = counts_of(case);
    for (name, measure) in MEASURES {
        let count = counts.of(measure);
        writeln!(found, "{name} {count}")?;
    }
    Ok(())
}

fn counts_of(case: &Case) -> Counts {
    let mut counts = Counts::default();
    for field in case.fields() {
        if field.key.as_str() == "add" {
            add(&mut counts, field.text.as_str());
        }
    }
    counts
}

fn add(counts: &mut Counts, text: &str) {
    let (name, by) = halves(text);
    let by = u32::try_from(number(by)).unwrap_or(u32::MAX);
    for (known, measure) in MEASURES {
        if known == name {
            counts.add(measure, by);
        }
    }
}

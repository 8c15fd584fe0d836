//! Checks the sheets of a sample survey: which fields are outside their domains, which edits fail.
#![tactic(auto)]

use book::mask::has_field;
use book::refusal::Refusal;
use book::{Book, MOST_EDITS};
use sets::codes::Codes;
use sets::{EMPTY_ANSWER, ValueSet, run_of};
use std::fmt;

#[derive(Clone, Copy)]
struct Field {
    name: &'static str,
    weight: u8,
}

const FIELDS: [Field; 3] = [
    Field {
        name: "years",
        weight: 3,
    },
    Field {
        name: "role",
        weight: 1,
    },
    Field {
        name: "wage",
        weight: 2,
    },
];

const SHEETS: [[u32; 3]; 6] = [
    [1, 1, 2],
    [0, 2, 1],
    [0, 1, 1],
    [1, EMPTY_ANSWER, 1],
    [0, 1, 7],
    [0, 0, 0],
];

// The domains of the three fields, and the two edits: years 0 with role 1-2, and role 0 or 2 with
// wage 1. A field that an edit does not name gets its domain.
fn sample_sets() -> Result<[Codes; 9], Refusal> {
    let years = run_of(0, 1)?;
    let role = run_of(0, 2)?;
    let wage = run_of(0, 2)?;
    let mut outer_roles = Codes::empty();
    run_of::<Codes>(0, 0)?.join(&run_of(2, 2)?, &mut outer_roles)?;
    Ok([
        years,
        role,
        wage,
        run_of(0, 0)?,
        run_of(1, 2)?,
        wage,
        years,
        outer_roles,
        run_of(1, 1)?,
    ])
}

/// The values of a sheet, as they were answered.
#[derive(Clone, Copy)]
struct Sheet<'a>(&'a [u32]);

impl fmt::Display for Sheet<'_> {
    // An empty answer as a dash.
    fn fmt<W: fmt::Write>(&self, f: &mut fmt::Formatter<W>) -> fmt::Result {
        let mut separator = "";
        for value in self.0 {
            match *value {
                EMPTY_ANSWER => write!(f, "{separator}-")?,
                value => write!(f, "{separator}{value}")?,
            }
            separator = " ";
        }
        Ok(())
    }
}

/// What is wrong with a sheet.
#[derive(Drop)]
struct Findings {
    outside: u32,
    failed: [bool; MOST_EDITS],
}

impl Findings {
    fn of(book: &Book<Codes>, values: &[u32]) -> Result<Findings, Refusal> {
        Ok(Findings {
            outside: book.outside_domains(values)?,
            failed: book.failed_edits(values)?,
        })
    }

    fn is_empty(&self) -> bool {
        self.outside == 0 && !self.failed.contains(&true)
    }
}

impl fmt::Display for Findings {
    // Parted by semicolons; of a sheet with none, that it is sound.
    fn fmt<W: fmt::Write>(&self, f: &mut fmt::Formatter<W>) -> fmt::Result {
        if self.is_empty() {
            return f.write_str("sound");
        }
        let mut separator = "";
        for (i, field) in FIELDS.iter().enumerate() {
            if has_field(self.outside, i) {
                let name = field.name;
                write!(f, "{separator}{name} is outside its domain")?;
                separator = "; ";
            }
        }
        for (number, fails) in (1..=MOST_EDITS).zip(&self.failed) {
            if *fails {
                write!(f, "{separator}fails edit {number}")?;
                separator = "; ";
            }
        }
        Ok(())
    }
}

fn main(rt: HostRuntime) -> anyhow::Result<()> {
    let sets = sample_sets()?;
    let book = Book {
        n: 3,
        m: 2,
        sets: &sets,
        weights: &FIELDS.map(|field| field.weight),
    };
    for (number, values) in (1..=SHEETS.len()).zip(&SHEETS) {
        let sheet = Sheet(values);
        let findings = Findings::of(&book, values)?;
        println!(rt; "sheet {number}\t{sheet}\t{findings}")?;
    }
    Ok(())
}
